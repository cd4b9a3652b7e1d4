//! A text as a certificate.
ghost use Rattle.std.specs.Prelude.{◌≡◌, ◌↔◌, ◌+◌, ◌^◌, ◌<◌, ℕ, List as Items, Err, Some, IfOk, MatchResult, length};
ghost use Rattle.lists.specs.Lists.{Each};
ghost use Rattle.spds_rules.specs.declared.node.Node.{Node as AnyNode};
ghost use Rattle.cert_rules.specs.declared.certificate.Certificate.{Certificate as AnyCertificate};
ghost use Rattle.cert_rules.specs.declared.line.Line.{Line as AnyLine};
ghost use Rattle.cert_rules.specs.Spelled.{AreLines, IsFirstBadLine, SpellsCertificate, SpellsLine, SpellsTarget};
ghost use Rattle.cert_text.specs.Words.{IsFirstUnread, texts};

use super::cuts::{cut, parts};
use super::error::CertError;
use super::lines::line;
use super::nodes::node;
use cert_rules::{Certificate, Line};
use jim_ast::List;
use lists::NoMemory;
use spds_rules::Node;
use std::alloc::Global;

// The lines of a text. What stands behind the last line feed is one where there is something.
fn lines_of(alloc: Global, bytes: &[u8]) -> Result<Vec<&[u8]>, NoMemory>
    ensures { IfOk result (λ lines. AreLines bytes.now (texts lines.items)) }
{
    let mut lines = parts(alloc, bytes, b'\n')?;
    let Some(last) = lines.pop() else {
        return Ok(lines);
    };
    if !last.is_empty() {
        lines.push(last)?;
    }
    Ok(lines)
}

// The node that the first line names.
fn target(line: &[u8]) -> Option<Node>
    ensures { (n : AnyNode) → (result ≡ Some n) ↔ SpellsTarget line.now n }
{
    let (head, node_word) = cut(line, b' ')?;
    if head == b"query".as_slice() {
        node(node_word)
    } else {
        None
    }
}

// The lines behind the first. The error names the first that isn't one of a certificate.
fn lines(alloc: Global, others: &[&[u8]]) -> Result<Vec<Line>, CertError>
    requires { length others.now + 1 < 2 ^ 32 }
    ensures ok { IfOk result (λ lines. Each SpellsLine (texts others.now) lines.items) }
    ensures only { (lines : Items AnyLine) → Each SpellsLine (texts others.now) lines → MatchResult result (λ found. found.items ≡ lines) (λ e. e ≡ CertError.NoMemory) }
    ensures bad { (at : ℕ) → result ≡ Err (CertError.NotCertificate at) → IsFirstUnread (texts others.now) at }
{
    let mut lines = Vec::new(alloc);
    for (index, text) in others.iter().enumerate() {
        let Some(line) = line(alloc, text)? else {
            return Err(CertError::NotCertificate {
                at: index as u32 + 1,
            });
        };
        lines.push(line)?;
    }
    Ok(lines)
}

/// The certificate that a text spells: a line `query NODE`, and then the lines of the certificate, each read as the table of certificates spells it. A line
/// feed ends each line, but for the last, which may lack it. The error is `NotCertificate` exactly where the text spells none, and names the first line,
/// from 0, that isn't one of a certificate. Costs time and memory for each byte.
///
/// There is room for 4,294,967,294 lines behind the first; more is want of memory.
pub fn read_cert(alloc: Global, bytes: &[u8]) -> Result<Certificate, CertError>
    ensures ok { IfOk result (SpellsCertificate bytes.now) }
    ensures few { IfOk result (λ found. length found.lines + 1 < 2 ^ 32) }
    ensures only { (c : AnyCertificate) → SpellsCertificate bytes.now c → MatchResult result (λ found. found ≡ c) (λ e. e ≡ CertError.NoMemory) }
    ensures bad { (at : ℕ) → result ≡ Err (CertError.NotCertificate at) → IsFirstBadLine bytes.now at }
{
    let texts = lines_of(alloc, bytes)?;
    if texts.len() > u32::MAX as usize {
        return Err(CertError::NoMemory);
    }
    let Some(first) = texts.first() else {
        return Err(CertError::NotCertificate { at: 0 });
    };
    let Some(target) = target(first) else {
        return Err(CertError::NotCertificate { at: 0 });
    };
    let lines = lines(alloc, &texts[1..])?;
    Ok(Certificate {
        target,
        lines: List::from_vec(lines),
    })
}
