//! The lines of a reply that show the sites of an answer.
ghost use Rattle.std.specs.Prelude.{◌≡◌, ◌++◌, ◌∷◌, [], All, IfOk, OnOk, codes, string_bytes};
ghost use Rattle.std.specs.Fmt.{decimal};
ghost use Rattle.link_sites.specs.Sites.{IsSite};
ghost use Rattle.spds_rules.specs.Answers.{IsAnswered};
ghost use Rattle.spds_rules.specs.Demand.{about};
ghost use Rattle.cert_rules.specs.Spelled.{FitsNode};
ghost use Rattle.cert_trace.specs.Explained.{IsExplained};
ghost use Rattle.cert_trace.specs.Evidence.{IsEvidence};
ghost use Rattle.report_text.specs.Answers.{IsQueryNode};
ghost use Rattle.report_text.specs.Lines.{AddsLines, text_of};
ghost use Rattle.explain_text.specs.Explanations.{AreExplanations, IsExplainText, IsExplanation};

use cert_make::field_length;
use cert_rules::Certificate;
use cert_text::push_certificate;
use cert_trace::Evidence;
use link_program::Linked;
use link_sites::Site;
use lists::NoMemory;
use report_text::{push_counts, push_query_line, push_site_line};
use spds_rules::Node;
use std::alloc::Global;

// Adds the line with the number of rules of a certificate's field derivation, and that with the number of its lines.
fn push_sizes(text: &mut String, rules: u32, lines: usize) -> Result<(), NoMemory>
    ensures { OnOk result (string_bytes text.new
        ≡ string_bytes text.old ++ text_of ((codes "length " ++ decimal rules) ∷ (codes "certificate " ++ decimal lines) ∷ [])) }
{
    write!(text, "length {rules}\ncertificate {lines}\n")
}

// Adds the lines of a site that a certificate shows.
fn push_shown(
    alloc: Global,
    text: &mut String,
    linked: &Linked,
    site: Site,
    certificate: &Certificate,
) -> Result<(), NoMemory>
    requires site { IsSite linked.now site }
    requires fits { FitsNode certificate.now.target }
    requires shown { IsExplained linked.now certificate.now.target site certificate.now }
    ensures { OnOk result (AddsLines (IsExplanation linked.now certificate.now.target site) (string_bytes text.old) (string_bytes text.new)) }
{
    let rules = field_length(alloc, certificate)?;
    let lines = certificate.lines.as_slice().len();
    push_site_line(text, linked, "site ", site)?;
    push_sizes(text, rules, lines)?;
    push_certificate(text, certificate)
}

// Adds the lines of a site of the target's answer.
fn push_explanation(
    alloc: Global,
    text: &mut String,
    linked: &Linked,
    evidence: &Evidence,
    target: Node,
    site: Site,
) -> Result<(), NoMemory>
    requires site { IsSite linked.now site }
    requires evidence { IsEvidence linked.now target evidence.now }
    requires answered { IsAnswered linked.now (about target) target site }
    ensures { OnOk result (AddsLines (IsExplanation linked.now target site) (string_bytes text.old) (string_bytes text.new)) }
{
    let certificate = evidence.certificate(alloc, site)?;
    push_shown(alloc, text, linked, site, &certificate)
}

// Adds the lines of sites of the target's answer, one after another. One certificate is held at a time.
fn push_explanations(
    alloc: Global,
    text: &mut String,
    linked: &Linked,
    evidence: &Evidence,
    target: Node,
    sites: &[Site],
) -> Result<(), NoMemory>
    requires sites { All (IsSite linked.now) sites.now }
    requires evidence { IsEvidence linked.now target evidence.now }
    requires answered { All (IsAnswered linked.now (about target) target) sites.now }
    ensures { OnOk result (AddsLines (AreExplanations linked.now target sites.now) (string_bytes text.old) (string_bytes text.new)) }
{
    for site in sites {
        push_explanation(alloc, text, linked, evidence, target, *site)?;
    }
    Ok(())
}

/// The reply that answers which sites a local may hold just before a statement, and shows it: `explain PLACE LOCAL`; for each site in the given order
/// `site S`, `length` with the number of rules of its shortest field derivation, `certificate` with the number of lines behind the first of its
/// certificate, and the certificate; `sites` with the number of sites and `demanded` with the given size of the demand. Each line ends with a line feed.
pub(crate) fn explain_text(
    alloc: Global,
    linked: &Linked,
    evidence: &Evidence,
    target: Node,
    sites: &[Site],
    demanded: u32,
) -> Result<Vec<u8>, NoMemory>
    requires target { IsQueryNode linked.now target }
    requires sites { All (IsSite linked.now) sites.now }
    requires evidence { IsEvidence linked.now target evidence.now }
    requires answered { All (IsAnswered linked.now (about target) target) sites.now }
    ensures { IfOk result (λ text. IsExplainText linked.now target sites.now demanded text.items) }
{
    let mut text = String::new(alloc);
    push_query_line(&mut text, linked, "explain", target)?;
    push_explanations(alloc, &mut text, linked, evidence, target, sites)?;
    push_counts(&mut text, sites.len(), demanded)?;
    Ok(text.into_bytes())
}
