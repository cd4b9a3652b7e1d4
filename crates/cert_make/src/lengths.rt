//! How long the field derivation is that a certificate writes down.
ghost use Rattle.std.specs.Prelude.{◌≡◌, ℕ, IfOk, List, map};
ghost use Rattle.cert_rules.specs.Lengths.{HasLength, cited_length, length_by, lengths_of};
ghost use Rattle.cert_rules.specs.Told.{as_told};

use cert_rules::{Certificate, Line, Side};
use lists::NoMemory;
use std::alloc::Global;

// The length with the number, from 1; 0 where there is none.
fn by_number(lengths: &[u32], number: u32) -> u32
    ensures { result ≡ cited_length lengths.now number }
{
    if number > 0 && number as usize <= lengths.len() {
        lengths[number as usize - 1]
    } else {
        0
    }
}

// The length of a line behind lines of these lengths, as far as 32 bits tell.
fn length_behind(lengths: &[u32], line: &Line) -> u32
    ensures { (before : List ℕ) → lengths.now ≡ map as_told before → result ≡ as_told (length_by before line.now) }
{
    match line {
        Line::Flow {
            side: Side::Field,
            from,
            ..
        }
        | Line::LinkField { from, .. } => by_number(lengths, *from).saturating_add(1),
        Line::Pop {
            side: Side::Field,
            from,
            link,
            ..
        } => by_number(lengths, *from)
            .saturating_add(by_number(lengths, *link))
            .saturating_add(1),
        _ => 0,
    }
}

// The lengths of lines, one after another, as far as 32 bits tell.
fn lengths_told(alloc: Global, lines: &[Line]) -> Result<Vec<u32>, NoMemory>
    ensures { IfOk result (λ lengths. lengths.items ≡ map as_told (lengths_of lines.now)) }
{
    let mut lengths = Vec::new(alloc);
    for line in lines {
        let length = length_behind(lengths.as_slice(), line);
        lengths.push(length)?;
    }
    Ok(lengths)
}

/// How many rules the field derivation has that a certificate writes down; 2 ^ 32 - 1 where it has more, and 0 where the certificate ends in no claim.
pub fn field_length(alloc: Global, certificate: &Certificate) -> Result<u32, NoMemory>
    ensures { IfOk result (λ told. (length : ℕ) → HasLength certificate.now.lines length → told ≡ as_told length) }
{
    let lines = certificate.lines.as_slice();
    let Some(Line::Claim { field, .. }) = lines.last() else {
        return Ok(0);
    };
    let lengths = lengths_told(alloc, lines)?;
    Ok(by_number(lengths.as_slice(), *field))
}
