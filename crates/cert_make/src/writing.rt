//! A certificate from lines of which it needs some.
ghost use Rattle.std.specs.Prelude.{◌≡◌, ◌++◌, ◌∷◌, ◌+◌, ◌<◌, ◌≤◌, ◌^◌, ℕ, [], All, IfOk, OnOk, length};
ghost use Rattle.lists.specs.Lists.{Has, IsApart};
ghost use Rattle.link_sites.specs.declared.site.Site.{Site as AnySite};
ghost use Rattle.link_rules.specs.Linked.{LinkedProgram};
ghost use Rattle.spds_rules.specs.declared.node.Node.{Node as AnyNode};
ghost use Rattle.cert_rules.specs.declared.line.Line.TheVariants.{Claim};
ghost use Rattle.cert_rules.specs.Certified.{IsCertified};
ghost use Rattle.cert_rules.specs.Lengths.{CanClaim, HasLength, cited_length, lengths_of};
ghost use Rattle.cert_rules.specs.Spelled.{FitsLine};
ghost use Rattle.cert_make.specs.Needs.{CiteBack, IsLean};
ghost use Rattle.cert_make.specs.Numbers.{AreAnew};

use super::needs::{Needed, needs_of};
use super::renumber::renumbered;
use cert_rules::Line;
use lists::NoMemory;
use std::alloc::{AllocError, Global};

/// The numbers, from 1, of the two lines that a claim cites.
#[derive(Clone, Copy, Debug, PartialEq, Eq)]
pub struct ClaimLines {
    pub field: u32,
    pub call: u32,
}

// The lines with the numbers, in their order, with the new number for each that they cite.
fn selected_lines(alloc: Global, lines: &[Line], needed: &Needed) -> Result<Vec<Line>, NoMemory>
    requires { (number : ℕ) → Has needed.now number → (0 < number) × (number ≤ length lines.now) }
    ensures { IfOk result (λ found. AreAnew needed.now lines.now found.items) }
{
    let mut found = Vec::new(alloc);
    for number in needed.numbers() {
        found.push(renumbered(alloc, needed, &lines[*number as usize - 1])?)?;
    }
    Ok(found)
}

// Refuses more lines than 32 bits number, the place behind the last of them too.
fn check_few(lines: &[Line]) -> Result<(), NoMemory>
    ensures { OnOk result (length lines.now + 1 < 2 ^ 32) }
{
    if lines.len() < u32::MAX as usize {
        Ok(())
    } else {
        Err(AllocError)
    }
}

/// The certificate that ends in a claim of these lines: those of the lines that the claim needs, in their order and under the numbers that they have there,
/// and the claim behind them. Costs time and memory for these lines and for the numbers that they cite, and none for the others.
pub fn certificate_of(
    alloc: Global,
    lines: &[Line],
    claim: ClaimLines,
) -> Result<Vec<Line>, NoMemory>
    requires { CiteBack (lines.now ++ Claim claim.field claim.call ∷ []) }
    ensures certified { (p : LinkedProgram) (t : AnyNode) (o : AnySite) → CanClaim p t lines.now o claim.field claim.call
        → IfOk result (λ certificate. IsCertified p t certificate.items o) }
    ensures length { IfOk result (λ certificate. HasLength certificate.items (cited_length (lengths_of lines.now) claim.field)) }
    ensures lean { IfOk result (λ certificate. IsLean certificate.items) }
    ensures once { IsApart lines.now → IfOk result (λ certificate. IsApart certificate.items) }
    ensures fits { All FitsLine lines.now → IfOk result (λ certificate. All FitsLine certificate.items) }
    ensures few { IfOk result (λ certificate. length certificate.items + 1 < 2 ^ 32) }
{
    let last = Line::Claim {
        field: claim.field,
        call: claim.call,
    };
    let needed = needs_of(alloc, lines, &last)?;
    let mut certificate = selected_lines(alloc, lines, &needed)?;
    certificate.push(renumbered(alloc, &needed, &last)?)?;
    check_few(&certificate)?;
    Ok(certificate)
}
