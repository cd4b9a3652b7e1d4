//! Which lines a claim needs.
ghost use Rattle.std.specs.Prelude.{◌≡◌, ◌++◌, ◌∷◌, ◌↔◌, ◌<◌, ◌^◌, ℕ, [], IfOk, OnOk, length};
ghost use Rattle.lists.specs.Grown.{IsGrownBy};
ghost use Rattle.lists.specs.Lists.{Has};
ghost use Rattle.cert_make.specs.Needs.{CiteBack, IsNeeded, numbers_of};
ghost use Rattle.cert_make.specs.Numbers.{AreNumbers, up_to};

use cert_rules::Line;
use lists::{NoMemory, Numbered};
use std::alloc::Global;
use std::marker::Model;

/// Numbers of lines, from 1, ascending.
#[derive(Drop)]
pub(crate) struct Needed {
    numbers: Vec<u32>,
}

impl Model for Needed {
    ghost use Rattle.std.specs.Prelude.{List, ℕ};
    ghost use Rattle.cert_make.specs.Numbers.{AreNumbers};

    ghost Value = { List ℕ };

    ghost view = { λ n. n.numbers.items };

    ghost invariant = { λ n. AreNumbers n.numbers.items };
}

impl Needed {
    /// The numbers.
    pub(crate) fn numbers(&self) -> &[u32]
        ensures { result.now ≡ self.now }
    {
        self.numbers.as_slice()
    }

    /// How many of them are at most this one: where it is one of them, its place among them, from 1.
    pub(crate) fn up_to(&self, number: u32) -> u32
        ensures { result ≡ up_to self.now number }
    {
        match self.numbers.binary_search(&number) {
            Ok(at) => at as u32 + 1,
            Err(at) => at as u32,
        }
    }
}

// Adds those of the numbers that aren't there.
fn add_all(found: &mut Numbered<u32>, numbers: &[u32]) -> Result<(), NoMemory>
    ensures { OnOk result (IsGrownBy (Has numbers.now) found.old.keys found.new.keys) }
{
    for number in numbers {
        found.add(*number)?;
    }
    Ok(())
}

// Adds those that a line cites.
fn add_cited(found: &mut Numbered<u32>, line: &Line) -> Result<(), NoMemory>
    ensures { OnOk result (IsGrownBy (Has (numbers_of line.now)) found.old.keys found.new.keys) }
{
    match line {
        Line::Start { .. } => Ok(()),
        Line::Jump { from, .. }
        | Line::Flow { from, .. }
        | Line::PushCall { from, .. }
        | Line::LinkCall { from, .. }
        | Line::BasePop { from, .. } => add_all(found, &[*from]),
        Line::Put { from, meet, .. }
        | Line::PushField { from, meet, .. }
        | Line::LinkField { from, meet, .. } => add_all(found, &[*from, *meet]),
        Line::Pop { from, link, .. } => add_all(found, &[*from, *link]),
        Line::Shared { first, second, .. } => {
            add_all(found, first.as_slice())?;
            add_all(found, second.as_slice())
        }
        Line::Meet { shared, base } => add_all(found, &[*shared, *base]),
        Line::Claim { field, call } => add_all(found, &[*field, *call]),
    }
}

// The numbers of the lines that the claim needs, each looked at once: first those that the claim cites, behind them those that lines with numbers before cite.
fn found_from(alloc: Global, lines: &[Line], claim: &Line) -> Result<Numbered<u32>, NoMemory>
    requires { CiteBack (lines.now ++ claim.now ∷ []) }
    ensures exact { IfOk result (λ found. (number : ℕ) → Has found.keys number ↔ IsNeeded lines.now claim.now number) }
    ensures few { IfOk result (λ found. length found.keys < 2 ^ 32) }
{
    let mut found = Numbered::new(alloc);
    add_cited(&mut found, claim)?;
    let mut at = 0;
    while (at as usize) < found.len() {
        let number = found.key(at);
        add_cited(&mut found, &lines[number as usize - 1])?;
        at += 1;
    }
    Ok(found)
}

/// The numbers of the lines that the claim needs. Costs time and memory for these lines alone, and for the numbers that they cite.
pub(crate) fn needs_of(alloc: Global, lines: &[Line], claim: &Line) -> Result<Needed, NoMemory>
    requires { CiteBack (lines.now ++ claim.now ∷ []) }
    ensures exact { IfOk result (λ needed. (number : ℕ) → Has needed number ↔ IsNeeded lines.now claim.now number) }
    ensures ascending { IfOk result (λ needed. AreNumbers needed) }
{
    let found = found_from(alloc, lines, claim)?;
    let mut numbers = Vec::from_slice(alloc, found.keys())?;
    numbers.sort_unstable();
    Ok(Needed { numbers })
}
