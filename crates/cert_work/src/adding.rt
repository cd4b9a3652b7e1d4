//! One line more.
ghost use Rattle.std.specs.Prelude.{◌≡◌, ◌+◌, ℕ, OnOk};
ghost use Rattle.cert_rules.specs.Given.{Cites};
ghost use Rattle.cert_lines.specs.Noted.{IsShortestOf, IsThere};
ghost use Rattle.cert_lines.specs.Spread.{known_of};
ghost use Rattle.cert_work.specs.Added.{length_told};
ghost use Rattle.cert_work.specs.Roads.{AreAddedIn, GivesIn};

use super::roads::View;
use cert_lines::{Known, Written};
use cert_rules::{Fact, Line};
use lists::NoMemory;

/// Puts a line last that gives the fact, unless one that gives it is no longer.
pub fn add(
    view: &View<'_>,
    written: &mut Written,
    line: Line,
    fact: &Fact,
    length: u32,
) -> Result<(), NoMemory>
    requires gives { GivesIn view.now written.old line fact.now }
    requires long { length ≡ length_told written.old line }
    ensures added { OnOk result (AreAddedIn view.now written.old written.new) }
    ensures there { OnOk result (IsThere written.new fact.now length) }
{
    add_known(view, written, line, Known::of(fact), length)
}

/// The same of a fact whose number, by which it is spread, is known.
pub(crate) fn add_known(
    view: &View<'_>,
    written: &mut Written,
    line: Line,
    known: Known,
    length: u32,
) -> Result<(), NoMemory>
    requires known { known ≡ known_of known.fact }
    requires gives { GivesIn view.now written.old line known.fact }
    requires long { length ≡ length_told written.old line }
    ensures added { OnOk result (AreAddedIn view.now written.old written.new) }
    ensures there { OnOk result (IsThere written.new known.fact length) }
{
    // Each line has a length.
    let _count = written.len();
    written.add(line, known, length)?;
    Ok(())
}

/// The number, from 1, of a line that gives the fact; of those that do, none is shorter.
pub fn number_of(written: &Written, fact: Fact) -> u32
    requires { (most : ℕ) × IsThere written.now fact most }
    ensures gives { Cites written.now.given result fact }
    ensures least { (at : ℕ) → result ≡ at + 1 → IsShortestOf written.now fact at }
{
    let _count = written.len();
    match written.find(fact) {
        Some(number) => number + 1,
        None => unreachable!(),
    }
}
