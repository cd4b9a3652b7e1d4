ghost use Rattle.std.specs.Prelude.{◌≡◌, ◌++◌, true, IfOk, OnOk};
ghost use Rattle.post_star.specs.Derivations.{IsLed};
ghost use Rattle.post_star.specs.Readings.{IsSaturated};

use super::bases::{Bases, Start};
use super::copies::copied;
use super::work::Work;
use auto_table::{Rule, Table};
use lists::NoMemory;
use std::alloc::Global;
use weight_laws::Weight;

/// Puts the rules and the starts in, and brings the work to the end.
fn complete<W: Weight>(
    work: &mut Work<W>,
    rules: &[Rule<W>],
    starts: &[Start<W>],
) -> Result<(), NoMemory>
    requires led { IsLed starts.now work.old.steps work.old.last }
    ensures { OnOk result (work.new ≡ record work.old { rules = work.old.rules ++ rules.now; starts = work.old.starts ++ starts.now; settled = true }) }
{
    for rule in rules {
        work.add_rule(*rule)?;
    }
    for start in starts {
        work.add_start(*start)?;
    }
    work.settle()?;
    Ok(())
}

/// The table whose values are those of the system: what `value` and `any_value` read of it with these bases is the
/// combination of all derivations.
///
/// Each base that a start or a step names leads to the last one by some word. Want of memory is the only refusal.
pub fn saturate<W: Weight>(
    alloc: Global,
    rules: &[Rule<W>],
    starts: &[Start<W>],
    bases: &Bases<'_>,
) -> Result<Table<W>, NoMemory>
    requires led { IsLed starts.now bases.now.steps.now bases.now.last }
    ensures { IfOk result (λ table. IsSaturated W.domain rules.now starts.now bases.now.steps.now bases.now.last table) }
{
    let steps = copied(alloc, bases.steps)?;
    let mut work = Work::with_bases(alloc, steps, bases.last)?;
    complete(&mut work, rules, starts)?;
    Ok(work.into_table())
}
