//! Which marks are worth splitting: those of calls that are one of many into a method, and that lead from a method into which several lead. So a mark that is
//! split saves entries: of a method that is called from one place alone, each object comes by few of its calls.
ghost use Rattle.std.specs.Prelude.{◌≡◌, ◌||◌, ◌&&◌, ℕ, eqb, false, leb, length, slice_index_or, IfOk, OnOk};
ghost use Rattle.lists.specs.Groups.{found_at};
ghost use Rattle.call_side.specs.Crowds.{crowded as crowded_in, entering as entering_in};

use lists::{Groups, Keyed, NoMemory};
use post_star::BaseStep;
use std::alloc::Global;

/// So many calls are a crowd.
const CROWD: usize = 12;

/// So many are several.
const SEVERAL: usize = 2;

/// The marks of the steps by the bases from which they lead.
fn by_base(alloc: Global, steps: &[BaseStep]) -> Result<Groups<u32, u32>, NoMemory>
    ensures { IfOk result (λ groups. (base : ℕ) → found_at eqb groups base ≡ entering_in steps.now base) }
{
    let mut keyed = Vec::with_capacity(alloc, steps.len())?;
    for step in steps {
        keyed.push(Keyed {
            key: step.base,
            item: step.mark,
        })?;
    }
    Groups::of(alloc, &keyed)
}

/// Whether many calls enter the base of the step, and several the base below.
fn is_crowded(entering: &Groups<u32, u32>, step: BaseStep) -> bool
    ensures { result ≡ (leb 12 (length (found_at eqb entering.now step.base)) && leb 2 (length (found_at eqb entering.now step.below))) }
{
    entering.at(step.base).len() >= CROWD && entering.at(step.below).len() >= SEVERAL
}

/// Flags a mark.
fn flag(flags: &mut Vec<bool>, mark: u32) -> Result<(), NoMemory>
    ensures { OnOk result ((k : ℕ) → slice_index_or flags.new.items k false ≡ (slice_index_or flags.old.items k false || eqb mark k)) }
{
    let at = mark as usize;
    while flags.len() <= at {
        flags.push(false)?;
    }
    flags[at] = true;
    Ok(())
}

/// Which marks are crowded, by their numbers.
pub fn crowded(alloc: Global, steps: &[BaseStep]) -> Result<Vec<bool>, NoMemory>
    ensures { IfOk result (λ flags. (k : ℕ) → slice_index_or flags.items k false ≡ crowded_in steps.now k) }
{
    let entering = by_base(alloc, steps)?;
    let mut flags = Vec::new(alloc);
    for step in steps {
        let many = is_crowded(&entering, *step);
        if many {
            flag(&mut flags, step.mark)?;
        }
    }
    Ok(flags)
}
