//! The search.
ghost use Rattle.std.specs.Prelude.{◌≡◌, ◌+◌, ◌<◌, ◌^◌, ℕ, List, [], length, slice_get, IfNone, IfOk, IfSome, OnOk, Some};
ghost use Rattle.lists.specs.Lists.{Has};
ghost use Rattle.lists.specs.Grown.{IsLonger};
ghost use Rattle.way_find.specs.Seen.{AreBacks, AreBegun};
ghost use Rattle.way_find.specs.Ways.{LeadsToGoal};
ghost use Rattle.way_find.specs.declared.ways.Step.{Step as AnyStep};

use super::seen::{Back, Seen, labels_to, nothing, reach};
use super::ways::{Step, Ways};
use lists::Key;
use std::alloc::{AllocError, Global};

// Puts in where the starts lead.
fn begin<V: Key, W: Ways<V>>(
    ways: &W,
    starts: &[Step<V>],
    seen: &mut Seen<V>,
) -> Result<(), AllocError>
    requires { AreBacks (W.goes ways.now) starts.now seen.old.spots.keys seen.old.backs.items }
    ensures begun { OnOk result (AreBegun starts.now seen.new.spots.keys) }
    ensures backs { OnOk result (AreBacks (W.goes ways.now) starts.now seen.new.spots.keys seen.new.backs.items) }
{
    for start in starts {
        let back = Back {
            label: start.label,
            before: 0,
        };
        reach(ways, starts, seen, back, start.to)?;
    }
    Ok(())
}

// Puts in where the steps from an element lead, by its number, from 0.
fn go_on<V: Key, W: Ways<V>>(
    ways: &W,
    starts: &[Step<V>],
    seen: &mut Seen<V>,
    at: u32,
    steps: &[Step<V>],
) -> Result<(), AllocError>
    requires backs { AreBacks (W.goes ways.now) starts.now seen.old.spots.keys seen.old.backs.items }
    requires few { at + 1 < 2 ^ 32 }
    requires steps { (from : V) × (slice_get seen.old.spots.keys at ≡ Some from)
        × ((s : AnyStep V) → Has steps.now s → W.goes ways.now from s.label s.to) }
    ensures ends { OnOk result (AreBegun steps.now seen.new.spots.keys) }
    ensures longer { OnOk result (IsLonger seen.old.spots.keys seen.new.spots.keys) }
    ensures backs { OnOk result (AreBacks (W.goes ways.now) starts.now seen.new.spots.keys seen.new.backs.items) }
{
    for step in steps {
        let back = Back {
            label: step.label,
            before: at + 1,
        };
        reach(ways, starts, seen, back, step.to)?;
    }
    Ok(())
}

// Goes on from the elements, one after another, up to a goal, and gives its number, from 0.
fn find_goal<V: Key, W: Ways<V>>(
    alloc: Global,
    ways: &W,
    starts: &[Step<V>],
    seen: &mut Seen<V>,
) -> Result<Option<u32>, AllocError>
    requires ready { W.is_ready ways.now }
    requires backs { AreBacks (W.goes ways.now) starts.now seen.old.spots.keys seen.old.backs.items }
    requires begun { AreBegun starts.now seen.old.spots.keys }
    ensures backs { OnOk result (AreBacks (W.goes ways.now) starts.now seen.new.spots.keys seen.new.backs.items) }
    ensures goal { IfOk result (λ found. IfSome found (λ at. (v : V) × (slice_get seen.new.spots.keys at ≡ Some v) × W.is_goal ways.now v)) }
    ensures none { IfOk result (λ found. IfNone found ((labels : List ℕ) → LeadsToGoal (W.goes ways.now) (W.is_goal ways.now) starts.now labels → ⊥)) }
{
    let mut at = 0;
    while (at as usize) < seen.spots.len() {
        let from = seen.spots.key(at);
        if ways.is_goal(from) {
            return Ok(Some(at));
        }
        let steps = ways.steps(alloc, from)?;
        go_on(ways, starts, seen, at, steps.as_slice())?;
        at += 1;
    }
    Ok(None)
}

/// The labels of a way from one of the starts to a goal, that of the start first, or that there is none. Costs a look-up for each step from where the
/// search comes, and comes nowhere twice.
pub fn way<V: Key, W: Ways<V>>(
    alloc: Global,
    ways: &W,
    starts: &[Step<V>],
) -> Result<Option<Vec<u32>>, AllocError>
    requires { W.is_ready ways.now }
    ensures some { IfOk result (λ found. IfSome found (λ labels. LeadsToGoal (W.goes ways.now) (W.is_goal ways.now) starts.now labels.items)) }
    ensures none { IfOk result (λ found. IfNone found ((labels : List ℕ) → LeadsToGoal (W.goes ways.now) (W.is_goal ways.now) starts.now labels → ⊥)) }
{
    let mut seen = nothing(alloc);
    begin(ways, starts, &mut seen)?;
    match find_goal(alloc, ways, starts, &mut seen)? {
        Some(at) => Ok(Some(labels_to(alloc, ways, starts, &seen, at)?)),
        None => Ok(None),
    }
}
