ghost use Rattle.std.specs.Prelude.{◌≡◌, ℕ, ◌^◌, ◌<◌, ◌↔◌, ◌⊎◌, length, Contains, IfOk, OnOk};
ghost use Rattle.class_rules.specs.Paths.{ProperPath};
ghost use Rattle.lists.specs.Lists.{IsLeast};
ghost use Rattle.class_order.specs.Tables.{IsDepthFirst, IsOver, IsWithin, Under};

use super::groups::Groups;
use super::walks::{add_all, spread};
use number_sets::MarkedSet;
use std::alloc::{AllocError, Global};

// Adds to the classes met those that are reached from this one in one or more steps upwards, where
// what is reached from a class met is met too.
fn meet(above: &Groups<u32>, met: &mut MarkedSet, class: u32) -> Result<(), AllocError>
    requires few { length above.now < 2 ^ 32 }
    requires above { (a b : ℕ) → Under above.now b a → b < length above.now }
    requires class { class < length above.now }
    requires known { IsWithin (length above.now) met.old }
    requires closed { (a b : ℕ) → Contains met.old a → Under above.now b a → Contains met.old b }
    ensures met { OnOk result ((c : ℕ) → Contains met.new c ↔ (Contains met.old c ⊎ ProperPath (Under above.now) c class)) }
    ensures known { OnOk result (IsWithin (length above.now) met.new) }
{
    let before = met.len();
    add_all(met, above.get(class as usize))?;
    spread(above, met, before)?;
    Ok(())
}

/// The least class that is reached from itself in one or more steps, where there is one. `above` has
/// for each class those one step above it, and `order` is that of a search downwards.
///
/// The classes are looked at from the last one of the order back. A class that is below itself then
/// meets itself or a class that was looked at before, and no other does.
pub fn least_cyclic(alloc: Global, above: &Groups<u32>, order: &[u32]) -> Result<u32, AllocError>
    requires few { length above.now < 2 ^ 32 }
    requires above { (a b : ℕ) → Under above.now b a → b < length above.now }
    requires order { IsDepthFirst (IsOver above.now) order.now }
    requires within { IsWithin (length above.now) order.now }
    requires all { (c : ℕ) → c < length above.now → Contains order.now c }
    requires some { (a : ℕ) × ProperPath (IsOver above.now) a a }
    ensures { IfOk result (IsLeast (λ a. ProperPath (IsOver above.now) a a)) }
{
    let mut least = above.len() as u32;
    let mut met = MarkedSet::new(alloc);
    let mut at = order.len();
    while at > 0 {
        at -= 1;
        let class = order[at];
        meet(above, &mut met, class)?;
        if class < least && met.contains(class) {
            least = class;
        }
    }
    Ok(least)
}
