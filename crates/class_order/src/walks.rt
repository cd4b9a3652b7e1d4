ghost use Rattle.std.specs.Prelude.{◌≡◌, ℕ, ◌^◌, ◌<◌, ◌≤◌, length, Contains, OnOk, Some, slice_get};
ghost use Rattle.class_order.specs.Tables.{HasReached, IsWithin, Under, Visits};

use super::groups::Groups;
use number_sets::MarkedSet;
use std::alloc::AllocError;

/// Adds the classes to those reached.
pub fn add_all(reached: &mut MarkedSet, classes: &[u32]) -> Result<(), AllocError>
    ensures { OnOk result (Visits classes.now reached.old reached.new) }
{
    for class in classes {
        reached.insert(*class)?;
    }
    Ok(())
}

/// Goes on from the classes reached, where those before index `from` need not be gone on from any
/// more. `steps` has for each class those one step from it.
pub fn spread(steps: &Groups<u32>, reached: &mut MarkedSet, from: usize) -> Result<(), AllocError>
    requires few { length steps.now < 2 ^ 32 }
    requires steps { (a b : ℕ) → Under steps.now a b → a < length steps.now }
    requires known { IsWithin (length steps.now) reached.old }
    requires from { from ≤ length reached.old }
    requires done { (i c d : ℕ) → i < from → slice_get reached.old i ≡ Some d → Under steps.now c d → Contains reached.old c }
    ensures reached { OnOk result (HasReached steps.now reached.old reached.new) }
    ensures known { OnOk result (IsWithin (length steps.now) reached.new) }
{
    let mut at = from;
    while let Some(class) = reached.get(at) {
        add_all(reached, steps.get(class as usize))?;
        at += 1;
    }
    Ok(())
}
