ghost use Rattle.std.specs.Prelude.{ℕ, ◌^◌, ◌<◌, length, All, Contains, IfOk};
ghost use Rattle.class_rules.specs.Paths.{ProperPath};
ghost use Rattle.class_rules.specs.Rows.{HasParent};
ghost use Rattle.class_tree.specs.Turns.{IsNumbering};

use super::steps::{children, tops_first};
use super::weights::heaviest_last;
use class_order::{finish_order, places_of};
use class_rules::ClassRow;
use std::alloc::{AllocError, Global};

/// The classes in the order in which a search downwards over parents alone leaves them, and for each
/// its number: how many stand after it. Those that parents lead from to a class follow it without a
/// gap.
#[derive(Drop)]
pub struct Numbering {
    pub order: Vec<u32>,
    pub numbers: Vec<u32>,
}

impl Numbering {
    /// The numbers of these classes. The one with most classes below it of those with its parent
    /// follows this one at once, and the others stand as in `order`.
    pub fn new(alloc: Global, classes: &[ClassRow], order: &[u32]) -> Result<Self, AllocError>
        requires few { length classes.now < 2 ^ 32 }
        requires known { (a b : ℕ) → HasParent classes.now a b → b < length classes.now }
        requires acyclic { (a : ℕ) → ProperPath (HasParent classes.now) a a → ⊥ }
        requires within { All (λ c. c < length classes.now) order.now }
        requires all { (c : ℕ) → c < length classes.now → Contains order.now c }
        ensures { IfOk result (IsNumbering classes.now) }
    {
        let listed = heaviest_last(alloc, classes, order)?;
        let below = children(alloc, classes, listed.as_slice())?;
        let starts = tops_first(alloc, classes)?;
        let finish = finish_order(alloc, &below, starts.as_slice())?;
        let numbers = places_of(alloc, &below, finish.order.as_slice())?;
        Ok(Numbering {
            order: finish.order,
            numbers,
        })
    }
}
