ghost use Rattle.std.specs.Prelude.{◌≡◌, ℕ, ◌^◌, ◌<◌, ◌↔◌, length, All, IfOk};
ghost use Rattle.class_order.specs.Groups.{group};
ghost use Rattle.class_order.specs.Spans.{AreApart, AreFilled, Holds, HoldsAny};
ghost use Rattle.class_order.specs.Tables.{HavePlaces, IsFinishing, IsReach, Under};

use super::groups::Groups;
use super::spans::{Span, united};
use std::alloc::{AllocError, Global};

/// The spans of some classes, one list after the other.
pub fn gathered(
    alloc: Global,
    classes: &[u32],
    table: &Groups<Span>,
) -> Result<Vec<Span>, AllocError>
    requires known { All (λ c. c < length table.now) classes.now }
    requires apart { (c : ℕ) → AreApart (group table.now c) }
    ensures filled { IfOk result (λ all. AreFilled all.items) }
    ensures places { IfOk result (λ all. (p : ℕ) → Holds all.items p ↔ HoldsAny table.now classes.now p) }
{
    let mut all = Vec::new(alloc);
    for class in classes {
        all.extend_from_slice(table.get(*class as usize))?;
    }
    Ok(all)
}

/// For each class the places of the classes from which it is reached.
pub fn reach_spans(
    alloc: Global,
    below: &Groups<u32>,
    order: &[u32],
    places: &[u32],
) -> Result<Groups<Span>, AllocError>
    requires few { length below.now < 2 ^ 32 }
    requires known { (a b : ℕ) → Under below.now a b → a < length below.now }
    requires order { IsFinishing below.now order.now }
    requires places { HavePlaces (length below.now) places.now }
    ensures { IfOk result (IsReach (Under below.now) (length below.now) places.now) }
{
    let mut table = Groups::new(alloc, below.len())?;
    for class in order {
        let mut spans = gathered(alloc, below.get(*class as usize), &table)?;
        let start = places[*class as usize];
        spans.push(Span {
            start,
            end: start + 1,
        })?;
        table.put(*class as usize, united(alloc, spans)?);
    }
    Ok(table)
}
