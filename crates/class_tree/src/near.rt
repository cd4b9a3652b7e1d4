ghost use Rattle.std.specs.Prelude.{◌≡◌, ℕ, ◌^◌, ◌<◌, length, All, IfOk};
ghost use Rattle.class_order.specs.Tables.{HavePlaces, IsFinishing, IsReach, Under};
ghost use Rattle.class_rules.specs.Rows.{HasInterface};

use super::steps::implementers;
use class_order::{Groups, Span, reach_spans};
use std::alloc::{AllocError, Global};

/// For each class the places of the classes from which it is reached by interfaces alone.
pub fn near_spans(
    alloc: Global,
    implements: &[(u32, u32)],
    below: &Groups<u32>,
    order: &[u32],
    places: &[u32],
) -> Result<Groups<Span>, AllocError>
    requires few { length below.now < 2 ^ 32 }
    requires class { All (λ p. p.0 < length below.now) implements.now }
    requires interface { All (λ p. p.1 < length below.now) implements.now }
    requires below { (a b : ℕ) → HasInterface implements.now a b → Under below.now a b }
    requires order { IsFinishing below.now order.now }
    requires places { HavePlaces (length below.now) places.now }
    ensures { IfOk result (IsReach (HasInterface implements.now) (length below.now) places.now) }
{
    let implementers = implementers(alloc, below.len(), implements)?;
    let table = reach_spans(alloc, &implementers, order, places)?;
    Ok(table)
}
