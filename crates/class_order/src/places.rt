ghost use Rattle.std.specs.Prelude.{◌≡◌, ℕ, ◌+◌, ◌^◌, ◌<◌, length, IfOk, Some, slice_get, slice_index};
ghost use Rattle.class_order.specs.Tables.{ArePlaces, IsFinishing, Under};

use super::groups::Groups;
use std::alloc::{AllocError, Global};

/// For each class its place: how many classes stand after it in `order`.
pub fn places_of(alloc: Global, below: &Groups<u32>, order: &[u32]) -> Result<Vec<u32>, AllocError>
    requires few { length below.now < 2 ^ 32 }
    requires known { (a b : ℕ) → Under below.now a b → a < length below.now }
    requires order { IsFinishing below.now order.now }
    ensures places { IfOk result (λ places. ArePlaces below.now places.items) }
    ensures each { IfOk result (λ places. (i c : ℕ) → slice_get order.now i ≡ Some c → slice_index places.items c + 1 + i ≡ length order.now) }
{
    let mut places = vec![in alloc; 0; below.len()]?;
    for (at, class) in order.iter().enumerate() {
        places[*class as usize] = (order.len() - 1 - at) as u32;
    }
    Ok(places)
}
