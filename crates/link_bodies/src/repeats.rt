//! Names that stand twice.
ghost use Rattle.std.specs.Prelude.{◌≡◌, ◌<◌, ◌↔◌, ℕ, List, Some, IfNone, IfSome, IsTrue, MatchOption, min, slice_get};
ghost use Rattle.lists.specs.Lists.{IsLeast, IsRepeated};
ghost use Rattle.jim_ast.specs.declared.names.NameId.{NameId as ANameId};
ghost use Rattle.link_bodies.specs.Places.{KnowsPlaces, RepeatsName, label_names};

use super::places::FirstPlaces;
use jim_ast::{Label, NameId};

// Whether the name stands before the place too.
fn is_again(places: &FirstPlaces, name: NameId, place: usize) -> bool
    ensures { (names : List ANameId) → KnowsPlaces names places.now → IsTrue result ↔ ((i : ℕ) × (i < place) × (slice_get names i ≡ Some name)) }
{
    match places.find(name) {
        Some(first) => (first as usize) < place,
        None => false,
    }
}

/// Whether one of these locals has the name of an earlier one.
pub(crate) fn repeats_any(places: &FirstPlaces, locals: &[NameId]) -> bool
    requires { KnowsPlaces locals.now places.now }
    ensures { IsTrue result ↔ IsRepeated locals.now }
{
    for (place, name) in locals.iter().enumerate() {
        if is_again(places, *name, place) {
            return true;
        }
    }
    false
}

// The lesser of two indexes, if there is a first.
fn lesser(first: Option<u32>, second: u32) -> u32
    ensures { MatchOption first (result ≡ second) (λ n. result ≡ min n second) }
{
    match first {
        Some(index) => index.min(second),
        None => second,
    }
}

/// The least index of a label that has the name of an earlier one.
pub(crate) fn least_repeated(places: &FirstPlaces, labels: &[Label]) -> Option<u32>
    requires { KnowsPlaces (label_names labels.now) places.now }
    ensures some { IfSome result (IsLeast (RepeatsName labels.now)) }
    ensures none { IfNone result ((index : ℕ) → RepeatsName labels.now index → ⊥) }
{
    let mut least: Option<u32> = None;
    for (place, label) in labels.iter().enumerate() {
        if is_again(places, label.name, place) {
            least = Some(lesser(least, label.index));
        }
    }
    least
}
