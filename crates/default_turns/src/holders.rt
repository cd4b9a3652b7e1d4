//! The interfaces with a method of a key.
ghost use Rattle.std.specs.Prelude.{◌↔◌, ℕ, Contains, IfOk};
ghost use Rattle.class_tree.specs.Layouts.{LaysOut};
ghost use Rattle.default_turns.specs.Holders.{AreHoldersOf, ArePlaced};

use class_tree::{Layout, Tree};
use number_sets::SortedSet;
use std::alloc::{AllocError, Global};

/// A tree with the places of its classes.
#[derive(Clone, Copy)]
pub(crate) struct PlacedTree<'a> {
    pub tree: &'a Tree,
    pub layout: Layout<'a>,
}

/// An interface at its place.
#[derive(Clone, Copy)]
pub(crate) struct Holder {
    pub interface: u32,
    pub place: u32,
}

// Each of the numbers once, in ascending order.
fn each_once(alloc: Global, numbers: &[u32]) -> Result<SortedSet, AllocError>
    ensures { IfOk result (λ set. (n : ℕ) → Contains set n ↔ Contains numbers.now n) }
{
    let numbers = Vec::from_slice(alloc, numbers)?;
    Ok(SortedSet::new(numbers))
}

/// The interfaces with a method of the key, each once, in the order of their places.
pub(crate) fn holders_of(
    alloc: Global,
    placed: PlacedTree<'_>,
    key: u32,
) -> Result<Vec<Holder>, AllocError>
    requires { LaysOut placed.tree.now placed.layout }
    ensures placed { IfOk result (λ holders. ArePlaced placed.entry.tree.now placed.entry.layout.places.now holders.items) }
    ensures exact { IfOk result (λ holders. AreHoldersOf placed.entry.tree.now key holders.items) }
{
    let interfaces = each_once(alloc, placed.tree.holders(key))?;
    let mut holders = Vec::with_capacity(alloc, interfaces.len())?;
    for interface in interfaces.as_slice() {
        holders.push(Holder {
            interface: *interface,
            place: placed.layout.places[*interface as usize],
        })?;
    }
    holders.sort_unstable_by_key(|holder| holder.place);
    Ok(holders)
}
