//! What a search has found.
ghost use Rattle.std.specs.Prelude.{◌≡◌, ◌<◌, [], length, slice_get, IfOk, OnOk, Some};
ghost use Rattle.lists.specs.Grown.{IsLonger};
ghost use Rattle.way_find.specs.Seen.{AreBacks, IsBack, LeadsTo};

use super::ways::{Step, Ways};
use lists::{Key, Numbered};
use std::alloc::{AllocError, Global};

/// The label of the step by which a search came somewhere first, and the number, from 1, of where it came from; 0 where it began there.
#[derive(Clone, Copy)]
pub(crate) struct Back {
    pub(crate) label: u32,
    pub(crate) before: u32,
}

/// Where a search was, in the order in which it came there, and how it came there.
#[derive(Drop)]
pub(crate) struct Seen<V: Key> {
    pub(crate) spots: Numbered<V>,
    pub(crate) backs: Vec<Back>,
}

/// Nothing. Takes no memory.
pub(crate) fn nothing<V: Key>(alloc: Global) -> Seen<V>
    ensures spots { result.spots.keys ≡ [] }
    ensures backs { result.backs.items ≡ [] }
{
    Seen {
        spots: Numbered::new(alloc),
        backs: Vec::new(alloc),
    }
}

/// Puts in that the search came here, unless it was here before, and gives its number, from 0.
pub(crate) fn reach<V: Key, W: Ways<V>>(
    ways: &W,
    starts: &[Step<V>],
    seen: &mut Seen<V>,
    back: Back,
    to: V,
) -> Result<u32, AllocError>
    requires backs { AreBacks (W.goes ways.now) starts.now seen.old.spots.keys seen.old.backs.items }
    requires back { IsBack (W.goes ways.now) starts.now seen.old.spots.keys (length seen.old.spots.keys) back to }
    ensures here { IfOk result (λ number. slice_get seen.new.spots.keys number ≡ Some to) }
    ensures longer { OnOk result (IsLonger seen.old.spots.keys seen.new.spots.keys) }
    ensures backs { OnOk result (AreBacks (W.goes ways.now) starts.now seen.new.spots.keys seen.new.backs.items) }
{
    if let Some(number) = seen.spots.find(to) {
        return Ok(number);
    }
    seen.spots.room()?;
    seen.backs.push(back)?;
    Ok(seen.spots.put(to))
}

/// The labels of the steps by which the search came to the element with the number, from 0.
pub(crate) fn labels_to<V: Key, W: Ways<V>>(
    alloc: Global,
    ways: &W,
    starts: &[Step<V>],
    seen: &Seen<V>,
    last: u32,
) -> Result<Vec<u32>, AllocError>
    requires backs { AreBacks (W.goes ways.now) starts.now seen.now.spots.keys seen.now.backs.items }
    requires last { last < length seen.now.spots.keys }
    ensures { IfOk result (λ labels. LeadsTo (W.goes ways.now) starts.now seen.now.spots.keys last labels.items) }
{
    let mut labels = Vec::new(alloc);
    let mut left = last as usize + 1;
    while left > 0 {
        let back = seen.backs[left - 1];
        labels.push(back.label)?;
        left = back.before as usize;
    }
    labels.reverse();
    Ok(labels)
}
