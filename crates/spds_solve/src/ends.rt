//! The ends of stores: what is stored, and what it is stored into.
ghost use Rattle.std.specs.Prelude.{◌≡◌, ◌+◌, ◌<◌, length, IfOk, OnOk};
ghost use Rattle.spds_solve.specs.Ends.{AreEnds, AreEndsBelow, ends_in};

use lists::{Groups, Keyed, NoMemory};
use spds_tables::{Parts, count_of};
use std::alloc::Global;

/// Which end of a store.
#[derive(Clone, Copy, Debug, PartialEq, Eq)]
pub enum End {
    /// What is stored.
    Arg,
    /// What it is stored into.
    Base,
}

/// An end of the store with the number.
#[derive(Clone, Copy, Debug, PartialEq, Eq)]
pub struct StoreEnd {
    pub store: u32,
    pub end: End,
}

/// The ends of all stores, by their cells in the call system.
#[derive(Drop)]
pub struct Ends {
    by_cell: Groups<u32, StoreEnd>,
}

/// Lists both ends of a store.
fn list_ends(
    parts: &Parts,
    store: u32,
    ends: &mut Vec<Keyed<u32, StoreEnd>>,
) -> Result<(), NoMemory>
    requires { store < length parts.now.stores.items }
    ensures { OnOk result (AreEndsBelow parts.now store ends.old.items → AreEndsBelow parts.now (store + 1) ends.new.items) }
{
    let stored = parts.stored(store);
    ends.push(Keyed {
        key: stored.arg.calls,
        item: StoreEnd {
            store,
            end: End::Arg,
        },
    })?;
    ends.push(Keyed {
        key: stored.base.calls,
        item: StoreEnd {
            store,
            end: End::Base,
        },
    })?;
    Ok(())
}

impl Ends {
    /// The ends of all stores.
    pub fn of(alloc: Global, parts: &Parts) -> Result<Self, NoMemory>
        ensures { IfOk result (λ ends. AreEnds parts.now ends) }
    {
        let mut ends = Vec::new(alloc);
        for store in 0..count_of(parts.stores.len())? {
            list_ends(parts, store, &mut ends)?;
        }
        let by_cell = Groups::of(alloc, &ends)?;
        Ok(Ends { by_cell })
    }

    /// The ends at the cell. Takes no memory.
    pub fn at(&self, cell: u32) -> &[StoreEnd]
        ensures { result.now ≡ ends_in self.now cell }
    {
        self.by_cell.at(cell)
    }
}
