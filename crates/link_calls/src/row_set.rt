//! Rows, each once.
ghost use Rattle.std.specs.Prelude.{◌≡◌, [], OnOk};
ghost use Rattle.lists.specs.Lists.{Adds};

use lists::NoMemory;
use std::alloc::Global;
use std::collections::BTreeSet;
use std::marker::Model;

/// Rows, each once, in the order in which they first came. Adding one takes the logarithm of how many rows there are, whichever they are, and memory is
/// taken for these rows alone. Contracts see the list.
#[derive(Drop)]
pub(crate) struct RowSet {
    rows: Vec<u32>,
    seen: BTreeSet<u32>,
}

impl Model for RowSet {
    ghost use Rattle.std.specs.Prelude.{ℕ, List};
    ghost use Rattle.link_calls.specs.Seen.{AreSeen};

    ghost Value = { List ℕ };

    ghost view = { λ s. s.rows.items };

    ghost invariant = { λ s. AreSeen s.seen s.rows.items };
}

impl RowSet {
    /// No row.
    pub(crate) fn new(alloc: Global) -> Self
        ensures { result ≡ [] }
    {
        RowSet {
            rows: Vec::new(alloc),
            seen: BTreeSet::new(alloc),
        }
    }

    /// Adds the row behind the others, where it isn't there.
    pub(crate) fn add(&mut self, row: u32) -> Result<(), NoMemory>
        ensures { OnOk result (Adds self.old row self.new) }
    {
        self.rows.reserve(1)?;
        if self.seen.insert(row)? {
            self.rows.push_reserved(row);
        }
        Ok(())
    }

    /// The rows as a list.
    pub(crate) fn into_vec(self) -> Vec<u32>
        ensures { result.items ≡ self }
    {
        self.rows
    }
}
