ghost use Rattle.std.specs.Prelude.{◌≡◌, [], OnOk};
ghost use Rattle.auto_table.specs.Cells.{IsBlank};
ghost use Rattle.post_star.specs.Works.{IsRisen, IsRisenLink};

use auto_table::{Entry, Table};
use lists::NoMemory;
use std::alloc::Global;
use std::collections::VecDeque;
use weight_laws::Weight;

/// What rose in the table and waits to be worked on.
#[derive(Clone, Copy, Debug, PartialEq, Eq)]
pub enum Item {
    /// The weight of the entry at the node.
    At { entry: Entry, node: u32 },
    /// The weight of the link.
    Between { child: Entry, parent: Entry },
}

/// A table that rises, and what rose in it and waits.
#[derive(Drop)]
pub struct Rising<W: Weight> {
    pub alloc: Global,
    pub table: Table<W>,
    /// First in, first out.
    pub items: VecDeque<Item>,
}

impl<W: Weight> Rising<W> {
    /// Nothing rose yet. It takes no memory.
    pub fn new(alloc: Global) -> Self
        ensures table { IsBlank W.domain result.table }
        ensures items { result.items.items ≡ [] }
    {
        Rising {
            alloc,
            table: Table::new(alloc),
            items: VecDeque::new(alloc),
        }
    }

    /// Combines a weight in. Where the table moves, the place waits.
    pub fn rise(&mut self, entry: Entry, node: u32, weight: W) -> Result<(), NoMemory>
        ensures { OnOk result (IsRisen W.domain self.old.table self.new.table self.old.items.items self.new.items.items entry node weight) }
    {
        if self.table.raise(entry, node, weight)? {
            self.items.push_back(Item::At { entry, node })?;
        }
        Ok(())
    }

    /// Combines a weight into that of a link. Where the table moves, the link waits.
    pub fn rise_link(&mut self, child: Entry, parent: Entry, weight: W) -> Result<(), NoMemory>
        ensures { OnOk result (IsRisenLink W.domain self.old.table self.new.table self.old.items.items self.new.items.items child parent weight) }
    {
        if self.table.raise_link(child, parent, weight)? {
            self.items.push_back(Item::Between { child, parent })?;
        }
        Ok(())
    }

    /// The table, taken out.
    pub fn into_table(self) -> Table<W>
        ensures { result ≡ self.table }
    {
        self.table
    }
}
