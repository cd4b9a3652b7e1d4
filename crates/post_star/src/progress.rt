ghost use Rattle.std.specs.Prelude.{◌≡◌, []};
ghost use Rattle.auto_table.specs.Cells.{IsBlank};
ghost use Rattle.post_star.specs.Index.{IsIndex};

use super::index::Index;
use super::rise::Rising;
use auto_table::Table;
use std::alloc::Global;
use weight_laws::Weight;

/// How far a saturation has come.
#[derive(Drop)]
pub struct Progress<W: Weight> {
    /// Where the rules of its own that are done are looked for.
    pub index: Index<W>,
    pub rising: Rising<W>,
    /// How many rules the index has. They are done in the table.
    pub taken: usize,
    /// How many starts are in the table.
    pub begun: usize,
    /// How many items were worked on.
    pub worked: u64,
}

impl<W: Weight> Progress<W> {
    /// Nothing is done. It takes no memory.
    pub fn new(alloc: Global) -> Self
        ensures index { IsIndex {W = W} [] [] result.index }
        ensures table { IsBlank W.domain result.rising.table }
        ensures taken { result.taken ≡ 0 }
        ensures begun { result.begun ≡ 0 }
    {
        Progress {
            index: Index::new(alloc),
            rising: Rising::new(alloc),
            taken: 0,
            begun: 0,
            worked: 0,
        }
    }

    /// Gives up all that was done, with its memory.
    pub fn give_up(&mut self, alloc: Global)
        ensures index { IsIndex {W = W} [] [] self.new.index }
        ensures table { IsBlank W.domain self.new.rising.table }
        ensures taken { self.new.taken ≡ 0 }
        ensures begun { self.new.begun ≡ 0 }
    {
        *self = Progress::new(alloc);
    }

    /// The table, taken out.
    pub fn into_table(self) -> Table<W>
        ensures { result ≡ self.rising.table }
    {
        self.rising.into_table()
    }
}
