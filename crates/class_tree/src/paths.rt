ghost use Rattle.std.specs.Prelude.{◌≡◌, ◌^◌, ◌<◌, length, All, IfOk, None};
ghost use Rattle.std.specs.List.Sorted.{IsNonDecreasingBy};
ghost use Rattle.class_tree.specs.FirstRows.{row_at as first_row};
ghost use Rattle.class_tree.specs.Turns.{AreRowsOf, IsNumbering, TellPaths, turned, turns_of};

use super::first_rows::{FirstRows, Member};
use super::key_spans::keys_of;
use super::numbering::Numbering;
use super::own_rows::own_rows;
use super::turns::{Turn, row_at};
use super::walk::{Forest, turns_by_slot};
use class_order::Groups;
use class_rules::ClassRow;
use number_sets::SortedSet;
use std::alloc::{AllocError, Global};

/// What look-ups of all keys along the parents give. By their numbers those below a class follow it
/// without a gap: a key has at most two turns for each class with a member of it, where the class
/// stands and after the last below it. The key is found by halves, and so is its turn.
#[derive(Drop)]
pub struct Paths {
    keys: SortedSet,
    turns: Groups<Turn>,
}

impl Paths {
    /// What look-ups over these members give, of which `rows` has the first rows.
    pub fn new(
        alloc: Global,
        classes: &[ClassRow],
        numbering: &Numbering,
        members: &[Member],
        rows: &FirstRows,
    ) -> Result<Self, AllocError>
        requires few { length members.now < 2 ^ 32 }
        requires members { All (λ m. m.class < length classes.now) members.now }
        requires numbering { IsNumbering classes.now numbering.now }
        requires rows { AreRowsOf (first_row rows.now) members.now }
        ensures { IfOk result (TellPaths classes.now (first_row rows.now) numbering.now.numbers.items) }
    {
        let keys = keys_of(alloc, members)?;
        let owns = own_rows(alloc, classes.len(), members, rows, &keys)?;
        let numbers = Vec::from_slice(alloc, numbering.numbers.as_slice())?;
        let forest = Forest { owns, numbers };
        let order = numbering.order.as_slice();
        let turns = turns_by_slot(alloc, classes, &forest, order, keys.len())?;
        Ok(Paths { keys, turns })
    }

    /// The turns of the key, in the order of the numbers: before the first a look-up gives nothing.
    pub fn turns(&self, key: u32) -> &[Turn]
        requires { length self.now.turns ≡ length self.now.keys }
        ensures { result.now ≡ turns_of self.now key }
    {
        match self.keys.index_of(key) {
            Some(slot) => self.turns.get(slot),
            None => &[],
        }
    }

    /// What the look-up of the key from the class with this number gives.
    pub fn find(&self, number: u32, key: u32) -> Option<u32>
        requires len { length self.now.turns ≡ length self.now.keys }
        requires rising { IsNonDecreasingBy (λ t. t.at) (turns_of self.now key) }
        ensures { result ≡ turned None (turns_of self.now key) number }
    {
        row_at(self.turns(key), number)
    }
}
