ghost use Rattle.std.specs.Prelude.{◌^◌, ◌<◌, ◌≡◌, length, All, Contains, IfOk};
ghost use Rattle.class_tree.specs.FirstRows.{row_at};
ghost use Rattle.class_tree.specs.Turns.{AreOwn, AreRowsOf};

use super::first_rows::{FirstRows, Member};
use class_order::Groups;
use number_sets::SortedSet;
use std::alloc::{AllocError, Global};

/// The first row that a class has for the key in this slot.
#[derive(Clone, Copy)]
pub struct Own {
    pub slot: usize,
    pub row: u32,
}

/// For each class its first rows. The slot of a key is its index in `keys`.
pub fn own_rows(
    alloc: Global,
    count: usize,
    members: &[Member],
    rows: &FirstRows,
    keys: &SortedSet,
) -> Result<Groups<Own>, AllocError>
    requires few { length members.now < 2 ^ 32 }
    requires known { All (λ m. m.class < count) members.now }
    requires rows { AreRowsOf (row_at rows.now) members.now }
    requires keys { All (λ m. Contains keys.now m.key) members.now }
    ensures len { IfOk result (λ owns. length owns ≡ count) }
    ensures exact { IfOk result (AreOwn (row_at rows.now) keys.now) }
{
    let mut owns = Groups::new(alloc, count)?;
    for (row, member) in members.iter().enumerate() {
        let row = row as u32;
        if rows.get(member.class, member.key) == Some(row) {
            if let Some(slot) = keys.index_of(member.key) {
                owns.push(member.class as usize, Own { slot, row })?;
            }
        }
    }
    Ok(owns)
}
