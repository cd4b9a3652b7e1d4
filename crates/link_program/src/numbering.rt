//! The numbers of the methods that are linked.
ghost use Rattle.std.specs.Prelude.{◌≡◌, ◌<◌, ◌↔◌, ℕ, All, IfOk, Some, slice_get};
ghost use Rattle.lists.specs.Lists.{AreIncreasing};

use lists::NoMemory;
use std::alloc::Global;
use std::marker::Model;

/// The methods that are linked: their rows, increasing, and for each row its number, which is its place among them. Contracts see the rows.
#[derive(Drop)]
pub struct Numbering {
    rows: Vec<u32>,
    numbers: Vec<Option<u32>>,
}

impl Model for Numbering {
    ghost use Rattle.std.specs.Prelude.{List, ℕ};
    ghost use Rattle.link_program.specs.Numbers.{IsNumbering};

    ghost Value = { List ℕ };

    ghost view = { λ n. n.rows.items };

    ghost invariant = { λ n. IsNumbering n.rows.items n.numbers.items };
}

impl Numbering {
    /// The numbering of these rows of `row_count` methods. Nothing but memory can be wanting.
    pub fn new(alloc: Global, rows: Vec<u32>, row_count: u32) -> Result<Self, NoMemory>
        requires increasing { AreIncreasing rows.items }
        requires below { All (λ row. row < row_count) rows.items }
        ensures { IfOk result (λ numbering. numbering ≡ rows.items) }
    {
        let mut numbers: Vec<Option<u32>> = vec![in alloc; None; row_count as usize]?;
        for (number, row) in rows.iter().enumerate() {
            numbers[*row as usize] = Some(number as u32);
        }
        Ok(Numbering { rows, numbers })
    }

    /// The rows, in the order of their numbers.
    pub fn rows(&self) -> &[u32]
        ensures rows { result.now ≡ self.now }
        ensures increasing { AreIncreasing self.now }
    {
        self.rows.as_slice()
    }

    /// The number of the method in a row, if it is one that is linked.
    pub fn number(&self, row: u32) -> Option<u32>
        ensures { (n : ℕ) → (result ≡ Some n) ↔ (slice_get self.now n ≡ Some row) }
    {
        if row as usize >= self.numbers.len() {
            return None;
        }
        self.numbers[row as usize]
    }
}
