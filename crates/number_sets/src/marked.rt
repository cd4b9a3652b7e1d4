//! Numbers in the order in which they came, with a mark for each.
ghost use Rattle.std.specs.Prelude.{◌≡◌, ◌<◌, ◌^◌, ◌↔◌, ◌++◌, ◌∷◌, [], ℕ, false, Contains, IfOk, OnErr, OnOk, IsTrue, MatchBool, length, nat_eq, slice_get, slice_index_or};
ghost use Rattle.std.specs.List.{IsDistinct};

use std::alloc::{AllocError, Global};
use std::marker::Model;

/// Numbers, each once, in the order in which they came. Contracts see the list.
///
/// It keeps a mark for each number up to the largest that was added, so that a look-up takes one step, whichever numbers there are. It takes a byte for each
/// of these.
#[derive(Drop)]
pub struct MarkedSet {
    numbers: Vec<u32>,
    // Whether the number of the index is there. Larger ones aren't.
    marks: Vec<bool>,
}

impl Model for MarkedSet {
    ghost use Rattle.std.specs.Prelude.{List, ℕ};
    ghost use Rattle.number_sets.specs.Marks.{AreMarked};

    ghost Value = { List ℕ };

    ghost view = { λ s. s.numbers.items };

    ghost invariant = { λ s. AreMarked s.marks.items s.numbers.items };
}

// Makes room for the mark of a number. The marks that are added aren't set.
fn make_room(marks: &mut Vec<bool>, number: u32) -> Result<(), AllocError>
    ensures same { (n : ℕ) → slice_index_or marks.new.items n false ≡ slice_index_or marks.old.items n false }
    ensures room { OnOk result (number < length marks.new.items) }
{
    let count = number as usize + 1;
    if count > marks.len() {
        marks.resize(count, false)?;
    }
    Ok(())
}

impl MarkedSet {
    /// No number. Takes no memory.
    pub fn new(alloc: Global) -> Self
        ensures { result ≡ [] }
    {
        MarkedSet {
            numbers: Vec::new(alloc),
            marks: Vec::new(alloc),
        }
    }

    /// Puts a number last, unless it is there already, and says whether it was new. For want of memory it is refused, and the set stays as it was.
    pub fn insert(&mut self, number: u32) -> Result<bool, AllocError>
        ensures added { IfOk result (λ is_new. MatchBool is_new
            ((self.new ≡ self.old ++ number ∷ []) × (Contains self.old number → ⊥))
            ((self.new ≡ self.old) × Contains self.old number)) }
        ensures refused { OnErr result (self.new ≡ self.old) }
    {
        if self.contains(number) {
            return Ok(false);
        }
        make_room(&mut self.marks, number)?;
        self.numbers.push(number)?;
        self.marks[number as usize] = true;
        Ok(true)
    }

    /// Whether a number is there.
    pub fn contains(&self, number: u32) -> bool
        ensures { IsTrue result ↔ Contains self.now number }
    {
        self.marks.get(number as usize).copied().unwrap_or(false)
    }

    /// The number at an index, from 0.
    pub fn get(&self, at: usize) -> Option<u32>
        ensures value { result ≡ slice_get self.now at }
        ensures distinct { IsDistinct nat_eq self.now }
        ensures few { length self.now < 2 ^ 63 }
    {
        self.numbers.get(at).copied()
    }

    /// How many numbers there are.
    pub fn len(&self) -> usize
        ensures value { result ≡ length self.now }
        ensures distinct { IsDistinct nat_eq self.now }
        ensures few { length self.now < 2 ^ 63 }
    {
        self.numbers.len()
    }

    /// The numbers.
    pub fn as_slice(&self) -> &[u32]
        ensures value { result.now ≡ self.now }
        ensures distinct { IsDistinct nat_eq self.now }
    {
        self.numbers.as_slice()
    }
}
