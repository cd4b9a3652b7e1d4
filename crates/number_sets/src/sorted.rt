//! Numbers in ascending order.
ghost use Rattle.std.specs.Prelude.{◌≡◌, ◌==◌, ◌↔◌, ℕ, Contains, length, position};
ghost use Rattle.std.specs.List.Sorted.{IsStrictlyIncreasing};

use std::marker::Model;

/// Numbers in ascending order, each once. Contracts see the list.
///
/// A look-up goes by halves: it takes time with the logarithm of how many numbers there are, whichever they are.
#[derive(Drop)]
pub struct SortedSet {
    numbers: Vec<u32>,
}

impl Model for SortedSet {
    ghost use Rattle.std.specs.Prelude.{List, ℕ};
    ghost use Rattle.std.specs.List.Sorted.{IsStrictlyIncreasing};

    ghost Value = { List ℕ };

    ghost view = { λ s. s.numbers.items };

    ghost invariant = { λ s. IsStrictlyIncreasing s.numbers.items };
}

impl SortedSet {
    /// The numbers of a list. Takes no memory.
    pub fn new(mut numbers: Vec<u32>) -> Self
        ensures same { (n : ℕ) → Contains result n ↔ Contains numbers.items n }
        ensures ascending { IsStrictlyIncreasing result }
    {
        numbers.sort_unstable();
        numbers.dedup();
        SortedSet { numbers }
    }

    /// How many numbers there are.
    pub fn len(&self) -> usize
        ensures { result ≡ length self.now }
    {
        self.numbers.len()
    }

    /// The numbers.
    pub fn as_slice(&self) -> &[u32]
        ensures value { result.now ≡ self.now }
        ensures ascending { IsStrictlyIncreasing self.now }
    {
        self.numbers.as_slice()
    }

    /// The index of a number, from 0.
    pub fn index_of(&self, number: u32) -> Option<usize>
        ensures { result ≡ position (λ x. number == x) self.now }
    {
        match self.numbers.binary_search(&number) {
            Ok(at) => Some(at),
            Err(_) => None,
        }
    }
}
