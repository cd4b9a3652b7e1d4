//! What is kept for numbers.
ghost use Rattle.std.specs.Prelude.{◌≡◌, [], OnErr, OnOk};
ghost use Rattle.std.specs.Option.{option_copied};
ghost use Rattle.number_sets.specs.Tables.{Puts, kept_for};

use std::alloc::{AllocError, Global};
use std::collections::BTreeMap;
use std::marker::Model;

/// What is kept for some numbers. A look-up takes the logarithm of how many numbers there are, whichever they are. Contracts see the
/// numbers in order, each with what is kept for it.
#[derive(Drop)]
pub struct NumberTable<T: Drop> {
    kept: BTreeMap<u32, T>,
}

impl<T: Drop> Model for NumberTable<T> {
    ghost use Rattle.number_sets.specs.Tables.{Entries};

    ghost Value = { Entries T };

    ghost view = { λ t. t.kept.entries };
}

impl<T: Drop> NumberTable<T> {
    /// Nothing is kept. Takes no memory.
    pub fn new(alloc: Global) -> Self
        ensures { result ≡ [] }
    {
        NumberTable {
            kept: BTreeMap::new(alloc),
        }
    }

    /// What is kept for the number, if there is anything.
    pub fn get(&self, number: u32) -> Option<&T>
        ensures { option_copied result ≡ kept_for self.now number }
    {
        self.kept.get(&number)
    }

    /// Keeps the value for the number. Where memory is wanting, nothing has changed.
    pub fn put(&mut self, number: u32, value: T) -> Result<(), AllocError>
        ensures put { OnOk result (Puts self.old number value self.new) }
        ensures same { OnErr result (self.new ≡ self.old) }
    {
        self.kept.insert(number, value)?;
        Ok(())
    }
}
