//! The meets that were found.
ghost use Rattle.std.specs.Prelude.{◌≡◌, ◌↔◌, [], ◌++◌, ◌∷◌, IsTrue, OnOk};
ghost use Rattle.lists.specs.Lists.{Has, IsApart};
ghost use Rattle.spds_solve.specs.Mets.{numbers, numbers_of};

use super::met::Met;
use indexmap::IndexSet;
use lists::NoMemory;
use spds_tables::Met as Numbers;
use std::alloc::Global;
use std::marker::Model;

/// Meets in the order in which they were found, each once.
#[derive(Drop)]
pub struct Mets {
    /// Their numbers.
    keys: IndexSet<Numbers>,
    found: Vec<Met>,
}

impl Model for Mets {
    ghost use Rattle.std.specs.Prelude.{◌≡◌, List};
    ghost use Rattle.lists.specs.Lists.{IsApart};
    ghost use Rattle.spds_solve.specs.Mets.{numbers_of};
    ghost use Rattle.spds_solve.specs.declared.met.Met.{Met};

    ghost Value = { List Met };

    ghost view = { λ s. s.found.items };

    ghost invariant = { λ s. (s.keys.keys ≡ numbers_of s.found.items) × IsApart s.keys.keys };
}

impl Mets {
    /// No meet. Takes no memory.
    pub fn new(alloc: Global) -> Self
        ensures { result ≡ [] }
    {
        Mets {
            keys: IndexSet::new(alloc),
            found: Vec::new(alloc),
        }
    }

    /// The meets.
    pub fn as_slice(&self) -> &[Met]
        ensures value { result.now ≡ self.now }
        ensures apart { IsApart (numbers_of self.now) }
    {
        self.found.as_slice()
    }

    /// Their numbers.
    pub fn numbers(&self) -> &[Numbers]
        ensures { result.now ≡ numbers_of self.now }
    {
        self.keys.as_slice()
    }

    /// Whether the meet with these numbers is there. Takes no memory.
    pub fn contains(&self, met: Numbers) -> bool
        ensures { IsTrue result ↔ Has (numbers_of self.now) met }
    {
        self.keys.contains(&met)
    }

    /// Puts a meet last.
    pub fn add(&mut self, met: Met) -> Result<(), NoMemory>
        requires { Has (numbers_of self.old) (numbers met) → ⊥ }
        ensures { OnOk result (self.new ≡ self.old ++ met ∷ []) }
    {
        let numbers = met.numbers();
        self.keys.reserve(1)?;
        self.found.push(met)?;
        self.keys.insert(numbers)?;
        Ok(())
    }
}
