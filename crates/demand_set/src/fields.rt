//! The fields that a walk has found.
ghost use Rattle.std.specs.Prelude.{◌≡◌, ◌++◌, ◌∷◌, [], IfOk, MatchBool};
ghost use Rattle.lists.specs.Lists.{Has, IsApart};

use indexmap::IndexSet;
use std::alloc::{AllocError, Global};
use std::marker::Model;

/// Fields in the order in which they were found, each once.
#[derive(Drop)]
pub struct Fields {
    keys: IndexSet<u32>,
}

impl Model for Fields {
    ghost use Rattle.std.specs.Prelude.{List, ℕ};
    ghost use Rattle.lists.specs.Lists.{IsApart};

    ghost Value = { List ℕ };

    ghost view = { λ s. s.keys.keys };

    ghost invariant = { λ s. IsApart s.keys.keys };
}

impl Fields {
    /// No field. Takes no memory.
    pub fn new(alloc: Global) -> Self
        ensures { result ≡ [] }
    {
        Fields {
            keys: IndexSet::new(alloc),
        }
    }

    /// The fields.
    pub fn as_slice(&self) -> &[u32]
        ensures value { result.now ≡ self.now }
        ensures apart { IsApart self.now }
    {
        self.keys.as_slice()
    }

    /// Puts a field last, unless it is there already, and says whether it was new. Costs one look-up.
    pub fn add(&mut self, field: u32) -> Result<bool, AllocError>
        ensures { IfOk result (λ is_new. MatchBool is_new
            ((self.new ≡ self.old ++ field ∷ []) × (Has self.old field → ⊥))
            ((self.new ≡ self.old) × Has self.old field)) }
    {
        Ok(self.keys.insert(field)?)
    }
}
