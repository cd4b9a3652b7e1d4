//! The start nodes that a call system has.
ghost use Rattle.std.specs.Prelude.{◌≡◌, ◌↔◌, [], IfOk, IsTrue, MatchBool, ◌++◌, ◌∷◌};
ghost use Rattle.lists.specs.Lists.{Has, IsApart};

use super::numbered::StartAt;
use indexmap::IndexSet;
use lists::NoMemory;
use std::alloc::Global;
use std::marker::Model;

/// Start nodes in the order in which they came, each once.
#[derive(Drop)]
pub struct Begun {
    keys: IndexSet<StartAt>,
}

impl Model for Begun {
    ghost use Rattle.std.specs.Prelude.{List};
    ghost use Rattle.lists.specs.Lists.{IsApart};
    ghost use Rattle.spds_tables.specs.declared.numbered.StartAt.{StartAt};

    ghost Value = { List StartAt };

    ghost view = { λ s. s.keys.keys };

    ghost invariant = { λ s. IsApart s.keys.keys };
}

impl Begun {
    /// No node. Takes no memory.
    pub fn new(alloc: Global) -> Self
        ensures { result ≡ [] }
    {
        Begun {
            keys: IndexSet::new(alloc),
        }
    }

    /// The nodes.
    pub fn as_slice(&self) -> &[StartAt]
        ensures value { result.now ≡ self.now }
        ensures apart { IsApart self.now }
    {
        self.keys.as_slice()
    }

    /// Whether the node is there.
    pub fn contains(&self, start: StartAt) -> bool
        ensures { IsTrue result ↔ Has self.now start }
    {
        self.keys.contains(&start)
    }

    /// Puts a node last, unless it is there already, and says whether it was new.
    pub fn add(&mut self, start: StartAt) -> Result<bool, NoMemory>
        ensures { IfOk result (λ is_new. MatchBool is_new
            ((self.new ≡ self.old ++ start ∷ []) × (Has self.old start → ⊥))
            ((self.new ≡ self.old) × Has self.old start)) }
    {
        Ok(self.keys.insert(start)?)
    }
}
