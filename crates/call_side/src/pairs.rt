//! The pairs of entries that a search has seen.
ghost use Rattle.std.specs.Prelude.{◌≡◌, ◌<◌, ◌^◌, ℕ, List, [], IsTrue, OnOk, length, slice_get};
ghost use Rattle.lists.specs.Lists.{Has};
ghost use Rattle.call_side.specs.Search.{Asked, IsTrail, MayCome, SpellBoth};
ghost use Rattle.call_side.specs.Trails.{AreKept};

use super::origin::Origin;
use auto_table::Entry;
use indexmap::IndexSet;
use lists::NoMemory;
use std::alloc::Global;

/// An entry of each of two tables.
#[derive(Clone, Copy, Debug, PartialEq, Eq, Hash)]
pub struct Pair {
    pub first: Entry,
    pub second: Entry,
}

/// Pairs in the order in which they were found, each once, with their origins. A pair to begin with has none.
#[derive(Drop)]
pub struct Seen {
    pub pairs: IndexSet<Pair>,
    pub origins: Vec<Option<Origin>>,
}

// The marks of two pushed entries differ: no word is read by both.
fn clashes(pair: Pair) -> bool
    ensures { IsTrue result → (q : Asked) (word : List ℕ) → SpellBoth q pair word → ⊥ }
{
    match pair.first {
        Entry::Base(_) => false,
        Entry::Pushed { node: _, mark } => match pair.second {
            Entry::Base(_) => false,
            Entry::Pushed {
                node: _,
                mark: other,
            } => mark != other,
        },
    }
}

impl Seen {
    /// No pairs. Takes no memory.
    pub fn new(alloc: Global) -> Self
        ensures pairs { result.pairs.keys ≡ [] }
        ensures origins { result.origins.items ≡ [] }
    {
        Seen {
            pairs: IndexSet::new(alloc),
            origins: Vec::new(alloc),
        }
    }

    /// The pair with the number, from 0. Takes no memory.
    pub fn pair(&self, number: usize) -> Option<Pair>
        ensures value { result ≡ slice_get self.now.pairs.keys number }
        ensures few { length self.now.pairs.keys < 2 ^ 63 }
    {
        self.pairs.as_slice().get(number).copied()
    }

    /// Puts a pair last, unless it is there already or nothing can be read from it.
    pub fn add(&mut self, pair: Pair, origin: Option<Origin>) -> Result<(), NoMemory>
        ensures kept { OnOk result (AreKept self.old.pairs.keys self.new.pairs.keys) }
        ensures there { OnOk result ((q : Asked) (word : List ℕ) → SpellBoth q pair word → Has self.new.pairs.keys pair) }
        ensures trail { OnOk result ((q : Asked) → MayCome q self.old.pairs.keys pair origin → IsTrail q self.old.pairs.keys self.old.origins.items → IsTrail q self.new.pairs.keys self.new.origins.items) }
    {
        if clashes(pair) {
            return Ok(());
        }
        if self.pairs.insert(pair)? {
            self.origins.push(origin)?;
        }
        Ok(())
    }
}
