//! Where objects may be by call strings alone.
ghost use Rattle.std.specs.Prelude.{◌≡◌, ◌↔◌, ◌⊎◌, [], IfOk, IsTrue, OnOk};
ghost use Rattle.lists.specs.Lists.{Has};
ghost use Rattle.spds_solve.specs.declared.arrivals.Arrival.{Arrival as AnArrival};

use indexmap::IndexSet;
use lists::NoMemory;
use std::alloc::Global;
use std::marker::Model;

/// Some call string of an object of the site is at the nodes of the cell of call systems.
#[derive(Clone, Copy, Debug, PartialEq, Eq, Hash)]
pub struct Arrival {
    pub site: u32,
    pub cell: u32,
}

/// Arrivals, each once.
#[derive(Drop)]
pub struct Arrivals {
    keys: IndexSet<Arrival>,
}

impl Model for Arrivals {
    ghost use Rattle.std.specs.Prelude.{List};
    ghost use Rattle.spds_solve.specs.declared.arrivals.Arrival.{Arrival};

    ghost Value = { List Arrival };

    ghost view = { λ s. s.keys.keys };
}

impl Arrivals {
    /// No arrival. Takes no memory.
    pub fn new(alloc: Global) -> Self
        ensures { result ≡ [] }
    {
        Arrivals {
            keys: IndexSet::new(alloc),
        }
    }

    /// Puts an arrival in.
    pub fn add(&mut self, arrival: Arrival) -> Result<(), NoMemory>
        ensures { OnOk result ((a : AnArrival) → Has self.new a ↔ (Has self.old a ⊎ (a ≡ arrival))) }
    {
        self.keys.insert(arrival)?;
        Ok(())
    }

    /// Whether the arrival is there. Takes no memory.
    pub fn contains(&self, arrival: Arrival) -> bool
        ensures { IsTrue result ↔ Has self.now arrival }
    {
        self.keys.contains(&arrival)
    }

    /// All of them.
    pub fn as_slice(&self) -> &[Arrival]
        ensures { result.now ≡ self.now }
    {
        self.keys.as_slice()
    }
}
