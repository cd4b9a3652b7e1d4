//! A work of a call system.
ghost use Rattle.std.specs.Prelude.{◌≡◌, ◌↔◌, ◌++◌, ◌∷◌, ℕ, List, [], false, true, IfOk, OnErr, OnOk};
ghost use Rattle.lists.specs.Lists.{Has};
ghost use Rattle.call_side.specs.Coded.{HasWord, IsCodedTable};
ghost use Rattle.call_side.specs.Openings.{AreOpenings};
ghost use Rattle.post_star.specs.Derivations.{Leads};

use super::arrivals::arrivals;
use super::numbers::{BASES, NODES};
use super::opening::{Opening, openings};
use super::stock::CallCommon;
use auto_table::Table;
use indexmap::IndexSet;
use lists::NoMemory;
use post_star::{Start, Work};
use std::alloc::{AllocError, Global};
use std::marker::Model;
use std::sync::Arc;
use weight_laws::Reach;

/// A saturation of a call system that goes on: starts come in, and `settle` brings the table to the end for all of them.
#[derive(Drop)]
pub struct CallWork {
    common: Arc<CallCommon>,
    /// The work over split marks.
    work: Work<Reach>,
}

impl Model for CallWork {
    ghost use Rattle.post_star.specs.Jobs.{Job};
    ghost use Rattle.weight_laws.specs.declared.reach.Reach.{Reach};

    ghost Value = { Job Reach };

    ghost use Rattle.call_side.specs.Coded.{IsCodedWork};

    ghost view = { λ w. record { steps = w.common.value.steps; last = w.common.value.last; rules = w.common.value.rules; starts = w.work.starts; settled = w.work.settled } };

    ghost invariant = { λ w. IsCodedWork w.common.value w.work };
}

impl CallWork {
    /// A work over what it has in common with others, without starts. It is settled.
    pub fn new(alloc: Global, common: Arc<CallCommon>) -> Result<Self, NoMemory>
        ensures { IfOk result (λ w. w ≡ record { steps = common.value.steps; last = common.value.last; rules = common.value.rules; starts = []; settled = true }) }
    {
        let split = common.split()?;
        Ok(CallWork {
            common,
            work: Work::new(alloc, split),
        })
    }

    /// Puts the start last. The work is then unsettled; after want of memory it is as before.
    ///
    /// The base of the start leads to the last one by some word.
    pub fn add_start(&mut self, start: Start<Reach>) -> Result<(), NoMemory>
        requires led { (word : List ℕ) × Leads self.old.steps start.base word self.old.last }
        ensures ok { OnOk result (self.new ≡ record self.old { starts = self.old.starts ++ start ∷ []; settled = false }) }
        ensures err { OnErr result (self.new ≡ self.old) }
    {
        if start.node >= NODES || start.base >= BASES {
            return Err(AllocError);
        }
        self.work.add_start(start)
    }

    /// Brings the table to the end for all starts. After want of memory the work is unsettled, with the same starts.
    pub fn settle(&mut self) -> Result<(), NoMemory>
        ensures ok { OnOk result (self.new ≡ record self.old { settled = true }) }
        ensures err { OnErr result (self.new ≡ record self.old { settled = false }) }
    {
        self.work.settle()
    }

    /// The table of a settled work, over split marks.
    pub fn saturated(&self) -> &Table<Reach>
        requires { self.now.settled ≡ true }
        ensures { IsCodedTable self.now result.now }
    {
        self.work.table()
    }

    /// The nodes that some word is at.
    pub fn arrivals(&self, alloc: Global) -> Result<IndexSet<u32>, NoMemory>
        requires { self.now.settled ≡ true }
        ensures { IfOk result (λ nodes. (n : ℕ) → Has nodes.keys n ↔ ((word : List ℕ) × HasWord self.now n word)) }
    {
        arrivals(alloc, self.saturated())
    }

    /// With which marks the words at nodes begin: each word as one opening of its node says. The common mark is looked through.
    pub fn openings(&self, alloc: Global) -> Result<Vec<Opening>, NoMemory>
        requires { self.now.settled ≡ true }
        ensures { IfOk result (λ openings. AreOpenings self.now openings.items) }
    {
        openings(alloc, self.saturated())
    }
}
