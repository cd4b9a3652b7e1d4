//! What a query is solved with: in pieces side by side, or in the caller's thread.
ghost use Rattle.std.specs.Prelude.{IfOk};
ghost use Rattle.demand_set.specs.Demands.{IsDemandOf};
ghost use Rattle.link_rules.specs.WellLinked.{IsWellLinked};
ghost use Rattle.spds_rules.specs.Demand.{Asked};
ghost use Rattle.spds_solve.specs.Solved.{IsSolved};

use demand_set::Demand;
use link_program::Linked;
use lists::NoMemory;
use spds_solve::{Gate, Solved, solve_with};
use std::alloc::Global;
use std::marker::Sync;
use std::thread::Threads;

/// The threads that pieces are given to, where memory comes from, and the gate that is told of each piece as it begins. No answer goes by the threads or
/// the gate.
#[derive(Clone, Copy)]
pub struct Hands<'a, R, G> {
    pub threads: &'a R,
    pub alloc: Global,
    pub gate: &'a G,
}

impl<R: Threads + Sync, G: Gate> Hands<'_, R, G> {
    /// The meets of the demand and the two systems of its sites, exactly. Want of memory is the only refusal.
    pub fn solve(&self, linked: &Linked, demand: &Demand) -> Result<Solved, NoMemory>
        requires well { IsWellLinked linked.now }
        requires demanded { (q : Asked) × IsDemandOf linked.now q demand.now }
        ensures { IfOk result (λ solved. (q : Asked) → IsDemandOf linked.now q demand.now → IsSolved linked.now q demand.now solved) }
    {
        solve_with(self.threads, self.alloc, linked, demand, self.gate)
    }
}

/// Where memory comes from, and the call by which a demand is solved.
#[derive(Clone, Copy)]
pub(crate) struct Solver<'a, F> {
    pub alloc: Global,
    pub solve: &'a F,
}
