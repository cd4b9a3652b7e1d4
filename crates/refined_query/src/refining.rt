//! One round.
ghost use Rattle.std.specs.Prelude.{IfOk};
ghost use Rattle.link_rules.specs.WellLinked.{IsWellLinked};
ghost use Rattle.refine_rules.specs.Refined.{IsRefined};

use super::keeping::all_kept;
use link_narrow::narrow;
use link_program::Linked;
use lists::NoMemory;
use query_core::Hands;
use spds_solve::Gate;
use std::marker::Sync;
use std::thread::Threads;

/// The program that is left where each call of virtual or interface mode keeps those of its targets that the answer of its receiver leads to (the answers
/// are those of Späth, Ali and Bodden 2019; that calls go by them is this project's own): the methods that look-up finds from the class of an
/// object of one of the sites, where that is below the class that is called. A call whose receiver's query demands more nodes than `budget` keeps its
/// targets. Each query is solved in pieces side by side. Want of memory is the only refusal.
pub fn refine<R: Threads + Sync, G: Gate>(
    hands: &Hands<'_, R, G>,
    linked: &Linked,
    budget: u32,
) -> Result<Linked, NoMemory>
    requires { IsWellLinked linked.now }
    ensures { IfOk result (IsRefined linked.now budget) }
{
    let kept = all_kept(hands, linked, budget)?;
    narrow(hands.alloc, linked, &kept)
}
