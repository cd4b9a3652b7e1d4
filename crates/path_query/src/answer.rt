//! Which sites are at the end of a path.
ghost use Rattle.std.specs.Prelude.{◌≡◌, ◌≢◌, ◌≤◌, ◌<◌, ◌^◌, ℕ, Err, IfOk, IsErr, Some, length, slice_get};
ghost use Rattle.link_rules.specs.WellLinked.{IsWellLinked};
ghost use Rattle.spds_rules.specs.declared.node.Node.{Node as ANode};
ghost use Rattle.spds_rules.specs.Answers.{AreSites};
ghost use Rattle.spds_rules.specs.Demand.{Asked};
ghost use Rattle.spds_rules.specs.Nodes.{IsNode};
ghost use Rattle.run_covers.specs.Covers.{IsCovered};
ghost use Rattle.path_query.specs.Numbers.{AreNumbersOf, IsPosed};
ghost use Rattle.path_query.specs.Paths.{AsksPath, IsAtPath, IsPathAffordable, IsPathAnswer, IsPathOver, LeadsAllRuns};

use super::hops::behind;
use super::posed::Posed;
use super::sites::{held, sites_at};
use super::targets::path_demand;
use demand_set::{Demand, DemandError};
use jim_ast::List;
use link_program::Linked;
use link_sites::Site;
use lists::NoMemory;
use query_core::Hands;
use spds_rules::Node;
use spds_solve::{Gate, Solved};
use std::alloc::Global;
use std::marker::Sync;
use std::thread::Threads;

/// The sites at the end of a path, in the order in which they are printed, and how many nodes were demanded.
#[derive(Drop)]
pub struct PathAnswer {
    pub sites: List<Site>,
    pub demanded: u32,
}

// The numbers of the sites at the end of the fields from what the node with this number may hold, ascending.
fn at_end(alloc: Global, posed: &Posed<'_>, node: u32, fields: &[u32]) -> Result<Vec<u32>, NoMemory>
    requires few { length posed.now.demand.now.sites < 2 ^ 32 }
    ensures { IfOk result (λ numbers. (q : Asked) (n : ANode) → IsPosed posed.now.linked.now q posed.now.demand.now posed.now.solved.now
        → slice_get posed.now.demand.now.nodes node ≡ Some n
        → AreNumbersOf posed.now.demand.now.sites (IsAtPath posed.now.linked.now q n fields.now) numbers.items) }
{
    let mut numbers = held(alloc, posed.demand, posed.solved, node)?;
    for field in fields {
        numbers = behind(alloc, posed, numbers.as_slice(), *field)?;
    }
    Ok(numbers)
}

// The sites at the end of the path, over a demand that is solved.
fn sites_over(
    alloc: Global,
    linked: &Linked,
    demand: &Demand,
    solved: &Solved,
    node: Node,
    fields: &[u32],
) -> Result<Vec<Site>, NoMemory>
    requires posed { (q : Asked) × AsksPath linked.now node fields.now q × IsPosed linked.now q demand.now solved.now }
    requires few { length demand.now.nodes < 2 ^ 32 }
    ensures { IfOk result (λ sites. (q : Asked) → AsksPath linked.now node fields.now q → IsPosed linked.now q demand.now solved.now
        → AreSites linked.now (IsAtPath linked.now q node fields.now) sites.items) }
{
    let number = demand.number_of(node).unwrap();
    let posed = Posed {
        linked,
        demand,
        solved,
    };
    let numbers = at_end(alloc, &posed, number, fields)?;
    sites_at(alloc, demand, numbers.as_slice())
}

/// The sites at the end of a path of fields from what the node of a local may hold, with the size of the demand of the node and of both ends of each store
/// of the fields. Fields are named by their numbers, 0 being the elements of arrays. From site to site a path goes over a store of the field whose base and
/// argument may be at its ends under one call string (the two systems are those of Späth, Ali and Bodden 2019; the rule is this project's own).
///
/// The error is `OverBudget` exactly where more nodes are demanded than `budget`, and else `NoMemory`. Where the targets of calls cover what runs do, the
/// answer holds for each run of any length: where the fields lead from what the local holds in a frame that stands there to an object, it is of one of the
/// sites.
pub fn path_sites<R: Threads + Sync, G: Gate>(
    hands: &Hands<'_, R, G>,
    linked: &Linked,
    node: Node,
    fields: &[u32],
    budget: u32,
) -> Result<PathAnswer, DemandError>
    requires well { IsWellLinked linked.now }
    requires node { IsNode linked.now node }
    ensures answer { IfOk result (λ answer. IsPathAnswer linked.now node fields.now answer.sites answer.demanded) }
    ensures within { IfOk result (λ answer. answer.demanded ≤ budget) }
    ensures over { (spent : ℕ) → result ≡ Err (DemandError.OverBudget spent) → (spent ≡ budget) × IsPathOver linked.now node fields.now budget }
    ensures beyond { IsPathOver linked.now node fields.now budget → IsErr result }
    ensures enough { (spent : ℕ) → IsPathAffordable linked.now node fields.now budget → result ≢ Err (DemandError.OverBudget spent) }
    ensures sound { IsCovered linked.now → IfOk result (λ answer. LeadsAllRuns linked.now node fields.now answer.sites) }
{
    let demand = path_demand(hands.alloc, linked, node, fields, budget)?;
    let solved = hands.solve(linked, &demand)?;
    let sites = sites_over(hands.alloc, linked, &demand, &solved, node, fields)?;
    let demanded = demand.nodes().len() as u32;
    Ok(PathAnswer {
        sites: List::from_vec(sites),
        demanded,
    })
}
