//! What a query answers over the program that is left.
ghost use Rattle.std.specs.Prelude.{◌≡◌, ◌≢◌, ◌≤◌, ◌<◌, ◌^◌, ℕ, Err, IfOk, IsErr, length};
ghost use Rattle.demand_set.specs.Demands.{IsDemandOf};
ghost use Rattle.demand_set.specs.Walks.{HasAtMost};
ghost use Rattle.link_rules.specs.WellLinked.{IsWellLinked};
ghost use Rattle.query_core.specs.Answers.{HoldsAllRuns};
ghost use Rattle.narrow_rules.specs.Narrowed.{LacksPairs, pairs_in};
ghost use Rattle.spds_rules.specs.Demand.{about};
ghost use Rattle.refined_query.specs.Answers.{IsAnswerOver, IsDemandedBy, IsRefinedAffordable, IsRefinedAnswer, IsRefinedOver};
ghost use Rattle.refined_query.specs.Rounds.{StandsOrIsLost};
ghost use Rattle.run_covers.specs.Covers.{IsCovered};
ghost use Rattle.spds_rules.specs.Answers.{AreAnswered};
ghost use Rattle.lists.specs.Lists.{HasMore};
ghost use Rattle.spds_rules.specs.Nodes.{IsNode};

use super::answered::sites_over;
use super::pairs::lacking;
use super::rounds::{left_of, rounds_of};
use demand_set::{Demand, DemandError, Reach};
use jim_ast::List;
use link_program::Linked;
use link_sites::Site;
use lists::NoMemory;
use program_demand::demand;
use query_core::Hands;
use spds_rules::Node;
use spds_solve::Gate;
use std::marker::Sync;
use std::thread::Threads;

/// The sites of an answer, in the order in which they are printed, how many nodes were demanded over the program that is left, and how many pairs of a call
/// and a target it lacks of the first one.
#[derive(Drop)]
pub struct RefinedAnswer {
    pub narrowed: usize,
    pub sites: List<Site>,
    pub demanded: u32,
}

/// The sites of an answer over one program, and how many nodes were demanded.
#[derive(Drop)]
struct Found {
    sites: List<Site>,
    demanded: u32,
}

// The sites that the query of the node answers, over its demand, with its size.
fn found_over<R: Threads + Sync, G: Gate>(
    hands: &Hands<'_, R, G>,
    linked: &Linked,
    demand: &Demand,
    node: Node,
) -> Result<Found, NoMemory>
    requires well { IsWellLinked linked.now }
    requires demanded { IsDemandOf linked.now (about node) demand.now }
    requires few { length demand.now.nodes < 2 ^ 32 }
    ensures sites { IfOk result (λ found. AreAnswered linked.now (about node) node found.sites) }
    ensures size { IfOk result (λ found. found.demanded ≡ length demand.now.nodes) }
{
    let sites = sites_over(hands, linked, demand, node)?;
    Ok(Found {
        sites: List::from_vec(sites),
        demanded: demand.nodes().len() as u32,
    })
}

// The sites that the query of the node answers over a program that is left. Where the node's method has lost its statements, there are none.
fn found_in<R: Threads + Sync, G: Gate>(
    hands: &Hands<'_, R, G>,
    linked: &Linked,
    node: Node,
    budget: u32,
) -> Result<Found, DemandError>
    requires well { IsWellLinked linked.now }
    requires node { StandsOrIsLost linked.now node }
    ensures answer { IfOk result (λ found. IsAnswerOver linked.now node found.sites found.demanded) }
    ensures within { IfOk result (λ found. found.demanded ≤ budget) }
    ensures over { (spent : ℕ) → result ≡ Err (DemandError.OverBudget spent) → (spent ≡ budget) × HasMore (IsDemandedBy linked.now node) budget }
    ensures beyond { HasMore (IsDemandedBy linked.now node) budget → IsErr result }
    ensures enough { (spent : ℕ) → HasAtMost (IsDemandedBy linked.now node) budget → result ≢ Err (DemandError.OverBudget spent) }
{
    if linked.code(node.place.method).is_empty() {
        return Ok(Found {
            sites: List::from_vec(Vec::new(hands.alloc)),
            demanded: 0,
        });
    }
    let demand = demand(hands.alloc, linked, &[node], Reach::Plain, budget)?;
    Ok(found_over(hands, linked, &demand, node)?)
}

// The same over the program that is left.
fn answer_over<R: Threads + Sync, G: Gate>(
    hands: &Hands<'_, R, G>,
    linked: &Linked,
    left: &Linked,
    node: Node,
    budget: u32,
) -> Result<RefinedAnswer, DemandError>
    requires well { IsWellLinked left.now }
    requires node { StandsOrIsLost left.now node }
    requires fewer { pairs_in left.now ≤ pairs_in linked.now }
    ensures answer { IfOk result (λ answer. IsAnswerOver left.now node answer.sites answer.demanded) }
    ensures lacks { IfOk result (λ answer. LacksPairs linked.now left.now answer.narrowed) }
    ensures within { IfOk result (λ answer. answer.demanded ≤ budget) }
    ensures over { (spent : ℕ) → result ≡ Err (DemandError.OverBudget spent) → (spent ≡ budget) × HasMore (IsDemandedBy left.now node) budget }
    ensures beyond { HasMore (IsDemandedBy left.now node) budget → IsErr result }
    ensures enough { (spent : ℕ) → HasAtMost (IsDemandedBy left.now node) budget → result ≢ Err (DemandError.OverBudget spent) }
{
    let found = found_in(hands, left, node, budget)?;
    let narrowed = lacking(linked, left)?;
    Ok(RefinedAnswer {
        narrowed,
        sites: found.sites,
        demanded: found.demanded,
    })
}

/// The sites whose objects the node of a local may hold, over the program that so many rounds of refined calls leave, with the size of the demand of the
/// node there, and how many pairs of a call and a target these rounds took away (the answers are those of Späth, Ali and Bodden 2019; that calls go by them
/// is this project's own). A call whose receiver's query demands more nodes than `budget` keeps its targets. Where the node's method has lost its
/// statements, there is no site, and nothing is demanded.
///
/// The error is `OverBudget` exactly where more nodes are demanded over the program that is left than `budget`, and else `NoMemory`. Where the targets of
/// calls of the first program cover what its runs do, the answer holds for each run of it, of any length: whatever the local holds in a frame that stands
/// there is of one of the sites.
pub fn refined_sites<R: Threads + Sync, G: Gate>(
    hands: &Hands<'_, R, G>,
    linked: &Linked,
    node: Node,
    rounds: u32,
    budget: u32,
) -> Result<RefinedAnswer, DemandError>
    requires well { IsWellLinked linked.now }
    requires node { IsNode linked.now node }
    ensures answer { IfOk result (λ answer. IsRefinedAnswer linked.now rounds budget node answer.narrowed answer.sites answer.demanded) }
    ensures within { IfOk result (λ answer. answer.demanded ≤ budget) }
    ensures over { (spent : ℕ) → result ≡ Err (DemandError.OverBudget spent) → (spent ≡ budget) × IsRefinedOver linked.now rounds budget node }
    ensures beyond { IsRefinedOver linked.now rounds budget node → IsErr result }
    ensures enough { (spent : ℕ) → IsRefinedAffordable linked.now rounds budget node → result ≢ Err (DemandError.OverBudget spent) }
    ensures sound { IsCovered linked.now → IfOk result (λ answer. HoldsAllRuns linked.now node answer.sites) }
{
    let last = rounds_of(hands, linked, rounds, budget)?;
    answer_over(hands, linked, left_of(linked, &last), node, budget)
}
