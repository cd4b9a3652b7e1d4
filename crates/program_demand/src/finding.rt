//! The demand of a query.
ghost use Rattle.std.specs.Prelude.{◌≡◌, ◌≢◌, ◌≤◌, ℕ, length, Err, IfOk, IsErr};
ghost use Rattle.lists.specs.Lists.{Has, HasMore};
ghost use Rattle.spds_rules.specs.declared.node.Node.{Node as AnyNode};
ghost use Rattle.spds_rules.specs.Demand.{Demand as Demanded};
ghost use Rattle.spds_rules.specs.Edges.{IsEdge};
ghost use Rattle.spds_rules.specs.Nodes.{IsNode};
ghost use Rattle.spds_rules.specs.Stores.{IsStore};
ghost use Rattle.demand_set.specs.Numbers.{AreEdgesAt};
ghost use Rattle.demand_set.specs.Walks.{HasAtMost, IsWalk, walk_of};
ghost use Rattle.demand_set.specs.Demands.{IsDemandOf};

use super::program::ProgramGraph;
use demand_set::{Demand, DemandError, Walked, walk_numbered};
use link_program::Linked;
use spds_rules::{Node, Reach};
use std::alloc::Global;

// What the targets demand, found by a walk over the program.
fn walk_program(
    alloc: Global,
    linked: &Linked,
    targets: &[Node],
    reach: Reach,
    budget: u32,
) -> Result<Walked, DemandError>
    ensures walked { IfOk result (λ w. IsWalk (IsEdge linked.now reach) (IsStore linked.now) targets.now (walk_of w)) }
    ensures numbered { IfOk result (λ w. AreEdgesAt w.nodes w.edges w.numbered) }
    ensures within { IfOk result (λ w. length w.nodes ≤ budget) }
    ensures over { (b : ℕ) → result ≡ Err (DemandError.OverBudget b) → (b ≡ budget) × HasMore (Demanded linked.now (record { targets = targets.now; reach = reach })) budget }
    ensures beyond { HasMore (Demanded linked.now (record { targets = targets.now; reach = reach })) budget → IsErr result }
    ensures enough { (b : ℕ) → HasAtMost (Demanded linked.now (record { targets = targets.now; reach = reach })) budget → result ≢ Err (DemandError.OverBudget b) }
{
    let mut graph = ProgramGraph { linked, reach };
    walk_numbered(alloc, &mut graph, targets, budget)
}

/// What the targets demand of a program, as `walk` finds it over the edges and the stores of the program, and the sites of which start nodes are
/// demanded. `reach` says whether back edges count among the edges. The error is `OverBudget` exactly where more nodes are demanded than `budget`, and else `NoMemory`. Costs one look-up for each edge,
/// one for each node, and the time in which the sites are sorted.
pub fn demand(
    alloc: Global,
    linked: &Linked,
    targets: &[Node],
    reach: Reach,
    budget: u32,
) -> Result<Demand, DemandError>
    requires nodes { (n : AnyNode) → Has targets.now n → IsNode linked.now n }
    ensures demanded { IfOk result (λ d. IsDemandOf linked.now (record { targets = targets.now; reach = reach }) d) }
    ensures within { IfOk result (λ d. length d.nodes ≤ budget) }
    ensures over { (b : ℕ) → result ≡ Err (DemandError.OverBudget b) → (b ≡ budget) × HasMore (Demanded linked.now (record { targets = targets.now; reach = reach })) budget }
    ensures beyond { HasMore (Demanded linked.now (record { targets = targets.now; reach = reach })) budget → IsErr result }
    ensures enough { (b : ℕ) → HasAtMost (Demanded linked.now (record { targets = targets.now; reach = reach })) budget → result ≢ Err (DemandError.OverBudget b) }
{
    linked.tell_form();
    let walk = walk_program(alloc, linked, targets, reach, budget)?;
    Ok(Demand::of_walk(alloc, linked, walk)?)
}
