//! The walk: what is demanded, found backwards from what is asked for.
ghost use Rattle.std.specs.Prelude.{◌≡◌, ◌≢◌, ◌≤◌, ℕ, length, Err, IfOk, IsErr, OnErr, []};
ghost use Rattle.lists.specs.Lists.{IsApart, HasMore};
ghost use Rattle.spds_rules.specs.Demand.{Demanded};
ghost use Rattle.demand_set.specs.Graphs.{AreSameEdges, AreSameStores, Asks};
ghost use Rattle.demand_set.specs.Numbers.{AreEdgesAt};
ghost use Rattle.demand_set.specs.Walks.{AsksFew, HasAtMost, IsWalk, walk_of};

use super::demanded::{DemandError, Walk, Walked};
use super::fields::Fields;
use super::graph::Graph;
use super::nodes::Nodes;
use super::searching::search;
use super::visiting::Found;
use jim_ast::List;
use lists::NoMemory;
use spds_rules::Node;
use std::alloc::Global;

// Nothing found. Takes no memory.
fn nothing(alloc: Global) -> Found
    ensures { (result.nodes ≡ []) × (result.edges.items ≡ []) × (result.numbered.items ≡ []) × (result.fields ≡ []) × (result.stores.items ≡ []) }
{
    Found {
        nodes: Nodes::new(alloc),
        edges: Vec::new(alloc),
        numbered: Vec::new(alloc),
        fields: Fields::new(alloc),
        stores: Vec::new(alloc),
    }
}

// What was found, as lists.
fn walked_of(alloc: Global, found: Found) -> Result<Walked, NoMemory>
    ensures fields_apart { IsApart found.fields }
    ensures nodes { IfOk result (λ w. w.nodes ≡ found.nodes) }
    ensures edges { IfOk result (λ w. w.edges ≡ found.edges.items) }
    ensures numbered { IfOk result (λ w. w.numbered ≡ found.numbered.items) }
    ensures fields { IfOk result (λ w. w.fields ≡ found.fields) }
    ensures stores { IfOk result (λ w. w.stores ≡ found.stores.items) }
{
    let fields = found.fields.as_slice().to_vec(alloc)?;
    Ok(Walked {
        nodes: found.nodes,
        edges: List::from_vec(found.edges),
        numbered: List::from_vec(found.numbered),
        fields: List::from_vec(fields),
        stores: List::from_vec(found.stores),
    })
}

/// What the targets demand: the least set of nodes that has them, the source of each edge into it, and, for each edge into it that loads a field,
/// the two nodes of each store of the field; with the edges into these nodes, the fields that are loaded along these, and the stores of these
/// fields. Each stands once; of the edges it also gives the numbers.
///
/// It learns of the graph from the graph alone. It asks for the edges into each node once, in the order of the answer, and for the stores of each
/// field once. Costs one look-up for each edge. The error is `OverBudget` exactly where more nodes are demanded than `budget`; then at most
/// `budget` nodes were asked for. The other error is `NoMemory`. After each error only demanded nodes were asked for, none twice.
pub fn walk_numbered<G: Graph>(
    alloc: Global,
    graph: &mut G,
    targets: &[Node],
    budget: u32,
) -> Result<Walked, DemandError>
    ensures same_edges { AreSameEdges (G.edge graph.old) (G.edge graph.new) }
    ensures same_stores { AreSameStores (G.store graph.old) (G.store graph.new) }
    ensures walked { IfOk result (λ w. IsWalk (G.edge graph.old) (G.store graph.old) targets.now (walk_of w)) }
    ensures numbered { IfOk result (λ w. AreEdgesAt w.nodes w.edges w.numbered) }
    ensures within { IfOk result (λ w. length w.nodes ≤ budget) }
    ensures over { (b : ℕ) → result ≡ Err (DemandError.OverBudget b)
        → (b ≡ budget) × HasMore (Demanded (G.edge graph.old) (G.store graph.old) targets.now) budget }
    ensures beyond { HasMore (Demanded (G.edge graph.old) (G.store graph.old) targets.now) budget → IsErr result }
    ensures enough { (b : ℕ) → HasAtMost (Demanded (G.edge graph.old) (G.store graph.old) targets.now) budget
        → result ≢ Err (DemandError.OverBudget b) }
    ensures asked { IfOk result (λ w. Asks (G.asked graph.old) w.nodes (G.asked graph.new)) }
    ensures asked_few { OnErr result (AsksFew (Demanded (G.edge graph.old) (G.store graph.old) targets.now) budget (G.asked graph.old) (G.asked graph.new)) }
{
    let mut found = nothing(alloc);
    search(alloc, graph, &mut found, targets, budget)?;
    Ok(walked_of(alloc, found)?)
}

/// What the targets demand, as `walk_numbered` finds it, as lists alone.
pub fn walk<G: Graph>(
    alloc: Global,
    graph: &mut G,
    targets: &[Node],
    budget: u32,
) -> Result<Walk, DemandError>
    ensures same_edges { AreSameEdges (G.edge graph.old) (G.edge graph.new) }
    ensures same_stores { AreSameStores (G.store graph.old) (G.store graph.new) }
    ensures walked { IfOk result (λ w. IsWalk (G.edge graph.old) (G.store graph.old) targets.now w) }
    ensures within { IfOk result (λ w. length w.nodes ≤ budget) }
    ensures over { (b : ℕ) → result ≡ Err (DemandError.OverBudget b)
        → (b ≡ budget) × HasMore (Demanded (G.edge graph.old) (G.store graph.old) targets.now) budget }
    ensures beyond { HasMore (Demanded (G.edge graph.old) (G.store graph.old) targets.now) budget → IsErr result }
    ensures enough { (b : ℕ) → HasAtMost (Demanded (G.edge graph.old) (G.store graph.old) targets.now) budget
        → result ≢ Err (DemandError.OverBudget b) }
    ensures asked { IfOk result (λ w. Asks (G.asked graph.old) w.nodes (G.asked graph.new)) }
    ensures asked_few { OnErr result (AsksFew (Demanded (G.edge graph.old) (G.store graph.old) targets.now) budget (G.asked graph.old) (G.asked graph.new)) }
{
    let walked = walk_numbered(alloc, graph, targets, budget)?;
    Ok(walked.into_walk(alloc)?)
}
