//! The search of a walk.
ghost use Rattle.std.specs.Prelude.{◌≡◌, ◌≤◌, ℕ, [], length, Err, OnErr, OnOk};
ghost use Rattle.lists.specs.Lists.{Has, IsApart, HasMore};
ghost use Rattle.spds_rules.specs.declared.node.Node.{Node};
ghost use Rattle.spds_rules.specs.Demand.{Demanded};
ghost use Rattle.demand_set.specs.Graphs.{AreSameEdges, AreSameStores, Asks};
ghost use Rattle.demand_set.specs.Numbers.{AreEdgesAt};
ghost use Rattle.demand_set.specs.Searches.{Grows, IsSearched};
ghost use Rattle.demand_set.specs.Walks.{AsksFew};

use super::demanded::DemandError;
use super::graph::Graph;
use super::nodes::Nodes;
use super::visiting::{Found, visit};
use lists::NoMemory;
use spds_rules::Node;
use std::alloc::Global;

// Adds the nodes that aren't there.
fn add_all(nodes: &mut Nodes, targets: &[Node]) -> Result<(), NoMemory>
    ensures grows { OnOk result (Grows (Has targets.now) nodes.old nodes.new) }
    ensures all { OnOk result ((n : Node) → Has targets.now n → Has nodes.new n) }
{
    for target in targets {
        nodes.add(*target)?;
    }
    Ok(())
}

/// Finds all that is demanded, from nothing on. Each node is asked for once, in the order in which the nodes were found. The search ends where it
/// has found more nodes than `budget`.
pub fn search<G: Graph>(
    alloc: Global,
    graph: &mut G,
    found: &mut Found,
    targets: &[Node],
    budget: u32,
) -> Result<(), DemandError>
    requires nodes { found.old.nodes ≡ [] }
    requires edges { found.old.edges.items ≡ [] }
    requires numbered { found.old.numbered.items ≡ [] }
    requires fields { found.old.fields ≡ [] }
    requires stores { found.old.stores.items ≡ [] }
    ensures same_edges { AreSameEdges (G.edge graph.old) (G.edge graph.new) }
    ensures same_stores { AreSameStores (G.store graph.old) (G.store graph.new) }
    ensures searched { OnOk result ((k : ℕ) × (length found.new.nodes ≤ k) × IsSearched (G.edge graph.old) (G.store graph.old) targets.now k
        found.new.nodes found.new.edges.items found.new.fields found.new.stores.items) }
    ensures numbered { OnOk result (AreEdgesAt found.new.nodes found.new.edges.items found.new.numbered.items) }
    ensures apart { OnOk result (IsApart found.new.nodes) }
    ensures within { OnOk result (length found.new.nodes ≤ budget) }
    ensures asked { OnOk result (Asks (G.asked graph.old) found.new.nodes (G.asked graph.new)) }
    ensures asked_few { OnErr result (AsksFew (Demanded (G.edge graph.old) (G.store graph.old) targets.now) budget (G.asked graph.old) (G.asked graph.new)) }
    ensures over { (b : ℕ) → result ≡ Err (DemandError.OverBudget b)
        → (b ≡ budget) × HasMore (Demanded (G.edge graph.old) (G.store graph.old) targets.now) budget }
{
    add_all(&mut found.nodes, targets)?;
    let mut at = 0;
    while at < found.nodes.len() && found.nodes.len() <= budget as usize {
        let node = found.nodes.as_slice()[at];
        visit(alloc, graph, found, node, at as u32)?;
        at += 1;
    }
    if found.nodes.as_slice().len() > budget as usize {
        return Err(DemandError::OverBudget { budget });
    }
    Ok(())
}
