//! What a walk takes in at one node.
ghost use Rattle.std.specs.Prelude.{◌≡◌, ◌++◌, ◌∷◌, [], ◌⊎◌, ℕ, List, OnErr, OnOk, Some, slice_get};
ghost use Rattle.lists.specs.Lists.{Adds, Has, AreAll};
ghost use Rattle.spds_rules.specs.declared.edge.Edge.{Edge};
ghost use Rattle.demand_set.specs.Graphs.{AreSameEdges, AreSameStores, Asks, EdgeInto, StoreOf};
ghost use Rattle.demand_set.specs.Numbers.{AreEdgesAt};
ghost use Rattle.demand_set.specs.Searches.{ComesFrom, ComesFromOne, Grows, IsEndOf, IsFollowed, IsStored};

use super::fields::Fields;
use super::graph::Graph;
use super::nodes::Nodes;
use super::numbered::EdgeAt;
use lists::NoMemory;
use spds_rules::{Edge, EdgeKind, Node, StoreAt};
use std::alloc::Global;

/// What a walk has found so far. The edges stand there twice: by their nodes, and by the numbers of these.
#[derive(Drop)]
pub struct Found {
    pub nodes: Nodes,
    pub edges: Vec<Edge>,
    pub numbered: Vec<EdgeAt>,
    pub fields: Fields,
    pub stores: Vec<StoreAt>,
}

// Adds the nodes of the stores.
fn add_ends(nodes: &mut Nodes, stores: &[StoreAt]) -> Result<(), NoMemory>
    ensures grows { OnOk result (Grows (IsEndOf (Has stores.now)) nodes.old nodes.new) }
    ensures ends { OnOk result ((n : Node) → IsEndOf (Has stores.now) n → Has nodes.new n) }
{
    for store in stores {
        nodes.add(store.base)?;
        nodes.add(store.arg)?;
    }
    Ok(())
}

// Adds the stores of a field that is new, and their nodes.
fn load<G: Graph>(
    alloc: Global,
    graph: &mut G,
    nodes: &mut Nodes,
    stores: &mut Vec<StoreAt>,
    field: u32,
) -> Result<(), NoMemory>
    ensures same_edges { AreSameEdges (G.edge graph.old) (G.edge graph.new) }
    ensures same_stores { AreSameStores (G.store graph.old) (G.store graph.new) }
    ensures kept { Asks (G.asked graph.old) [] (G.asked graph.new) }
    ensures grows { OnOk result (Grows (IsEndOf (StoreOf (G.store graph.old) field)) nodes.old nodes.new) }
    ensures stored { OnOk result ((fields : List ℕ) → (Has fields field → ⊥) → IsStored (G.store graph.old) nodes.old fields stores.old.items
        → IsStored (G.store graph.old) nodes.new (fields ++ field ∷ []) stores.new.items) }
{
    let found = graph.stores(alloc, field)?;
    add_ends(nodes, &found)?;
    stores.extend_from_slice(&found)?;
    Ok(())
}

// Adds an edge to the node with a number, its source, and, where it loads a field that no edge before it loads, the stores of the field and their nodes.
fn follow<G: Graph>(
    alloc: Global,
    graph: &mut G,
    found: &mut Found,
    edge: Edge,
    to: u32,
) -> Result<(), NoMemory>
    requires to { slice_get found.old.nodes to ≡ Some edge.to }
    requires numbered { AreEdgesAt found.old.nodes found.old.edges.items found.old.numbered.items }
    requires followed { IsFollowed (G.store graph.old) found.old.nodes found.old.edges.items found.old.fields found.old.stores.items }
    ensures same_edges { AreSameEdges (G.edge graph.old) (G.edge graph.new) }
    ensures same_stores { AreSameStores (G.store graph.old) (G.store graph.new) }
    ensures kept { Asks (G.asked graph.old) [] (G.asked graph.new) }
    ensures edges { OnOk result (found.new.edges.items ≡ found.old.edges.items ++ edge ∷ []) }
    ensures grows { OnOk result (Grows (ComesFrom (G.store graph.old) edge) found.old.nodes found.new.nodes) }
    ensures numbered { OnOk result (AreEdgesAt found.new.nodes found.new.edges.items found.new.numbered.items) }
    ensures followed { OnOk result (IsFollowed (G.store graph.old) found.new.nodes found.new.edges.items found.new.fields found.new.stores.items) }
{
    let from = found.nodes.add(edge.from)?;
    found.edges.push(edge)?;
    found.numbered.push(EdgeAt {
        from,
        to,
        kind: edge.kind,
    })?;
    let EdgeKind::Load(field) = edge.kind else {
        return Ok(());
    };
    if !found.fields.add(field)? {
        return Ok(());
    }
    load(alloc, graph, &mut found.nodes, &mut found.stores, field)?;
    Ok(())
}

/// Asks for the edges into the node with a number, and follows each.
pub fn visit<G: Graph>(
    alloc: Global,
    graph: &mut G,
    found: &mut Found,
    node: Node,
    number: u32,
) -> Result<(), NoMemory>
    requires number { slice_get found.old.nodes number ≡ Some node }
    requires numbered { AreEdgesAt found.old.nodes found.old.edges.items found.old.numbered.items }
    requires followed { IsFollowed (G.store graph.old) found.old.nodes found.old.edges.items found.old.fields found.old.stores.items }
    ensures same_edges { AreSameEdges (G.edge graph.old) (G.edge graph.new) }
    ensures same_stores { AreSameStores (G.store graph.old) (G.store graph.new) }
    ensures asked { OnOk result (Asks (G.asked graph.old) (node ∷ []) (G.asked graph.new)) }
    ensures asked_or_not { OnErr result (Asks (G.asked graph.old) [] (G.asked graph.new) ⊎ Asks (G.asked graph.old) (node ∷ []) (G.asked graph.new)) }
    ensures edges { OnOk result ((into : List Edge) × AreAll (EdgeInto (G.edge graph.old) node) into × (found.new.edges.items ≡ found.old.edges.items ++ into)) }
    ensures grows { OnOk result (Grows (ComesFromOne (G.store graph.old) (EdgeInto (G.edge graph.old) node)) found.old.nodes found.new.nodes) }
    ensures numbered { OnOk result (AreEdgesAt found.new.nodes found.new.edges.items found.new.numbered.items) }
    ensures followed { OnOk result (IsFollowed (G.store graph.old) found.new.nodes found.new.edges.items found.new.fields found.new.stores.items) }
{
    let into = graph.edges_into(alloc, node)?;
    for edge in &into {
        follow(alloc, graph, found, *edge, number)?;
    }
    Ok(())
}
