//! A graph that is given by lists.
ghost use Rattle.std.specs.Prelude.{OnOk};
ghost use Rattle.lists.specs.Lists.{Adds};

use super::graph::Graph;
use lists::NoMemory;
use spds_rules::{Edge, Node, StoreAt};
use std::alloc::Global;

// Puts an edge last, unless it is there already.
fn put_edge(edges: &mut Vec<Edge>, edge: Edge) -> Result<(), NoMemory>
    ensures { OnOk result (Adds edges.old.items edge edges.new.items) }
{
    if edges.contains(&edge) {
        return Ok(());
    }
    edges.push(edge)?;
    Ok(())
}

// Puts a store last, unless it is there already.
fn put_store(stores: &mut Vec<StoreAt>, store: StoreAt) -> Result<(), NoMemory>
    ensures { OnOk result (Adds stores.old.items store stores.new.items) }
{
    if stores.contains(&store) {
        return Ok(());
    }
    stores.push(store)?;
    Ok(())
}

/// The edges and the stores of two lists. It tells the nodes that it was asked for. Each call looks through a list.
#[derive(Drop)]
pub struct ListedGraph {
    pub edges: Vec<Edge>,
    pub stores: Vec<StoreAt>,
    pub asked: Vec<Node>,
}

impl Graph for ListedGraph {
    ghost use Rattle.std.specs.Prelude.{Some};
    ghost use Rattle.lists.specs.Lists.{Has};

    ghost edge = { λ g from kind to. Has g.edges.items (record { from = from; kind = kind; to = to }) };

    ghost store = { λ g s. Has g.stores.items s };

    ghost asked = { λ g. Some g.asked.items };

    fn edges_into(&mut self, alloc: Global, node: Node) -> Result<Vec<Edge>, NoMemory> {
        let mut into = Vec::new(alloc);
        for edge in &self.edges {
            if edge.to == node {
                put_edge(&mut into, *edge)?;
            }
        }
        self.asked.push(node)?;
        Ok(into)
    }

    fn stores(&mut self, alloc: Global, field: u32) -> Result<Vec<StoreAt>, NoMemory> {
        let mut found = Vec::new(alloc);
        for store in &self.stores {
            if store.field == field {
                put_store(&mut found, *store)?;
            }
        }
        Ok(found)
    }
}
