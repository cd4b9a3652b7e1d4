//! Graphs that are asked for their edges and stores.
ghost use Rattle.std.specs.Prelude.{ℕ, List, [], ◌∷◌, IfOk, OnErr, OnOk};
ghost use Rattle.std.specs.declared.option.Option.{Option};
ghost use Rattle.spds_rules.specs.declared.edge.EdgeKind.{EdgeKind};
ghost use Rattle.spds_rules.specs.declared.node.Node.{Node};
ghost use Rattle.spds_rules.specs.declared.store.StoreAt.{StoreAt};
ghost use Rattle.lists.specs.Lists.{AreAll};
ghost use Rattle.demand_set.specs.Graphs.{AreSameEdges, AreSameStores, Asks, EdgeInto, StoreOf};

use lists::NoMemory;
use spds_rules::{Edge, Node, StoreAt};
use std::alloc::Global;

/// Edges between nodes, and stores. No call changes them.
pub trait Graph {
    /// The edges.
    ghost edge: { Self → Node → EdgeKind → Node → Type 0 };

    /// The stores.
    ghost store: { Self → StoreAt → Type 0 };

    /// The nodes whose edges were asked for so far, in order, where the graph tells them.
    ghost asked: { Self → Option (List Node) };

    /// The edges into a node, each once. The node then stands last among those asked for; after want of memory these are as before.
    fn edges_into(&mut self, alloc: Global, node: Node) -> Result<Vec<Edge>, NoMemory>
        ensures into { IfOk result (λ into. AreAll (EdgeInto (edge self.old) node) into.items) }
        ensures same_edges { AreSameEdges (edge self.old) (edge self.new) }
        ensures same_stores { AreSameStores (store self.old) (store self.new) }
        ensures asked { OnOk result (Asks (asked self.old) (node ∷ []) (asked self.new)) }
        ensures kept { OnErr result (Asks (asked self.old) [] (asked self.new)) };

    /// The stores of a field, each once.
    fn stores(&mut self, alloc: Global, field: u32) -> Result<Vec<StoreAt>, NoMemory>
        ensures found { IfOk result (λ found. AreAll (StoreOf (store self.old) field) found.items) }
        ensures same_edges { AreSameEdges (edge self.old) (edge self.new) }
        ensures same_stores { AreSameStores (store self.old) (store self.new) }
        ensures kept { Asks (asked self.old) [] (asked self.new) };
}
