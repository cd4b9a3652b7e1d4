//! A linked program as a graph.
ghost use Rattle.std.specs.Prelude.{None};
ghost use Rattle.spds_rules.specs.Edges.{IsEdge};
ghost use Rattle.spds_rules.specs.Stores.{IsStore};

use demand_set::Graph;
use link_program::Linked;
use lists::NoMemory;
use spds_nodes::{into, stores_of};
use spds_rules::{Edge, Node, Reach, StoreAt};
use std::alloc::Global;

/// The edges of this kind and the stores of a linked program. It doesn't tell what it was asked for.
#[derive(Drop)]
pub struct ProgramGraph<'a> {
    pub linked: &'a Linked,
    pub reach: Reach,
}

impl<'a> Graph for ProgramGraph<'a> {
    ghost edge = { λ g. IsEdge g.linked.now g.reach };

    ghost store = { λ g. IsStore g.linked.now };

    ghost asked = { λ g. None };

    fn edges_into(&mut self, alloc: Global, node: Node) -> Result<Vec<Edge>, NoMemory> {
        into(alloc, self.linked, node, self.reach)
    }

    fn stores(&mut self, alloc: Global, field: u32) -> Result<Vec<StoreAt>, NoMemory> {
        stores_of(alloc, self.linked, field)
    }
}
