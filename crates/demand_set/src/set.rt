//! A demand, and what is read of it.
ghost use Rattle.std.specs.Prelude.{◌≡◌, ◌↔◌, ◌<◌, ◌^◌, ℕ, IfOk, Some, length, slice_get};
ghost use Rattle.lists.specs.Lists.{Has, IsApart, AreAll};
ghost use Rattle.link_sites.specs.declared.site.Site.{Site as DemandedSite};
ghost use Rattle.spds_rules.specs.declared.node.Node.{Node as AnyNode};
ghost use Rattle.spds_rules.specs.Answers.{AreSites};
ghost use Rattle.spds_rules.specs.Nodes.{IsNode};
ghost use Rattle.demand_set.specs.Numbers.{AreEdgesAt};
ghost use Rattle.demand_set.specs.Demands.{StartsAt};
ghost use Rattle.demand_set.specs.Starts.{HasStart};

use super::demanded::Walked;
use super::nodes::Nodes;
use super::numbered::EdgeAt;
use super::starts::{sites_of, starts_of};
use indexmap::IndexSet;
use jim_ast::List;
use link_program::Linked;
use link_sites::Site;
use lists::NoMemory;
use spds_rules::{Edge, Node, StoreAt};
use std::alloc::Global;
use std::marker::Model;

/// What a query demands: the nodes, the edges into them, the fields that these load, the stores of these fields, and the sites of which start nodes
/// are demanded. Nodes and sites have numbers, by their order, from 0. Contracts see the five lists. What is read of it takes no memory.
#[derive(Drop)]
pub struct Demand {
    nodes: Nodes,
    edges: List<Edge>,
    numbered: List<EdgeAt>,
    fields: List<u32>,
    stores: List<StoreAt>,
    sites: IndexSet<Site>,
    starts: Vec<Vec<u32>>,
}

impl Model for Demand {
    ghost use Rattle.demand_set.specs.Demands.{DemandParts};

    ghost Value = { DemandParts };

    ghost use Rattle.std.specs.Prelude.{map};
    ghost use Rattle.demand_set.specs.Starts.{IsKept};

    ghost view = { λ d. record {
      nodes = d.nodes;
      edges = d.edges;
      fields = d.fields;
      stores = d.stores;
      sites = d.sites.keys;
    } };

    ghost use Rattle.demand_set.specs.Numbers.{AreEdgesAt};

    ghost invariant = { λ d. IsKept d.nodes d.sites.keys (map (λ numbers. numbers.items) d.starts.items) × AreEdgesAt d.nodes d.edges d.numbered };
}

impl Demand {
    /// What a walk over the program found, with the sites of which start nodes are among the nodes.
    pub fn of_walk(alloc: Global, linked: &Linked, walk: Walked) -> Result<Demand, NoMemory>
        requires apart { IsApart walk.nodes }
        requires numbered { AreEdgesAt walk.nodes walk.edges walk.numbered }
        requires few { length walk.nodes < 2 ^ 32 }
        requires nodes { (n : AnyNode) → Has walk.nodes n → IsNode linked.now n }
        ensures nodes { IfOk result (λ d. d.nodes ≡ walk.nodes) }
        ensures edges { IfOk result (λ d. d.edges ≡ walk.edges) }
        ensures fields { IfOk result (λ d. d.fields ≡ walk.fields) }
        ensures stores { IfOk result (λ d. d.stores ≡ walk.stores) }
        ensures sites { IfOk result (λ d. AreSites linked.now (HasStart walk.nodes) d.sites) }
    {
        let sites = sites_of(alloc, linked, walk.nodes.as_slice())?;
        let starts = starts_of(alloc, walk.nodes.as_slice(), &sites)?;
        Ok(Demand {
            nodes: walk.nodes,
            edges: walk.edges,
            numbered: walk.numbered,
            fields: walk.fields,
            stores: walk.stores,
            sites,
            starts,
        })
    }

    /// The nodes.
    pub fn nodes(&self) -> &[Node]
        ensures { result.now ≡ self.now.nodes }
    {
        self.nodes.as_slice()
    }

    /// The edges into the nodes.
    pub fn edges(&self) -> &[Edge]
        ensures { result.now ≡ self.now.edges }
    {
        self.edges.as_slice()
    }

    /// The edges by the numbers of their nodes, in the same order.
    pub fn numbered(&self) -> &[EdgeAt]
        ensures value { AreEdgesAt self.now.nodes self.now.edges result.now }
        ensures apart { IsApart self.now.nodes }
    {
        self.numbered.as_slice()
    }

    /// The fields that the edges load.
    pub fn fields(&self) -> &[u32]
        ensures { result.now ≡ self.now.fields }
    {
        self.fields.as_slice()
    }

    /// The stores of these fields.
    pub fn stores(&self) -> &[StoreAt]
        ensures { result.now ≡ self.now.stores }
    {
        self.stores.as_slice()
    }

    /// The sites, in the order in which they are printed.
    pub fn sites(&self) -> &[Site]
        ensures { result.now ≡ self.now.sites }
    {
        self.sites.as_slice()
    }

    /// The number of a node, by one look-up.
    pub fn number_of(&self, node: Node) -> Option<u32>
        ensures { (i : ℕ) → (result ≡ Some i) ↔ (slice_get self.now.nodes i ≡ Some node) }
    {
        self.nodes.find(node)
    }

    /// The numbers of the start nodes of the site with a number, each once.
    pub fn starts(&self, site: u32) -> &[u32]
        requires { site < length self.now.sites }
        ensures { (s : DemandedSite) → slice_get self.now.sites site ≡ Some s → AreAll (StartsAt self.now.nodes s) result.now }
    {
        self.starts[site as usize].as_slice()
    }
}
