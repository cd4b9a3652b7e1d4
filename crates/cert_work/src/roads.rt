//! The edges and the start nodes of a demand by look-ups.
ghost use Rattle.std.specs.Prelude.{◌≡◌, ◌↔◌, ◌⊎◌, IfOk, IsTrue, OnOk};
ghost use Rattle.lists.specs.Grown.{IsLonger};
ghost use Rattle.lists.specs.Lists.{Has, IsApart};
ghost use Rattle.spds_rules.specs.declared.node.Node.{Node as AnyNode};
ghost use Rattle.spds_rules.specs.declared.store.StoreAt.{StoreAt as AnyStore};
ghost use Rattle.spds_rules.specs.Demand.{StartIn, about};
ghost use Rattle.spds_rules.specs.Nodes.{IsStart};
ghost use Rattle.lists.specs.Groups.{found_at};
ghost use Rattle.cert_lines.specs.contracts.keys.OriginPartialEq.TheImpl as of_origin;
ghost use Rattle.cert_lines.specs.declared.keys.Origin.{Origin as AnyOrigin};
ghost use Rattle.demand_set.specs.Demands.{IsDemandOf};
ghost use Rattle.cert_work.specs.Roads.{AreEdgesAt, AreRoads, AreUnder, EndOf, IsEndOf, IsView, StartOf};
ghost use Rattle.cert_work.specs.Wants.{IsWanted};

use super::wants::Wants;
use cert_lines::Origin;
use demand_set::Demand;
use link_program::Linked;
use link_sites::Site;
use lists::{ByKey, NoMemory, Numbered, Pair, Rows, rows_of};
use spds_nodes::is_node;
use spds_rules::{Edge, Node, StoreAt, site_of};
use std::alloc::Global;

/// The edges of a demand by their sources, its start nodes by their sites, and its ends: the target, and the nodes at which stores take objects from and
/// put them into.
#[derive(Drop)]
pub struct Roads {
    // So many ends stand first, and the other sources of edges behind them.
    pub(crate) nodes: Numbered<Node>,
    pub(crate) ends: u32,
    // By the numbers of their sources.
    pub(crate) edges: Rows<Edge>,
    pub(crate) starts: ByKey<Origin, Node>,
}

/// What is demanded at a node: the edges from it, and whether it is an end.
#[derive(Clone, Copy)]
pub struct Stop<'a> {
    pub edges: &'a [Edge],
    pub is_end: bool,
}

// The edges under the numbers of their sources, of which those that have none get the next ones.
fn number_edges(
    alloc: Global,
    nodes: &mut Numbered<Node>,
    edges: &[Edge],
) -> Result<Vec<Pair<Edge>>, NoMemory>
    requires { IsApart nodes.old.keys }
    ensures under { IfOk result (λ pairs. AreUnder nodes.new.keys edges.now pairs.items) }
    ensures longer { OnOk result (IsLonger nodes.old.keys nodes.new.keys) }
{
    let mut pairs = Vec::with_capacity(alloc, edges.len())?;
    for edge in edges {
        let (number, _new) = nodes.add(edge.from)?;
        pairs.push(Pair {
            number,
            item: *edge,
        })?;
    }
    Ok(pairs)
}

// One node more, if it is a start node.
fn file_start(linked: &Linked, files: &mut ByKey<Origin, Node>, node: Node) -> Result<(), NoMemory>
    ensures { OnOk result ((k : AnyOrigin) (n : AnyNode) → Has (found_at of_origin.eq-value.it files.new k) n
        ↔ (Has (found_at of_origin.eq-value.it files.old k) n ⊎ ((n ≡ node) × IsStart linked.now k.site n))) }
{
    if !is_node(linked, node) {
        return Ok(());
    }
    let Some(site) = site_of(node) else {
        return Ok(());
    };
    files.add(Origin { site }, node)?;
    Ok(())
}

// The start nodes among the nodes, by their sites.
fn file_starts(
    alloc: Global,
    linked: &Linked,
    nodes: &[Node],
) -> Result<ByKey<Origin, Node>, NoMemory>
    ensures { IfOk result (λ files. (k : AnyOrigin) (n : AnyNode) → Has (found_at of_origin.eq-value.it files k) n ↔ (Has nodes.now n × IsStart linked.now k.site n)) }
{
    let mut files = ByKey::new(alloc);
    for node in nodes {
        file_start(linked, &mut files, *node)?;
    }
    Ok(files)
}

// The ends of a store more.
fn add_ends(ends: &mut Numbered<Node>, store: StoreAt) -> Result<(), NoMemory>
    ensures has { OnOk result ((n : AnyNode) → Has ends.new.keys n ↔ (Has ends.old.keys n ⊎ IsEndOf store n)) }
    ensures apart { IsApart ends.old.keys → OnOk result (IsApart ends.new.keys) }
{
    ends.add(store.arg)?;
    ends.add(store.base)?;
    Ok(())
}

// The target, and the ends of stores.
fn ends_of(alloc: Global, target: Node, stores: &[StoreAt]) -> Result<Numbered<Node>, NoMemory>
    ensures has { IfOk result (λ ends. (n : AnyNode) → Has ends.keys n ↔ ((n ≡ target) ⊎ ((s : AnyStore) × Has stores.now s × IsEndOf s n))) }
    ensures apart { IfOk result (λ ends. IsApart ends.keys) }
{
    let mut ends = Numbered::new(alloc);
    ends.add(target)?;
    for store in stores {
        add_ends(&mut ends, *store)?;
    }
    Ok(ends)
}

impl Roads {
    /// The roads of what a node demands. Costs a look-up for each edge, each node and each store.
    pub fn of(
        alloc: Global,
        linked: &Linked,
        target: Node,
        demand: &Demand,
    ) -> Result<Roads, NoMemory>
        requires { IsDemandOf linked.now (about target) demand.now }
        ensures { IfOk result (λ roads. AreRoads linked.now target roads) }
    {
        let mut nodes = ends_of(alloc, target, demand.stores())?;
        let ends = nodes.len() as u32;
        let pairs = number_edges(alloc, &mut nodes, demand.edges())?;
        Ok(Roads {
            ends,
            edges: rows_of(alloc, &pairs, nodes.len())?,
            nodes,
            starts: file_starts(alloc, linked, demand.nodes())?,
        })
    }
}

/// A program, the node that is asked for, the roads of what it demands, and where objects are followed.
#[derive(Drop)]
pub struct View<'a> {
    pub linked: &'a Linked,
    pub target: Node,
    pub roads: &'a Roads,
    pub wants: &'a Wants,
}

impl<'a> View<'a> {
    /// The demanded edges from the node, and whether it is the target, or one at which a demanded store takes an object from or puts it into: by one
    /// look-up.
    #[inline(always)]
    pub(crate) fn stop(&self, node: Node) -> Stop<'_>
        requires { IsView self.now }
        ensures edges { AreEdgesAt self.now node result.edges.now }
        ensures end { IsTrue result.is_end ↔ EndOf self.now node }
    {
        match self.roads.nodes.find(node) {
            Some(number) => Stop {
                edges: self.roads.edges.get(number),
                is_end: number < self.roads.ends,
            },
            None => Stop {
                edges: &[],
                is_end: false,
            },
        }
    }

    /// The demanded edges from the node.
    pub fn edges(&self, node: Node) -> &[Edge]
        requires { IsView self.now }
        ensures { AreEdgesAt self.now node result.now }
    {
        self.stop(node).edges
    }

    /// The demanded start nodes of the site.
    pub fn starts(&self, site: Site) -> &[Node]
        requires { IsView self.now }
        ensures { (n : AnyNode) → Has result.now n ↔ StartIn self.now.linked.now (about self.now.target) site n }
    {
        self.roads.starts.at(Origin { site })
    }

    /// Whether objects of the one site are followed where those of the other start.
    pub fn is_wanted_in(&self, object: Site, base: Site) -> bool
        requires { IsView self.now }
        ensures yes { IsTrue result → (n : AnyNode) × StartOf self.now base n × IsWanted self.now.wants.now object n }
        ensures no { (n : AnyNode) → StartOf self.now base n → IsWanted self.now.wants.now object n → IsTrue result }
    {
        let nodes = self.starts(base);
        for node in nodes {
            if self.wants.has(object, *node) {
                return true;
            }
        }
        false
    }
}
