//! What a replay looks at: the program, and the demand of the query by look-ups.
ghost use Rattle.std.specs.Prelude.{◌≡◌, ◌↔◌, IfOk, IsTrue, Some, map};
ghost use Rattle.lists.specs.Lists.{IsApart};
ghost use Rattle.link_sites.specs.declared.site.Site.{Site as AnySite};
ghost use Rattle.spds_rules.specs.declared.edge.EdgeKind.{EdgeKind as AnyKind};
ghost use Rattle.spds_rules.specs.declared.edge.EdgeKind.TheVariants.{Return};
ghost use Rattle.spds_rules.specs.declared.store.StoreAt.{StoreAt as AnyStore};
ghost use Rattle.spds_rules.specs.Demand.{EdgeIn, StartIn, StoreIn, about};
ghost use Rattle.link_sites.specs.declared.place.Place.{Place as AnyPlace};
ghost use Rattle.cert_rules.specs.Given.{Keeps};
ghost use Rattle.cert_replay.specs.Joins.{Goes, joined_by};
ghost use Rattle.cert_replay.specs.Views.{AreTables, IsView};

use super::edges::{Joined, Step, Way, steps_along, stored};
use cert_rules::Side;
use demand_set::Demand;
use link_program::Linked;
use link_sites::Site;
use lists::{NoMemory, Numbered};
use spds_nodes::is_node;
use spds_rules::{EdgeKind, Node, StoreAt, site_of};
use std::alloc::Global;

/// What is true of the edges of a demand, and the nodes that its stores join, in their order.
#[derive(Drop)]
pub(crate) struct Tables {
    steps: Numbered<Step>,
    stores: Numbered<Joined>,
}

/// The tables of a demand.
pub(crate) fn tables_of(alloc: Global, demand: &Demand) -> Result<Tables, NoMemory>
    requires { IsApart (map joined_by demand.now.stores) }
    ensures { IfOk result (AreTables demand.now) }
{
    let steps = steps_along(alloc, demand.edges())?;
    let stores = stored(alloc, demand.stores())?;
    Ok(Tables { steps, stores })
}

/// A linked program, the node that is asked for, what it demands, and the tables of that.
#[derive(Drop)]
pub(crate) struct View<'a> {
    pub(crate) linked: &'a Linked,
    pub(crate) target: Node,
    pub(crate) demand: &'a Demand,
    pub(crate) tables: &'a Tables,
}

impl<'a> View<'a> {
    /// The site of which the node is a demanded start node.
    pub(crate) fn start(&self, node: Node) -> Option<Site>
        requires { IsView self.now }
        ensures { (o : AnySite) → (result ≡ Some o) ↔ StartIn self.now.linked.now (about self.now.target) o node }
    {
        self.demand.number_of(node)?;
        if is_node(self.linked, node) {
            site_of(node)
        } else {
            None
        }
    }

    // Whether an edge of which it is true joins the nodes.
    fn goes(&self, from: Node, way: Way, to: Node) -> bool
        requires { IsView self.now }
        ensures { IsTrue result ↔ ((kind : AnyKind) × Goes way kind × EdgeIn self.now.linked.now (about self.now.target) from kind to) }
    {
        let joined = Joined { from, to };
        self.tables.steps.find(Step { joined, way }).is_some()
    }

    /// Whether an edge of the kind joins the nodes.
    pub(crate) fn joins(&self, from: Node, kind: EdgeKind, to: Node) -> bool
        requires { IsView self.now }
        ensures { IsTrue result ↔ EdgeIn self.now.linked.now (about self.now.target) from kind to }
    {
        self.goes(from, Way::Only(kind), to)
    }

    /// Whether an edge that keeps the words of the side joins the nodes.
    pub(crate) fn keeps(&self, side: Side, from: Node, to: Node) -> bool
        requires { IsView self.now }
        ensures { IsTrue result ↔ ((kind : AnyKind) × Keeps side kind × EdgeIn self.now.linked.now (about self.now.target) from kind to) }
    {
        match side {
            Side::Field => self.goes(from, Way::Fields, to),
            Side::Call => self.goes(from, Way::Calls, to),
        }
    }

    /// Whether an edge that returns from a call joins the nodes.
    pub(crate) fn returns(&self, from: Node, to: Node) -> bool
        requires { IsView self.now }
        ensures { IsTrue result ↔ ((call : AnyPlace) × EdgeIn self.now.linked.now (about self.now.target) from (Return call) to) }
    {
        self.goes(from, Way::Returns, to)
    }

    /// The demanded store with this argument and this base.
    pub(crate) fn store(&self, arg: Node, base: Node) -> Option<StoreAt>
        requires { IsView self.now }
        ensures { (s : AnyStore) → (result ≡ Some s)
            ↔ (StoreIn self.now.linked.now (about self.now.target) s × (s.arg ≡ arg) × (s.base ≡ base)) }
    {
        let joined = Joined {
            from: arg,
            to: base,
        };
        let number = self.tables.stores.find(joined)?;
        self.demand.stores().get(number as usize).copied()
    }
}
