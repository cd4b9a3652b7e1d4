//! Edges and stores, looked up by the nodes that they join.
ghost use Rattle.std.specs.Prelude.{◌≡◌, ◌↔◌, ◌⊎◌, IfOk, IsTrue, OnOk, map};
ghost use Rattle.lists.specs.Lists.{Has, IsApart};
ghost use Rattle.cert_replay.specs.Joins.{AnyStep, Goes, HasStep, IsStepAlong, IsStepOf, joined_by};

use lists::{Key, NoMemory, Numbered};
use spds_rules::{Edge, EdgeKind, Node, StoreAt};
use std::alloc::Global;

/// Two nodes: those of an edge, or the argument and the base of a store.
#[derive(Clone, Copy, PartialEq, Eq)]
pub(crate) struct Joined {
    pub(crate) from: Node,
    pub(crate) to: Node,
}

/// What is asked of an edge.
#[derive(Clone, Copy, PartialEq, Eq)]
pub(crate) enum Way {
    /// That it keeps the fields.
    Fields,
    /// That it keeps the calls.
    Calls,
    /// That it returns from a call.
    Returns,
    /// That it is of this kind.
    Only(EdgeKind),
}

/// Two nodes that an edge joins, with what is true of it.
#[derive(Clone, Copy, PartialEq, Eq)]
pub(crate) struct Step {
    pub(crate) joined: Joined,
    pub(crate) way: Way,
}

impl Key for Joined {
    ghost use Rattle.std.proofs.Common.{◌≡◌};
    ghost use Rattle.std.proofs.lemmas.Bool.{and_parts};
    ghost use Rattle.spds_rules.specs.contracts.node.NodePartialEq.TheImpl as node;
    ghost use Rattle.spds_rules.proofs.Keys.{same_node};
    ghost use Rattle.cert_replay.specs.Spread.{joined_spread};

    ghost spread = { joined_spread };

    fn spread(self) -> u64 {
        self.from.spread() / 4 * 3 + self.to.spread() / 4
    }

    ghost same = { λ x y h.
        let parts = and_parts (node.eq-value.it x.from y.from) (node.eq-value.it x.to y.to) h in
        let from : x.from ≡ y.from = same_node x.from y.from parts.0 in
        let to : x.to ≡ y.to = same_node x.to y.to parts.1 in
        λ j. record { from = from j; to = to j } };
}

impl Key for Step {
    ghost use Rattle.std.proofs.Common.{◌≡◌, rules, true};
    ghost use Rattle.std.proofs.lemmas.Bool.{and_parts};
    ghost use Rattle.spds_rules.specs.contracts.node.NodePartialEq.TheImpl as node;
    ghost use Rattle.cert_replay.specs.contracts.edges.JoinedPartialEq.TheImpl as joined;
    ghost use Rattle.cert_replay.specs.contracts.edges.WayPartialEq.TheImpl as way;
    ghost use Rattle.spds_rules.proofs.Keys.{same_node};
    ghost use Rattle.cert_rules.proofs.Same.{same_kind};
    ghost use Rattle.cert_replay.specs.Spread.{joined_spread};

    ghost spread = { λ s. joined_spread s.joined };

    fn spread(self) -> u64 {
        self.joined.spread()
    }

    ghost same = { λ x y h.
        let parts = and_parts (joined.eq-value.it x.joined y.joined) (way.eq-value.it x.way y.way) h in
        let nodes = and_parts (node.eq-value.it x.joined.from y.joined.from) (node.eq-value.it x.joined.to y.joined.to) parts.0 in
        let from : x.joined.from ≡ y.joined.from = same_node x.joined.from y.joined.from nodes.0 in
        let to : x.joined.to ≡ y.joined.to = same_node x.joined.to y.joined.to nodes.1 in
        let second : way.eq-value.it x.way y.way ≡ true = parts.1 in
        let way : x.way ≡ y.way = Prim.search (rules, same_kind, second) in
        λ j. record { joined = record { from = from j; to = to j }; way = way j } };
}

// Whether it is true of an edge of the kind.
fn goes(way: Way, kind: EdgeKind) -> bool
    ensures { IsTrue result ↔ Goes way kind }
{
    match way {
        Way::Fields => !matches!(kind, EdgeKind::Load(_)),
        Way::Calls => matches!(kind, EdgeKind::Flow | EdgeKind::Load(_)),
        Way::Returns => matches!(kind, EdgeKind::Return(_)),
        Way::Only(only) => only == kind,
    }
}

// Adds the step of an edge, if it is true of the edge.
fn add_step(steps: &mut Numbered<Step>, edge: Edge, way: Way) -> Result<(), NoMemory>
    ensures { OnOk result ((s : AnyStep) → Has steps.new.keys s ↔ (Has steps.old.keys s ⊎ IsStepOf edge way s)) }
{
    if !goes(way, edge.kind) {
        return Ok(());
    }
    let joined = Joined {
        from: edge.from,
        to: edge.to,
    };
    steps.add(Step { joined, way })?;
    Ok(())
}

// Adds what is true of an edge.
fn add_edge(steps: &mut Numbered<Step>, edge: Edge) -> Result<(), NoMemory>
    ensures { OnOk result ((s : AnyStep) → Has steps.new.keys s ↔ (Has steps.old.keys s ⊎ IsStepAlong edge s)) }
{
    add_step(steps, edge, Way::Fields)?;
    add_step(steps, edge, Way::Calls)?;
    add_step(steps, edge, Way::Returns)?;
    add_step(steps, edge, Way::Only(edge.kind))?;
    Ok(())
}

/// What is true of the edges.
pub(crate) fn steps_along(alloc: Global, edges: &[Edge]) -> Result<Numbered<Step>, NoMemory>
    ensures { IfOk result (λ steps. (s : AnyStep) → Has steps.keys s ↔ HasStep edges.now s) }
{
    let mut steps = Numbered::new(alloc);
    for edge in edges {
        add_edge(&mut steps, *edge)?;
    }
    Ok(steps)
}

/// The nodes that stores join, in the order of the stores.
pub(crate) fn stored(alloc: Global, stores: &[StoreAt]) -> Result<Numbered<Joined>, NoMemory>
    requires { IsApart (map joined_by stores.now) }
    ensures { IfOk result (λ pairs. pairs.keys ≡ map joined_by stores.now) }
{
    let mut pairs = Numbered::new(alloc);
    for store in stores {
        pairs.add(Joined {
            from: store.arg,
            to: store.base,
        })?;
    }
    Ok(pairs)
}
