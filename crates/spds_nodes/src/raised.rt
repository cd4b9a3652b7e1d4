//! The edges into a node at a raised place.
ghost use Rattle.std.specs.Prelude.{◌≤◌, OnOk};
ghost use Rattle.spds_rules.specs.declared.edge.EdgeKind.TheVariants.{Flow};
ghost use Rattle.spds_rules.specs.Edges.{IsThrownBy};
ghost use Rattle.spds_nodes.specs.Added.{IsAdded};
ghost use Rattle.spds_nodes.specs.Codes.{IsKindIn};
ghost use Rattle.spds_nodes.specs.Into.{IsFrom, IsIntoRaised, IsThrown, IsThrownAt, IsThrownIn};

use super::codes::{Kinds, kinds_of};
use super::flows::{of_frame, targets_of, thrown};
use super::found::push_found;
use super::places::{before, code_at};
use super::rows::push_escapes;
use link_program::Linked;
use link_rules::Code;
use link_sites::Place;
use lists::NoMemory;
use spds_rules::{Edge, EdgeKind, Node, Var};
use std::alloc::Global;

// Adds the edges from the implicit exceptions of the kinds.
fn push_raises(
    edges: &mut Vec<Edge>,
    place: Place,
    kinds: Kinds,
    node: Node,
) -> Result<(), NoMemory>
    requires { kinds.from ≤ kinds.to }
    ensures { OnOk result (IsAdded (IsFrom place Flow node (IsKindIn kinds.from kinds.to)) edges.old.items edges.new.items) }
{
    for kind in kinds.from..kinds.to {
        push_found(edges, place, Some(Var::Raised(kind)), EdgeKind::Flow, node)?;
    }
    Ok(())
}

// Adds the edges from what the statement throws.
fn push_thrown(edges: &mut Vec<Edge>, node: Node, place: Place, code: &Code) -> Result<(), NoMemory>
    ensures { OnOk result (IsAdded (IsFrom place Flow node (IsThrownBy code.now)) edges.old.items edges.new.items) }
{
    push_raises(edges, place, kinds_of(code), node)?;
    push_found(edges, place, thrown(code), EdgeKind::Flow, node)
}

// Adds the edges from what the statement at the place throws, and from the exceptions that leave the methods which it may run.
fn push_flight(
    edges: &mut Vec<Edge>,
    alloc: Global,
    linked: &Linked,
    node: Node,
    place: Place,
    code: &Code,
) -> Result<(), NoMemory>
    ensures { OnOk result (IsAdded (IsThrown linked.now node place code.now) edges.old.items edges.new.items) }
{
    push_thrown(edges, node, place, code)?;
    push_escapes(edges, alloc, linked, node, place, targets_of(code))
}

// Adds the edges from what the node's statement throws, and from the exceptions that leave the methods which it may run.
fn push_flight_at(
    edges: &mut Vec<Edge>,
    alloc: Global,
    linked: &Linked,
    node: Node,
) -> Result<(), NoMemory>
    ensures { OnOk result (IsAdded (IsThrownAt linked.now node) edges.old.items edges.new.items) }
{
    let Place { method, index, .. } = node.place;
    match code_at(linked, method, index) {
        Some(code) => push_flight(edges, alloc, linked, node, before(method, index), code),
        None => Ok(()),
    }
}

// Adds the edges into the exception in flight at the node's statement.
fn push_thrown_in(
    edges: &mut Vec<Edge>,
    alloc: Global,
    linked: &Linked,
    node: Node,
) -> Result<(), NoMemory>
    ensures { OnOk result (IsAdded (IsThrownIn linked.now node) edges.old.items edges.new.items) }
{
    match node.var {
        Var::Thrown => push_flight_at(edges, alloc, linked, node),
        _ => Ok(()),
    }
}

/// Adds the edges into a node at a raised place.
pub fn push_into_raised(
    edges: &mut Vec<Edge>,
    alloc: Global,
    linked: &Linked,
    node: Node,
) -> Result<(), NoMemory>
    ensures { OnOk result (IsAdded (IsIntoRaised linked.now node) edges.old.items edges.new.items) }
{
    push_thrown_in(edges, alloc, linked, node)?;
    let place = before(node.place.method, node.place.index);
    push_found(edges, place, of_frame(node.var), EdgeKind::Flow, node)
}
