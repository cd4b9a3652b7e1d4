//! The edges from what the statement assigns behind which a node stands.
ghost use Rattle.std.specs.Prelude.{OnOk};
ghost use Rattle.spds_nodes.specs.Added.{IsAdded};
ghost use Rattle.spds_nodes.specs.Into.{IsAssigned, IsBrought, IsFromBehind, IsIntoLocal, IsJump};

use super::flows::{brought, loaded_static, taken_from};
use super::found::push_found;
use super::places::{before, code_at};
use super::rows::{push_jumps, push_returns};
use link_program::Linked;
use link_rules::Code;
use link_sites::Place;
use lists::NoMemory;
use spds_rules::{Edge, Node, Var};
use std::alloc::Global;

// Adds the edges from what the statement brings into the local within the frame.
fn push_brought(
    edges: &mut Vec<Edge>,
    node: Node,
    x: u32,
    place: Place,
    code: &Code,
) -> Result<(), NoMemory>
    ensures { OnOk result (IsAdded (IsBrought node x place code.now) edges.old.items edges.new.items) }
{
    match brought(code, x) {
        Some(source) => push_found(edges, place, Some(source.var), source.kind, node),
        None => Ok(()),
    }
}

// Adds the edges from the stores into the static field that the statement loads into the local.
fn push_jump(
    edges: &mut Vec<Edge>,
    linked: &Linked,
    node: Node,
    x: u32,
    code: &Code,
) -> Result<(), NoMemory>
    ensures { OnOk result (IsAdded (IsJump linked.now node x code.now) edges.old.items edges.new.items) }
{
    match loaded_static(code, x) {
        Some(field) => push_jumps(edges, linked, node, field),
        None => Ok(()),
    }
}

// Adds the edges from what the statement at the place assigns to the local.
fn push_assigned(
    edges: &mut Vec<Edge>,
    alloc: Global,
    linked: &Linked,
    node: Node,
    x: u32,
    place: Place,
    code: &Code,
) -> Result<(), NoMemory>
    ensures { OnOk result (IsAdded (IsAssigned linked.now node x place code.now) edges.old.items edges.new.items) }
{
    push_brought(edges, node, x, place, code)?;
    push_jump(edges, linked, node, x, code)?;
    push_returns(edges, alloc, linked, node, place, taken_from(code, x))
}

// Adds the edges from what the statement behind which the node stands assigns to the local.
fn push_into_local(
    edges: &mut Vec<Edge>,
    alloc: Global,
    linked: &Linked,
    node: Node,
    x: u32,
) -> Result<(), NoMemory>
    ensures { OnOk result (IsAdded (IsIntoLocal linked.now node x) edges.old.items edges.new.items) }
{
    if node.place.index == 0 {
        return Ok(());
    }
    let method = node.place.method;
    let index = node.place.index - 1;
    match code_at(linked, method, index) {
        Some(code) => push_assigned(edges, alloc, linked, node, x, before(method, index), code),
        None => Ok(()),
    }
}

/// Adds the edges from what the statement assigns behind which the node stands.
pub fn push_behind(
    edges: &mut Vec<Edge>,
    alloc: Global,
    linked: &Linked,
    node: Node,
) -> Result<(), NoMemory>
    ensures { OnOk result (IsAdded (IsFromBehind linked.now node) edges.old.items edges.new.items) }
{
    match node.var {
        Var::Local(x) => push_into_local(edges, alloc, linked, node, x),
        _ => Ok(()),
    }
}
