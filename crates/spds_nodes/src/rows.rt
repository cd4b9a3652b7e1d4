//! The rows of the table of edges, each from all its places into one node.
ghost use Rattle.std.specs.Prelude.{ℕ, ◌<◌, ◌≤◌, ◌↔◌, IfOk, OnOk};
ghost use Rattle.lists.specs.Lists.{Has, IsApart};
ghost use Rattle.spds_nodes.specs.Added.{IsAdded, Over};
ghost use Rattle.spds_nodes.specs.Codes.{HandlesAt};
ghost use Rattle.spds_nodes.specs.Into.{IsEscapeOf, IsHandled, IsHandledFrom, IsJumpOf, IsKept, IsPassed, IsReturnOf};

use super::found::{Covered, handled_at, kept_at, passed_at, push_found, returned_at, stored_at};
use super::places::{before, in_flight};
use link_program::Linked;
use link_sites::Place;
use lists::NoMemory;
use spds_rules::{Edge, EdgeKind, Node, Var};
use std::alloc::Global;

/// Adds the edges over the statements that leave the node's variable and from which a run may go on to the node's.
pub fn push_kept(edges: &mut Vec<Edge>, linked: &Linked, node: Node) -> Result<(), NoMemory>
    ensures { OnOk result (IsAdded (IsKept linked.now node) edges.old.items edges.new.items) }
{
    let method = node.place.method;
    let statements = linked.before(method, node.place.index);
    for index in statements {
        let found = kept_at(linked, method, *index, node.var);
        push_found(edges, before(method, *index), found, EdgeKind::Flow, node)?;
    }
    Ok(())
}

// Adds the edge into a handler from `var` at the statement, which is among `covered` where one covers it.
fn push_handled_at(
    edges: &mut Vec<Edge>,
    linked: &Linked,
    node: Node,
    var: Var,
    covered: Covered,
    index: u32,
) -> Result<(), NoMemory>
    requires { (t : ℕ) → HandlesAt linked.now node.place.method t node.place.index → (covered.from ≤ t) × (t < covered.to) }
    ensures { OnOk result (IsAdded (IsHandledFrom linked.now node var index) edges.old.items edges.new.items) }
{
    if index < covered.from {
        return Ok(());
    }
    if covered.to <= index {
        return Ok(());
    }
    let place = in_flight(node.place.method, index);
    let found = handled_at(linked, node.place.method, index, node.place.index, var);
    push_found(edges, place, found, EdgeKind::Flow, node)
}

/// Adds the edges into a handler that begins at the node's statement, from `var` at each statement that it covers; all of these are among `covered`.
pub fn push_handled(
    edges: &mut Vec<Edge>,
    linked: &Linked,
    node: Node,
    var: Var,
    covered: Covered,
) -> Result<(), NoMemory>
    requires { (t : ℕ) → HandlesAt linked.now node.place.method t node.place.index → (covered.from ≤ t) × (t < covered.to) }
    ensures { OnOk result (IsAdded (IsHandled linked.now node var) edges.old.items edges.new.items) }
{
    let statements = linked.raised(node.place.method);
    for index in statements {
        push_handled_at(edges, linked, node, var, covered, *index)?;
    }
    Ok(())
}

/// Adds the edges from what the calls that may run the node's method pass as its variable.
pub fn push_passed(edges: &mut Vec<Edge>, linked: &Linked, node: Node) -> Result<(), NoMemory>
    ensures { OnOk result (IsAdded (IsPassed linked.now node) edges.old.items edges.new.items) }
{
    let calls = linked.callers(node.place.method);
    for call in calls {
        let place = before(call.method, call.index);
        let found = passed_at(linked, call.method, call.index, node.var);
        push_found(edges, place, found, EdgeKind::Call(place), node)?;
    }
    Ok(())
}

/// Adds the edges from what is stored into the static field.
pub fn push_jumps(
    edges: &mut Vec<Edge>,
    linked: &Linked,
    node: Node,
    field: u32,
) -> Result<(), NoMemory>
    ensures { OnOk result (IsAdded (IsJumpOf linked.now node field) edges.old.items edges.new.items) }
{
    let stores = linked.static_stores(field);
    for store in stores {
        let place = before(store.method, store.index);
        let found = stored_at(linked, store.method, store.index, field);
        push_found(edges, place, found, EdgeKind::Jump, node)?;
    }
    Ok(())
}

// Adds the edges from what the method returns.
fn push_returns_of(
    edges: &mut Vec<Edge>,
    linked: &Linked,
    node: Node,
    call: Place,
    target: u32,
) -> Result<(), NoMemory>
    ensures { OnOk result (IsAdded (IsReturnOf linked.now node call target) edges.old.items edges.new.items) }
{
    let statements = linked.returns(target);
    for index in statements {
        let place = before(target, *index);
        let found = returned_at(linked, target, *index);
        push_found(edges, place, found, EdgeKind::Return(call), node)?;
    }
    Ok(())
}

// Adds the edges from the exceptions that leave the method.
fn push_escapes_of(
    edges: &mut Vec<Edge>,
    linked: &Linked,
    node: Node,
    call: Place,
    target: u32,
) -> Result<(), NoMemory>
    ensures { OnOk result (IsAdded (IsEscapeOf linked.now node call target) edges.old.items edges.new.items) }
{
    let statements = linked.raised(target);
    for index in statements {
        let place = in_flight(target, *index);
        push_found(
            edges,
            place,
            Some(Var::Thrown),
            EdgeKind::Return(call),
            node,
        )?;
    }
    Ok(())
}

/// The numbers of a list, each once.
pub fn each_once(alloc: Global, numbers: &[u32]) -> Result<Vec<u32>, NoMemory>
    ensures apart { IfOk result (λ once. IsApart once.items) }
    ensures same { IfOk result (λ once. (n : ℕ) → Has once.items n ↔ Has numbers.now n) }
{
    let mut once = Vec::from_slice(alloc, numbers)?;
    once.sort_unstable();
    once.dedup();
    Ok(once)
}

/// Adds the edges from what the methods that the call may run return.
pub fn push_returns(
    edges: &mut Vec<Edge>,
    alloc: Global,
    linked: &Linked,
    node: Node,
    call: Place,
    targets: &[u32],
) -> Result<(), NoMemory>
    ensures { OnOk result (IsAdded (Over (Has targets.now) (IsReturnOf linked.now node call)) edges.old.items edges.new.items) }
{
    let once = each_once(alloc, targets)?;
    for target in &once {
        push_returns_of(edges, linked, node, call, *target)?;
    }
    Ok(())
}

/// Adds the edges from the exceptions that leave the methods that the call may run.
pub fn push_escapes(
    edges: &mut Vec<Edge>,
    alloc: Global,
    linked: &Linked,
    node: Node,
    call: Place,
    targets: &[u32],
) -> Result<(), NoMemory>
    ensures { OnOk result (IsAdded (Over (Has targets.now) (IsEscapeOf linked.now node call)) edges.old.items edges.new.items) }
{
    let once = each_once(alloc, targets)?;
    for target in &once {
        push_escapes_of(edges, linked, node, call, *target)?;
    }
    Ok(())
}
