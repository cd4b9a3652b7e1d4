//! The back edges into a node.
ghost use Rattle.std.specs.Prelude.{◌≡◌, ◌↔◌, ℕ, OnOk, Some};
ghost use Rattle.lists.specs.Lists.{Has, IsApart};
ghost use Rattle.link_indexes.specs.Rows.{AreTheIndexes};
ghost use Rattle.link_indexes.specs.Tables.{IsInMethod};
ghost use Rattle.link_rules.specs.Accessed.{codes_in};
ghost use Rattle.spds_rules.specs.declared.node.Var.{Var as Variable};
ghost use Rattle.spds_rules.specs.Formals.{IsPosition};
ghost use Rattle.spds_rules.specs.Nodes.{IsNode, at};
ghost use Rattle.spds_nodes.specs.Added.{IsAdded, Over};
ghost use Rattle.spds_nodes.specs.Backs.{IsBackAs, IsBackFrom, IsBackInto, IsBackLocal, IsBackLocalAt, IsBackOf, IsCallAt, IsLeft};

use super::flows::targets_of;
use super::formals::formal_of;
use super::found::push_found;
use super::nodes::is_node;
use super::places::{before, code_at};
use super::positions::passed_back;
use super::rows::each_once;
use link_program::Linked;
use link_sites::Place;
use lists::NoMemory;
use spds_rules::{Edge, EdgeKind, Node, Var};
use std::alloc::Global;

// The variable, where the program has it at the place.
fn var_at(linked: &Linked, place: Place, var: Var) -> Option<Var>
    ensures { (v : Variable) → (result ≡ Some v) ↔ (IsNode linked.now (at place v) × (v ≡ var)) }
{
    if is_node(linked, Node { place, var }) {
        return Some(var);
    }
    None
}

// The statements at which the method is left: by an exception, where `raised`, or else by a return.
fn left_at(linked: &Linked, method: u32, raised: bool) -> &[u32]
    ensures { AreTheIndexes (IsInMethod (IsLeft raised) (codes_in linked.now) method) result.now }
{
    if raised {
        linked.raised(method)
    } else {
        linked.returns(method)
    }
}

// Adds the back edges from the variable, wherever the method is left.
fn push_back_from(
    edges: &mut Vec<Edge>,
    linked: &Linked,
    node: Node,
    call: Place,
    target: u32,
    var: Var,
) -> Result<(), NoMemory>
    ensures { OnOk result (IsAdded (IsBackFrom linked.now node call target var) edges.old.items edges.new.items) }
{
    let raised = node.place.raised;
    let statements = left_at(linked, target, raised);
    for index in statements {
        let place = Place {
            method: target,
            index: *index,
            raised,
        };
        let found = var_at(linked, place, var);
        push_found(edges, place, found, EdgeKind::Return(call), node)?;
    }
    Ok(())
}

// Adds the back edges from the formal of the position in the method.
fn push_back_as(
    edges: &mut Vec<Edge>,
    linked: &Linked,
    node: Node,
    call: Place,
    target: u32,
    position: Var,
) -> Result<(), NoMemory>
    requires { IsPosition position }
    ensures { OnOk result (IsAdded (IsBackAs linked.now node call target position) edges.old.items edges.new.items) }
{
    match formal_of(linked, target, position) {
        Some(var) => push_back_from(edges, linked, node, call, target, var),
        None => Ok(()),
    }
}

// Adds the back edges from the formals of the positions in the method.
fn push_back_in(
    edges: &mut Vec<Edge>,
    linked: &Linked,
    node: Node,
    call: Place,
    target: u32,
    positions: &[Var],
) -> Result<(), NoMemory>
    requires each { (v : Variable) → Has positions.now v → IsPosition v }
    requires apart { IsApart positions.now }
    ensures { OnOk result (IsAdded (Over (Has positions.now) (IsBackAs linked.now node call target)) edges.old.items edges.new.items) }
{
    for position in positions {
        push_back_as(edges, linked, node, call, target, *position)?;
    }
    Ok(())
}

// Adds the back edges from the formals of the positions in the methods.
fn push_back_over(
    edges: &mut Vec<Edge>,
    linked: &Linked,
    node: Node,
    call: Place,
    targets: &[u32],
    positions: &[Var],
) -> Result<(), NoMemory>
    requires targets_apart { IsApart targets.now }
    requires each { (v : Variable) → Has positions.now v → IsPosition v }
    requires apart { IsApart positions.now }
    ensures { OnOk result (IsAdded (Over (Has targets.now) (IsBackOf linked.now node call (Has positions.now))) edges.old.items edges.new.items) }
{
    for target in targets {
        push_back_in(edges, linked, node, call, *target, positions)?;
    }
    Ok(())
}

// The statement that is the call from which something comes back to the place: the one there with an exception in flight, and else the one before.
fn call_at(place: Place) -> Option<u32>
    ensures { (t : ℕ) → (result ≡ Some t) ↔ IsCallAt place.raised t place.index }
{
    if place.raised {
        return Some(place.index);
    }
    place.index.checked_sub(1)
}

// Adds the back edges into the local out of the methods that the statement at the index may run.
fn push_back_at(
    edges: &mut Vec<Edge>,
    alloc: Global,
    linked: &Linked,
    node: Node,
    index: u32,
    x: u32,
) -> Result<(), NoMemory>
    ensures { OnOk result (IsAdded (IsBackLocalAt linked.now node x index) edges.old.items edges.new.items) }
{
    let method = node.place.method;
    let Some(code) = code_at(linked, method, index) else {
        return Ok(());
    };
    let positions = passed_back(alloc, code, node.place.raised, x)?;
    if positions.is_empty() {
        return Ok(());
    }
    let targets = each_once(alloc, targets_of(code))?;
    push_back_over(
        edges,
        linked,
        node,
        before(method, index),
        &targets,
        &positions,
    )
}

// Adds the back edges into the local.
fn push_back_local(
    edges: &mut Vec<Edge>,
    alloc: Global,
    linked: &Linked,
    node: Node,
    x: u32,
) -> Result<(), NoMemory>
    ensures { OnOk result (IsAdded (IsBackLocal linked.now node x) edges.old.items edges.new.items) }
{
    match call_at(node.place) {
        Some(index) => push_back_at(edges, alloc, linked, node, index, x),
        None => Ok(()),
    }
}

/// Adds the back edges into the node.
pub fn push_back(
    edges: &mut Vec<Edge>,
    alloc: Global,
    linked: &Linked,
    node: Node,
) -> Result<(), NoMemory>
    ensures { OnOk result (IsAdded (IsBackInto linked.now node) edges.old.items edges.new.items) }
{
    match node.var {
        Var::Local(x) => push_back_local(edges, alloc, linked, node, x),
        _ => Ok(()),
    }
}
