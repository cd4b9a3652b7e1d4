//! The edges that end in a node.
ghost use Rattle.std.specs.Prelude.{IfOk, OnOk};
ghost use Rattle.lists.specs.Lists.{AreAll};
ghost use Rattle.spds_rules.specs.declared.reach.Reach.TheVariants.{Plain};
ghost use Rattle.spds_rules.specs.Nodes.{IsNode};
ghost use Rattle.spds_nodes.specs.Added.{IsAdded};
ghost use Rattle.spds_nodes.specs.Into.{IsEdgeInto, IsHandledIn, IsIntoUnraised, IsPassedIn};

use super::backs::push_back;
use super::behind::push_behind;
use super::flows::{caught_from, is_position};
use super::found::covered_by;
use super::nodes::is_node;
use super::raised::push_into_raised;
use super::rows::{push_handled, push_kept, push_passed};
use link_program::Linked;
use lists::NoMemory;
use spds_rules::{Edge, Node, Reach};
use std::alloc::Global;

// Adds the edges from what calls pass, where the method begins.
fn push_passed_in(edges: &mut Vec<Edge>, linked: &Linked, node: Node) -> Result<(), NoMemory>
    ensures { OnOk result (IsAdded (IsPassedIn linked.now node) edges.old.items edges.new.items) }
{
    if node.place.index != 0 {
        return Ok(());
    }
    if !is_position(node.var) {
        return Ok(());
    }
    push_passed(edges, linked, node)
}

// Adds the edges into a handler that begins at the node's statement.
fn push_handled_in(edges: &mut Vec<Edge>, linked: &Linked, node: Node) -> Result<(), NoMemory>
    ensures { OnOk result (IsAdded (IsHandledIn linked.now node) edges.old.items edges.new.items) }
{
    let covered = covered_by(linked, node.place.method, node.place.index);
    if covered.from >= covered.to {
        return Ok(());
    }
    match caught_from(node.var) {
        Some(var) => push_handled(edges, linked, node, var, covered),
        None => Ok(()),
    }
}

// Adds the edges into a node at an unraised place.
fn push_into_unraised(
    edges: &mut Vec<Edge>,
    alloc: Global,
    linked: &Linked,
    node: Node,
) -> Result<(), NoMemory>
    ensures { OnOk result (IsAdded (IsIntoUnraised linked.now node) edges.old.items edges.new.items) }
{
    push_kept(edges, linked, node)?;
    push_behind(edges, alloc, linked, node)?;
    push_passed_in(edges, linked, node)?;
    push_handled_in(edges, linked, node)
}

// Adds all edges of the program that end in the node, but back edges.
fn push_plain(
    edges: &mut Vec<Edge>,
    alloc: Global,
    linked: &Linked,
    node: Node,
) -> Result<(), NoMemory>
    requires { IsNode linked.now node }
    ensures { OnOk result (IsAdded (IsEdgeInto linked.now Plain node) edges.old.items edges.new.items) }
{
    // The form of the program says that what the edges come from are nodes.
    linked.tell_form();
    if node.place.raised {
        push_into_raised(edges, alloc, linked, node)
    } else {
        push_into_unraised(edges, alloc, linked, node)
    }
}

// Adds all edges of the program that end in the node.
fn push_into(
    edges: &mut Vec<Edge>,
    alloc: Global,
    linked: &Linked,
    node: Node,
    reach: Reach,
) -> Result<(), NoMemory>
    requires { IsNode linked.now node }
    ensures { OnOk result (IsAdded (IsEdgeInto linked.now reach node) edges.old.items edges.new.items) }
{
    push_plain(edges, alloc, linked, node)?;
    match reach {
        Reach::Plain => Ok(()),
        Reach::Tracked => push_back(edges, alloc, linked, node),
    }
}

/// All edges of the program that end in the node, each once; with back edges where objects are tracked. Where the program has no such node, there are
/// none. Looks at the predecessors of one statement, the handlers of one method, and the sources of the edges; for a handler also at the statements of
/// its method that may raise, and for back edges at the statements of the methods that a call may run.
pub fn into(alloc: Global, linked: &Linked, node: Node, reach: Reach) -> Result<Vec<Edge>, NoMemory>
    ensures { IfOk result (λ edges. AreAll (IsEdgeInto linked.now reach node) edges.items) }
{
    let mut edges = Vec::new(alloc);
    if is_node(linked, node) {
        push_into(&mut edges, alloc, linked, node, reach)?;
        return Ok(edges);
    }
    Ok(edges)
}
