//! The start nodes of a site.
ghost use Rattle.std.specs.Prelude.{◌<◌, IfOk, OnOk, length};
ghost use Rattle.lists.specs.Lists.{AreAll};
ghost use Rattle.link_sites.specs.Places.{before};
ghost use Rattle.spds_rules.specs.Nodes.{IsStart, at};
ghost use Rattle.spds_nodes.specs.Added.{IsAdded};
ghost use Rattle.spds_nodes.specs.Starts.{IsBefore, IsBeforeIn, IsThere};

use super::nodes::is_node;
use super::places::before;
use link_program::Linked;
use link_sites::Site;
use lists::NoMemory;
use spds_rules::{Node, Var};
use std::alloc::{AllocError, Global};

// Adds the node, where the program has it.
fn push_there(nodes: &mut Vec<Node>, linked: &Linked, node: Node) -> Result<(), NoMemory>
    ensures { OnOk result (IsAdded (IsThere linked.now node) nodes.old.items nodes.new.items) }
{
    if is_node(linked, node) {
        nodes.push(node)?;
    }
    Ok(())
}

// Adds the variable before the statement, where the program has it. An index past 4,294,967,295 finds no memory.
fn push_before(
    nodes: &mut Vec<Node>,
    linked: &Linked,
    var: Var,
    method: u32,
    index: usize,
) -> Result<(), NoMemory>
    ensures { OnOk result (IsAdded (IsThere linked.now (at (before method index) var)) nodes.old.items nodes.new.items) }
{
    match u32::try_from(index) {
        Ok(index) => {
            let place = before(method, index);
            push_there(nodes, linked, Node { place, var })
        }
        Err(_) => Err(AllocError),
    }
}

// Adds the variable before each statement of the method at which the program has it.
fn push_before_in(
    nodes: &mut Vec<Node>,
    linked: &Linked,
    var: Var,
    method: u32,
) -> Result<(), NoMemory>
    requires { method < length linked.now.methods }
    ensures { OnOk result (IsAdded (IsBeforeIn linked.now var method) nodes.old.items nodes.new.items) }
{
    for index in 0..linked.code(method).len() {
        push_before(nodes, linked, var, method, index)?;
    }
    Ok(())
}

// Adds the variable before each statement of the program at which the program has it.
fn push_before_all(nodes: &mut Vec<Node>, linked: &Linked, var: Var) -> Result<(), NoMemory>
    ensures { OnOk result (IsAdded (IsBefore linked.now var) nodes.old.items nodes.new.items) }
{
    for method in 0..linked.methods() {
        push_before_in(nodes, linked, var, method)?;
    }
    Ok(())
}

// Adds the start nodes of the site.
fn push_starts(nodes: &mut Vec<Node>, linked: &Linked, site: Site) -> Result<(), NoMemory>
    ensures { OnOk result (IsAdded (IsStart linked.now site) nodes.old.items nodes.new.items) }
{
    match site {
        Site::New(place) => {
            let var = Var::Made;
            push_there(nodes, linked, Node { place, var })
        }
        Site::Nested(place, level) => {
            let var = Var::Nested(level);
            push_there(nodes, linked, Node { place, var })
        }
        Site::Raised(place, kind) => {
            let var = Var::Raised(kind);
            push_there(nodes, linked, Node { place, var })
        }
        Site::Text(number) => push_before_all(nodes, linked, Var::Text(number)),
        Site::Class(number) => push_before_all(nodes, linked, Var::Class(number)),
    }
}

/// All start nodes of a site, each once. A statement's objects, its arrays of one inner level and its exceptions of one kind have one; for a constant all statements of the program
/// are looked at.
pub fn starts_of(alloc: Global, linked: &Linked, site: Site) -> Result<Vec<Node>, NoMemory>
    ensures { IfOk result (λ nodes. AreAll (IsStart linked.now site) nodes.items) }
{
    let mut nodes = Vec::new(alloc);
    push_starts(&mut nodes, linked, site)?;
    Ok(nodes)
}
