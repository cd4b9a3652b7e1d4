//! One edge at most, and whether it is there.
ghost use Rattle.std.specs.Prelude.{◌≡◌, ◌<◌, ◌≤◌, ◌↔◌, ℕ, ◌++◌, [], ◌∷◌, IsTrue, OnOk, Some};
ghost use Rattle.lists.specs.Lists.{Has};
ghost use Rattle.link_rules.specs.declared.code.Catch.{Catch as Handler};
ghost use Rattle.link_sites.specs.Places.{HasCode};
ghost use Rattle.spds_rules.specs.Edges.{Leaves, Returns, StoresStatic};
ghost use Rattle.spds_rules.specs.declared.node.Var.{Var as Variable};
ghost use Rattle.spds_nodes.specs.Added.{IsAdded};
ghost use Rattle.spds_nodes.specs.Codes.{HandlesAt, PassesAs};
ghost use Rattle.spds_nodes.specs.Into.{IsFrom};

use super::flows::{leaves, passed, returned, stored_static};
use super::places::code_at;
use link_program::Linked;
use link_rules::Catch;
use link_sites::Place;
use lists::NoMemory;
use spds_rules::{Edge, EdgeKind, Node, Var};

/// Adds the edge of the kind to the node from the variable at the place, where there is one.
pub fn push_found(
    edges: &mut Vec<Edge>,
    place: Place,
    found: Option<Var>,
    kind: EdgeKind,
    to: Node,
) -> Result<(), NoMemory>
    ensures { OnOk result (IsAdded (IsFrom place kind to (λ v. found ≡ Some v)) edges.old.items edges.new.items) }
{
    if let Some(var) = found {
        let from = Node { place, var };
        edges.push(Edge { from, to, kind })?;
    }
    Ok(())
}

/// The variable, where the statement leaves it.
pub fn kept_at(linked: &Linked, method: u32, index: u32, var: Var) -> Option<Var>
    ensures { (v : Variable) → (result ≡ Some v) ↔ (HasCode linked.now method index (λ c. Leaves c var) × (v ≡ var)) }
{
    if leaves(code_at(linked, method, index)?, var) {
        return Some(var);
    }
    None
}

/// What the statement returns.
pub fn returned_at(linked: &Linked, method: u32, index: u32) -> Option<Var>
    ensures { (v : Variable) → (result ≡ Some v) ↔ HasCode linked.now method index (λ c. Returns c v) }
{
    returned(code_at(linked, method, index)?)
}

/// What the statement stores into a static field.
pub fn stored_at(linked: &Linked, method: u32, index: u32, field: u32) -> Option<Var>
    ensures { (v : Variable) → (result ≡ Some v) ↔ HasCode linked.now method index (λ c. StoresStatic c v field) }
{
    stored_static(code_at(linked, method, index)?, field)
}

/// What the call passes as a receiver or a parameter.
pub fn passed_at(linked: &Linked, method: u32, index: u32, var: Var) -> Option<Var>
    ensures { (v : Variable) → (result ≡ Some v) ↔ HasCode linked.now method index (λ c. PassesAs c v var) }
{
    passed(code_at(linked, method, index)?, var)
}

/// Whether a handler that covers the statement at `index` begins at `handler`.
fn handles(linked: &Linked, method: u32, index: u32, handler: u32) -> bool
    ensures { IsTrue result ↔ HandlesAt linked.now method index handler }
{
    if method >= linked.methods() {
        return false;
    }
    linked.catches(method).iter().any(|c| c.handler == handler && c.from <= index && index < c.to)
}

/// Statements of a method from one index up to, not including, another.
#[derive(Clone, Copy)]
pub struct Covered {
    pub from: u32,
    pub to: u32,
}

// Statements among which are all that are covered by a handler which begins there.
fn covered_in(catches: &[Catch], handler: u32) -> Covered
    ensures { (c : Handler) → Has catches.now c → handler ≡ c.handler → (result.from ≤ c.from) × (c.to ≤ result.to) }
{
    let mut from = u32::MAX;
    let mut to = 0;
    for catch in catches {
        if catch.handler == handler {
            from = from.min(catch.from);
            to = to.max(catch.to);
        }
    }
    Covered { from, to }
}

/// Statements among which are all that are covered by a handler of the method which begins at `handler`. None where there is no such handler.
pub fn covered_by(linked: &Linked, method: u32, handler: u32) -> Covered
    ensures { (t : ℕ) → HandlesAt linked.now method t handler → (result.from ≤ t) × (t < result.to) }
{
    if method >= linked.methods() {
        return Covered { from: 0, to: 0 };
    }
    covered_in(linked.catches(method), handler)
}

/// The variable, where such a handler takes it over.
pub fn handled_at(linked: &Linked, method: u32, index: u32, handler: u32, var: Var) -> Option<Var>
    ensures { (v : Variable) → (result ≡ Some v) ↔ (HandlesAt linked.now method index handler × (v ≡ var)) }
{
    if handles(linked, method, index, handler) {
        return Some(var);
    }
    None
}
