//! The nodes of a program.
ghost use Rattle.std.specs.Prelude.{◌≡◌, ◌<◌, ◌↔◌, IsTrue, length};
ghost use Rattle.link_rules.specs.WellLinked.{IsInForm};
ghost use Rattle.link_rules.specs.Accessed.{At};
ghost use Rattle.spds_rules.specs.Nodes.{HasVar, IsNode, MayStand};

use super::codes::{hands, has_level, is_raised, makes, may_raise};
use super::places::code_at;
use link_program::Linked;
use link_rules::{Arg, Code};
use link_sites::Site;
use spds_rules::{Node, Var};

// A place at which an exception is in flight is one of a statement that an exception may come out of.
fn may_stand(code: &Code, raised: bool) -> bool
    ensures { IsTrue result ↔ MayStand code.now raised }
{
    !raised || is_raised(code)
}

// Whether the variable stands before a statement of the method, or, where `raised`, at it with an exception in flight.
fn has_var(linked: &Linked, method: u32, code: &Code, raised: bool, var: Var) -> bool
    requires { method < length linked.now.methods }
    ensures { At linked.now.methods method (λ m. IsTrue result ↔ HasVar m code.now raised var) }
{
    match var {
        Var::Local(x) => (x as usize) < linked.locals(method).len(),
        Var::This => linked.has_this(method),
        Var::Param(number) => number < linked.params(method),
        Var::Caught => true,
        Var::Thrown => raised,
        Var::Made => !raised && makes(code),
        Var::Nested(level) => !raised && has_level(code, level),
        Var::Raised(kind) => !raised && may_raise(code, kind),
        Var::Text(number) => !raised && hands(code, Arg::Text(number)),
        Var::Class(number) => !raised && hands(code, Arg::Class(number)),
    }
}

/// Whether the program has the node: whether its place is one of the program, and its variable stands there. Takes no memory.
pub fn is_node(linked: &Linked, node: Node) -> bool
    ensures { IsTrue result ↔ IsNode linked.now node }
{
    match code_at(linked, node.place.method, node.place.index) {
        Some(code) => {
            may_stand(code, node.place.raised)
                && has_var(linked, node.place.method, code, node.place.raised, node.var)
        }
        None => false,
    }
}
