//! Narrowing.
ghost use Rattle.std.specs.Prelude.{◌<◌, IfOk, length};
ghost use Rattle.link_narrow.specs.Bodies.{AreBodies, IsBodyOf};
ghost use Rattle.link_narrow.specs.Reaching.{AreReached};
ghost use Rattle.narrow_rules.specs.Narrowed.{IsNarrowed};

use super::codes::{lost_method, narrowed_method};
use super::names::Named;
use super::reaching::reached;
use link_indexes::MethodCode;
use link_program::Linked;
use lists::Numbered;
use narrow_rules::Kept;
use std::alloc::{AllocError, Global};

// What is left of the method with a number.
fn body_of(
    alloc: Global,
    linked: &Linked,
    named: &Named<'_>,
    found: &Numbered<u32>,
    method: u32,
) -> Result<MethodCode, AllocError>
    requires reached { AreReached linked.now named.now found.now.keys }
    requires there { method < length linked.now.methods }
    ensures { IfOk result (IsBodyOf linked.now named.now method) }
{
    match found.find(method) {
        Some(_) => {
            let codes = linked.code(method);
            narrowed_method(alloc, named, method, codes, linked.catches(method))
        }
        None => Ok(lost_method(alloc)),
    }
}

// What is left of all methods.
fn bodies_of(
    alloc: Global,
    linked: &Linked,
    named: &Named<'_>,
    found: &Numbered<u32>,
) -> Result<Vec<MethodCode>, AllocError>
    requires { AreReached linked.now named.now found.now.keys }
    ensures { IfOk result (λ bodies. AreBodies linked.now named.now (length linked.now.methods) bodies.items) }
{
    let mut bodies = Vec::new(alloc);
    for method in 0..linked.methods() {
        bodies.push(body_of(alloc, linked, named, found, method)?)?;
    }
    Ok(bodies)
}

/// The program that is left where each call on an object keeps those of its targets that are named with its place. Calls of static and special mode keep
/// theirs, whatever is named. A method that the root doesn't reach any more loses its statements and handlers. All else, each number included, is the
/// same, and is shared with the first program. Its code and its indexes take memory.
pub fn narrow(alloc: Global, linked: &Linked, kept: &[Kept]) -> Result<Linked, AllocError>
    ensures { IfOk result (IsNarrowed linked.now kept.now) }
{
    let named = Named::of(alloc, kept)?;
    let found = reached(alloc, linked, &named)?;
    let bodies = bodies_of(alloc, linked, &named, &found)?;
    linked.tell_form();
    linked.with_code(alloc, bodies)
}
