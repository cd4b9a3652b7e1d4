//! What a method is besides its code.
ghost use Rattle.std.specs.Prelude.{◌≡◌, IfOk, IsSome, length, map};
ghost use Rattle.link_classes.specs.Classes.{IsKnown};
ghost use Rattle.link_classes.specs.Seen.{seen_method};
ghost use Rattle.link_rules.specs.Names.{text_of};
ghost use Rattle.link_rules.specs.Statements.{HasBody};
ghost use Rattle.jim_link.specs.Heads.{AreLocals, IsHeadFor};
ghost use Rattle.jim_link.specs.Texts.{own_names};

use super::texts::{name_text, owned};
use jim_ast::{Body, List, Name};
use link_classes::MethodIn;
use link_program::{ElementText, MethodHead};
use lists::NoMemory;
use std::alloc::{AllocError, Global};

// The names of the locals of a method's body.
fn local_names(alloc: Global, method: &MethodIn, body: &Body) -> Result<List<Name>, NoMemory>
    requires known { IsKnown method.now.all.now method.now }
    requires body { HasBody (seen_method method.now) body.now }
    ensures { IfOk result (λ names. names ≡ map (text_of (own_names method.now)) body.now.locals) }
{
    let mut names = Vec::new(alloc);
    for local in body.locals.as_slice() {
        names.push(owned(alloc, name_text(method, *local))?)?;
    }
    Ok(List::from_vec(names))
}

// The same, of which there are fewer than 4,294,967,296.
fn locals(alloc: Global, method: &MethodIn, body: &Body) -> Result<List<Name>, NoMemory>
    requires known { IsKnown method.now.all.now method.now }
    requires body { HasBody (seen_method method.now) body.now }
    ensures { IfOk result (AreLocals (own_names method.now) body.now) }
{
    let names = local_names(alloc, method, body)?;
    if names.as_slice().len() > u32::MAX as usize {
        return Err(AllocError);
    }
    Ok(names)
}

// How many parameters a method has. There is room for 4,294,967,295.
fn param_count(method: &MethodIn) -> Result<u32, NoMemory>
    ensures { IfOk result (λ count. count ≡ length method.now.decl.now.params) }
{
    match u32::try_from(method.decl.params.as_slice().len()) {
        Ok(count) => Ok(count),
        Err(_) => Err(AllocError),
    }
}

/// A method with a body, under this text, without its code.
pub fn method_head(
    alloc: Global,
    method: &MethodIn,
    text: Name,
    elements: List<ElementText>,
) -> Result<MethodHead, NoMemory>
    requires known { IsKnown method.now.all.now method.now }
    requires body { IsSome method.now.decl.now.body }
    ensures { IfOk result (IsHeadFor (seen_method method.now) text elements) }
{
    let Some(body) = &method.decl.body else {
        unreachable!();
    };
    let params = param_count(method)?;
    let locals = locals(alloc, method, body)?;
    Ok(MethodHead {
        text,
        has_this: !method.decl.is_static,
        params,
        locals,
        elements,
    })
}
