//! Linked programs from texts.
ghost use Rattle.std.specs.Prelude.{IfOk, IfSome};
ghost use Rattle.link_rules.specs.Conditions.{IsRead};
ghost use Rattle.link_rules.specs.WellLinked.{IsWellLinked};

use jim_ast::Program;
use jim_link::{declares_named, link};
use jim_parse::parse;
use jim_prelude::PRELUDE;
use jim_text::lex;
use link_program::Linked;
use link_rules::LinkError;
use read_laws::derived_programs_are_read;
use std::alloc::Global;

// The program of a text. `None` where the text is none, and for want of memory.
fn program_of(alloc: Global, text: &str) -> Option<Program>
    ensures { IfSome result IsRead }
{
    derived_programs_are_read();
    let bytes = text.as_bytes();
    if bytes.len() > 16_777_216 {
        return None;
    }
    let tokens = lex(alloc, bytes).ok()?;
    parse(alloc, bytes, &tokens).ok()
}

// The linked program of two, or why it is refused.
fn joined(alloc: Global, input: &Program, prelude: &Program) -> Option<Result<Linked, LinkError>>
    requires input { IsRead input.now }
    requires prelude { IsRead prelude.now }
    ensures { IfSome result (λ r. IfOk r IsWellLinked) }
{
    if !declares_named(prelude) {
        return None;
    }
    Some(link(alloc, input, prelude, "Main"))
}

// The linked program of one and the stand-ins, or why it is refused.
fn linked_with(alloc: Global, input: &Program) -> Option<Result<Linked, LinkError>>
    requires { IsRead input.now }
    ensures { IfSome result (λ r. IfOk r IsWellLinked) }
{
    let prelude = program_of(alloc, PRELUDE)?;
    joined(alloc, input, &prelude)
}

/// The program of a text, linked with the stand-ins for Java's own classes from the `main` of its class `Main` on, or why it is refused. `None` where the text is
/// no program, and for want of memory.
pub fn linked_of(alloc: Global, text: &str) -> Option<Result<Linked, LinkError>>
    ensures { IfSome result (λ r. IfOk r IsWellLinked) }
{
    let input = program_of(alloc, text)?;
    linked_with(alloc, &input)
}
