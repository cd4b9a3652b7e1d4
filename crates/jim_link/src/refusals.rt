//! What is told of a refusal.
ghost use Rattle.std.specs.Prelude.{◌≡◌, ◌≤◌, ℕ, List as Items, IfOk, Ok, length};
ghost use Rattle.link_rules.specs.declared.refusal.LinkKind.{LinkKind as AKind};
ghost use Rattle.link_rules.specs.declared.refusal.LinkKind.TheVariants as rule;
ghost use Rattle.link_rules.specs.Refusals.{IsFirst, IsTextOf, whole, within};
ghost use Rattle.link_rules.specs.Classes.{methods_of};
ghost use Rattle.link_rules.specs.World.{World as AWorld};
ghost use Rattle.jim_link.specs.Told.{TellsFirst};

use super::texts::{method_text, owned};
use jim_ast::Name;
use link_classes::Classes;
use link_rules::{LinkError, LinkKind};
use lists::NoMemory;
use std::alloc::Global;

// The text of a method by its number, the root's being the one behind all others.
fn text_of_number(alloc: Global, classes: &Classes, number: u32) -> Result<Name, NoMemory>
    requires { number ≤ length (methods_of classes.now.world.classes) }
    ensures { IfOk result (IsTextOf classes.now.world number) }
{
    if number < classes.method_count() {
        return method_text(alloc, &classes.method(number));
    }
    owned(alloc, "root")
}

// What is told of a place, where there was memory for it.
fn refused(kind: LinkKind, place: Result<Name, NoMemory>, index: u32) -> LinkError
    ensures { (told : AKind) (text : Items ℕ) (at : ℕ) → result ≡ LinkError.Refused told text at → (told ≡ kind) × (place ≡ Ok text) × (at ≡ index) }
{
    match place {
        Ok(place) => LinkError::Refused { kind, place, index },
        Err(_) => LinkError::NoMemory,
    }
}

/// What is told where there is no method to begin with.
pub fn no_entry(alloc: Global) -> LinkError
    ensures { (w : AWorld) → IsFirst w (whole rule.NoEntry 0) → TellsFirst w result }
{
    refused(LinkKind::NoEntry, owned(alloc, ""), 0)
}

/// What is told of a refusal in a method.
pub fn within_error(
    alloc: Global,
    classes: &Classes,
    number: u32,
    index: u32,
    kind: LinkKind,
) -> LinkError
    requires { IsFirst classes.now.world (within number index kind) }
    ensures { TellsFirst classes.now.world result }
{
    refused(kind, text_of_number(alloc, classes, number), index)
}
