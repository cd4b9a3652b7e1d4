//! Linking.
ghost use Rattle.std.specs.Prelude.{◌≡◌, ℕ, List as Items, Err, IfErr, IfOk};
ghost use Rattle.link_classes.specs.Numbered.{AreNumbers, fixed_names};
ghost use Rattle.link_program.specs.Parts.{AreParts, program_of};
ghost use Rattle.link_rules.specs.declared.refusal.LinkKind.{LinkKind as AKind};
ghost use Rattle.link_rules.specs.Conditions.{DeclaresNine, IsRead};
ghost use Rattle.link_rules.specs.Linked.{IsLinkOf, IsRefused, LinkedProgram, Links};
ghost use Rattle.link_reach.specs.Reaches.{AreReached};
ghost use Rattle.link_rules.specs.Reach.{AreInitialized};
ghost use Rattle.link_rules.specs.Refusals.{IsAccepted, IsFirst, RefusesWhole, within};
ghost use Rattle.link_rules.specs.WellLinked.{IsInForm, IsWellLinked};
ghost use Rattle.jim_link.specs.Rows.{ArePartsOf};
ghost use Rattle.jim_link.specs.Told.{TellsFirst};

use super::refusals::{no_entry, within_error};
use super::rows::{Parts, accepted_parts};
use class_tree::Tree;
use jim_ast::Program;
use link_calls::Targets;
use link_classes::{AllNames, Classes, NoClasses};
use link_laws::links_are_well;
use link_program::Linked;
use link_reach::{NotReached, Reachable, reach};
use link_rules::LinkError;
use std::alloc::Global;

// The parts of an accepted program.
fn made_parts(
    alloc: Global,
    targets: &mut Targets,
    reachable: Reachable,
) -> Result<Parts, LinkError>
    requires reached { AreReached targets.old.world reachable.rows.items }
    requires accepted { IsAccepted targets.old.world }
    requires initialized { AreInitialized targets.old.world reachable.initialized.items }
    ensures ok { IfOk result (ArePartsOf targets.old.world) }
    ensures err { IfErr result (TellsFirst targets.old.world) }
{
    match accepted_parts(alloc, targets, reachable) {
        Ok(parts) => Ok(parts),
        Err(_) => Err(LinkError::NoMemory),
    }
}

// What is told where a method is refused.
fn not_reached(alloc: Global, classes: &Classes, error: NotReached) -> LinkError
    requires { (number index : ℕ) (kind : AKind) → error ≡ NotReached.Refused number index kind → IsFirst classes.now.world (within number index kind) }
    ensures { TellsFirst classes.now.world result }
{
    match error {
        NotReached::Refused {
            number,
            index,
            kind,
        } => within_error(alloc, classes, number, index, kind),
        NotReached::NoMemory => LinkError::NoMemory,
    }
}

// The parts of a program that its rules don't refuse as a whole.
fn reached_parts(alloc: Global, classes: &Classes) -> Result<Parts, LinkError>
    requires { (kind : AKind) (number : ℕ) → RefusesWhole classes.now.world kind number → ⊥ }
    ensures ok { IfOk result (ArePartsOf classes.now.world) }
    ensures err { IfErr result (TellsFirst classes.now.world) }
{
    let mut targets = match Targets::new(alloc, classes) {
        Ok(targets) => targets,
        Err(_) => return Err(LinkError::NoMemory),
    };
    match reach(alloc, &mut targets) {
        Ok(reachable) => made_parts(alloc, &mut targets, reachable),
        Err(error) => Err(not_reached(alloc, classes, error)),
    }
}

// The parts of a program, whose classes passed the first three rules.
fn parts_of(alloc: Global, classes: &Classes) -> Result<Parts, LinkError>
    ensures ok { IfOk result (ArePartsOf classes.now.world) }
    ensures err { IfErr result (TellsFirst classes.now.world) }
{
    if !classes.has_entry() {
        return Err(no_entry(alloc));
    }
    reached_parts(alloc, classes)
}

// The program of these parts and this hierarchy.
fn whole(alloc: Global, parts: Parts, tree: Tree) -> Result<Linked, LinkError>
    requires parts { AreParts parts.code parts.members }
    requires form { IsInForm (program_of parts.code parts.members tree) }
    ensures ok { IfOk result (λ p. p ≡ program_of parts.code parts.members tree) }
    ensures err { IfErr result (λ e. e ≡ LinkError.NoMemory) }
{
    let Parts { code, members } = parts;
    match Linked::of_parts(alloc, code, members, tree) {
        Ok(linked) => Ok(linked),
        Err(_) => Err(LinkError::NoMemory),
    }
}

// The linked program of these classes.
fn link_classes(alloc: Global, classes: Classes) -> Result<Linked, LinkError>
    requires { (p : LinkedProgram) → IsLinkOf classes.world p → IsInForm p }
    ensures ok { IfOk result (IsLinkOf classes.entry.world) }
    ensures err { IfErr result (TellsFirst classes.entry.world) }
{
    let parts = parts_of(alloc, &classes)?;
    whole(alloc, parts, classes.into_tree())
}

// What is told where there are no classes.
fn no_classes(error: NoClasses) -> LinkError
    ensures { (kind : AKind) (place : Items ℕ) (index : ℕ) → result ≡ LinkError.Refused kind place index → (error ≡ NoClasses.Refused kind place) × (index ≡ 0) }
{
    match error {
        NoClasses::Refused { kind, place } => LinkError::Refused {
            kind,
            place,
            index: 0,
        },
        NoClasses::NoMemory => LinkError::NoMemory,
    }
}

// The linked program, by all names.
fn link_named(
    alloc: Global,
    all: &AllNames,
    input: &Program,
    prelude: &Program,
    entry: &str,
) -> Result<Linked, LinkError>
    requires input { IsRead input.now }
    requires prelude { IsRead prelude.now }
    requires of_input { AreNumbers all.now.texts input.now.names all.now.input.items }
    requires of_prelude { AreNumbers all.now.texts prelude.now.names all.now.prelude.items }
    requires of_root { AreNumbers all.now.texts (fixed_names entry.now) all.now.root.items }
    requires form { (p : LinkedProgram) → Links input.now prelude.now entry.now p → IsInForm p }
    ensures ok { IfOk result (Links input.now prelude.now entry.now) }
    ensures refused { (kind : AKind) (place : Items ℕ) (index : ℕ) → result ≡ Err (LinkError.Refused kind place index) → IsRefused input.now prelude.now entry.now kind place index }
{
    match Classes::new(alloc, all, input, prelude, entry) {
        Ok(classes) => link_classes(alloc, classes),
        Err(error) => Err(no_classes(error)),
    }
}

/// The linked program of an input and a prelude, from the `main` of the class `entry` on. A class of the prelude whose name a class of the input
/// or an earlier one of the prelude has is left out.
///
/// `Refused` comes exactly where a rule refuses the program, with the first refusal: those of the whole program by rule and then by class, then
/// those in methods by method, the root being the last, by index and by rule. `NoMemory` can come in place of any answer.
pub fn link(
    alloc: Global,
    input: &Program,
    prelude: &Program,
    entry: &str,
) -> Result<Linked, LinkError>
    requires input { IsRead input.now }
    requires prelude { IsRead prelude.now }
    requires nine { DeclaresNine prelude.now }
    ensures ok { IfOk result (Links input.now prelude.now entry.now) }
    ensures well { IfOk result IsWellLinked }
    ensures refused { (kind : AKind) (place : Items ℕ) (index : ℕ) → result ≡ Err (LinkError.Refused kind place index) → IsRefused input.now prelude.now entry.now kind place index }
{
    links_are_well();
    match AllNames::new(alloc, &input.names, &prelude.names, entry) {
        Ok(all) => link_named(alloc, &all, input, prelude, entry),
        Err(_) => Err(LinkError::NoMemory),
    }
}
