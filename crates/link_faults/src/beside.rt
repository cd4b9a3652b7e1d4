//! What refuses a body beside its statements.
ghost use Rattle.std.specs.Prelude.{◌≡◌, ◌^◌, ◌<◌, ◌↔◌, All, IsTrue, length};
ghost use Rattle.lists.specs.Lists.{Has};
ghost use Rattle.jim_ast.specs.declared.syntax.Trap.{Trap as ATrap};
ghost use Rattle.link_rules.specs.Bodies.{IsLabel, trap_labels};
ghost use Rattle.link_rules.specs.Classes.{DeclaredMethod};
ghost use Rattle.link_rules.specs.Statements.{HasBody};
ghost use Rattle.link_classes.specs.Classes.{IsKnown};
ghost use Rattle.link_classes.specs.Seen.{seen_method};
ghost use Rattle.link_faults.specs.Progress.{RefusesBody, RefusesEmpty, RefusesLabels, RefusesLocals, RefusesTraps};
ghost use Rattle.link_faults.specs.Traps.{IsFirstForTraps, TrapHandlesAtEnd, TrapIsUndeclared, TrapNamesNoLabel};
ghost use Rattle.link_faults.specs.Order.{IsFirstIn};
ghost use Rattle.link_faults.specs.Sites.{HasMissingLabel, IsUndeclared};

use super::examined::Fault;
use super::faults::earlier;
use super::labels::has_missing_label;
use super::mentioned::is_undeclared;
use jim_ast::Trap;
use link_bodies::BodyIndex;
use link_classes::{Classes, MethodIn};
use link_rules::LinkKind;

// Whether a label that the trap names isn't there.
fn names_no_label(body: &BodyIndex, trap: Trap) -> bool
    ensures { IsTrue result ↔ HasMissingLabel body.now.labels (trap_labels trap) }
{
    has_missing_label(body, &[trap.from, trap.to, trap.with])
}

// Whether a trap names a label that isn't there.
fn trap_names_no_label(body: &BodyIndex, traps: &[Trap]) -> bool
    ensures { IsTrue result ↔ ((trap : ATrap) × Has traps.now trap × HasMissingLabel body.now.labels (trap_labels trap)) }
{
    for trap in traps {
        if names_no_label(body, *trap) {
            return true;
        }
    }
    false
}

// Whether the handler of a trap is the end of the body.
fn handles_at(body: &BodyIndex, traps: &[Trap], end: u32) -> bool
    ensures { IsTrue result ↔ ((trap : ATrap) × Has traps.now trap × IsLabel body.now.labels trap.with end) }
{
    for trap in traps {
        if body.label(trap.with) == Some(end) {
            return true;
        }
    }
    false
}

// Whether a trap names a class that isn't declared.
fn trap_is_undeclared(classes: &Classes, method: &MethodIn, traps: &[Trap]) -> bool
    requires known { IsKnown classes.now.texts method.now }
    requires within { All (λ (trap : ATrap). trap.class.0 < length (seen_method method.now).names) traps.now }
    ensures { IsTrue result ↔ ((trap : ATrap) × Has traps.now trap
        × IsUndeclared classes.now.world (seen_method method.now).names trap.class) }
{
    for trap in traps {
        if is_undeclared(classes, method, trap.class) {
            return true;
        }
    }
    false
}

// Whether a trap of the body names a label that isn't there.
fn traps_nowhere(body: &BodyIndex) -> bool
    ensures { IsTrue result ↔ TrapNamesNoLabel body.now }
{
    trap_names_no_label(body, body.body().traps.as_slice())
}

// How many statements there are.
pub(crate) fn end_of(body: &BodyIndex) -> u32
    requires { length body.now.stmts < 2 ^ 32 }
    ensures { result ≡ length body.now.stmts }
{
    body.body().stmts.as_slice().len() as u32
}

// Whether the handler of a trap of the body is its end.
fn handles_at_end(body: &BodyIndex) -> bool
    requires { length body.now.stmts < 2 ^ 32 }
    ensures { IsTrue result ↔ TrapHandlesAtEnd body.now }
{
    handles_at(body, body.body().traps.as_slice(), end_of(body))
}

// Whether a trap of the body names a class that isn't declared.
fn traps_undeclared(classes: &Classes, method: &MethodIn, body: &BodyIndex) -> bool
    requires known { IsKnown classes.now.texts method.now }
    requires in_body { HasBody (seen_method method.now) body.now }
    ensures { IsTrue result ↔ TrapIsUndeclared classes.now.world (seen_method method.now).names body.now }
{
    trap_is_undeclared(classes, method, body.body().traps.as_slice())
}

// The least rule that refuses a trap.
fn traps_rule(classes: &Classes, method: &MethodIn, body: &BodyIndex) -> Option<LinkKind>
    requires known { IsKnown classes.now.texts method.now }
    requires in_body { HasBody (seen_method method.now) body.now }
    requires few { length body.now.stmts < 2 ^ 32 }
    ensures { IsFirstForTraps classes.now.world (seen_method method.now).names body.now result }
{
    if traps_nowhere(body) {
        return Some(LinkKind::UnknownLabel);
    }
    if handles_at_end(body) {
        return Some(LinkKind::FallsOff);
    }
    if traps_undeclared(classes, method, body) {
        return Some(LinkKind::UnknownClass);
    }
    None
}

// What refuses the traps first.
fn traps_fault(classes: &Classes, method: &MethodIn, body: &BodyIndex) -> Option<Fault>
    requires known { IsKnown classes.now.texts method.now }
    requires in_body { HasBody (seen_method method.now) body.now }
    requires few { length body.now.stmts < 2 ^ 32 }
    ensures { IsFirstIn (RefusesTraps classes.now.world (seen_method method.now)) result }
{
    match traps_rule(classes, method, body) {
        Some(kind) => Some(Fault {
            index: end_of(body),
            kind,
        }),
        None => None,
    }
}

// What refuses a body without a statement.
fn empty_fault(body: &BodyIndex) -> Option<Fault>
    ensures { (m : DeclaredMethod) → HasBody m body.now → IsFirstIn (RefusesEmpty m) result }
{
    if body.body().stmts.as_slice().is_empty() {
        Some(Fault {
            index: 0,
            kind: LinkKind::FallsOff,
        })
    } else {
        None
    }
}

// What refuses names that two locals have.
fn locals_fault(body: &BodyIndex) -> Option<Fault>
    ensures { (m : DeclaredMethod) → HasBody m body.now → IsFirstIn (RefusesLocals m) result }
{
    if body.repeats_local() {
        Some(Fault {
            index: 0,
            kind: LinkKind::DuplicateLocal,
        })
    } else {
        None
    }
}

// What refuses names that two labels have.
fn labels_fault(body: &BodyIndex) -> Option<Fault>
    ensures { (m : DeclaredMethod) → HasBody m body.now → IsFirstIn (RefusesLabels m) result }
{
    let index = body.repeated_label()?;
    Some(Fault {
        index,
        kind: LinkKind::DuplicateLabel,
    })
}

// What refuses the body first, beside its statements.
pub(crate) fn fault_beside(classes: &Classes, method: &MethodIn, body: &BodyIndex) -> Option<Fault>
    requires known { IsKnown classes.now.texts method.now }
    requires in_body { HasBody (seen_method method.now) body.now }
    requires few { length body.now.stmts < 2 ^ 32 }
    ensures { IsFirstIn (RefusesBody classes.now.world (seen_method method.now)) result }
{
    let doubled = earlier(locals_fault(body), labels_fault(body));
    let rest = earlier(empty_fault(body), traps_fault(classes, method, body));
    earlier(doubled, rest)
}
