//! What an exception in flight does.
ghost use Rattle.std.specs.Prelude.{◌≡◌, ℕ, ◌<◌, ◌↔◌, IfNone, IfSome, IsTrue, length};
ghost use Rattle.jim_step.specs.Plans.{IsCountable, Lists, UnwindsBy};
ghost use Rattle.class_rules.specs.Rows.{Sub};
ghost use Rattle.link_rules.specs.Flow.{CoversPlace};
ghost use Rattle.step_rules.specs.Offers.{IsCaughtAt, MayCatch};
ghost use Rattle.step_rules.specs.Shapes.{EachOf};

use super::plan::{Effect, Plan};
use link_program::Linked;
use link_rules::Catch;

// Whether a handler covers a statement and catches exceptions of a class.
fn may_catch(linked: &Linked, catch_of: &Catch, index: u32, class: u32) -> bool
    requires class { class < length linked.now.classes }
    requires caught { catch_of.now.class < length linked.now.classes }
    ensures { IsTrue result ↔ (CoversPlace catch_of.now index × Sub linked.now.rows class catch_of.now.class) }
{
    linked.tell_form();
    catch_of.from <= index && index < catch_of.to && linked.tree().sub(class, catch_of.class)
}

/// The index of the first handler that catches an exception of a class at a statement.
pub fn handler(linked: &Linked, catches: &[Catch], index: u32, class: u32) -> Option<u32>
    requires class { class < length linked.now.classes }
    requires caught { EachOf (λ c. c.class < length linked.now.classes) catches.now }
    ensures some { IfSome result (IsCaughtAt linked.now catches.now index class) }
    ensures none { IfNone result ((number : ℕ) → MayCatch linked.now catches.now index class number → ⊥) }
{
    for one in catches {
        if may_catch(linked, one, index, class) {
            return Some(one.handler);
        }
    }
    None
}

/// An object in flight at a statement: a handler catches it, or it leaves the method.
pub fn unwind<'a>(
    linked: &Linked,
    catches: &[Catch],
    index: u32,
    object: u32,
    class: u32,
) -> Plan<'a>
    requires class { class < length linked.now.classes }
    requires caught { EachOf (λ c. c.class < length linked.now.classes) catches.now }
    ensures countable { IsCountable result }
    ensures row { Lists result (UnwindsBy linked.now catches.now index object class) }
{
    match handler(linked, catches, index, class) {
        Some(at) => Plan::One(Effect::Handles(at, object)),
        None => Plan::One(Effect::Leaves(object)),
    }
}
