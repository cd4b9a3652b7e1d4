//! What calls may do.
ghost use Rattle.std.specs.Prelude.{◌≡◌, ℕ, ◌<◌, IfNone, IfSome, List, Some, length};
ghost use Rattle.jim_step.specs.Frames.{frame_of, seen};
ghost use Rattle.jim_step.specs.Plans.{IsCountable, args_of, listed, or_empty};
ghost use Rattle.jim_step.specs.Sizes.{HasNumber};
ghost use Rattle.link_rules.specs.Linked.{LinkedMethod};
ghost use Rattle.step_rules.specs.Offers.{CallsOn, CallsWith, Enters, EntersBelow, EntersBy, Finds};
ghost use Rattle.step_rules.specs.Shapes.{EachOf, FitsObject, FitsSlot, FitsValue};
ghost use Rattle.step_rules.specs.Slots.{local_of, operands_of};
ghost use Rattle.step_rules.specs.States.{Frame as StepFrame};

use super::frame::Frame;
use super::plan::{Effect, Plan};
use super::reading::are_set;
use jim_ast::Mode;
use link_program::Linked;
use link_rules::Arg;
use step_heap::{Heap, Object};
use step_rules::Value;

/// What a call names: how it looks a method up, from which class, by which key.
#[derive(Clone, Copy)]
pub struct Callee {
    pub mode: Mode,
    pub class: u32,
    pub key: u32,
}

// The number of the method with statements that look-up from a class finds.
fn found(linked: &Linked, class: u32, key: u32) -> Option<u32>
    requires class { class < length linked.now.classes }
    ensures some { IfSome result (λ number. (m : LinkedMethod) × Finds linked.now class key number m) }
    ensures none { IfNone result ((number : ℕ) (m : LinkedMethod) → Finds linked.now class key number m → ⊥) }
{
    linked.tell_form();
    let Some(row) = linked.resolve(class, key) else {
        return None;
    };
    let Some(number) = linked.method_of_row(row) else {
        return None;
    };
    if linked.code(number).is_empty() {
        return None;
    }
    Some(number)
}

// The method that look-up from a class finds is called.
fn enter<'a>(linked: &Linked, class: u32, key: u32, this: Option<Value>) -> Plan<'a>
    requires class { class < length linked.now.classes }
    ensures countable { IsCountable result }
    ensures row { (top : StepFrame) → Enters linked.now class key this (args_of linked.now top) (listed linked.now top result) }
{
    match found(linked, class, key) {
        Some(number) => Plan::One(Effect::Calls(number, this)),
        None => Plan::One(Effect::IllTyped),
    }
}

// The same, from a class that has to be below the one that the call names.
fn enter_below<'a>(
    linked: &Linked,
    class: u32,
    from: u32,
    key: u32,
    this: Option<Value>,
) -> Plan<'a>
    requires class { class < length linked.now.classes }
    requires from { from < length linked.now.classes }
    ensures countable { IsCountable result }
    ensures row { (top : StepFrame) → EntersBelow linked.now class from key this (args_of linked.now top) (listed linked.now top result) }
{
    linked.tell_form();
    if linked.tree().sub(from, class) {
        enter(linked, from, key, this)
    } else {
        Plan::One(Effect::IllTyped)
    }
}

// A call on an object.
fn call_on<'a>(linked: &Linked, object: &Object, number: u32, callee: Callee) -> Plan<'a>
    requires class { callee.class < length linked.now.classes }
    requires of_object { object.now.class < length linked.now.classes }
    ensures countable { IsCountable result }
    ensures row { (top : StepFrame) → EntersBy linked.now callee.mode callee.class callee.key object.now (Some (Value.Object number)) (args_of linked.now top) (listed linked.now top result) }
{
    let this = Some(Value::Object(number));
    let (class, key) = (callee.class, callee.key);
    match callee.mode {
        Mode::Static => enter(linked, class, key, this),
        Mode::Special => enter(linked, class, key, this),
        Mode::Virtual => enter_below(linked, class, object.class(), key, this),
        Mode::Interface => enter_below(linked, class, object.class(), key, this),
    }
}

// A call on what a receiver holds.
fn call_at<'a>(linked: &Linked, heap: &Heap, receiver: Value, callee: Callee) -> Plan<'a>
    requires objects { EachOf (FitsObject linked.now (length heap.now)) heap.now }
    requires class { callee.class < length linked.now.classes }
    requires receiver { FitsValue (length heap.now) receiver }
    ensures countable { IsCountable result }
    ensures row { (top : StepFrame) (statics : List Value) → CallsOn linked.now (seen top heap.now statics) callee.mode callee.class callee.key receiver (args_of linked.now top) (listed linked.now top result) }
{
    match receiver {
        Value::Object(number) => call_on(linked, heap.object(number), number, callee),
        Value::Null => Plan::One(Effect::Raises(0)),
        Value::Number => Plan::One(Effect::IllTyped),
    }
}

/// A call from the statement of a frame, on the receiver that the local holds, if it names one, with these arguments.
pub fn call<'a>(
    linked: &Linked,
    heap: &Heap,
    frame: &Frame,
    callee: Callee,
    receiver: Option<u32>,
    args: &[Arg],
) -> Plan<'a>
    requires objects { EachOf (FitsObject linked.now (length heap.now)) heap.now }
    requires class { callee.class < length linked.now.classes }
    requires receiver { (x : ℕ) → FitsSlot (length heap.now) (local_of (frame_of frame.now) x) }
    requires numbers { EachOf (HasNumber linked.now) args.now }
    requires args { args_of linked.now (frame_of frame.now) ≡ or_empty (operands_of linked.now (frame_of frame.now) args.now) }
    ensures countable { IsCountable result }
    ensures row { (statics : List Value) → CallsWith linked.now (seen (frame_of frame.now) heap.now statics) callee.mode callee.class callee.key receiver (operands_of linked.now (frame_of frame.now) args.now) (listed linked.now (frame_of frame.now) result) }
{
    if !are_set(linked, frame, args) {
        return Plan::One(Effect::IllTyped);
    }
    let Some(local) = receiver else {
        return enter(linked, callee.class, callee.key, None);
    };
    match frame.local(local) {
        Some(value) => call_at(linked, heap, value, callee),
        None => Plan::One(Effect::IllTyped),
    }
}
