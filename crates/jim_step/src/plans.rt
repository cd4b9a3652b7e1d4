//! What the next step may do.
ghost use Rattle.std.specs.Prelude.{◌≡◌, ◌+◌, ◌<◌, ◌^◌, List, Some, length, true};
ghost use Rattle.jim_step.specs.Frames.{frame_of, seen};
ghost use Rattle.jim_step.specs.Named.{AreNamed};
ghost use Rattle.jim_step.specs.Plans.{IsCountable, code_of, listed};
ghost use Rattle.jim_step.specs.Ready.{IsReady};
ghost use Rattle.jim_step.specs.Sizes.{IsSmall};
ghost use Rattle.link_rules.specs.Linked.{LinkedProgram};
ghost use Rattle.link_sites.specs.Sites.{IsNamedClass};
ghost use Rattle.step_rules.specs.Offers.{LoadsStatic, Offers, Row, UnwindsAt};
ghost use Rattle.step_rules.specs.Shapes.{FitsPoint, IsCall};
ghost use Rattle.step_rules.specs.States.{Frame as StepFrame, HeapObject};

use super::calls::{Callee, call};
use super::classes::Classes;
use super::fields::{load, load_cell, store, store_cell};
use super::frame::Frame;
use super::plan::{Effect, Plan};
use super::reading::operand;
use super::rows::{assign, cast, compute, give_back, measure, store_static, throw, watch};
use super::unwinds::unwind;
use link_program::Linked;
use link_rules::Code;
use step_heap::Heap;
use step_rules::Value;

// What is loaded from a static field.
fn load_static<'a>(statics: &[Value], to: u32, field: u32) -> Plan<'a>
    requires { field < length statics.now }
    ensures countable { IsCountable result }
    ensures row { (p : LinkedProgram) (top : StepFrame) (heap : List HeapObject) → LoadsStatic (seen top heap statics.now) to field (listed p top result) }
{
    Plan::One(Effect::Gets(to, statics[field as usize]))
}

// What a call may do.
fn call_row<'a>(
    linked: &Linked,
    frame: &Frame,
    heap: &Heap,
    statics: &[Value],
    code: &Code,
) -> Plan<'a>
    requires fits { FitsPoint linked.now (seen (frame_of frame.now) heap.now statics.now) }
    requires here { code_of linked.now (frame_of frame.now) ≡ Some code.now }
    requires ready { IsReady linked.now code.now }
    requires call { IsCall code.now }
    ensures countable { IsCountable result }
    ensures row { Row linked.now (seen (frame_of frame.now) heap.now statics.now) code.now (listed linked.now (frame_of frame.now) result) }
{
    match code {
        Code::Call {
            to: _,
            mode,
            class,
            key,
            receiver,
            args,
            targets: _,
        } => {
            let callee = Callee {
                mode: *mode,
                class: *class,
                key: *key,
            };
            call(linked, heap, frame, callee, *receiver, args.as_slice())
        }
        _ => Plan::One(Effect::IllTyped),
    }
}

// What the statement of a frame may do.
fn row<'a>(
    linked: &Linked,
    classes: &Classes,
    frame: &Frame,
    heap: &'a Heap,
    statics: &[Value],
    code: &'a Code,
) -> Plan<'a>
    requires classes { AreNamed linked.now classes.now }
    requires fits { FitsPoint linked.now (seen (frame_of frame.now) heap.now statics.now) }
    requires next { frame.now.place.index + 1 < 2 ^ 32 }
    requires here { code_of linked.now (frame_of frame.now) ≡ Some code.now }
    requires ready { IsReady linked.now code.now }
    ensures countable { IsCountable result }
    ensures row { Row linked.now (seen (frame_of frame.now) heap.now statics.now) code.now (listed linked.now (frame_of frame.now) result) }
{
    let next = frame.place.index + 1;
    match code {
        Code::This { to } => assign(*to, frame.this),
        Code::Param { to, number } => assign(*to, frame.param(*number)),
        Code::Caught { to } => assign(*to, frame.caught),
        Code::Copy { to, arg } => assign(*to, operand(linked, frame, *arg)),
        Code::Cast { to, arg } => cast(*to, operand(linked, frame, *arg)),
        Code::New { to, class } => Plan::One(Effect::Makes(*to, *class)),
        Code::NewArray { to } | Code::NewMulti { to, .. } => {
            Plan::Two(Effect::Makes(*to, classes.object), Effect::Raises(3))
        }
        Code::Numeric { to, divides } => compute(*to, *divides),
        Code::Length { to, arg } => measure(*to, operand(linked, frame, *arg)),
        Code::Load { to, base, field } => load(linked, heap, *to, *field, frame.local(*base)),
        Code::Store { base, field, arg } => {
            let source = operand(linked, frame, *arg);
            store(linked, heap, *field, frame.local(*base), source)
        }
        Code::LoadCell { to, base } => {
            load_cell(linked, heap, classes.object, *to, frame.local(*base))
        }
        Code::StoreCell { base, arg } => {
            let source = operand(linked, frame, *arg);
            store_cell(linked, heap, frame.local(*base), source)
        }
        Code::LoadStatic { to, field } => load_static(statics, *to, *field),
        Code::StoreStatic { field, arg } => store_static(*field, operand(linked, frame, *arg)),
        Code::Call { .. } => call_row(linked, frame, heap, statics, code),
        Code::If { jump } => Plan::Two(Effect::Goes(next), Effect::Goes(*jump)),
        Code::Goto { jump } => Plan::One(Effect::Goes(*jump)),
        Code::Switch { jumps } => Plan::Jumps(jumps.as_slice()),
        Code::Return { arg: Some(arg) } => give_back(Some(operand(linked, frame, *arg))),
        Code::Return { arg: None } => give_back(None),
        Code::Throw { arg } => throw(operand(linked, frame, *arg)),
        Code::Monitor { arg } => watch(next, operand(linked, frame, *arg)),
        Code::Skip => Plan::One(Effect::Goes(next)),
    }
}

// What an exception in flight at the statement of a frame does.
fn unwinding<'a>(linked: &Linked, frame: &Frame, heap: &Heap, statics: &[Value]) -> Plan<'a>
    requires fits { FitsPoint linked.now (seen (frame_of frame.now) heap.now statics.now) }
    requires raised { frame.now.place.raised ≡ true }
    ensures countable { IsCountable result }
    ensures row { UnwindsAt linked.now (seen (frame_of frame.now) heap.now statics.now) frame.now.thrown (listed linked.now (frame_of frame.now) result) }
{
    linked.tell_form();
    let Some(thrown) = frame.thrown else {
        return Plan::One(Effect::IllTyped);
    };
    match thrown {
        Value::Object(number) => {
            let class = heap.object(number).class();
            let catches = linked.catches(frame.place.method);
            unwind(linked, catches, frame.place.index, number, class)
        }
        Value::Null => Plan::One(Effect::IllTyped),
        Value::Number => Plan::One(Effect::IllTyped),
    }
}

/// What the next step of a run may do whose top frame this is.
pub fn plan_of<'a>(
    linked: &'a Linked,
    classes: &Classes,
    frame: &Frame,
    heap: &'a Heap,
    statics: &[Value],
) -> Plan<'a>
    requires small { IsSmall linked.now }
    requires classes { AreNamed linked.now classes.now }
    requires fits { FitsPoint linked.now (seen (frame_of frame.now) heap.now statics.now) }
    ensures countable { IsCountable result }
    ensures row { Offers linked.now (seen (frame_of frame.now) heap.now statics.now) (listed linked.now (frame_of frame.now) result) }
{
    linked.tell_form();
    if frame.place.raised {
        return unwinding(linked, frame, heap, statics);
    }
    let code = linked.code(frame.place.method);
    let here = &code[frame.place.index as usize];
    row(linked, classes, frame, heap, statics, here)
}
