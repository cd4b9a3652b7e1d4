//! Returns, and exceptions that leave a method.
ghost use Rattle.std.specs.Prelude.{◌≡◌, ◌<◌, length};
ghost use Rattle.jim_step.specs.Keeping.{MovesTo, ending_of};
ghost use Rattle.jim_step.specs.Leaving.{CanTake, EachCaller, TakesFor};
ghost use Rattle.jim_step.specs.Stacks.{EachTop};
ghost use Rattle.link_sites.specs.Places.{HasCode};
ghost use Rattle.step_rules.specs.Shapes.{IsCall};
ghost use Rattle.step_rules.specs.States.{stopped};
ghost use Rattle.step_rules.specs.Steps.{Leaves, ReceivesAt, Returns};

use super::kept::Kept;
use super::moves::top_place;
use super::stack::{top_gets, top_goes_on, top_throws};
use link_program::Linked;
use link_rules::Code;
use link_sites::Place;
use step_rules::{Moved, Value};

/// The run ends: no frame is left.
pub fn stop(kept: &mut Kept, moved: Moved)
    ensures { MovesTo (λ at new. new ≡ stopped (ending_of moved) at) kept.old kept.new }
{
    kept.frames.clear();
    kept.moved = moved;
}

// The local that takes what the call at a place returns, if one does.
fn wanted(linked: &Linked, place: Place) -> Option<u32>
    requires { HasCode linked.now place.method place.index IsCall }
    ensures { HasCode linked.now place.method place.index (TakesFor result) }
{
    let code = linked.code(place.method);
    match &code[place.index as usize] {
        Code::Call {
            to,
            mode: _,
            class: _,
            key: _,
            receiver: _,
            args: _,
            targets: _,
        } => *to,
        _ => None,
    }
}

// The caller, which is the top frame now, goes on with what is returned.
fn receive(linked: &Linked, kept: &mut Kept, value: Option<Value>)
    requires some { 0 < length kept.old.frames.items }
    requires caller { EachTop (CanTake linked.now) kept.old.frames.items }
    ensures { MovesTo (λ at new. HasCode linked.now at.top.method at.top.index (λ code. ReceivesAt code value at new)) kept.old kept.new }
{
    let place = top_place(kept.frames.as_slice());
    let Some(to) = wanted(linked, place) else {
        top_goes_on(&mut kept.frames);
        return;
    };
    match value {
        Some(value) => top_gets(&mut kept.frames, to, value),
        None => stop(kept, Moved::IllTyped),
    }
}

/// The top frame goes, and its caller goes on with what it returns.
pub fn give(linked: &Linked, kept: &mut Kept, value: Option<Value>)
    requires some { 0 < length kept.old.frames.items }
    requires caller { EachCaller (CanTake linked.now) kept.old.frames.items }
    ensures { MovesTo (λ at new. Returns linked.now at value new) kept.old kept.new }
{
    kept.frames.pop();
    if kept.frames.is_empty() {
        kept.moved = Moved::Ended;
    } else {
        receive(linked, kept, value);
    }
}

/// The top frame goes, and an object is in flight at its caller's call.
pub fn leave(kept: &mut Kept, object: u32)
    requires { 0 < length kept.old.frames.items }
    ensures { MovesTo (λ at new. Leaves at object new) kept.old kept.new }
{
    kept.frames.pop();
    if kept.frames.is_empty() {
        kept.moved = Moved::Uncaught(object);
    } else {
        top_throws(&mut kept.frames, object);
    }
}
