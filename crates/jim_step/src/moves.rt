//! What effects do to the state that is kept.
ghost use Rattle.std.specs.Prelude.{◌≡◌, ◌+◌, ◌<◌, ◌^◌, ◌++◌, ◌∷◌, [], IfNone, IfSome, List, OnErr, OnOk, Some, length};
ghost use Rattle.jim_step.specs.Frames.{frame_of, frames_of};
ghost use Rattle.jim_step.specs.Keeping.{IsSameState, Moves, MovesTo, Nests, Writes};
ghost use Rattle.jim_step.specs.Plans.{called_frame};
ghost use Rattle.jim_step.specs.Stacks.{EachTop};
ghost use Rattle.link_rules.specs.WellLinked.{IsInForm};
ghost use Rattle.step_rules.specs.States.{enters, goes_on, place_of};
ghost use Rattle.step_rules.specs.Steps.{Leaves, Returns, made, raised, with_static};

use super::frame::{Frame, new_frame};
use super::kept::Kept;
use super::reading::operands;
use super::stack::{top_gets, top_goes_on, top_throws};
use link_program::Linked;
use link_rules::Code;
use link_sites::{Place, Site};
use std::alloc::{AllocError, Global};
use step_rules::{Moved, Value};

/// Where the top frame stands.
pub fn top_place(frames: &[Frame]) -> Place
    requires { 0 < length frames.now }
    ensures { EachTop (λ top. result ≡ place_of top) frames.now }
{
    let top = &frames[frames.len() - 1];
    top.place
}

/// A new exception of a kind is in flight. Where there is no memory for it, the state is as before.
pub fn raise(kept: &mut Kept, kind: u8, class: u32) -> Result<(), AllocError>
    requires some { 0 < length kept.old.frames.items }
    ensures ok { OnOk result (Moves (raised kind class) kept.old kept.new) }
    ensures err { OnErr result (IsSameState kept.old kept.new) }
{
    let number = kept.heap.len();
    let place = top_place(kept.frames.as_slice());
    kept.heap.push(Site::Raised(place, kind), class)?;
    top_throws(&mut kept.frames, number);
    Ok(())
}

/// A local gets a new object. Where there is no memory for it, the state is as before.
pub fn make(kept: &mut Kept, to: u32, class: u32) -> Result<(), AllocError>
    requires some { 0 < length kept.old.frames.items }
    requires next { EachTop (λ f. f.index + 1 < 2 ^ 32) kept.old.frames.items }
    requires local { EachTop (λ f. to < length f.locals) kept.old.frames.items }
    ensures ok { OnOk result (Moves (made to class) kept.old kept.new) }
    ensures err { OnErr result (IsSameState kept.old kept.new) }
{
    let number = kept.heap.len();
    let place = top_place(kept.frames.as_slice());
    kept.heap.push(Site::New(place), class)?;
    top_gets(&mut kept.frames, to, Value::Object(number));
    Ok(())
}

/// A new array is made as an element of another, and a local gets it. Where there is no memory for it, the state is as before.
pub fn nest(
    alloc: Global,
    kept: &mut Kept,
    to: u32,
    array: u32,
    inner: Site,
    class: u32,
) -> Result<(), AllocError>
    requires some { 0 < length kept.old.frames.items }
    requires next { EachTop (λ f. f.index + 1 < 2 ^ 32) kept.old.frames.items }
    requires local { EachTop (λ f. to < length f.locals) kept.old.frames.items }
    requires array { array < length kept.old.heap }
    ensures ok { OnOk result (MovesTo (Nests to array inner class) kept.old kept.new) }
    ensures err { OnErr result (IsSameState kept.old kept.new) }
{
    let number = kept.heap.len();
    kept.heap.push_into(alloc, array, inner, class)?;
    top_gets(&mut kept.frames, to, Value::Object(number));
    Ok(())
}

/// A value is written into an object. Where there is no memory for it, the state is as before.
pub fn write(
    alloc: Global,
    kept: &mut Kept,
    object: u32,
    field: u32,
    value: Value,
) -> Result<(), AllocError>
    requires some { 0 < length kept.old.frames.items }
    requires next { EachTop (λ f. f.index + 1 < 2 ^ 32) kept.old.frames.items }
    requires object { object < length kept.old.heap }
    ensures ok { OnOk result (MovesTo (Writes object field value) kept.old kept.new) }
    ensures err { OnErr result (IsSameState kept.old kept.new) }
{
    kept.heap.write(alloc, object, field, value)?;
    top_goes_on(&mut kept.frames);
    Ok(())
}

/// A static field is set.
pub fn set(kept: &mut Kept, field: u32, value: Value)
    requires some { 0 < length kept.old.frames.items }
    requires next { EachTop (λ f. f.index + 1 < 2 ^ 32) kept.old.frames.items }
    requires field { field < length kept.old.statics.items }
    ensures { Moves (λ at. goes_on (with_static field value at)) kept.old kept.new }
{
    kept.statics[field as usize] = value;
    top_goes_on(&mut kept.frames);
}
