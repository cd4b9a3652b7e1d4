//! Calls: the frame of a method that is called.
ghost use Rattle.std.specs.Prelude.{◌≡◌, ◌+◌, ◌<◌, ◌^◌, IfNone, IfOk, IfSome, None, OnErr, OnOk, Some, length};
ghost use Rattle.jim_step.specs.Frames.{frame_of};
ghost use Rattle.jim_step.specs.Keeping.{IsSameState, Moves};
ghost use Rattle.jim_step.specs.Plans.{args_of, called_frame, code_of, locals_in};
ghost use Rattle.jim_step.specs.Ready.{IsReadyAt};
ghost use Rattle.jim_step.specs.Stacks.{EachTop};
ghost use Rattle.step_rules.specs.States.{enters};

use super::frame::{Frame, new_frame};
use super::kept::Kept;
use super::reading::operands;
use link_program::Linked;
use link_rules::Code;
use std::alloc::{AllocError, Global};
use step_rules::Value;

// The statement at which a frame stands.
fn code_at<'a>(linked: &'a Linked, frame: &Frame) -> Option<&'a Code>
    ensures some { IfSome result (λ code. code_of linked.now (frame_of frame.now) ≡ Some code.now) }
    ensures none { IfNone result (code_of linked.now (frame_of frame.now) ≡ None) }
{
    if frame.place.method >= linked.methods() {
        return None;
    }
    linked
        .code(frame.place.method)
        .get(frame.place.index as usize)
}

// How many locals a method has.
fn locals_of(linked: &Linked, number: u32) -> usize
    ensures { result ≡ locals_in linked.now number }
{
    if number < linked.methods() {
        linked.locals(number).len()
    } else {
        0
    }
}

// The arguments of the call at which a frame stands.
fn args_at(alloc: Global, linked: &Linked, frame: &Frame) -> Result<Vec<Value>, AllocError>
    requires { IsReadyAt linked.now (frame_of frame.now) }
    ensures { IfOk result (λ args. args.items ≡ args_of linked.now (frame_of frame.now)) }
{
    let Some(code) = code_at(linked, frame) else {
        return Ok(Vec::new(alloc));
    };
    match code {
        Code::Call {
            to: _,
            mode: _,
            class: _,
            key: _,
            receiver: _,
            args,
            targets: _,
        } => operands(alloc, linked, frame, args.as_slice()),
        _ => Ok(Vec::new(alloc)),
    }
}

// The frame of a method that is called from the statement at which a frame stands.
fn called(
    alloc: Global,
    linked: &Linked,
    frame: &Frame,
    number: u32,
    this: Option<Value>,
) -> Result<Frame, AllocError>
    requires { IsReadyAt linked.now (frame_of frame.now) }
    ensures { IfOk result (λ made. frame_of made ≡ called_frame linked.now (frame_of frame.now) number this) }
{
    let args = args_at(alloc, linked, frame)?;
    new_frame(alloc, number, locals_of(linked, number), this, args)
}

/// A method is called from the top frame's statement. Where there is no memory or no number for its frame, the state is as before.
pub fn enter(
    alloc: Global,
    linked: &Linked,
    kept: &mut Kept,
    number: u32,
    this: Option<Value>,
) -> Result<(), AllocError>
    requires some { 0 < length kept.old.frames.items }
    requires ready { EachTop (IsReadyAt linked.now) kept.old.frames.items }
    ensures ok { OnOk result (Moves (λ at. enters (called_frame linked.now at.top number this) at) kept.old kept.new) }
    ensures err { OnErr result (IsSameState kept.old kept.new) }
    ensures few { OnOk result (length kept.old.frames.items + 1 < 2 ^ 32) }
{
    if kept.frames.len() >= u32::MAX as usize {
        return Err(AllocError);
    }
    let top = &kept.frames[kept.frames.len() - 1];
    let frame = called(alloc, linked, top, number, this)?;
    kept.frames.push(frame)?;
    Ok(())
}
