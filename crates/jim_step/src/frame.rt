//! The frames of a run.
ghost use Rattle.std.specs.Prelude.{◌≡◌, ◌+◌, ◌<◌, ◌^◌, IfOk, None, Some, false, length, slice_set, true};
ghost use Rattle.jim_step.specs.Frames.{frame_of, new_frame_of};
ghost use Rattle.step_rules.specs.declared.parts.Value.TheVariants.{Object};
ghost use Rattle.step_rules.specs.Slots.{local_of, slot_of};

use link_sites::Place;
use std::alloc::{AllocError, Global};
use step_rules::{Slot, Value};

/// A method that runs: where it stands and what its slots hold. A local is unset until it is assigned.
#[derive(Drop)]
pub struct Frame {
    pub place: Place,
    pub locals: Vec<Option<Value>>,
    pub this: Option<Value>,
    pub params: Vec<Value>,
    pub caught: Option<Value>,
    pub thrown: Option<Value>,
}

/// The frame of a method with so many locals, at its first statement.
pub fn new_frame(
    alloc: Global,
    method: u32,
    locals: usize,
    this: Option<Value>,
    params: Vec<Value>,
) -> Result<Frame, AllocError>
    ensures { IfOk result (λ frame. frame_of frame ≡ new_frame_of method locals this params.items) }
{
    let mut unset = Vec::new(alloc);
    unset.resize(locals, None)?;
    let place = Place {
        method,
        index: 0,
        raised: false,
    };
    Ok(Frame {
        place,
        locals: unset,
        this,
        params,
        caught: None,
        thrown: None,
    })
}

impl Frame {
    /// What a local holds, where it is set.
    pub fn local(&self, x: u32) -> Option<Value>
        ensures { result ≡ local_of (frame_of self.now) x }
    {
        *self.locals.as_slice().get(x as usize)?
    }

    /// What a parameter holds, where there is one with this number.
    pub fn param(&self, i: u32) -> Option<Value>
        ensures { result ≡ slot_of (frame_of self.now) (Slot.Param i) }
    {
        self.params.as_slice().get(i as usize).copied()
    }

    /// What a slot holds, where it is set.
    pub fn slot(&self, slot: Slot) -> Option<Value>
        ensures { result ≡ slot_of (frame_of self.now) slot }
    {
        match slot {
            Slot::Local(x) => self.local(x),
            Slot::This => self.this,
            Slot::Param(i) => self.param(i),
            Slot::Caught => self.caught,
            Slot::Thrown => self.thrown,
        }
    }

    /// Goes on at a statement.
    pub fn go_to(&mut self, index: u32)
        ensures { frame_of self.new ≡ record (frame_of self.old) { index = index } }
    {
        self.place.index = index;
    }

    /// Goes on at the next statement.
    pub fn go_on(&mut self)
        requires { self.old.place.index + 1 < 2 ^ 32 }
        ensures { frame_of self.new ≡ record (frame_of self.old) { index = self.old.place.index + 1 } }
    {
        self.place.index += 1;
    }

    /// A local gets a value, and the frame goes on at the next statement.
    pub fn get(&mut self, to: u32, value: Value)
        requires next { self.old.place.index + 1 < 2 ^ 32 }
        requires local { to < length self.old.locals.items }
        ensures { frame_of self.new ≡ record (frame_of self.old) { index = self.old.place.index + 1; locals = slice_set self.old.locals.items to (Some value) } }
    {
        self.locals[to as usize] = Some(value);
        self.place.index += 1;
    }

    /// An object is in flight at the frame's statement.
    pub fn throw(&mut self, object: u32)
        ensures { frame_of self.new ≡ record (frame_of self.old) { raised = true; thrown = Some (Object object) } }
    {
        self.place.raised = true;
        self.thrown = Some(Value::Object(object));
    }

    /// A handler catches an object: the frame goes on there, and nothing is in flight.
    pub fn catch_at(&mut self, handler: u32, object: u32)
        ensures { frame_of self.new ≡ record (frame_of self.old) { index = handler; raised = false; caught = Some (Object object); thrown = None } }
    {
        self.place.index = handler;
        self.place.raised = false;
        self.caught = Some(Value::Object(object));
        self.thrown = None;
    }
}
