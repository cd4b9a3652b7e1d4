//! What a run begins with.
ghost use Rattle.std.specs.Prelude.{◌≡◌, ◌++◌, ◌<◌, ◌^◌, IfOk, None, OnOk, [], length, replicate};
ghost use Rattle.jim_step.specs.Frames.{frame_of, new_frame_of};
ghost use Rattle.jim_step.specs.Keeping.{state_in};
ghost use Rattle.jim_step.specs.Named.{AreNamed};
ghost use Rattle.jim_step.specs.Sizes.{IsSmall};
ghost use Rattle.jim_step.specs.Steady.{IsSteady};
ghost use Rattle.link_rules.specs.Accessed.{At};
ghost use Rattle.step_rules.specs.Runs.{IsFirstState, constants};
ghost use Rattle.step_rules.specs.States.{new_frame as first_frame};

use super::classes::Classes;
use super::frame::{Frame, new_frame};
use super::kept::Kept;
use link_program::Linked;
use link_sites::Site;
use std::alloc::{AllocError, Global};
use step_heap::Heap;
use step_rules::{Moved, Value};

// Puts an object for each text last.
fn add_texts(heap: &mut Heap, count: u32, class: u32) -> Result<(), AllocError>
    ensures { OnOk result (heap.new ≡ heap.old ++ constants (λ i. Site.Text i) class count) }
{
    for number in 0..count {
        heap.push(Site::Text(number), class)?;
    }
    Ok(())
}

// Puts an object for each class constant last.
fn add_classes(heap: &mut Heap, count: u32, class: u32) -> Result<(), AllocError>
    ensures { OnOk result (heap.new ≡ heap.old ++ constants (λ i. Site.Class i) class count) }
{
    for number in 0..count {
        heap.push(Site::Class(number), class)?;
    }
    Ok(())
}

// The objects of the constants.
fn first_heap(alloc: Global, linked: &Linked, classes: &Classes) -> Result<Heap, AllocError>
    requires { IsSmall linked.now }
    ensures { IfOk result (λ heap. heap ≡ constants (λ i. Site.Text i) classes.now.string (length linked.now.texts) ++ constants (λ i. Site.Class i) classes.now.class (length linked.now.class_texts)) }
{
    let mut heap = Heap::new(alloc);
    add_texts(&mut heap, linked.texts().len() as u32, classes.string)?;
    add_classes(&mut heap, linked.class_texts().len() as u32, classes.class)?;
    Ok(heap)
}

// The static fields, which begin as null.
fn first_statics(alloc: Global, linked: &Linked) -> Result<Vec<Value>, AllocError>
    ensures { IfOk result (λ statics. statics.items ≡ replicate linked.now.static_count Value.Null) }
{
    let mut statics = Vec::new(alloc);
    statics.resize(linked.static_count() as usize, Value::Null)?;
    Ok(statics)
}

// The root's frame.
fn root_frame(alloc: Global, linked: &Linked, root: u32) -> Result<Frame, AllocError>
    requires { root < length linked.now.methods }
    ensures { IfOk result (λ frame. At linked.now.methods root (λ m. frame_of frame ≡ first_frame root m None [])) }
{
    let locals = linked.locals(root).len();
    new_frame(alloc, root, locals, None, Vec::new(alloc))
}

/// The state with which each run begins.
pub fn first(alloc: Global, linked: &Linked, classes: &Classes) -> Result<Kept, AllocError>
    requires small { IsSmall linked.now }
    requires named { AreNamed linked.now classes.now }
    ensures first { IfOk result (λ kept. IsFirstState linked.now (state_in kept)) }
    ensures steady { IfOk result (IsSteady linked.now classes.now) }
{
    linked.tell_form();
    let heap = first_heap(alloc, linked, classes)?;
    let statics = first_statics(alloc, linked)?;
    let root = root_frame(alloc, linked, linked.root())?;
    let mut frames = Vec::new(alloc);
    frames.push(root)?;
    Ok(Kept {
        frames,
        heap,
        statics,
        moved: Moved::Went,
    })
}
