//! The machine.
ghost use Rattle.std.specs.Prelude.{◌≡◌, ◌-◌, ◌<◌, IfOk, OnErr, length, min};
ghost use Rattle.link_rules.specs.Accessed.{At};
ghost use Rattle.step_rules.specs.Runs.{IsFirstState};
ghost use Rattle.step_rules.specs.Shapes.{FitsSlot, IsKnown};
ghost use Rattle.step_rules.specs.Slots.{slot_of};
ghost use Rattle.step_rules.specs.States.{place_of, running};
ghost use Rattle.step_rules.specs.Steps.{Choices, HasChoice, Step, told};

use super::classes::{Classes, classes_of};
use super::kept::Kept;
use super::running::{Turned, advance, count};
use super::sizes::is_small;
use super::starting::first;
use link_program::Linked;
use link_sites::{Place, Site};
use lists::NoMemory;
use std::alloc::{AllocError, Global};
use std::marker::Model;
use step_rules::{Moved, Slot, Value};

/// A run of a linked program, as far as it has been made. Contracts see the program and the state.
#[derive(Drop)]
pub struct Machine<'a> {
    linked: &'a Linked,
    classes: Classes,
    kept: Kept,
}

impl<'a> Model for Machine<'a> {
    ghost use Rattle.jim_step.specs.Standing.{Standing};

    ghost Value = { Standing };

    ghost use Rattle.jim_step.specs.Keeping.{state_in};
    ghost use Rattle.jim_step.specs.Steady.{IsSteady};

    ghost view = { λ m. record { program = m.linked.now; state = state_in m.kept } };

    ghost invariant = { λ m. IsSteady m.linked.now m.classes m.kept };
}

/// The state before the first statement of the root. A program of more than 4,294,967,295 constants, of a method with more statements, or of a
/// switch with more jumps finds no memory.
pub fn start(alloc: Global, linked: &Linked) -> Result<Machine<'_>, NoMemory>
    ensures program { IfOk result (λ m. m.program ≡ linked.now) }
    ensures first { IfOk result (λ m. IsFirstState linked.now m.state) }
{
    if !is_small(linked) {
        return Err(AllocError);
    }
    let classes = classes_of(linked);
    let kept = first(alloc, linked, &classes)?;
    Ok(Machine {
        linked,
        classes,
        kept,
    })
}

impl Machine<'_> {
    /// How many choices the next step has: none once the run has ended.
    pub fn choices(&self) -> u32
        ensures { Choices self.now.program self.now.state result }
    {
        count(self.linked, &self.classes, &self.kept)
    }

    /// Makes the step of a choice, of which there are `choices`, from 0 on, and tells where it leads: an exception that nothing caught is an object of the heap. An object that has 4,294,967,290 writes takes
    /// no more, and there are at most 4,294,967,295 objects and as many frames: a step beyond finds no memory. Where there is no memory for a
    /// step, the machine is as before.
    pub fn step(&mut self, alloc: Global, choice: u32) -> Result<Moved, NoMemory>
        requires { HasChoice self.old.program self.old.state choice }
        ensures program { self.new.program ≡ self.old.program }
        ensures ok { IfOk result (λ moved. Step self.old.program self.old.state choice self.new.state) }
        ensures moved { IfOk result (λ moved. moved ≡ told self.new.state.ending) }
        ensures known { IfOk result (IsKnown (length self.new.state.heap)) }
        ensures err { OnErr result (self.new ≡ self.old) }
    {
        let turned = advance(alloc, self.linked, &self.classes, &mut self.kept, choice)?;
        Ok(turned.moved)
    }

    /// Makes the step of the choice that is wanted, or of the last one where there are fewer, and tells besides how many there were. Otherwise it is as `step`,
    /// and looks only once at what the step may do.
    pub fn turn(&mut self, alloc: Global, wanted: u32) -> Result<Turned, NoMemory>
        requires { self.old.state.ending ≡ running }
        ensures program { self.new.program ≡ self.old.program }
        ensures choices { IfOk result (λ turned. Choices self.old.program self.old.state turned.choices) }
        ensures ok { IfOk result (λ turned. Step self.old.program self.old.state (min wanted (turned.choices - 1)) self.new.state) }
        ensures moved { IfOk result (λ turned. turned.moved ≡ told self.new.state.ending) }
        ensures known { IfOk result (λ turned. IsKnown (length self.new.state.heap) turned.moved) }
        ensures err { OnErr result (self.new ≡ self.old) }
    {
        advance(alloc, self.linked, &self.classes, &mut self.kept, wanted)
    }

    /// How many frames there are: none once the run has ended.
    pub fn frames(&self) -> u32
        ensures { result ≡ length self.now.state.frames }
    {
        self.kept.frames.len() as u32
    }

    /// Where a frame stands. Frames are numbered from that of the root, which is 0, upwards.
    pub fn place(&self, frame: u32) -> Place
        requires { frame < length self.now.state.frames }
        ensures { At self.now.state.frames frame (λ f. result ≡ place_of f) }
    {
        let one = &self.kept.frames[frame as usize];
        one.place
    }

    /// What a slot of a frame holds, where it is set: an object is one of the heap.
    pub fn value_at(&self, frame: u32, slot: Slot) -> Option<Value>
        requires { frame < length self.now.state.frames }
        ensures value { At self.now.state.frames frame (λ f. result ≡ slot_of f slot) }
        ensures known { FitsSlot (length self.now.state.heap) result }
    {
        let one = &self.kept.frames[frame as usize];
        one.slot(slot)
    }

    /// The site of an object.
    pub fn site(&self, object: u32) -> Site
        requires { object < length self.now.state.heap }
        ensures { At self.now.state.heap object (λ o. result ≡ o.site) }
    {
        let one = self.kept.heap.object(object);
        one.site()
    }
}
