//! What a step may do.
ghost use Rattle.std.specs.Prelude.{◌≡◌, ◌+◌, ◌<◌, Some, length, slice_get};
ghost use Rattle.std.specs.Option.{option_to_list};
ghost use Rattle.jim_step.specs.Plans.{IsCountable, count_of, listed, listed_behind, listed_cells, meant};
ghost use Rattle.link_rules.specs.Linked.{LinkedProgram};
ghost use Rattle.step_rules.specs.States.{Frame};

use link_sites::Site;
use step_rules::Value;

/// One thing that a step may do.
#[derive(Clone, Copy, Debug, PartialEq, Eq)]
pub enum Effect {
    IllTyped,
    /// An implicit exception of this kind is made, and is in flight.
    Raises(u8),
    Throws(u32),
    Goes(u32),
    Gets(u32, Value),
    /// The local that gets the new object, and the class.
    Makes(u32, u32),
    /// The local that gets the new array, the array that holds it, and its site and class.
    Nests(u32, u32, Site, u32),
    /// The object, the field and what is written.
    Writes(u32, u32, Value),
    Sets(u32, Value),
    /// The method, and the receiver.
    Calls(u32, Option<Value>),
    Returns(Option<Value>),
    /// The handler's index, and the object.
    Handles(u32, u32),
    Leaves(u32),
}

/// All that a step may do, in the order of its choices.
#[derive(Clone, Copy, Debug)]
pub enum Plan<'a> {
    One(Effect),
    Two(Effect, Effect),
    Three(Effect, Effect, Effect),
    /// The local gets null, or one of the elements, or the index is out of bounds; and what else may be done.
    Cells(u32, &'a [Value], Option<Effect>),
    Jumps(&'a [u32]),
}

impl Plan<'_> {
    /// How many choices there are.
    pub fn count(&self) -> u32
        requires { IsCountable self.now }
        ensures count { result ≡ count_of self.now }
        ensures listed { (p : LinkedProgram) (top : Frame) → result ≡ length (listed p top self.now) }
    {
        match self {
            Plan::One(_) => 1,
            Plan::Two(_, _) => 2,
            Plan::Three(_, _, _) => 3,
            Plan::Cells(_, cells, None) => cells.len() as u32 + 2,
            Plan::Cells(_, cells, Some(_)) => cells.len() as u32 + 3,
            Plan::Jumps(jumps) => jumps.len() as u32,
        }
    }

    /// What one of the choices does.
    pub fn effect(&self, choice: u32) -> Effect
        requires { choice < count_of self.now }
        ensures { (p : LinkedProgram) (top : Frame) → slice_get (listed p top self.now) choice ≡ Some (meant p top result) }
    {
        match self {
            Plan::One(only) => *only,
            Plan::Two(first, second) => { if choice == 0 { *first } else { *second } }
            Plan::Three(first, second, third) => third_of(choice, *first, *second, *third),
            Plan::Cells(to, cells, more) => cell_effect(*to, cells, *more, choice),
            Plan::Jumps(jumps) => Effect::Goes(jumps[choice as usize]),
        }
    }
}

// One of three.
fn third_of(choice: u32, first: Effect, second: Effect, third: Effect) -> Effect
    requires { choice < 3 }
    ensures { (p : LinkedProgram) (top : Frame) → slice_get (listed p top (Plan.Three first second third)) choice ≡ Some (meant p top result) }
{
    match choice {
        0 => first,
        1 => second,
        _ => third,
    }
}

/// The value at an index, where there is one.
pub fn value_at(values: &[Value], index: usize) -> Option<Value>
    ensures { result ≡ slice_get values.now index }
{
    values.get(index).copied()
}

// What a choice behind the elements of an array does.
fn behind_cells(more: Option<Effect>, behind: usize) -> Effect
    requires { behind < 1 + length (option_to_list more) }
    ensures { (p : LinkedProgram) (top : Frame) → slice_get (listed_behind p top more) behind ≡ Some (meant p top result) }
{
    match more {
        Some(effect) => {
            if behind == 0 {
                Effect::Raises(1)
            } else {
                effect
            }
        }
        None => Effect::Raises(1),
    }
}

// What a choice of a load from an array does.
fn cell_effect(to: u32, cells: &[Value], more: Option<Effect>, choice: u32) -> Effect
    requires { choice < length cells.now + 2 + length (option_to_list more) }
    ensures { (p : LinkedProgram) (top : Frame) → slice_get (listed_cells p top to cells.now more) choice ≡ Some (meant p top result) }
{
    if choice == 0 {
        return Effect::Gets(to, Value::Null);
    }
    let at = choice as usize - 1;
    match value_at(cells, at) {
        Some(cell) => Effect::Gets(to, cell),
        None => behind_cells(more, at - cells.len()),
    }
}
