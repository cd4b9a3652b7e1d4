//! What a step does to the state that is kept.
ghost use Rattle.std.specs.Prelude.{OnErr, OnOk};
ghost use Rattle.jim_step.specs.Keeping.{HasRoom, IsAbout, IsSameState, Leads};
ghost use Rattle.jim_step.specs.Leaving.{CanTake, EachCaller};
ghost use Rattle.jim_step.specs.Named.{AreNamed};
ghost use Rattle.jim_step.specs.Ready.{IsReadyAt};
ghost use Rattle.jim_step.specs.Stacks.{EachTop};

use super::classes::Classes;
use super::entering::enter;
use super::kept::Kept;
use super::leaving::{give, leave, stop};
use super::moves::{make, nest, raise, set, write};
use super::plan::Effect;
use super::stack::{top_catches, top_gets, top_goes_to, top_throws};
use link_program::Linked;
use std::alloc::{AllocError, Global};
use step_rules::Moved;

/// Does to a state that goes on what one of its effects does. Where there is no memory for it, the state is as before.
pub fn apply(
    alloc: Global,
    linked: &Linked,
    classes: &Classes,
    kept: &mut Kept,
    effect: Effect,
) -> Result<(), AllocError>
    requires named { AreNamed linked.now classes.now }
    requires about { IsAbout linked.now effect kept.old }
    requires ready { EachTop (IsReadyAt linked.now) kept.old.frames.items }
    requires callers { EachCaller (CanTake linked.now) kept.old.frames.items }
    ensures ok { OnOk result (Leads linked.now effect kept.old kept.new) }
    ensures err { OnErr result (IsSameState kept.old kept.new) }
    ensures room { OnOk result (HasRoom effect kept.old) }
{
    match effect {
        Effect::IllTyped => stop(kept, Moved::IllTyped),
        Effect::Throws(object) => top_throws(&mut kept.frames, object),
        Effect::Goes(index) => top_goes_to(&mut kept.frames, index),
        Effect::Gets(to, value) => top_gets(&mut kept.frames, to, value),
        Effect::Sets(field, value) => set(kept, field, value),
        Effect::Returns(value) => give(linked, kept, value),
        Effect::Handles(handler, object) => top_catches(&mut kept.frames, handler, object),
        Effect::Leaves(object) => leave(kept, object),
        Effect::Raises(kind) => {
            return raise(kept, kind, classes.exceptions[kind as usize]);
        }
        Effect::Makes(to, class) => return make(kept, to, class),
        Effect::Nests(to, array, inner, class) => {
            return nest(alloc, kept, to, array, inner, class);
        }
        Effect::Writes(object, field, value) => {
            return write(alloc, kept, object, field, value);
        }
        Effect::Calls(number, this) => return enter(alloc, linked, kept, number, this),
    }
    Ok(())
}
