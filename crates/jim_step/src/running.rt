//! Steps of the state that is kept.
ghost use Rattle.std.specs.Prelude.{◌≡◌, ◌-◌, ◌<◌, IfOk, OnErr, length, min};
ghost use Rattle.jim_step.specs.Keeping.{Chooses, IsSameState, state_in};
ghost use Rattle.jim_step.specs.Plans.{IsCountable, listed};
ghost use Rattle.jim_step.specs.Steady.{IsSteady};
ghost use Rattle.step_rules.specs.Offers.{Offers};
ghost use Rattle.step_rules.specs.Shapes.{IsKnown};
ghost use Rattle.step_rules.specs.States.{Point, state_of};
ghost use Rattle.step_rules.specs.Steps.{Choices, HasChoice, Step, told};

use super::applying::apply;
use super::classes::Classes;
use super::kept::Kept;
use super::plan::{Effect, Plan};
use super::plans::plan_of;
use link_program::Linked;
use std::alloc::{AllocError, Global};
use step_rules::Moved;

// What the next step may do.
fn planned<'a>(linked: &'a Linked, classes: &Classes, kept: &'a Kept) -> Plan<'a>
    requires steady { IsSteady linked.now classes.now kept.now }
    requires some { 0 < length kept.now.frames.items }
    ensures countable { IsCountable result }
    ensures row { (at : Point) → state_in kept.now ≡ state_of at → Offers linked.now at (listed linked.now at.top result) }
{
    let top = &kept.frames[kept.frames.len() - 1];
    plan_of(linked, classes, top, &kept.heap, kept.statics.as_slice())
}

/// How many choices the next step has.
pub fn count(linked: &Linked, classes: &Classes, kept: &Kept) -> u32
    requires { IsSteady linked.now classes.now kept.now }
    ensures { Choices linked.now (state_in kept.now) result }
{
    if kept.frames.is_empty() {
        return 0;
    }
    planned(linked, classes, kept).count()
}

/// Where a step led, and how many choices there were for it.
#[derive(Clone, Copy, Debug, PartialEq, Eq)]
pub struct Turned {
    pub moved: Moved,
    pub choices: u32,
}

// What a choice does, and how many there are.
#[derive(Clone, Copy)]
struct Chosen {
    effect: Effect,
    choices: u32,
}

// What the choice that is wanted does, or the last one where there are fewer.
fn choose(linked: &Linked, classes: &Classes, kept: &Kept, wanted: u32) -> Chosen
    requires steady { IsSteady linked.now classes.now kept.now }
    requires some { HasChoice linked.now (state_in kept.now) 0 }
    ensures choices { Choices linked.now (state_in kept.now) result.choices }
    ensures effect { Chooses linked.now kept.now (min wanted (result.choices - 1)) result.effect }
{
    let plan = planned(linked, classes, kept);
    let choices = plan.count();
    let effect = plan.effect(wanted.min(choices - 1));
    Chosen { effect, choices }
}

/// Makes the step of the choice that is wanted, or of the last one where there are fewer. Where there is no memory for it, the state is as before.
pub fn advance(
    alloc: Global,
    linked: &Linked,
    classes: &Classes,
    kept: &mut Kept,
    wanted: u32,
) -> Result<Turned, AllocError>
    requires steady { IsSteady linked.now classes.now kept.old }
    requires some { HasChoice linked.now (state_in kept.old) 0 }
    ensures choices { IfOk result (λ turned. Choices linked.now (state_in kept.old) turned.choices) }
    ensures ok { IfOk result (λ turned. Step linked.now (state_in kept.old) (min wanted (turned.choices - 1)) (state_in kept.new)) }
    ensures moved { IfOk result (λ turned. turned.moved ≡ told (state_in kept.new).ending) }
    ensures known { IfOk result (λ turned. IsKnown (length kept.new.heap) turned.moved) }
    ensures err { OnErr result (IsSameState kept.old kept.new) }
    ensures steady { IsSteady linked.now classes.now kept.new }
{
    let chosen = choose(linked, classes, kept, wanted);
    apply(alloc, linked, classes, kept, chosen.effect)?;
    Ok(Turned {
        moved: kept.moved,
        choices: chosen.choices,
    })
}
