//! The lines with how a run stands.
ghost use Rattle.std.specs.Prelude.{◌≡◌, ◌<◌, ◌++◌, ◌∷◌, [], OnOk, length, string_bytes};
ghost use Rattle.link_rules.specs.Accessed.{At};
ghost use Rattle.report_text.specs.Lines.{AddsLine, AddsLines, text_of};
ghost use Rattle.report_text.specs.Texts.{AddsText};
ghost use Rattle.run_report.specs.Reports.{AreEndLines, AreRunningLines, AreSited, IsAtLine, IsFlightText, IsTellable, IsUncaughtLine};
ghost use Rattle.step_rules.specs.Shapes.{FitsFrame};
ghost use Rattle.step_rules.specs.States.{running};
ghost use Rattle.step_rules.specs.Steps.{told};

use super::locals::push_locals;
use super::objects::{push_object, push_value};
use jim_step::Machine;
use link_program::Linked;
use link_sites::Place;
use lists::NoMemory;
use report_text::push_place_text;
use step_rules::{Moved, Slot};

// Adds a line.
fn push_line(text: &mut String, line: &str) -> Result<(), NoMemory>
    ensures { OnOk result (string_bytes text.new ≡ string_bytes text.old ++ text_of (line.now ∷ [])) }
{
    text.push_str(line)?;
    text.push_str("\n")
}

// Adds what is in flight at the place of a frame, if anything is.
fn push_flight(
    text: &mut String,
    linked: &Linked,
    machine: &Machine<'_>,
    frame: u32,
) -> Result<(), NoMemory>
    requires program { machine.now.program ≡ linked.now }
    requires sited { AreSited linked.now machine.now.state.heap }
    requires there { frame < length machine.now.state.frames }
    requires fits { At machine.now.state.frames frame (FitsFrame linked.now (length machine.now.state.heap)) }
    ensures { OnOk result (At machine.now.state.frames frame (λ f. AddsText (IsFlightText linked.now machine.now.state.heap f.raised f.thrown) (string_bytes text.old) (string_bytes text.new))) }
{
    let Some(thrown) = machine.value_at(frame, Slot::Thrown) else {
        return Ok(());
    };
    text.push_str(" raised ")?;
    push_value(text, linked, machine, thrown)
}

// Adds the line with the place of a frame.
fn push_at(
    text: &mut String,
    linked: &Linked,
    machine: &Machine<'_>,
    frame: u32,
) -> Result<(), NoMemory>
    requires program { machine.now.program ≡ linked.now }
    requires sited { AreSited linked.now machine.now.state.heap }
    requires there { frame < length machine.now.state.frames }
    requires fits { At machine.now.state.frames frame (FitsFrame linked.now (length machine.now.state.heap)) }
    ensures { OnOk result (At machine.now.state.frames frame (λ f. AddsLine (IsAtLine linked.now machine.now.state.heap f) (string_bytes text.old) (string_bytes text.new))) }
{
    let place = machine.place(frame);
    let stands = Place {
        method: place.method,
        index: place.index,
        raised: false,
    };
    text.push_str("at ")?;
    push_place_text(text, linked, stands)?;
    push_flight(text, linked, machine, frame)?;
    text.push_str("\n")
}

// Adds the lines of a run that goes on.
fn push_running(text: &mut String, linked: &Linked, machine: &Machine<'_>) -> Result<(), NoMemory>
    requires program { machine.now.program ≡ linked.now }
    requires tellable { IsTellable linked.now machine.now.state }
    requires running { machine.now.state.ending ≡ running }
    ensures { OnOk result (AddsLines (AreRunningLines linked.now machine.now.state) (string_bytes text.old) (string_bytes text.new)) }
{
    let top = machine.frames() - 1;
    let place = machine.place(top);
    push_line(text, "end running")?;
    push_at(text, linked, machine, top)?;
    push_locals(text, linked, machine, top, place.method)
}

// Adds the line of a run that an exception has ended.
fn push_uncaught(
    text: &mut String,
    linked: &Linked,
    machine: &Machine<'_>,
    object: u32,
) -> Result<(), NoMemory>
    requires program { machine.now.program ≡ linked.now }
    requires sited { AreSited linked.now machine.now.state.heap }
    requires object { object < length machine.now.state.heap }
    ensures { OnOk result (AddsLine (IsUncaughtLine linked.now machine.now.state.heap object) (string_bytes text.old) (string_bytes text.new)) }
{
    text.push_str("end uncaught ")?;
    push_object(text, linked, machine, object)?;
    text.push_str("\n")
}

/// Adds the lines with how a run stands.
pub(crate) fn push_end(
    text: &mut String,
    linked: &Linked,
    machine: &Machine<'_>,
    moved: Moved,
) -> Result<(), NoMemory>
    requires program { machine.now.program ≡ linked.now }
    requires tellable { IsTellable linked.now machine.now.state }
    requires told { moved ≡ told machine.now.state.ending }
    ensures { OnOk result (AddsLines (AreEndLines linked.now machine.now.state) (string_bytes text.old) (string_bytes text.new)) }
{
    match moved {
        Moved::Went => push_running(text, linked, machine),
        Moved::Ended => push_line(text, "end ended"),
        Moved::Uncaught(object) => push_uncaught(text, linked, machine, object),
        Moved::IllTyped => push_line(text, "end ill-typed"),
    }
}
