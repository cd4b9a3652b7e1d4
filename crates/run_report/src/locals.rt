//! The lines of the top frame's locals.
ghost use Rattle.std.specs.Prelude.{◌≡◌, ◌<◌, OnOk, length, string_bytes};
ghost use Rattle.link_rules.specs.Accessed.{At};
ghost use Rattle.report_text.specs.Lines.{AddsLines};
ghost use Rattle.run_report.specs.Reports.{AddsLocal, AreLocalLines, AreSited};
ghost use Rattle.step_rules.specs.Shapes.{FitsFrame};

use super::objects::push_local;
use jim_step::Machine;
use link_program::Linked;
use lists::NoMemory;
use std::alloc::AllocError;
use step_rules::Slot;

// Adds the line of a local, where it is set.
fn push_if_set(
    text: &mut String,
    linked: &Linked,
    machine: &Machine<'_>,
    frame: u32,
    local: u32,
    name: &str,
) -> Result<(), NoMemory>
    requires program { machine.now.program ≡ linked.now }
    requires sited { AreSited linked.now machine.now.state.heap }
    requires there { frame < length machine.now.state.frames }
    requires fits { At machine.now.state.frames frame (FitsFrame linked.now (length machine.now.state.heap)) }
    ensures { OnOk result (At machine.now.state.frames frame (λ f. AddsLocal linked.now machine.now.state.heap f local name.now (string_bytes text.old) (string_bytes text.new))) }
{
    match machine.value_at(frame, Slot::Local(local)) {
        Some(value) => push_local(text, linked, machine, name, value),
        None => Ok(()),
    }
}

/// Adds the lines of the set locals of a frame of a method.
pub(crate) fn push_locals(
    text: &mut String,
    linked: &Linked,
    machine: &Machine<'_>,
    frame: u32,
    method: u32,
) -> Result<(), NoMemory>
    requires program { machine.now.program ≡ linked.now }
    requires sited { AreSited linked.now machine.now.state.heap }
    requires there { frame < length machine.now.state.frames }
    requires fits { At machine.now.state.frames frame (FitsFrame linked.now (length machine.now.state.heap)) }
    requires method { At machine.now.state.frames frame (λ f. f.method ≡ method) }
    ensures { OnOk result (At machine.now.state.frames frame (λ f. AddsLines (AreLocalLines linked.now machine.now.state.heap f) (string_bytes text.old) (string_bytes text.new))) }
{
    let names = linked.locals(method);
    // Locals are numbered by 32 bits, which have room for no more.
    if names.len() > u32::MAX as usize {
        return Err(AllocError);
    }
    for (local, name) in names.iter().enumerate() {
        push_if_set(text, linked, machine, frame, local as u32, name.as_str())?;
    }
    Ok(())
}
