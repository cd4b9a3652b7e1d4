//! The reply about a run.
ghost use Rattle.std.specs.Prelude.{◌≡◌, ◌++◌, ◌∷◌, [], All, IfOk, OnOk, codes, string_bytes};
ghost use Rattle.std.specs.Char.{IsAsciiDigit};
ghost use Rattle.std.specs.Fmt.{decimal};
ghost use Rattle.link_rules.specs.WellLinked.{IsInForm};
ghost use Rattle.report_text.specs.Lines.{text_of};
ghost use Rattle.run_report.specs.Named.{digits_of};
ghost use Rattle.run_report.specs.Reports.{IsRunText};
ghost use Rattle.step_rules.specs.Runs.{IsFirstState};

use super::ends::push_end;
use super::named::run_to;
use jim_step::{Machine, start};
use link_program::Linked;
use lists::NoMemory;
use std::alloc::Global;

// Adds the lines with the class that the run begins with and with the number of its steps.
fn push_head(text: &mut String, entry: &str, made: u32) -> Result<(), NoMemory>
    ensures { OnOk result (string_bytes text.new ≡ string_bytes text.old ++ text_of ((codes "run " ++ entry.now) ∷ (codes "steps " ++ decimal made) ∷ [])) }
{
    write!(text, "run {entry}\nsteps {made}\n")
}

// Makes the run of a machine that stands at its beginning, and tells how it stands.
fn report(
    alloc: Global,
    linked: &Linked,
    machine: &mut Machine<'_>,
    entry: &str,
    steps: u32,
    digits: &[u8],
) -> Result<Vec<u8>, NoMemory>
    requires form { IsInForm linked.now }
    requires digits { All IsAsciiDigit digits.now }
    requires program { machine.old.program ≡ linked.now }
    requires first { IsFirstState linked.now machine.old.state }
    ensures { IfOk result (λ text. IsRunText linked.now entry.now steps (digits_of digits.now) text.items) }
{
    let ran = run_to(alloc, machine, steps, digits)?;
    let mut text = String::new(alloc);
    push_head(&mut text, entry, ran.made)?;
    push_end(&mut text, linked, machine, ran.moved)?;
    Ok(text.into_bytes())
}

/// The reply of a command that asks for so many steps of the run that digits name, which are decimal characters: `run ENTRY`, `steps` with the
/// number of steps that were made, and how the run stands: `end ended`, `end uncaught S`, `end ill-typed`, or `end running`, `at PLACE`, with
/// ` raised S` where an exception is in flight, and `local NAME V` for each set local of the top frame. A step with more than one choice takes the
/// next digit, or 0 once there is none; a digit that is too large counts as the last choice. The text names the entry as it is given.
pub fn run_text(
    alloc: Global,
    linked: &Linked,
    entry: &str,
    steps: u32,
    digits: &[u8],
) -> Result<Vec<u8>, NoMemory>
    requires { All IsAsciiDigit digits.now }
    ensures { IfOk result (λ text. IsRunText linked.now entry.now steps (digits_of digits.now) text.items) }
{
    linked.tell_form();
    match start(alloc, linked) {
        Ok(mut machine) => report(alloc, linked, &mut machine, entry, steps, digits),
        Err(error) => Err(error),
    }
}
