//! The texts of what a run holds.
ghost use Rattle.std.specs.Prelude.{◌≡◌, ◌<◌, OnOk, length, string_bytes};
ghost use Rattle.report_text.specs.Lines.{AddsLine};
ghost use Rattle.report_text.specs.Texts.{AddsText};
ghost use Rattle.run_report.specs.Reports.{AreSited, IsLocalLine, IsObjectText, IsValueText};
ghost use Rattle.step_rules.specs.Shapes.{FitsValue};

use jim_step::Machine;
use link_program::Linked;
use lists::NoMemory;
use report_text::push_site_text;
use step_rules::Value;

/// Adds the text of an object: that of its site.
pub(crate) fn push_object(
    text: &mut String,
    linked: &Linked,
    machine: &Machine<'_>,
    object: u32,
) -> Result<(), NoMemory>
    requires program { machine.now.program ≡ linked.now }
    requires sited { AreSited linked.now machine.now.state.heap }
    requires object { object < length machine.now.state.heap }
    ensures { OnOk result (AddsText (IsObjectText linked.now machine.now.state.heap object) (string_bytes text.old) (string_bytes text.new)) }
{
    push_site_text(text, linked, machine.site(object))
}

/// Adds the text of a value.
pub(crate) fn push_value(
    text: &mut String,
    linked: &Linked,
    machine: &Machine<'_>,
    value: Value,
) -> Result<(), NoMemory>
    requires program { machine.now.program ≡ linked.now }
    requires sited { AreSited linked.now machine.now.state.heap }
    requires fits { FitsValue (length machine.now.state.heap) value }
    ensures { OnOk result (AddsText (IsValueText linked.now machine.now.state.heap value) (string_bytes text.old) (string_bytes text.new)) }
{
    match value {
        Value::Null => text.push_str("null"),
        Value::Number => text.push_str("number"),
        Value::Object(object) => push_object(text, linked, machine, object),
    }
}

/// Adds the line of a local that is set.
pub(crate) fn push_local(
    text: &mut String,
    linked: &Linked,
    machine: &Machine<'_>,
    name: &str,
    value: Value,
) -> Result<(), NoMemory>
    requires program { machine.now.program ≡ linked.now }
    requires sited { AreSited linked.now machine.now.state.heap }
    requires fits { FitsValue (length machine.now.state.heap) value }
    ensures { OnOk result (AddsLine (IsLocalLine linked.now machine.now.state.heap name.now value) (string_bytes text.old) (string_bytes text.new)) }
{
    write!(text, "local {name} ")?;
    push_value(text, linked, machine, value)?;
    text.push_str("\n")
}
