//! The text of a verdict.
ghost use Rattle.std.specs.Prelude.{◌≡◌, ◌<◌, ◌++◌, All, IfOk, OnOk, length, string_bytes};
ghost use Rattle.lists.specs.Lists.{Each};
ghost use Rattle.report_text.specs.Lines.{AddsLine, AddsLines, text_of};
ghost use Rattle.track_report.specs.Reports.{IsHeadLine, IsUnsafeLine, IsVerdictText, verdict_lines};
ghost use Rattle.track_verdicts.specs.Verdicts.{IsTellable};

use link_program::Linked;
use lists::NoMemory;
use protocol_words::Protocol;
use report_text::{push_place_text, push_site_text};
use std::alloc::Global;
use track_verdicts::{Finding, Verdict};

// Adds the line with the class that the program begins with and with the class of the protocol.
fn push_head(
    text: &mut String,
    linked: &Linked,
    protocol: &Protocol,
    entry: &str,
) -> Result<(), NoMemory>
    requires { protocol.now.class < length linked.now.classes }
    ensures { OnOk result (AddsLine (IsHeadLine linked.now protocol.now entry.now) (string_bytes text.old) (string_bytes text.new)) }
{
    let class = linked.class_name(protocol.class());
    write!(text, "typestate {entry} {class}\n")
}

// Adds the line of a finding.
fn push_unsafe(
    text: &mut String,
    linked: &Linked,
    protocol: &Protocol,
    finding: Finding,
) -> Result<(), NoMemory>
    requires { IsTellable linked.now protocol.now finding }
    ensures { OnOk result (AddsLine (IsUnsafeLine linked.now protocol.now finding) (string_bytes text.old) (string_bytes text.new)) }
{
    let state = protocol.state_name(finding.state);
    let event = protocol.event_name(finding.event);
    text.push_str("unsafe ")?;
    push_site_text(text, linked, finding.site)?;
    text.push_str(" at ")?;
    push_place_text(text, linked, finding.place)?;
    write!(text, " state {state} event {event}\n")
}

// Adds the lines of findings, in their order.
fn push_unsafe_lines(
    text: &mut String,
    linked: &Linked,
    protocol: &Protocol,
    findings: &[Finding],
) -> Result<(), NoMemory>
    requires { All (IsTellable linked.now protocol.now) findings.now }
    ensures { OnOk result (AddsLines (Each (IsUnsafeLine linked.now protocol.now) findings.now) (string_bytes text.old) (string_bytes text.new)) }
{
    for finding in findings {
        push_unsafe(text, linked, protocol, *finding)?;
    }
    Ok(())
}

// Adds the two lines with the verdict over so many findings, and with the size of the demand.
fn push_verdict(text: &mut String, findings: usize, demanded: u32) -> Result<(), NoMemory>
    ensures { OnOk result (string_bytes text.new ≡ string_bytes text.old ++ text_of (verdict_lines findings demanded)) }
{
    if findings == 0 {
        return write!(text, "verdict safe\ndemanded {demanded}\n");
    }
    write!(text, "verdict unsafe {findings}\ndemanded {demanded}\n")
}

/// The reply about the verdict on a program that begins with a class, under a protocol: `typestate ENTRY CLASS`, `unsafe SITE at PLACE state STATE event
/// EVENT` for each finding in its order, `verdict safe`, or `verdict unsafe` with the number of findings, and `demanded` with the size of the demand.
/// The text names the entry as it is given. Each line ends with a line feed.
pub fn verdict_text(
    alloc: Global,
    linked: &Linked,
    protocol: &Protocol,
    entry: &str,
    verdict: &Verdict,
) -> Result<Vec<u8>, NoMemory>
    requires class { protocol.now.class < length linked.now.classes }
    requires findings { All (IsTellable linked.now protocol.now) verdict.now.findings }
    ensures { IfOk result (λ text. IsVerdictText linked.now protocol.now entry.now verdict.now text.items) }
{
    let findings = verdict.findings.as_slice();
    let mut text = String::new(alloc);
    push_head(&mut text, linked, protocol, entry)?;
    push_unsafe_lines(&mut text, linked, protocol, findings)?;
    push_verdict(&mut text, findings.len(), verdict.demanded)?;
    Ok(text.into_bytes())
}
