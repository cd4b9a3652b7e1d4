//! Lines that can be spelled: their numbers have 32 bits.
ghost use Rattle.std.specs.Prelude.{◌≡◌, All};
ghost use Rattle.lists.specs.Lists.{Has};
ghost use Rattle.cert_rules.specs.declared.line.Line.{Line as AnyLine};
ghost use Rattle.cert_rules.specs.Spelled.{FitsCall, FitsLine, FitsNode, IsRoomy};
ghost use Rattle.cert_trace.specs.Fitting.{IsUnraised, IsWellRead};

use cert_rules::Line;
use link_sites::Place;
use spds_rules::Node;

// Numbers of lines.
fn all_roomy(numbers: &[u32])
    ensures { All IsRoomy numbers.now }
{}

// A call of a string.
fn call_fits(place: Place)
    requires { IsUnraised place }
    ensures { FitsCall place }
{}

// All of them.
fn calls_fit(string: &[Place])
    requires { All IsUnraised string.now }
    ensures { All FitsCall string.now }
{
    for place in string {
        call_fits(*place);
    }
}

// Two numbers of lines.
fn two_roomy(first: u32, second: u32)
    ensures first { IsRoomy first }
    ensures second { IsRoomy second }
{}

// Two of them, and a node.
fn step_fits(first: u32, second: u32, node: Node)
    ensures first { IsRoomy first }
    ensures second { IsRoomy second }
    ensures node { FitsNode node }
{}

// A line.
fn line_fits(line: &Line)
    requires { IsWellRead line.now }
    ensures { FitsLine line.now }
{
    match line {
        Line::Start { node, .. } => step_fits(0, 0, *node),
        Line::Jump { from, node } => step_fits(*from, 0, *node),
        Line::Put { from, meet, node } => step_fits(*from, *meet, *node),
        Line::Flow { from, node, .. } => step_fits(*from, 0, *node),
        Line::PushField { from, meet, node } => step_fits(*from, *meet, *node),
        Line::PushCall { from, node } => step_fits(*from, 0, *node),
        Line::LinkField { from, meet, node } => step_fits(*from, *meet, *node),
        Line::LinkCall { from, node } => step_fits(*from, 0, *node),
        Line::Pop {
            from,
            link,
            node,
            ..
        } => step_fits(*from, *link, *node),
        Line::BasePop { from, node } => step_fits(*from, 0, *node),
        Line::Shared {
            first,
            second,
            string,
        } => {
            all_roomy(first.as_slice());
            all_roomy(second.as_slice());
            calls_fit(string.as_slice());
        }
        Line::Meet { shared, base } => two_roomy(*shared, *base),
        Line::Claim { field, call } => two_roomy(*field, *call),
    }
}

/// Reads each line: that its numbers have 32 bits is known of what is read alone. Changes nothing.
pub(crate) fn all_fit(lines: &[Line])
    requires { (line : AnyLine) → Has lines.now line → IsWellRead line }
    ensures { All FitsLine lines.now }
{
    for line in lines {
        line_fits(line);
    }
}
