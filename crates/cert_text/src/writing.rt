//! A certificate as a text.
ghost use Rattle.std.specs.Prelude.{◌≡◌, ◌++◌, ◌∷◌, All, IfOk, OnOk, codes, flat_map, map, string_bytes};
ghost use Rattle.std.specs.Fmt.{decimal};
ghost use Rattle.cert_rules.specs.Spelled.{FitsLine, FitsNode, SpellsCertificate, call_text, ended_lines, line_text, node_text, numbers_text, side_text, string_text, var_text};
ghost use Rattle.cert_text.specs.Written.{written_lines};

use cert_rules::{Certificate, Line, Side};
use link_sites::Place;
use lists::NoMemory;
use spds_rules::{Node, Var};
use std::alloc::Global;

// Adds a variable.
fn push_var(text: &mut String, var: Var) -> Result<(), NoMemory>
    ensures { OnOk result (string_bytes text.new ≡ string_bytes text.old ++ var_text var) }
{
    match var {
        Var::Local(number) => write!(text, "l{number}"),
        Var::This => text.push_str("this"),
        Var::Param(number) => write!(text, "p{number}"),
        Var::Caught => text.push_str("caught"),
        Var::Thrown => text.push_str("thrown"),
        Var::Made => text.push_str("new"),
        Var::Nested(level) => write!(text, "n{level}"),
        Var::Raised(kind) => write!(text, "r{kind}"),
        Var::Text(number) => write!(text, "t{number}"),
        Var::Class(number) => write!(text, "k{number}"),
    }
}

// Adds a node.
fn push_node(text: &mut String, node: Node) -> Result<(), NoMemory>
    ensures { OnOk result (string_bytes text.new ≡ string_bytes text.old ++ node_text node) }
{
    let Place {
        method,
        index,
        raised,
    } = node.place;
    let mark = if raised { "!" } else { "" };
    write!(text, "{method}.{index}{mark}.")?;
    push_var(text, node.var)
}

// Adds a call of a call string.
fn push_call(text: &mut String, call: Place) -> Result<(), NoMemory>
    ensures { OnOk result (string_bytes text.new ≡ string_bytes text.old ++ call_text call) }
{
    let Place { method, index, .. } = call;
    write!(text, "{method}.{index}")
}

// Adds calls, each with a comma before it.
fn push_more_calls(text: &mut String, calls: &[Place]) -> Result<(), NoMemory>
    ensures { OnOk result (string_bytes text.new ≡ string_bytes text.old ++ flat_map (λ call. 44 ∷ call_text call) calls.now) }
{
    for call in calls {
        text.push_str(",")?;
        push_call(text, *call)?;
    }
    Ok(())
}

// Adds a call string.
fn push_string(text: &mut String, string: &[Place]) -> Result<(), NoMemory>
    ensures { OnOk result (string_bytes text.new ≡ string_bytes text.old ++ string_text string.now) }
{
    let Some((first, others)) = string.split_first() else {
        return text.push_str("-");
    };
    push_call(text, *first)?;
    push_more_calls(text, others)
}

// Adds numbers of lines, each with a comma before it.
fn push_more_numbers(text: &mut String, numbers: &[u32]) -> Result<(), NoMemory>
    ensures { OnOk result (string_bytes text.new ≡ string_bytes text.old ++ flat_map (λ number. 44 ∷ decimal number) numbers.now) }
{
    for number in numbers {
        write!(text, ",{number}")?;
    }
    Ok(())
}

// Adds numbers of lines.
fn push_numbers(text: &mut String, numbers: &[u32]) -> Result<(), NoMemory>
    ensures { OnOk result (string_bytes text.new ≡ string_bytes text.old ++ numbers_text numbers.now) }
{
    let Some((first, others)) = numbers.split_first() else {
        return Ok(());
    };
    write!(text, "{first}")?;
    push_more_numbers(text, others)
}

// The head of a line of a side that tells a start node.
fn start_head(side: Side) -> &'static str
    ensures { result.now ≡ codes "start " ++ side_text side }
{
    match side {
        Side::Field => "start F",
        Side::Call => "start C",
    }
}

// The same of an edge that keeps the words.
fn flow_head(side: Side) -> &'static str
    ensures { result.now ≡ codes "flow " ++ side_text side }
{
    match side {
        Side::Field => "flow F",
        Side::Call => "flow C",
    }
}

// The same of an edge that takes the first letter off.
fn pop_head(side: Side) -> &'static str
    ensures { result.now ≡ codes "pop " ++ side_text side }
{
    match side {
        Side::Field => "pop F",
        Side::Call => "pop C",
    }
}

// Adds a line of a head, a number and a node.
fn push_from(text: &mut String, head: &str, from: u32, node: Node) -> Result<(), NoMemory>
    ensures { OnOk result (string_bytes text.new ≡ string_bytes text.old ++ head.now ++ 32 ∷ decimal from ++ 32 ∷ node_text node) }
{
    write!(text, "{head} {from} ")?;
    push_node(text, node)
}

// Adds a line of a head, two numbers and a node.
fn push_from_two(
    text: &mut String,
    head: &str,
    from: u32,
    second: u32,
    node: Node,
) -> Result<(), NoMemory>
    ensures { OnOk result (string_bytes text.new
        ≡ string_bytes text.old ++ head.now ++ 32 ∷ decimal from ++ 32 ∷ decimal second ++ 32 ∷ node_text node) }
{
    write!(text, "{head} {from} {second} ")?;
    push_node(text, node)
}

// Adds a line that tells under which call string two objects are.
fn push_shared(
    text: &mut String,
    first: &[u32],
    second: &[u32],
    string: &[Place],
) -> Result<(), NoMemory>
    ensures { OnOk result (string_bytes text.new
        ≡ string_bytes text.old ++ codes "shared " ++ numbers_text first.now ++ 32 ∷ numbers_text second.now ++ 32 ∷ string_text string.now) }
{
    text.push_str("shared ")?;
    push_numbers(text, first)?;
    text.push_str(" ")?;
    push_numbers(text, second)?;
    text.push_str(" ")?;
    push_string(text, string)
}

// Adds a line without its line feed.
fn push_line(text: &mut String, line: &Line) -> Result<(), NoMemory>
    ensures { OnOk result (string_bytes text.new ≡ string_bytes text.old ++ line_text line.now) }
{
    match line {
        Line::Start { side, node } => {
            text.push_str(start_head(*side))?;
            text.push_str(" ")?;
            push_node(text, *node)
        }
        Line::Jump { from, node } => push_from(text, "start C", *from, *node),
        Line::Put { from, meet, node } => push_from_two(text, "start C", *from, *meet, *node),
        Line::Flow { side, from, node } => push_from(text, flow_head(*side), *from, *node),
        Line::PushField { from, meet, node } => push_from_two(text, "push F", *from, *meet, *node),
        Line::PushCall { from, node } => push_from(text, "push C", *from, *node),
        Line::LinkField { from, meet, node } => push_from_two(text, "link F", *from, *meet, *node),
        Line::LinkCall { from, node } => push_from(text, "link C", *from, *node),
        Line::Pop {
            side,
            from,
            link,
            node,
        } => push_from_two(text, pop_head(*side), *from, *link, *node),
        Line::BasePop { from, node } => push_from(text, "base C", *from, *node),
        Line::Shared {
            first,
            second,
            string,
        } => push_shared(text, first.as_slice(), second.as_slice(), string.as_slice()),
        Line::Meet { shared, base } => write!(text, "meet {shared} {base}"),
        Line::Claim { field, call } => write!(text, "claim {field} {call}"),
    }
}

// Adds lines, each with a line feed behind it.
fn push_lines(text: &mut String, lines: &[Line]) -> Result<(), NoMemory>
    ensures { OnOk result (string_bytes text.new ≡ string_bytes text.old ++ ended_lines (map line_text lines.now)) }
{
    for line in lines {
        push_line(text, line)?;
        text.push_str("\n")?;
    }
    Ok(())
}

/// Adds the text of a certificate: the line `query NODE`, and then its lines, each with a line feed behind it. After want of memory what stands there is
/// open.
pub fn push_certificate(text: &mut String, certificate: &Certificate) -> Result<(), NoMemory>
    ensures { OnOk result (string_bytes text.new ≡ string_bytes text.old ++ ended_lines (written_lines certificate.now)) }
{
    text.push_str("query ")?;
    push_node(text, certificate.target)?;
    text.push_str("\n")?;
    push_lines(text, certificate.lines.as_slice())
}

/// The text of a certificate, as `push_certificate` adds it. `read_cert` reads the certificate back.
pub fn cert_text(alloc: Global, certificate: &Certificate) -> Result<Vec<u8>, NoMemory>
    requires target { FitsNode certificate.now.target }
    requires lines { All FitsLine certificate.now.lines }
    ensures { IfOk result (λ text. SpellsCertificate text.items certificate.now) }
{
    let mut text = String::new(alloc);
    push_certificate(&mut text, certificate)?;
    Ok(text.into_bytes())
}
