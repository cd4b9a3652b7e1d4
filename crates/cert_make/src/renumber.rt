//! Lines under new numbers.
ghost use Rattle.std.specs.Prelude.{◌≡◌, None, IfNone, IfOk, IfSome, map};
ghost use Rattle.cert_make.specs.Needs.{node_of, renumbered};
ghost use Rattle.cert_make.specs.Numbers.{up_to};

use super::needs::Needed;
use cert_rules::Line;
use jim_ast::List;
use link_sites::Place;
use lists::NoMemory;
use std::alloc::Global;

// The new numbers of those that are cited.
fn all_anew(alloc: Global, needed: &Needed, cited: &[u32]) -> Result<List<u32>, NoMemory>
    ensures { IfOk result (λ found. found ≡ map (up_to needed.now) cited.now) }
{
    let mut found = Vec::new(alloc);
    for number in cited {
        found.push(needed.up_to(*number))?;
    }
    Ok(List::from_vec(found))
}

// A copy of a call string.
fn string_copy(alloc: Global, string: &[Place]) -> Result<List<Place>, NoMemory>
    ensures { IfOk result (λ copy. copy ≡ string.now) }
{
    let mut copy = Vec::new(alloc);
    for place in string {
        copy.push(*place)?;
    }
    Ok(List::from_vec(copy))
}

// The line with a node, with the new number for each that it cites; none where it has no node.
fn placed(needed: &Needed, line: &Line) -> Option<Line>
    ensures some { IfSome result (λ new. new ≡ renumbered (up_to needed.now) line.now) }
    ensures none { IfNone result (node_of line.now ≡ None) }
{
    let new = match line {
        Line::Start { side, node } => Line::Start {
            side: *side,
            node: *node,
        },
        Line::Jump { from, node } => Line::Jump {
            from: needed.up_to(*from),
            node: *node,
        },
        Line::Put { from, meet, node } => Line::Put {
            from: needed.up_to(*from),
            meet: needed.up_to(*meet),
            node: *node,
        },
        Line::Flow { side, from, node } => Line::Flow {
            side: *side,
            from: needed.up_to(*from),
            node: *node,
        },
        Line::PushField { from, meet, node } => Line::PushField {
            from: needed.up_to(*from),
            meet: needed.up_to(*meet),
            node: *node,
        },
        Line::PushCall { from, node } => Line::PushCall {
            from: needed.up_to(*from),
            node: *node,
        },
        Line::LinkField { from, meet, node } => Line::LinkField {
            from: needed.up_to(*from),
            meet: needed.up_to(*meet),
            node: *node,
        },
        Line::LinkCall { from, node } => Line::LinkCall {
            from: needed.up_to(*from),
            node: *node,
        },
        Line::Pop {
            side,
            from,
            link,
            node,
        } => Line::Pop {
            side: *side,
            from: needed.up_to(*from),
            link: needed.up_to(*link),
            node: *node,
        },
        Line::BasePop { from, node } => Line::BasePop {
            from: needed.up_to(*from),
            node: *node,
        },
        _ => return None,
    };
    Some(new)
}

// The same of a line without a node.
fn unplaced(alloc: Global, needed: &Needed, line: &Line) -> Result<Line, NoMemory>
    requires { node_of line.now ≡ None }
    ensures { IfOk result (λ new. new ≡ renumbered (up_to needed.now) line.now) }
{
    let new = match line {
        Line::Shared {
            first,
            second,
            string,
        } => Line::Shared {
            first: all_anew(alloc, needed, first.as_slice())?,
            second: all_anew(alloc, needed, second.as_slice())?,
            string: string_copy(alloc, string.as_slice())?,
        },
        Line::Meet { shared, base } => Line::Meet {
            shared: needed.up_to(*shared),
            base: needed.up_to(*base),
        },
        Line::Claim { field, call } => Line::Claim {
            field: needed.up_to(*field),
            call: needed.up_to(*call),
        },
        _ => unreachable!(),
    };
    Ok(new)
}

/// The line, with the new number for each that it cites.
pub(crate) fn renumbered(alloc: Global, needed: &Needed, line: &Line) -> Result<Line, NoMemory>
    ensures { IfOk result (λ new. new ≡ renumbered (up_to needed.now) line.now) }
{
    match placed(needed, line) {
        Some(new) => Ok(new),
        None => unplaced(alloc, needed, line),
    }
}
