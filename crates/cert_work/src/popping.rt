//! Letters are taken off.
ghost use Rattle.std.specs.Prelude.{◌≡◌, ◌↔◌, ◌+◌, IsTrue, OnOk};
ghost use Rattle.lists.specs.Lists.{Has};
ghost use Rattle.spds_rules.specs.declared.edge.Edge.{Edge as AnyEdge};
ghost use Rattle.cert_rules.specs.declared.fact.Fact.TheVariants.{At};
ghost use Rattle.cert_rules.specs.Given.{Takes};
ghost use Rattle.cert_lines.specs.Noted.{IsThere};
ghost use Rattle.cert_work.specs.Held.{IsBelowHeld, IsHeld};
ghost use Rattle.cert_work.specs.Roads.{AreAddedIn, AreEdgesAt, EdgeOf};
ghost use Rattle.cert_work.specs.Rules.{IsPopped, one_more};

use super::adding::add;
use super::held::{Below, Held, one_more};
use super::roads::View;
use cert_lines::Written;
use cert_rules::{Entry, Fact, Line, Side};
use lists::NoMemory;
use spds_rules::{Edge, EdgeKind};

// Whether an edge of the kind takes the first letter of the entry off.
fn takes(side: Side, entry: &Entry, kind: &EdgeKind) -> bool
    ensures { IsTrue result ↔ Takes side entry.now kind.now }
{
    match (side, entry, kind) {
        (Side::Field, Entry::Field { field, .. }, EdgeKind::Load(loaded)) => *field == *loaded,
        (Side::Call, Entry::Call { call, .. }, EdgeKind::Return(returned)) => *call == *returned,
        _ => false,
    }
}

// Goes on along an edge, which takes the first letter off.
fn pop(
    view: &View<'_>,
    written: &mut Written,
    held: &Held,
    below: &Below,
    edge: &Edge,
) -> Result<(), NoMemory>
    requires held { IsHeld written.old held.now }
    requires below { IsBelowHeld written.old held.now below.now }
    requires edge { EdgeOf view.now edge.now }
    requires from { edge.now.from ≡ held.now.node }
    requires takes { Takes held.now.side held.now.entry edge.now.kind }
    ensures added { OnOk result (AreAddedIn view.now written.old written.new) }
    ensures there { OnOk result (IsThere written.new (At held.now.side held.now.site below.now.entry edge.now.to) (one_more held.now.side (held.now.length + below.now.length))) }
{
    let line = Line::Pop {
        side: held.side,
        from: held.number,
        link: below.number,
        node: edge.to,
    };
    let fact = Fact::At {
        side: held.side,
        site: held.site,
        entry: below.entry,
        node: edge.to,
    };
    let length = one_more(held.side, held.length.saturating_add(below.length));
    add(view, written, line, &fact, length)?;
    Ok(())
}

// Goes on along an edge, if it takes the first letter off.
fn pop_if(
    view: &View<'_>,
    written: &mut Written,
    held: &Held,
    below: &Below,
    edge: &Edge,
) -> Result<(), NoMemory>
    requires held { IsHeld written.old held.now }
    requires below { IsBelowHeld written.old held.now below.now }
    requires edge { EdgeOf view.now edge.now }
    requires from { edge.now.from ≡ held.now.node }
    ensures added { OnOk result (AreAddedIn view.now written.old written.new) }
    ensures there { OnOk result (Takes held.now.side held.now.entry edge.now.kind
        → IsThere written.new (At held.now.side held.now.site below.now.entry edge.now.to) (one_more held.now.side (held.now.length + below.now.length))) }
{
    if takes(held.side, &held.entry, &edge.kind) {
        pop(view, written, held, below, edge)?;
        return Ok(());
    }
    Ok(())
}

/// Whether one of the edges takes the first letter off.
pub(crate) fn is_taken(held: &Held, edges: &[Edge]) -> bool
    ensures yes { IsTrue result → (e : AnyEdge) × Has edges.now e × Takes held.now.side held.now.entry e.kind }
    ensures no { (e : AnyEdge) → Has edges.now e → Takes held.now.side held.now.entry e.kind → IsTrue result }
{
    for edge in edges {
        if takes(held.side, &held.entry, &edge.kind) {
            return true;
        }
    }
    false
}

/// Goes on along each edge that takes the first letter off.
pub(crate) fn pop_all(
    view: &View<'_>,
    written: &mut Written,
    held: &Held,
    below: &Below,
    edges: &[Edge],
) -> Result<(), NoMemory>
    requires edges { AreEdgesAt view.now held.now.node edges.now }
    requires held { IsHeld written.old held.now }
    requires below { IsBelowHeld written.old held.now below.now }
    ensures added { OnOk result (AreAddedIn view.now written.old written.new) }
    ensures there { OnOk result ((e : AnyEdge) → EdgeOf view.now e → IsPopped written.new held.now.number below.now.number e) }
{
    for edge in edges {
        pop_if(view, written, held, below, edge)?;
    }
    Ok(())
}
