//! Along an edge.
ghost use Rattle.std.specs.Prelude.{◌≡◌, OnOk};
ghost use Rattle.spds_rules.specs.declared.edge.Edge.{Edge as AnyEdge};
ghost use Rattle.spds_rules.specs.declared.edge.EdgeKind.TheVariants as edge_kind;
ghost use Rattle.cert_rules.specs.declared.fact.Entry.TheVariants as entry;
ghost use Rattle.cert_rules.specs.declared.fact.Entry.TheVariants.{Base};
ghost use Rattle.cert_rules.specs.declared.fact.Fact.TheVariants.{At, Link};
ghost use Rattle.cert_rules.specs.declared.line.Side.TheVariants.{Call as OfCalls, Field as OfFields};
ghost use Rattle.cert_rules.specs.Given.{Keeps};
ghost use Rattle.cert_lines.specs.Noted.{IsThere};
ghost use Rattle.cert_work.specs.Held.{IsHeld};
ghost use Rattle.cert_work.specs.Roads.{AreAddedIn, AreEdgesAt, EdgeOf};
ghost use Rattle.cert_work.specs.Rules.{GoesOn, IsAlong, one_more};

use super::adding::{add, add_known};
use super::held::{Held, one_more};
use super::roads::View;
use cert_lines::Written;
use cert_rules::{Entry, Fact, Line, Side};
use link_sites::Place;
use lists::NoMemory;
use spds_rules::{Edge, EdgeKind};

// Goes on under the same words. Most lines come so.
fn flow(view: &View<'_>, written: &mut Written, held: &Held, edge: &Edge) -> Result<(), NoMemory>
    requires held { IsHeld written.old held.now }
    requires edge { EdgeOf view.now edge.now }
    requires from { edge.now.from ≡ held.now.node }
    requires keeps { Keeps held.now.side edge.now.kind }
    ensures added { OnOk result (AreAddedIn view.now written.old written.new) }
    ensures there { OnOk result (IsThere written.new (At held.now.side held.now.site held.now.entry edge.now.to) (one_more held.now.side held.now.length)) }
{
    let line = Line::Flow {
        side: held.side,
        from: held.number,
        node: edge.to,
    };
    // Each line has a length.
    let _count = written.len();
    let known = written.known(held.number - 1).at(edge.to);
    let length = one_more(held.side, held.length);
    add_known(view, written, line, known, length)?;
    Ok(())
}

// Goes through a static field: what comes through one may be there under each call string.
fn jump(view: &View<'_>, written: &mut Written, held: &Held, edge: &Edge) -> Result<(), NoMemory>
    requires held { IsHeld written.old held.now }
    requires edge { EdgeOf view.now edge.now }
    requires from { edge.now.from ≡ held.now.node }
    requires side { held.now.side ≡ OfCalls }
    requires kind { edge.now.kind ≡ edge_kind.Jump }
    ensures added { OnOk result (AreAddedIn view.now written.old written.new) }
    ensures there { OnOk result (IsThere written.new (At OfCalls held.now.site Base edge.now.to) 0) }
{
    let line = Line::Jump {
        from: held.number,
        node: edge.to,
    };
    let fact = Fact::At {
        side: Side::Call,
        site: held.site,
        entry: Entry::Base,
        node: edge.to,
    };
    add(view, written, line, &fact, 0)
}

// Comes back from a method in which it may be under each call string.
fn return_base(
    view: &View<'_>,
    written: &mut Written,
    held: &Held,
    edge: &Edge,
    call: Place,
) -> Result<(), NoMemory>
    requires held { IsHeld written.old held.now }
    requires edge { EdgeOf view.now edge.now }
    requires from { edge.now.from ≡ held.now.node }
    requires side { held.now.side ≡ OfCalls }
    requires entry { held.now.entry ≡ Base }
    requires kind { edge.now.kind ≡ edge_kind.Return call }
    ensures added { OnOk result (AreAddedIn view.now written.old written.new) }
    ensures there { OnOk result (IsThere written.new (At OfCalls held.now.site Base edge.now.to) 0) }
{
    let line = Line::BasePop {
        from: held.number,
        node: edge.to,
    };
    let fact = Fact::At {
        side: Side::Call,
        site: held.site,
        entry: Entry::Base,
        node: edge.to,
    };
    add(view, written, line, &fact, 0)
}

// Is passed into a call.
fn pass(
    view: &View<'_>,
    written: &mut Written,
    held: &Held,
    edge: &Edge,
    call: Place,
) -> Result<(), NoMemory>
    requires held { IsHeld written.old held.now }
    requires edge { EdgeOf view.now edge.now }
    requires from { edge.now.from ≡ held.now.node }
    requires side { held.now.side ≡ OfCalls }
    requires kind { edge.now.kind ≡ edge_kind.Call call }
    ensures added { OnOk result (AreAddedIn view.now written.old written.new) }
    ensures there { OnOk result (IsThere written.new (At OfCalls held.now.site (entry.Call edge.now.to call) edge.now.to) 0) }
{
    let line = Line::PushCall {
        from: held.number,
        node: edge.to,
    };
    let fact = Fact::At {
        side: Side::Call,
        site: held.site,
        entry: Entry::Call {
            node: edge.to,
            call,
        },
        node: edge.to,
    };
    add(view, written, line, &fact, 0)
}

// What then stands below the call.
fn link(
    view: &View<'_>,
    written: &mut Written,
    held: &Held,
    edge: &Edge,
    call: Place,
) -> Result<(), NoMemory>
    requires held { IsHeld written.old held.now }
    requires edge { EdgeOf view.now edge.now }
    requires from { edge.now.from ≡ held.now.node }
    requires side { held.now.side ≡ OfCalls }
    requires kind { edge.now.kind ≡ edge_kind.Call call }
    ensures added { OnOk result (AreAddedIn view.now written.old written.new) }
    ensures there { OnOk result (IsThere written.new (Link OfCalls held.now.site (entry.Call edge.now.to call) held.now.entry) 0) }
{
    let line = Line::LinkCall {
        from: held.number,
        node: edge.to,
    };
    let fact = Fact::Link {
        side: Side::Call,
        site: held.site,
        entry: Entry::Call {
            node: edge.to,
            call,
        },
        below: held.entry,
    };
    add(view, written, line, &fact, 0)
}

// Is passed into a call, and what then stands below it.
fn enter(
    view: &View<'_>,
    written: &mut Written,
    held: &Held,
    edge: &Edge,
    call: Place,
) -> Result<(), NoMemory>
    requires held { IsHeld written.old held.now }
    requires edge { EdgeOf view.now edge.now }
    requires from { edge.now.from ≡ held.now.node }
    requires side { held.now.side ≡ OfCalls }
    requires kind { edge.now.kind ≡ edge_kind.Call call }
    ensures added { OnOk result (AreAddedIn view.now written.old written.new) }
    ensures there { OnOk result (IsThere written.new (At OfCalls held.now.site (entry.Call edge.now.to call) edge.now.to) 0) }
    ensures below { OnOk result (IsThere written.new (Link OfCalls held.now.site (entry.Call edge.now.to call) held.now.entry) 0) }
{
    pass(view, written, held, edge, call)?;
    link(view, written, held, edge, call)?;
    Ok(())
}

// Goes on along an edge in the system of calls.
fn along_calls(
    view: &View<'_>,
    written: &mut Written,
    held: &Held,
    edge: &Edge,
) -> Result<(), NoMemory>
    requires held { IsHeld written.old held.now }
    requires edge { EdgeOf view.now edge.now }
    requires from { edge.now.from ≡ held.now.node }
    requires side { held.now.side ≡ OfCalls }
    ensures added { OnOk result (AreAddedIn view.now written.old written.new) }
    ensures there { OnOk result (GoesOn written.new held.now.length OfCalls held.now.site held.now.entry edge.now.kind edge.now.to) }
{
    match edge.kind {
        EdgeKind::Flow => flow(view, written, held, edge),
        EdgeKind::Load(_field) => flow(view, written, held, edge),
        EdgeKind::Call(call) => enter(view, written, held, edge, call),
        EdgeKind::Return(call) => {
            if held.entry == Entry::Base {
                return_base(view, written, held, edge, call)
            } else {
                Ok(())
            }
        }
        EdgeKind::Jump => jump(view, written, held, edge),
    }
}

// Goes on along an edge in the system of fields.
fn along_fields(
    view: &View<'_>,
    written: &mut Written,
    held: &Held,
    edge: &Edge,
) -> Result<(), NoMemory>
    requires held { IsHeld written.old held.now }
    requires edge { EdgeOf view.now edge.now }
    requires from { edge.now.from ≡ held.now.node }
    requires side { held.now.side ≡ OfFields }
    ensures added { OnOk result (AreAddedIn view.now written.old written.new) }
    ensures there { OnOk result (GoesOn written.new held.now.length OfFields held.now.site held.now.entry edge.now.kind edge.now.to) }
{
    match edge.kind {
        EdgeKind::Load(_field) => Ok(()),
        EdgeKind::Flow => flow(view, written, held, edge),
        EdgeKind::Call(_call) => flow(view, written, held, edge),
        EdgeKind::Return(_call) => flow(view, written, held, edge),
        EdgeKind::Jump => flow(view, written, held, edge),
    }
}

/// Goes on along an edge, but for letters that are taken off.
pub(crate) fn along(
    view: &View<'_>,
    written: &mut Written,
    held: &Held,
    edge: &Edge,
) -> Result<(), NoMemory>
    requires held { IsHeld written.old held.now }
    requires edge { EdgeOf view.now edge.now }
    requires from { edge.now.from ≡ held.now.node }
    ensures added { OnOk result (AreAddedIn view.now written.old written.new) }
    ensures there { OnOk result (GoesOn written.new held.now.length held.now.side held.now.site held.now.entry edge.now.kind edge.now.to) }
{
    match held.side {
        Side::Field => along_fields(view, written, held, edge),
        Side::Call => along_calls(view, written, held, edge),
    }
}

/// Goes on along each edge from where the object is.
pub(crate) fn along_all(
    view: &View<'_>,
    written: &mut Written,
    held: &Held,
    edges: &[Edge],
) -> Result<(), NoMemory>
    requires edges { AreEdgesAt view.now held.now.node edges.now }
    requires held { IsHeld written.old held.now }
    ensures added { OnOk result (AreAddedIn view.now written.old written.new) }
    ensures there { OnOk result ((e : AnyEdge) → EdgeOf view.now e → IsAlong written.new held.now.number e) }
{
    for edge in edges {
        along(view, written, held, edge)?;
    }
    Ok(())
}
