//! Through stores.
ghost use Rattle.std.specs.Prelude.{◌≡◌, ◌+◌, OnOk};
ghost use Rattle.link_sites.specs.declared.site.Site.{Site as AnySite};
ghost use Rattle.spds_rules.specs.declared.node.Node.{Node as AnyNode};
ghost use Rattle.cert_rules.specs.declared.fact.Entry.TheVariants as entry;
ghost use Rattle.cert_rules.specs.declared.fact.Entry.TheVariants.{Base};
ghost use Rattle.cert_rules.specs.declared.fact.Fact.TheVariants.{At, Link};
ghost use Rattle.cert_rules.specs.declared.line.Side.TheVariants.{Call as OfCalls, Field as OfFields};
ghost use Rattle.cert_lines.specs.Noted.{IsThere};
ghost use Rattle.cert_work.specs.Held.{IsHeld, IsMeeting};
ghost use Rattle.cert_work.specs.Roads.{AreAddedIn, IsView, StartOf};
ghost use Rattle.cert_work.specs.Rules.{GoesInto, IsPut};

use super::adding::add;
use super::held::{Held, Meeting, one_more};
use super::roads::View;
use cert_lines::Written;
use cert_rules::{Entry, Fact, Line, Side};
use lists::NoMemory;
use spds_rules::Node;

// The field is pushed where the other object starts.
fn push(
    view: &View<'_>,
    written: &mut Written,
    held: &Held,
    meeting: &Meeting,
    start: Node,
) -> Result<(), NoMemory>
    requires held { IsHeld written.old held.now }
    requires meeting { IsMeeting written.old held.now meeting.now }
    requires start { StartOf view.now meeting.now.base start }
    requires side { held.now.side ≡ OfFields }
    ensures added { OnOk result (AreAddedIn view.now written.old written.new) }
    ensures there { OnOk result (IsThere written.new (At OfFields held.now.site (entry.Field start meeting.now.store.field) start) 0) }
{
    let line = Line::PushField {
        from: held.number,
        meet: meeting.number,
        node: start,
    };
    let fact = Fact::At {
        side: Side::Field,
        site: held.site,
        entry: Entry::Field {
            node: start,
            field: meeting.store.field,
        },
        node: start,
    };
    add(view, written, line, &fact, 0)
}

// What then stands below the field.
fn link(
    view: &View<'_>,
    written: &mut Written,
    held: &Held,
    meeting: &Meeting,
    start: Node,
) -> Result<(), NoMemory>
    requires held { IsHeld written.old held.now }
    requires meeting { IsMeeting written.old held.now meeting.now }
    requires start { StartOf view.now meeting.now.base start }
    requires side { held.now.side ≡ OfFields }
    ensures added { OnOk result (AreAddedIn view.now written.old written.new) }
    ensures there { OnOk result (IsThere written.new (Link OfFields held.now.site (entry.Field start meeting.now.store.field) held.now.entry) (held.now.length + 1)) }
{
    let line = Line::LinkField {
        from: held.number,
        meet: meeting.number,
        node: start,
    };
    let fact = Fact::Link {
        side: Side::Field,
        site: held.site,
        entry: Entry::Field {
            node: start,
            field: meeting.store.field,
        },
        below: held.entry,
    };
    add(
        view,
        written,
        line,
        &fact,
        one_more(Side::Field, held.length),
    )?;
    Ok(())
}

// In the system of calls it may be there under each call string.
fn put_calls(
    view: &View<'_>,
    written: &mut Written,
    held: &Held,
    meeting: &Meeting,
    start: Node,
) -> Result<(), NoMemory>
    requires held { IsHeld written.old held.now }
    requires meeting { IsMeeting written.old held.now meeting.now }
    requires start { StartOf view.now meeting.now.base start }
    requires side { held.now.side ≡ OfCalls }
    ensures added { OnOk result (AreAddedIn view.now written.old written.new) }
    ensures there { OnOk result (IsThere written.new (At OfCalls held.now.site Base start) 0) }
{
    let line = Line::Put {
        from: held.number,
        meet: meeting.number,
        node: start,
    };
    let fact = Fact::At {
        side: Side::Call,
        site: held.site,
        entry: Entry::Base,
        node: start,
    };
    add(view, written, line, &fact, 0)
}

// The field is pushed, and what then stands below it.
fn put_fields(
    view: &View<'_>,
    written: &mut Written,
    held: &Held,
    meeting: &Meeting,
    start: Node,
) -> Result<(), NoMemory>
    requires held { IsHeld written.old held.now }
    requires meeting { IsMeeting written.old held.now meeting.now }
    requires start { StartOf view.now meeting.now.base start }
    requires side { held.now.side ≡ OfFields }
    ensures added { OnOk result (AreAddedIn view.now written.old written.new) }
    ensures there { OnOk result (GoesInto written.new held.now.length OfFields held.now.site held.now.entry meeting.now.store.field start) }
{
    push(view, written, held, meeting, start)?;
    link(view, written, held, meeting, start)?;
    Ok(())
}

// Goes into an object that starts at the node.
fn put(
    view: &View<'_>,
    written: &mut Written,
    held: &Held,
    meeting: &Meeting,
    start: Node,
) -> Result<(), NoMemory>
    requires held { IsHeld written.old held.now }
    requires meeting { IsMeeting written.old held.now meeting.now }
    requires start { StartOf view.now meeting.now.base start }
    ensures added { OnOk result (AreAddedIn view.now written.old written.new) }
    ensures there { OnOk result (GoesInto written.new held.now.length held.now.side held.now.site held.now.entry meeting.now.store.field start) }
{
    match held.side {
        Side::Field => put_fields(view, written, held, meeting, start),
        Side::Call => put_calls(view, written, held, meeting, start),
    }
}

/// Goes into the objects of the base, wherever these start.
pub(crate) fn put_all(
    view: &View<'_>,
    written: &mut Written,
    held: &Held,
    meeting: &Meeting,
) -> Result<(), NoMemory>
    requires view { IsView view.now }
    requires held { IsHeld written.old held.now }
    requires meeting { IsMeeting written.old held.now meeting.now }
    ensures added { OnOk result (AreAddedIn view.now written.old written.new) }
    ensures there { OnOk result ((base : AnySite) (n : AnyNode) → StartOf view.now base n → IsPut written.new held.now.number meeting.now.number base n) }
{
    let starts = view.starts(meeting.base);
    for start in starts {
        put(view, written, held, meeting, *start)?;
    }
    Ok(())
}
