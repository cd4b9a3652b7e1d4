//! Lines that show that an object may be stored into another.
ghost use Rattle.std.specs.Prelude.{◌≡◌, ℕ, IfOk, OnOk, length};
ghost use Rattle.link_sites.specs.Sites.{HasField};
ghost use Rattle.spds_rules.specs.Demand.{StoreIn, about};
ghost use Rattle.cert_rules.specs.declared.fact.Entry.TheVariants.{Base};
ghost use Rattle.cert_rules.specs.declared.fact.Fact.TheVariants.{At, Met as IsMet, Shared as IsShared};
ghost use Rattle.cert_rules.specs.declared.line.Side.TheVariants.{Field as OfFields};
ghost use Rattle.cert_rules.specs.Given.{Cites, Reads};
ghost use Rattle.cert_lines.specs.Noted.{IsThere};
ghost use Rattle.spds_rules.specs.Systems.{IsString};
ghost use Rattle.cert_work.specs.Roads.{AreAddedIn};
ghost use Rattle.cert_work.specs.Work.{IsWorkOf, TellsAt};
ghost use Rattle.cert_trace.specs.Closed.{IsRead};
ghost use Rattle.cert_trace.specs.Meeting.{IsJustified};
ghost use Rattle.cert_trace.specs.Readings.{AreAllFiled};

use super::reading::read_string;
use cert_lines::{Spot, Written};
use cert_rules::{Entry, Fact, Line, Side};
use cert_work::{View, Work, add, number_of};
use jim_ast::List;
use link_sites::{Place, Site};
use lists::NoMemory;
use spds_rules::{Node, StoreAt};
use std::alloc::Global;

/// An object and one that it may be stored into, by their sites, the store, and a call string under which both may be there.
#[derive(Drop)]
pub struct Meeting<'a> {
    pub object: Site,
    pub base: Site,
    pub store: StoreAt,
    pub string: &'a [Place],
}

// A copy of a call string.
fn string_copy(alloc: Global, string: &[Place]) -> Result<List<Place>, NoMemory>
    ensures { IfOk result (λ copy. copy ≡ string.now) }
{
    let mut copy = Vec::new(alloc);
    for place in string {
        copy.push(*place)?;
    }
    Ok(List::from_vec(copy))
}

// The lines that read a call string which some lines read.
fn must_read(
    alloc: Global,
    view: &View<'_>,
    work: &Work,
    spot: Spot,
    string: &[Place],
) -> Result<Vec<u32>, NoMemory>
    requires filed { AreAllFiled work.now }
    requires tells { TellsAt work.now spot.node }
    requires string { IsString view.now.linked.now spot.node.place.method string.now }
    requires read { IsRead view.now.linked.now work.now.written spot.site spot.node string.now }
    ensures { IfOk result (λ numbers. Reads view.now.linked.now work.now.written.given spot.site numbers.items spot.node string.now) }
{
    let found = read_string(alloc, work, spot, string)?;
    match found {
        Some(numbers) => Ok(numbers),
        None => unreachable!(),
    }
}

// Both may be there under one call string, as these lines read. Gives the number, from 1, of a line that says so.
fn share(
    view: &View<'_>,
    written: &mut Written,
    meeting: &Meeting<'_>,
    first: Vec<u32>,
    second: Vec<u32>,
    string: List<Place>,
) -> Result<u32, NoMemory>
    requires string { string ≡ meeting.now.string.now }
    requires first { Reads view.now.linked.now written.old.given meeting.now.object first.items meeting.now.store.arg meeting.now.string.now }
    requires second { Reads view.now.linked.now written.old.given meeting.now.base second.items meeting.now.store.base meeting.now.string.now }
    ensures added { OnOk result (AreAddedIn view.now written.old written.new) }
    ensures number { IfOk result (λ number. Cites written.new.given number (IsShared meeting.now.object meeting.now.store.arg meeting.now.base meeting.now.store.base)) }
{
    let line = Line::Shared {
        first: List::from_vec(first),
        second: List::from_vec(second),
        string,
    };
    let fact = Fact::Shared {
        object: meeting.object,
        arg: meeting.store.arg,
        base: meeting.base,
        at: meeting.store.base,
    };
    add(view, written, line, &fact, 0)?;
    Ok(number_of(written, fact))
}

// So the one may be stored into the other.
fn met(
    view: &View<'_>,
    written: &mut Written,
    meeting: &Meeting<'_>,
    shared: u32,
    base: u32,
) -> Result<(), NoMemory>
    requires shared { Cites written.old.given shared (IsShared meeting.now.object meeting.now.store.arg meeting.now.base meeting.now.store.base) }
    requires base { Cites written.old.given base (At OfFields meeting.now.base Base meeting.now.store.base) }
    requires store { StoreIn view.now.linked.now (about view.now.target) meeting.now.store }
    requires has { HasField view.now.linked.now meeting.now.base meeting.now.store.field }
    ensures added { OnOk result (AreAddedIn view.now written.old written.new) }
    ensures there { OnOk result (IsThere written.new (IsMet meeting.now.object meeting.now.base meeting.now.store) 0) }
{
    let line = Line::Meet { shared, base };
    let fact = Fact::Met {
        object: meeting.object,
        base: meeting.base,
        store: meeting.store,
    };
    add(view, written, line, &fact, 0)
}

// From lines that read the string for both.
fn meet_by(
    view: &View<'_>,
    written: &mut Written,
    meeting: &Meeting<'_>,
    first: Vec<u32>,
    second: Vec<u32>,
    string: List<Place>,
) -> Result<(), NoMemory>
    requires string { string ≡ meeting.now.string.now }
    requires first { Reads view.now.linked.now written.old.given meeting.now.object first.items meeting.now.store.arg meeting.now.string.now }
    requires second { Reads view.now.linked.now written.old.given meeting.now.base second.items meeting.now.store.base meeting.now.string.now }
    requires justified { IsJustified view.now written.old meeting.now }
    ensures added { OnOk result (AreAddedIn view.now written.old written.new) }
    ensures there { OnOk result (IsThere written.new (IsMet meeting.now.object meeting.now.base meeting.now.store) 0) }
{
    let shared = share(view, written, meeting, first, second, string)?;
    let itself = Fact::At {
        side: Side::Field,
        site: meeting.base,
        entry: Entry::Base,
        node: meeting.store.base,
    };
    let base = number_of(written, itself);
    met(view, written, meeting, shared, base)?;
    Ok(())
}

/// Puts lines behind those that were all gone through, which show that the one may be stored into the other, as it is justified by those.
pub(crate) fn meet(
    alloc: Global,
    view: &View<'_>,
    work: &mut Work,
    meeting: &Meeting<'_>,
) -> Result<(), NoMemory>
    requires work { IsWorkOf view.now work.old }
    requires all { work.old.done ≡ length work.old.written.given }
    requires justified { IsJustified view.now work.old.written meeting.now }
    ensures added { OnOk result (AreAddedIn view.now work.old.written work.new.written) }
    ensures work { OnOk result (IsWorkOf view.now work.new) }
    ensures there { OnOk result (IsThere work.new.written (IsMet meeting.now.object meeting.now.base meeting.now.store) 0) }
{
    let object = Spot {
        site: meeting.object,
        node: meeting.store.arg,
    };
    let base = Spot {
        site: meeting.base,
        node: meeting.store.base,
    };
    let first = must_read(alloc, view, work, object, meeting.string)?;
    let second = must_read(alloc, view, work, base, meeting.string)?;
    let string = string_copy(alloc, meeting.string)?;
    meet_by(view, &mut work.written, meeting, first, second, string)?;
    Ok(())
}
