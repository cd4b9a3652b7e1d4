//! What each kind of line gives: the table of certificates, a row a function.
ghost use Rattle.std.specs.Prelude.{◌≡◌, ◌↔◌, Some, IsTrue};
ghost use Rattle.link_sites.specs.declared.place.Place.{Place as AnyPlace};
ghost use Rattle.link_sites.specs.Sites.{HasField};
ghost use Rattle.spds_rules.specs.declared.edge.EdgeKind.{EdgeKind as AnyKind};
ghost use Rattle.spds_rules.specs.declared.edge.EdgeKind.TheVariants.{Return};
ghost use Rattle.spds_rules.specs.Demand.{EdgeIn, about};
ghost use Rattle.cert_rules.specs.declared.fact.Entry.TheVariants.{Base};
ghost use Rattle.cert_rules.specs.declared.fact.Fact.{Fact as AnyFact};
ghost use Rattle.cert_rules.specs.declared.line.Line.TheVariants as line;
ghost use Rattle.cert_rules.specs.Given.{IsHeld, Takes};
ghost use Rattle.cert_replay.specs.Found.{AnyInserted, GivesIn, IsPutAs};
ghost use Rattle.cert_replay.specs.Views.{IsView};

use super::cited::{Held, below, entry_at, held_by, pair_by, stored_by};
use super::links::read_for;
use super::view::View;
use cert_rules::{Entry, Fact, Side};
use link_program::Linked;
use link_sites::{Place, Site};
use spds_nodes::has_field;
use spds_rules::{EdgeKind, Node, StoreAt};

/// An object that a store puts into another.
#[derive(Clone, Copy)]
pub(crate) struct Inserted {
    pub(crate) site: Site,
    pub(crate) entry: Entry,
    pub(crate) base: Site,
    pub(crate) store: StoreAt,
}

// The object that the cited lines put into one that starts at the node.
fn put_into(
    view: &View<'_>,
    given: &[Option<Fact>],
    side: Side,
    from: u32,
    meet: u32,
    node: Node,
) -> Option<Inserted>
    requires { IsView view.now }
    ensures { (s : AnyInserted) → (result ≡ Some s) ↔ IsPutAs view.now given.now side from meet node s }
{
    let stored = stored_by(given, meet)?;
    let entry = entry_at(given, side, from, stored.object, stored.store.arg)?;
    let start = view.start(node)?;
    if start == stored.base {
        Some(Inserted {
            site: stored.object,
            entry,
            base: stored.base,
            store: stored.store,
        })
    } else {
        None
    }
}

// The kind of the edges that take the first letter of an entry off.
fn taken_by(side: Side, entry: Entry) -> Option<EdgeKind>
    ensures { (kind : AnyKind) → (result ≡ Some kind) ↔ Takes side entry kind }
{
    match (side, entry) {
        (Side::Field, Entry::Field { field, .. }) => Some(EdgeKind::Load(field)),
        (Side::Call, Entry::Call { call, .. }) => Some(EdgeKind::Return(call)),
        _ => None,
    }
}

/// `start F n`, `start C n`.
pub(crate) fn start(view: &View<'_>, given: &[Option<Fact>], side: Side, node: Node) -> Option<Fact>
    requires { IsView view.now }
    ensures { (f : AnyFact) → (result ≡ Some f) ↔ GivesIn view.now given.now (line.Start side node) (Some f) }
{
    let site = view.start(node)?;
    Some(Fact::At {
        side,
        site,
        entry: Entry::Base,
        node,
    })
}

/// `start C i n`.
pub(crate) fn jump(view: &View<'_>, given: &[Option<Fact>], from: u32, node: Node) -> Option<Fact>
    requires { IsView view.now }
    ensures { (f : AnyFact) → (result ≡ Some f) ↔ GivesIn view.now given.now (line.Jump from node) (Some f) }
{
    let source = held_by(given, Side::Call, from)?;
    if view.joins(source.node, EdgeKind::Jump, node) {
        Some(Fact::At {
            side: Side::Call,
            site: source.site,
            entry: Entry::Base,
            node,
        })
    } else {
        None
    }
}

/// `start C i j n`.
pub(crate) fn put(
    view: &View<'_>,
    given: &[Option<Fact>],
    from: u32,
    meet: u32,
    node: Node,
) -> Option<Fact>
    requires { IsView view.now }
    ensures { (f : AnyFact) → (result ≡ Some f) ↔ GivesIn view.now given.now (line.Put from meet node) (Some f) }
{
    let put = put_into(view, given, Side::Call, from, meet, node)?;
    Some(Fact::At {
        side: Side::Call,
        site: put.site,
        entry: Entry::Base,
        node,
    })
}

/// `flow F i n`, `flow C i n`.
pub(crate) fn flow(
    view: &View<'_>,
    given: &[Option<Fact>],
    side: Side,
    from: u32,
    node: Node,
) -> Option<Fact>
    requires { IsView view.now }
    ensures { (f : AnyFact) → (result ≡ Some f) ↔ GivesIn view.now given.now (line.Flow side from node) (Some f) }
{
    let source = held_by(given, side, from)?;
    if view.keeps(side, source.node, node) {
        Some(Fact::At {
            side,
            site: source.site,
            entry: source.entry,
            node,
        })
    } else {
        None
    }
}

/// `push F i j n`.
pub(crate) fn push_field(
    view: &View<'_>,
    given: &[Option<Fact>],
    from: u32,
    meet: u32,
    node: Node,
) -> Option<Fact>
    requires { IsView view.now }
    ensures { (f : AnyFact) → (result ≡ Some f) ↔ GivesIn view.now given.now (line.PushField from meet node) (Some f) }
{
    let put = put_into(view, given, Side::Field, from, meet, node)?;
    let entry = Entry::Field {
        node,
        field: put.store.field,
    };
    Some(Fact::At {
        side: Side::Field,
        site: put.site,
        entry,
        node,
    })
}

/// `push C i n`.
pub(crate) fn push_call(
    view: &View<'_>,
    given: &[Option<Fact>],
    from: u32,
    node: Node,
) -> Option<Fact>
    requires { IsView view.now }
    ensures { (f : AnyFact) → (result ≡ Some f) ↔ GivesIn view.now given.now (line.PushCall from node) (Some f) }
{
    let source = held_by(given, Side::Call, from)?;
    let call = source.node.place;
    if view.joins(source.node, EdgeKind::Call(call), node) {
        Some(Fact::At {
            side: Side::Call,
            site: source.site,
            entry: Entry::Call { node, call },
            node,
        })
    } else {
        None
    }
}

/// `link F i j n`.
pub(crate) fn link_field(
    view: &View<'_>,
    given: &[Option<Fact>],
    from: u32,
    meet: u32,
    node: Node,
) -> Option<Fact>
    requires { IsView view.now }
    ensures { (f : AnyFact) → (result ≡ Some f) ↔ GivesIn view.now given.now (line.LinkField from meet node) (Some f) }
{
    let put = put_into(view, given, Side::Field, from, meet, node)?;
    let entry = Entry::Field {
        node,
        field: put.store.field,
    };
    Some(Fact::Link {
        side: Side::Field,
        site: put.site,
        entry,
        below: put.entry,
    })
}

/// `link C i n`.
pub(crate) fn link_call(
    view: &View<'_>,
    given: &[Option<Fact>],
    from: u32,
    node: Node,
) -> Option<Fact>
    requires { IsView view.now }
    ensures { (f : AnyFact) → (result ≡ Some f) ↔ GivesIn view.now given.now (line.LinkCall from node) (Some f) }
{
    let source = held_by(given, Side::Call, from)?;
    let call = source.node.place;
    if view.joins(source.node, EdgeKind::Call(call), node) {
        Some(Fact::Link {
            side: Side::Call,
            site: source.site,
            entry: Entry::Call { node, call },
            below: source.entry,
        })
    } else {
        None
    }
}

/// `pop F i j n`, `pop C i j n`.
pub(crate) fn pop(
    view: &View<'_>,
    given: &[Option<Fact>],
    side: Side,
    from: u32,
    link: u32,
    node: Node,
) -> Option<Fact>
    requires { IsView view.now }
    ensures { (f : AnyFact) → (result ≡ Some f) ↔ GivesIn view.now given.now (line.Pop side from link node) (Some f) }
{
    let source = held_by(given, side, from)?;
    let kind = taken_by(side, source.entry)?;
    let entry = below(given, side, link, source.site, source.entry)?;
    if view.joins(source.node, kind, node) {
        Some(Fact::At {
            side,
            site: source.site,
            entry,
            node,
        })
    } else {
        None
    }
}

// Whether the object may be in the method that the edge returns from under each call string.
fn returns_base(view: &View<'_>, source: Held, node: Node) -> bool
    requires { IsView view.now }
    ensures { IsTrue result
        ↔ ((source.entry ≡ Base) × ((call : AnyPlace) × EdgeIn view.now.linked.now (about view.now.target) source.node (Return call) node)) }
{
    source.entry == Entry::Base && view.returns(source.node, node)
}

/// `base C i n`.
pub(crate) fn base_pop(
    view: &View<'_>,
    given: &[Option<Fact>],
    from: u32,
    node: Node,
) -> Option<Fact>
    requires { IsView view.now }
    ensures { (f : AnyFact) → (result ≡ Some f) ↔ GivesIn view.now given.now (line.BasePop from node) (Some f) }
{
    let source = held_by(given, Side::Call, from)?;
    if returns_base(view, source, node) {
        Some(Fact::At {
            side: Side::Call,
            site: source.site,
            entry: Entry::Base,
            node,
        })
    } else {
        None
    }
}

/// `shared I J W`.
pub(crate) fn shared(
    view: &View<'_>,
    given: &[Option<Fact>],
    first: &[u32],
    second: &[u32],
    string: &[Place],
) -> Option<Fact>
    ensures { (f : AnyFact) → (result ≡ Some f) ↔ GivesIn view.now given.now (line.Shared first.now second.now string.now) (Some f) }
{
    let (object, arg) = read_for(view.linked, given, first, string)?;
    let (base, at) = read_for(view.linked, given, second, string)?;
    Some(Fact::Shared {
        object,
        arg,
        base,
        at,
    })
}

// Whether the object is there as itself, and has the field.
fn is_base_with(linked: &Linked, itself: Entry, base: Site, field: u32) -> bool
    ensures { IsTrue result ↔ ((itself ≡ Base) × HasField linked.now base field) }
{
    itself == Entry::Base && has_field(linked, base, field)
}

/// `meet i j`.
pub(crate) fn meet(
    view: &View<'_>,
    given: &[Option<Fact>],
    shared: u32,
    is_base: u32,
) -> Option<Fact>
    requires { IsView view.now }
    ensures { (f : AnyFact) → (result ≡ Some f) ↔ GivesIn view.now given.now (line.Meet shared is_base) (Some f) }
{
    let pair = pair_by(given, shared)?;
    let store = view.store(pair.arg, pair.at)?;
    let itself = entry_at(given, Side::Field, is_base, pair.base, pair.at)?;
    if is_base_with(view.linked, itself, pair.base, store.field) {
        Some(Fact::Met {
            object: pair.object,
            base: pair.base,
            store,
        })
    } else {
        None
    }
}

/// `claim i j`.
pub(crate) fn claim(view: &View<'_>, given: &[Option<Fact>], field: u32, call: u32) -> bool
    ensures { IsTrue result ↔ IsHeld view.now.linked.now (about view.now.target) given.now field call view.now.target }
{
    let Some(by_calls) = held_by(given, Side::Call, call) else {
        return false;
    };
    let Some(itself) = entry_at(given, Side::Field, field, by_calls.site, view.target) else {
        return false;
    };
    by_calls.node == view.target && itself == Entry::Base
}
