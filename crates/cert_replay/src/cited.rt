//! The facts that cited lines gave.
ghost use Rattle.std.specs.Prelude.{◌≡◌, ◌↔◌, Some};
ghost use Rattle.cert_rules.specs.declared.fact.Entry.{Entry as AnyEntry};
ghost use Rattle.cert_rules.specs.declared.fact.Fact.{Fact as AnyFact};
ghost use Rattle.cert_rules.specs.declared.fact.Fact.TheVariants.{At, Link, Met, Shared};
ghost use Rattle.cert_rules.specs.Given.{Cites};
ghost use Rattle.cert_replay.specs.Cited.{AnyHeld, AnyPair, AnyStored};

use cert_rules::{Entry, Fact, Side};
use link_sites::Site;
use spds_rules::{Node, StoreAt};

/// An object of a site at a node, with an entry.
#[derive(Clone, Copy)]
pub(crate) struct Held {
    pub(crate) site: Site,
    pub(crate) entry: Entry,
    pub(crate) node: Node,
}

/// An object at a node, and another at another node, under one call string.
#[derive(Clone, Copy)]
pub(crate) struct Pair {
    pub(crate) object: Site,
    pub(crate) arg: Node,
    pub(crate) base: Site,
    pub(crate) at: Node,
}

/// An object that may be stored into another.
#[derive(Clone, Copy)]
pub(crate) struct Stored {
    pub(crate) object: Site,
    pub(crate) base: Site,
    pub(crate) store: StoreAt,
}

// The fact that the line with a number, from 1, gave.
fn cited(given: &[Option<Fact>], number: u32) -> Option<Fact>
    ensures { (fact : AnyFact) → (result ≡ Some fact) ↔ Cites given.now number fact }
{
    let index = number.checked_sub(1)?;
    *given.get(index as usize)?
}

/// Where the line with a number put an object in the system of a side.
pub(crate) fn held_by(given: &[Option<Fact>], side: Side, number: u32) -> Option<Held>
    ensures { (h : AnyHeld) → (result ≡ Some h) ↔ Cites given.now number (At side h.site h.entry h.node) }
{
    let Fact::At {
        side: of,
        site,
        entry,
        node,
    } = cited(given, number)?
    else {
        return None;
    };
    if of == side {
        Some(Held { site, entry, node })
    } else {
        None
    }
}

/// The entry with which that line put an object of the site at the node.
pub(crate) fn entry_at(
    given: &[Option<Fact>],
    side: Side,
    number: u32,
    site: Site,
    node: Node,
) -> Option<Entry>
    ensures { (e : AnyEntry) → (result ≡ Some e) ↔ Cites given.now number (At side site e node) }
{
    let held = held_by(given, side, number)?;
    if held.site == site && held.node == node {
        Some(held.entry)
    } else {
        None
    }
}

/// What the line with a number gave below the first letter of an entry.
pub(crate) fn below(
    given: &[Option<Fact>],
    side: Side,
    number: u32,
    site: Site,
    entry: Entry,
) -> Option<Entry>
    ensures { (e : AnyEntry) → (result ≡ Some e) ↔ Cites given.now number (Link side site entry e) }
{
    let Fact::Link {
        side: of,
        site: linked,
        entry: above,
        below,
    } = cited(given, number)?
    else {
        return None;
    };
    if of == side && linked == site && above == entry {
        Some(below)
    } else {
        None
    }
}

/// Which objects the line with a number put under one call string.
pub(crate) fn pair_by(given: &[Option<Fact>], number: u32) -> Option<Pair>
    ensures { (s : AnyPair) → (result ≡ Some s) ↔ Cites given.now number (Shared s.object s.arg s.base s.at) }
{
    match cited(given, number)? {
        Fact::Shared {
            object,
            arg,
            base,
            at,
        } => Some(Pair {
            object,
            arg,
            base,
            at,
        }),
        _ => None,
    }
}

/// Which object may be stored into which other, as the line with a number gave.
pub(crate) fn stored_by(given: &[Option<Fact>], number: u32) -> Option<Stored>
    ensures { (s : AnyStored) → (result ≡ Some s) ↔ Cites given.now number (Met s.object s.base s.store) }
{
    match cited(given, number)? {
        Fact::Met {
            object,
            base,
            store,
        } => Some(Stored {
            object,
            base,
            store,
        }),
        _ => None,
    }
}
