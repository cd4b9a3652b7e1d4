//! What lines gave, as it is read of them.
ghost use Rattle.std.specs.Prelude.{◌≡◌};
ghost use Rattle.cert_rules.specs.declared.fact.Fact.TheVariants.{Link, Met};
ghost use Rattle.cert_rules.specs.Given.{Cites};
ghost use Rattle.cert_rules.specs.Lengths.{cited_length};
ghost use Rattle.cert_rules.specs.Told.{as_told};
ghost use Rattle.cert_work.specs.Held.{IsHeld};
ghost use Rattle.cert_work.specs.Rules.{one_more};
ghost use Rattle.cert_work.specs.Work.{HasWord, IsAt, IsBelow, IsStored, spot_of, word_of};

use cert_lines::{Spot, Word, Written};
use cert_rules::{Entry, Fact, Side};
use link_sites::Site;
use spds_rules::{Node, StoreAt};

/// An object at a node, as the line with the number, from 1, gave, and how long that is.
#[derive(Clone, Copy)]
pub(crate) struct Held {
    pub(crate) number: u32,
    pub(crate) side: Side,
    pub(crate) site: Site,
    pub(crate) entry: Entry,
    pub(crate) node: Node,
    pub(crate) length: u32,
}

/// The entry below a first letter, as the line with the number, from 1, gave, and how long that is.
#[derive(Clone, Copy)]
pub(crate) struct Below {
    pub(crate) number: u32,
    pub(crate) entry: Entry,
    pub(crate) length: u32,
}

/// A store by which an object may be put into one of the base, as the line with the number, from 1, gave.
#[derive(Clone, Copy)]
pub(crate) struct Meeting {
    pub(crate) number: u32,
    pub(crate) base: Site,
    pub(crate) store: StoreAt,
}

impl Held {
    /// Of these parts.
    pub(crate) fn new(number: u32, word: Word, node: Node, length: u32) -> Self
        ensures { result ≡ record { number = number; side = word.side; site = word.site; entry = word.entry; node = node; length = length } }
    {
        Held {
            number,
            side: word.side,
            site: word.site,
            entry: word.entry,
            node,
            length,
        }
    }

    /// The words under which the object is there.
    pub(crate) fn word(&self) -> Word
        ensures { result ≡ word_of self.now }
    {
        Word {
            side: self.side,
            site: self.site,
            entry: self.entry,
        }
    }

    /// Where it is.
    pub(crate) fn spot(&self) -> Spot
        ensures { result ≡ spot_of self.now }
    {
        Spot {
            site: self.site,
            node: self.node,
        }
    }
}

impl Below {
    /// Of these parts.
    pub(crate) fn new(number: u32, entry: Entry, length: u32) -> Self
        ensures { result ≡ record { number = number; entry = entry; length = length } }
    {
        Below {
            number,
            entry,
            length,
        }
    }
}

impl Meeting {
    /// Of these parts.
    pub(crate) fn new(number: u32, base: Site, store: StoreAt) -> Self
        ensures { result ≡ record { number = number; base = base; store = store } }
    {
        Meeting {
            number,
            base,
            store,
        }
    }

    /// Where an object of the site has to be.
    pub(crate) fn spot(self, object: Site) -> Spot
        ensures { result ≡ record { site = object; node = self.store.arg } }
    {
        Spot {
            site: object,
            node: self.store.arg,
        }
    }
}

/// The object that the line with the number, from 1, put somewhere under the word.
pub(crate) fn held_under(written: &Written, number: u32, word: Word) -> Held
    requires { HasWord written.now word number }
    ensures held { IsHeld written.now result }
    ensures number { result.number ≡ number }
    ensures word { word_of result ≡ word }
{
    let _count = written.len();
    let length = written.length(number - 1);
    match *written.fact(number - 1) {
        Fact::At { node, .. } => Held {
            number,
            side: word.side,
            site: word.site,
            entry: word.entry,
            node,
            length,
        },
        _ => unreachable!(),
    }
}

/// The object that the line put there.
pub(crate) fn held_at(written: &Written, number: u32, spot: Spot) -> Held
    requires { IsAt written.now spot number }
    ensures held { IsHeld written.now result }
    ensures number { result.number ≡ number }
    ensures spot { spot_of result ≡ spot }
{
    let _count = written.len();
    let length = written.length(number - 1);
    match *written.fact(number - 1) {
        Fact::At { side, entry, .. } => Held {
            number,
            side,
            site: spot.site,
            entry,
            node: spot.node,
            length,
        },
        _ => unreachable!(),
    }
}

/// What the line gave to stand below the first letter of the word.
pub(crate) fn below_under(written: &Written, number: u32, word: Word) -> Below
    requires { IsBelow written.now word number }
    ensures gives { Cites written.now.given number (Link word.side word.site word.entry result.entry) }
    ensures long { cited_length written.now.lengths number ≡ result.length }
    ensures number { result.number ≡ number }
{
    let _count = written.len();
    let length = written.length(number - 1);
    match *written.fact(number - 1) {
        Fact::Link { below, .. } => Below {
            number,
            entry: below,
            length,
        },
        _ => unreachable!(),
    }
}

/// The store by which the line lets an object that is there be stored.
pub(crate) fn meeting_at(written: &Written, number: u32, spot: Spot) -> Meeting
    requires { IsStored written.now spot number }
    ensures meets { Cites written.now.given number (Met spot.site result.base result.store) }
    ensures arg { result.store.arg ≡ spot.node }
    ensures number { result.number ≡ number }
{
    let _count = written.len();
    match *written.fact(number - 1) {
        Fact::Met { base, store, .. } => Meeting {
            number,
            base,
            store,
        },
        _ => unreachable!(),
    }
}

/// One more than a number, as far as 32 bits tell, on the side on which rules are counted.
pub(crate) fn one_more(side: Side, length: u32) -> u32
    ensures { result ≡ as_told (one_more side length) }
{
    match side {
        Side::Field => length.saturating_add(1),
        Side::Call => 0,
    }
}
