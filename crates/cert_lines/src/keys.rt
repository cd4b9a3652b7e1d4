//! What facts and lines are looked for by.
ghost use Rattle.std.specs.Prelude.{◌≡◌};
ghost use Rattle.link_sites.specs.declared.site.Site.{Site as AnySite};
ghost use Rattle.cert_rules.specs.declared.fact.Entry.{Entry as AnyEntry};
ghost use Rattle.cert_rules.specs.declared.fact.Fact.TheVariants.{At};
ghost use Rattle.cert_rules.specs.declared.line.Side.{Side as AnySide};
ghost use Rattle.spds_rules.specs.declared.node.Node.{Node as AnyNode};
ghost use Rattle.cert_lines.specs.Spread.{entry_spread, fact_spread, known_of, mix, place_spread, site_spread, spot_spread, store_spread, word_spread};

use cert_rules::{Entry, Fact, Side};
use link_sites::{Place, Site};
use lists::Key;
use spds_rules::{Node, StoreAt};

/// A fact, with the number by which it is spread. That is made once, and compared first.
#[derive(Clone, Copy, Debug, PartialEq, Eq)]
pub struct Known {
    spread: u64,
    pub fact: Fact,
}

impl Known {
    /// Of a fact.
    #[inline(always)]
    pub fn of(fact: &Fact) -> Self
        ensures { result ≡ known_of fact.now }
    {
        Known {
            spread: fact_spread(fact),
            fact: *fact,
        }
    }

    /// Of an object at the other node, under the words under which it is at this one. Costs no look at these: a fact is large.
    pub fn at(&self, node: Node) -> Self
        requires { (side : AnySide) × (site : AnySite) × (entry : AnyEntry) × (from : AnyNode) × (self.now ≡ known_of (At side site entry from)) }
        ensures { (side : AnySide) (site : AnySite) (entry : AnyEntry) (from : AnyNode) → self.now ≡ known_of (At side site entry from)
            → result ≡ known_of (At side site entry node) }
    {
        let mut there = *self;
        match &mut there.fact {
            Fact::At { node: here, .. } => {
                there.spread = spread_at(self.spread, *here, node);
                *here = node;
            }
            _ => unreachable!(),
        }
        there
    }
}

/// The words under which objects of a site are, by their entry.
#[derive(Clone, Copy, Debug, PartialEq, Eq)]
pub struct Word {
    pub side: Side,
    pub site: Site,
    pub entry: Entry,
}

/// Where objects of a site are.
#[derive(Clone, Copy, Debug, PartialEq, Eq)]
pub struct Spot {
    pub site: Site,
    pub node: Node,
}

/// Where objects come from.
#[derive(Clone, Copy, Debug, PartialEq, Eq)]
pub struct Origin {
    pub site: Site,
}

/// A field, and a node.
#[derive(Clone, Copy, Debug, PartialEq, Eq)]
pub struct FieldAt {
    pub field: u32,
    pub node: Node,
}

// A number for two numbers, in their order.
fn mix(first: u64, second: u64) -> u64
    ensures { result ≡ mix first second }
{
    first
        .wrapping_mul(11_400_714_819_323_198_485)
        .wrapping_add(second)
}

fn place_spread(place: Place) -> u64
    ensures { result ≡ place_spread place }
{
    place.method as u64 * 4_294_967_296 + place.index as u64
}

fn site_spread(site: &Site) -> u64
    ensures { result ≡ site_spread site.now }
{
    match site {
        Site::New(place) => place_spread(*place),
        Site::Nested(place, level) => mix(place_spread(*place), *level as u64 + 1),
        Site::Raised(place, kind) => mix(place_spread(*place), *kind as u64 + 512),
        Site::Text(number) => mix(1, *number as u64),
        Site::Class(number) => mix(2, *number as u64),
    }
}

fn entry_spread(entry: &Entry) -> u64
    ensures { result ≡ entry_spread entry.now }
{
    match entry {
        Entry::Base => 1,
        Entry::Field { node, field } => mix(node.spread(), *field as u64),
        Entry::Call { node, call } => mix(node.spread(), place_spread(*call)),
    }
}

// Of the words under which objects of the site are.
fn words_spread(side: Side, site: &Site, entry: &Entry) -> u64
    ensures { result ≡ word_spread (record { side = side; site = site.now; entry = entry.now }) }
{
    let words = mix(site_spread(site), entry_spread(entry));
    match side {
        Side::Field => words,
        Side::Call => mix(words, 1),
    }
}

// Of where they are.
fn at_spread(site: &Site, node: &Node) -> u64
    ensures { result ≡ spot_spread (record { site = site.now; node = node.now }) }
{
    mix(site_spread(site), node.spread())
}

// The number by which it is spread that an object is at the one node, from that at another, under the same words.
fn spread_at(spread: u64, from: Node, to: Node) -> u64
    ensures { (side : AnySide) (site : AnySite) (entry : AnyEntry) → spread ≡ fact_spread (At side site entry from) → result ≡ fact_spread (At side site entry to) }
{
    spread.wrapping_sub(from.spread()).wrapping_add(to.spread())
}

fn store_spread(store: &StoreAt) -> u64
    ensures { result ≡ store_spread store.now }
{
    mix(store.base.spread(), store.arg.spread())
}

// The parts are read where they stand: a fact is large.
fn fact_spread(fact: &Fact) -> u64
    ensures { result ≡ fact_spread fact.now }
{
    match fact {
        Fact::At {
            side,
            site,
            entry,
            node,
        } => mix(words_spread(*side, site, entry), node.spread()),
        Fact::Link {
            side,
            site,
            entry,
            below,
        } => mix(words_spread(*side, site, entry), entry_spread(below)),
        Fact::Shared {
            object,
            arg,
            base,
            at,
        } => mix(at_spread(object, arg), at_spread(base, at)),
        Fact::Met {
            object,
            base,
            store,
        } => mix(
            mix(site_spread(object), site_spread(base)),
            store_spread(store),
        ),
    }
}

impl Key for Word {
    ghost use Rattle.cert_lines.specs.Spread.{word_spread};
    ghost use Rattle.cert_lines.specs.SameKeys.{same_word};

    ghost spread = { word_spread };

    fn spread(self) -> u64 {
        words_spread(self.side, &self.site, &self.entry)
    }

    ghost same = { same_word };
}

impl Key for Spot {
    ghost use Rattle.cert_lines.specs.Spread.{spot_spread};
    ghost use Rattle.cert_lines.specs.SameKeys.{same_spot};

    ghost spread = { spot_spread };

    fn spread(self) -> u64 {
        at_spread(&self.site, &self.node)
    }

    ghost same = { same_spot };
}

impl Key for Origin {
    ghost use Rattle.cert_lines.specs.SameKeys.{same_origin};

    ghost spread = { λ o. site_spread o.site };

    fn spread(self) -> u64 {
        site_spread(&self.site)
    }

    ghost same = { same_origin };
}

impl Key for FieldAt {
    ghost use Rattle.spds_rules.specs.Spread.{node_spread};
    ghost use Rattle.cert_lines.specs.Spread.{mix};
    ghost use Rattle.cert_lines.specs.SameKeys.{same_field_at};

    ghost spread = { λ k. mix (node_spread k.node) k.field };

    fn spread(self) -> u64 {
        mix(self.node.spread(), self.field as u64)
    }

    ghost same = { same_field_at };
}

impl Key for Known {
    ghost use Rattle.cert_lines.specs.SameKeys.{same_known};

    ghost spread = { λ k. k.spread };

    fn spread(self) -> u64 {
        self.spread
    }

    ghost same = { same_known };
}
