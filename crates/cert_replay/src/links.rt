//! Call strings, read by the lines that gave links.
ghost use Rattle.std.specs.Prelude.{◌≡◌, ◌↔◌, Some, IsTrue};
ghost use Rattle.link_sites.specs.declared.site.Site.{Site as AnySite};
ghost use Rattle.spds_rules.specs.declared.node.Node.{Node as AnyNode};
ghost use Rattle.cert_rules.specs.declared.fact.Entry.{Entry as AnyEntry};
ghost use Rattle.cert_rules.specs.Given.{Reads, ReadsOn};
ghost use Rattle.cert_replay.specs.Cited.{ReadsNext};

use super::cited::{Held, below, held_by};
use super::strings::is_string;
use cert_rules::{Entry, Fact, Side};
use link_program::Linked;
use link_sites::{Place, Site};
use spds_rules::Node;

// The entry below the call, where that is the call of the entry.
fn next(given: &[Option<Fact>], site: Site, entry: Entry, link: u32, call: Place) -> Option<Entry>
    ensures { (e : AnyEntry) → (result ≡ Some e) ↔ ReadsNext given.now site entry link call e }
{
    let Entry::Call { call: pushed, .. } = entry else {
        return None;
    };
    if pushed == call {
        below(given, Side::Call, link, site, entry)
    } else {
        None
    }
}

// Whether the call string is read from where an object is, by these lines.
fn reads_on(
    linked: &Linked,
    given: &[Option<Fact>],
    from: Held,
    links: &[u32],
    string: &[Place],
) -> bool
    ensures { IsTrue result ↔ ReadsOn linked.now given.now from.site links.now from.entry from.node.place.method string.now }
{
    let mut entry = from.entry;
    let mut method = from.node.place.method;
    let mut left = links;
    let mut rest = string;
    while let Some((link, others)) = left.split_first() {
        let Some((call, behind)) = rest.split_first() else {
            return false;
        };
        let Some(below) = next(given, from.site, entry, *link, *call) else {
            return false;
        };
        entry = below;
        method = call.method;
        left = others;
        rest = behind;
    }
    entry == Entry::Base && is_string(linked, method, rest)
}

/// The object and the node for which the call string is read by these lines.
pub(crate) fn read_for(
    linked: &Linked,
    given: &[Option<Fact>],
    numbers: &[u32],
    string: &[Place],
) -> Option<(Site, Node)>
    ensures { (o : AnySite) (n : AnyNode) → (result ≡ Some (o, n)) ↔ Reads linked.now given.now o numbers.now n string.now }
{
    let (first, links) = numbers.split_first()?;
    let from = held_by(given, Side::Call, *first)?;
    if reads_on(linked, given, from, links, string) {
        Some((from.site, from.node))
    } else {
        None
    }
}
