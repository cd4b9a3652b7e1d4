//! What rules give of two lines: of one that is gone through, and of each of those that were.
ghost use Rattle.std.specs.Prelude.{◌≡◌, ℕ, OnOk};
ghost use Rattle.lists.specs.Lists.{Has};
ghost use Rattle.spds_rules.specs.declared.edge.Edge.{Edge as AnyEdge};
ghost use Rattle.spds_rules.specs.declared.node.Node.{Node as AnyNode};
ghost use Rattle.link_sites.specs.declared.site.Site.{Site as AnySite};
ghost use Rattle.cert_rules.specs.declared.fact.Fact.TheVariants.{Link, Met};
ghost use Rattle.cert_rules.specs.Given.{Cites};
ghost use Rattle.cert_rules.specs.Lengths.{cited_length};
ghost use Rattle.cert_work.specs.Held.{IsHeld};
ghost use Rattle.cert_work.specs.Roads.{AreAddedIn, AreEdgesAt, EdgeOf, IsView, StartOf};
ghost use Rattle.cert_work.specs.Rules.{IsPopped, IsPut};
ghost use Rattle.cert_work.specs.Work.{HasWord, IsAt, IsBelow, IsStored, spot_of, word_of};

use super::held::{Below, Held, Meeting, below_under, held_at, held_under, meeting_at};
use super::popping::pop_all;
use super::putting::put_all;
use super::roads::View;
use cert_lines::{Spot, Word, Written};
use lists::NoMemory;
use spds_rules::Edge;

// With a line that gives what stands below its first letter.
fn pop_link(
    view: &View<'_>,
    written: &mut Written,
    held: &Held,
    edges: &[Edge],
    link: u32,
) -> Result<(), NoMemory>
    requires edges { AreEdgesAt view.now held.now.node edges.now }
    requires held { IsHeld written.old held.now }
    requires link { IsBelow written.old (word_of held.now) link }
    ensures added { OnOk result (AreAddedIn view.now written.old written.new) }
    ensures there { OnOk result ((e : AnyEdge) → EdgeOf view.now e → IsPopped written.new held.now.number link e) }
{
    let below = below_under(written, link, held.word());
    pop_all(view, written, held, &below, edges)?;
    Ok(())
}

/// An object with each line that gives what stands below its first letter.
pub(crate) fn pop_links(
    view: &View<'_>,
    written: &mut Written,
    held: &Held,
    edges: &[Edge],
    links: &[u32],
) -> Result<(), NoMemory>
    requires edges { AreEdgesAt view.now held.now.node edges.now }
    requires held { IsHeld written.old held.now }
    requires links { (i : ℕ) → Has links.now i → IsBelow written.old (word_of held.now) i }
    ensures added { OnOk result (AreAddedIn view.now written.old written.new) }
    ensures there { OnOk result ((i : ℕ) → Has links.now i → (e : AnyEdge) → EdgeOf view.now e → IsPopped written.new held.now.number i e) }
{
    for link in links {
        pop_link(view, written, held, edges, *link)?;
    }
    Ok(())
}

// With a line that put an object somewhere under the word.
fn pop_taker(
    view: &View<'_>,
    written: &mut Written,
    word: Word,
    below: &Below,
    taker: u32,
) -> Result<(), NoMemory>
    requires view { IsView view.now }
    requires below { Cites written.old.given below.now.number (Link word.side word.site word.entry below.now.entry) }
    requires long { cited_length written.old.lengths below.now.number ≡ below.now.length }
    requires taker { HasWord written.old word taker }
    ensures added { OnOk result (AreAddedIn view.now written.old written.new) }
    ensures there { OnOk result ((e : AnyEdge) → EdgeOf view.now e → IsPopped written.new taker below.now.number e) }
{
    let held = held_under(written, taker, word);
    let edges = view.edges(held.node);
    pop_all(view, written, &held, below, edges)?;
    Ok(())
}

/// What stands below the first letter of a word with each line that put an object somewhere under it.
pub(crate) fn pop_takers(
    view: &View<'_>,
    written: &mut Written,
    word: Word,
    below: &Below,
    takers: &[u32],
) -> Result<(), NoMemory>
    requires view { IsView view.now }
    requires below { Cites written.old.given below.now.number (Link word.side word.site word.entry below.now.entry) }
    requires long { cited_length written.old.lengths below.now.number ≡ below.now.length }
    requires takers { (i : ℕ) → Has takers.now i → HasWord written.old word i }
    ensures added { OnOk result (AreAddedIn view.now written.old written.new) }
    ensures there { OnOk result ((i : ℕ) → Has takers.now i → (e : AnyEdge) → EdgeOf view.now e → IsPopped written.new i below.now.number e) }
{
    for taker in takers {
        pop_taker(view, written, word, below, *taker)?;
    }
    Ok(())
}

// With a line by which an object that is there may be stored.
fn put_met(view: &View<'_>, written: &mut Written, held: &Held, met: u32) -> Result<(), NoMemory>
    requires view { IsView view.now }
    requires held { IsHeld written.old held.now }
    requires met { IsStored written.old (spot_of held.now) met }
    ensures added { OnOk result (AreAddedIn view.now written.old written.new) }
    ensures there { OnOk result ((base : AnySite) (n : AnyNode) → StartOf view.now base n → IsPut written.new held.now.number met base n) }
{
    let meeting = meeting_at(written, met, held.spot());
    put_all(view, written, held, &meeting)?;
    Ok(())
}

/// An object with each line by which one that is there may be stored.
pub(crate) fn put_mets(
    view: &View<'_>,
    written: &mut Written,
    held: &Held,
    mets: &[u32],
) -> Result<(), NoMemory>
    requires view { IsView view.now }
    requires held { IsHeld written.old held.now }
    requires mets { (i : ℕ) → Has mets.now i → IsStored written.old (spot_of held.now) i }
    ensures added { OnOk result (AreAddedIn view.now written.old written.new) }
    ensures there { OnOk result ((i : ℕ) → Has mets.now i → (base : AnySite) (n : AnyNode) → StartOf view.now base n → IsPut written.new held.now.number i base n) }
{
    for met in mets {
        put_met(view, written, held, *met)?;
    }
    Ok(())
}

// With a line that put an object there.
fn put_object(
    view: &View<'_>,
    written: &mut Written,
    spot: Spot,
    meeting: &Meeting,
    object: u32,
) -> Result<(), NoMemory>
    requires view { IsView view.now }
    requires meets { Cites written.old.given meeting.now.number (Met spot.site meeting.now.base meeting.now.store) }
    requires arg { meeting.now.store.arg ≡ spot.node }
    requires object { IsAt written.old spot object }
    ensures added { OnOk result (AreAddedIn view.now written.old written.new) }
    ensures there { OnOk result ((base : AnySite) (n : AnyNode) → StartOf view.now base n → IsPut written.new object meeting.now.number base n) }
{
    let held = held_at(written, object, spot);
    put_all(view, written, &held, meeting)?;
    Ok(())
}

/// A store with each line that put an object there.
pub(crate) fn put_objects(
    view: &View<'_>,
    written: &mut Written,
    spot: Spot,
    meeting: &Meeting,
    objects: &[u32],
) -> Result<(), NoMemory>
    requires view { IsView view.now }
    requires meets { Cites written.old.given meeting.now.number (Met spot.site meeting.now.base meeting.now.store) }
    requires arg { meeting.now.store.arg ≡ spot.node }
    requires objects { (i : ℕ) → Has objects.now i → IsAt written.old spot i }
    ensures added { OnOk result (AreAddedIn view.now written.old written.new) }
    ensures there { OnOk result ((i : ℕ) → Has objects.now i → (base : AnySite) (n : AnyNode) → StartOf view.now base n → IsPut written.new i meeting.now.number base n) }
{
    for object in objects {
        put_object(view, written, spot, meeting, *object)?;
    }
    Ok(())
}
