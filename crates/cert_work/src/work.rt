//! Lines and how far they were gone through.
ghost use Rattle.std.specs.Prelude.{◌≡◌, ◌↔◌, ◌⊎◌, ◌+◌, ◌<◌, ◌≤◌, ℕ, [], length, IfSome, IsTrue, OnOk};
ghost use Rattle.lists.specs.Groups.{found_at};
ghost use Rattle.lists.specs.Lists.{Has};
ghost use Rattle.link_sites.specs.declared.site.Site.{Site as AnySite};
ghost use Rattle.spds_rules.specs.declared.edge.Edge.{Edge as AnyEdge};
ghost use Rattle.spds_rules.specs.declared.node.Node.{Node as AnyNode};
ghost use Rattle.cert_rules.specs.declared.fact.Fact.TheVariants.{At, Link, Met};
ghost use Rattle.cert_lines.specs.contracts.keys.SpotPartialEq.TheImpl as of_spot;
ghost use Rattle.cert_lines.specs.declared.keys.Spot.{Spot as AnySpot};
ghost use Rattle.cert_rules.specs.Given.{Cites, Takes};
ghost use Rattle.cert_rules.specs.Lengths.{cited_length};
ghost use Rattle.cert_work.specs.Held.{IsHeld};
ghost use Rattle.cert_work.specs.Roads.{AreAddedIn, AreEdgesAt, EdgeOf, EndOf, IsView, StartOf};
ghost use Rattle.cert_work.specs.Rules.{IsAlongIfBest, IsPoppedIfBest, IsPutIfBest};
ghost use Rattle.cert_work.specs.Wants.{IsEverywhere, IsFollowedAt};
ghost use Rattle.cert_work.specs.Work.{AreFiled, IsAt, IsBelow, IsStored, IsWorkOf, IsWorkingOf, TellsAt, spot_of, word_of};

use super::along::along_all;
use super::held::{Below, Held, Meeting, below_under, held_at};
use super::pairs::{pop_links, pop_takers, put_mets, put_objects};
use super::popping::is_taken;
use super::roads::{Stop, View};
use cert_lines::{Spot, Word, Written};
use cert_rules::{Entry, Fact};
use link_sites::Site;
use lists::{ByKey, NoMemory};
use spds_rules::Edge;
use std::alloc::Global;

/// Lines, the first of which were gone through. Files tell these, by their numbers from 1, by what they are looked for by. Where objects are, they tell
/// of ends alone: the target, and the nodes at which demanded stores take objects from and put them into.
#[derive(Drop)]
pub struct Work {
    pub written: Written,
    pub done: u32,
    pub(crate) takers: ByKey<Word, u32>,
    pub(crate) links: ByKey<Word, u32>,
    pub(crate) spots: ByKey<Spot, u32>,
    pub(crate) mets: ByKey<Spot, u32>,
}

impl Work {
    /// The numbers, from 1, of the lines that were gone through and gave what stands below the first letter of the word.
    pub fn links(&self, word: Word) -> &[u32]
        requires { AreFiled self.now.written self.now }
        ensures { (i : ℕ) → Has result.now i ↔ ((i ≤ self.now.done) × IsBelow self.now.written word i) }
    {
        self.links.at(word)
    }

    /// The numbers, from 1, of those that put an object there, at an end.
    pub fn objects(&self, spot: Spot) -> &[u32]
        requires { TellsAt self.now spot.node }
        ensures { (i : ℕ) → Has result.now i ↔ ((i ≤ self.now.done) × IsAt self.now.written spot i) }
    {
        self.spots.at(spot)
    }

    /// What the line with the number, from 1, gave to stand below the first letter of the word.
    pub fn entry_below(&self, number: u32, word: Word) -> Entry
        requires { IsBelow self.now.written word number }
        ensures { Cites self.now.written.given number (Link word.side word.site word.entry result) }
    {
        below_under(&self.written, number, word).entry
    }

    /// The words under which the line with the number, from 1, put an object there.
    pub fn word_at(&self, number: u32, spot: Spot) -> Word
        requires { IsAt self.now.written spot number }
        ensures gives { Cites self.now.written.given number (At result.side spot.site result.entry spot.node) }
        ensures site { result.site ≡ spot.site }
    {
        held_at(&self.written, number, spot).word()
    }
}

// What the rules give of an object that a line put somewhere, alone and with these lines: nothing, where a better line is still to be gone through.
fn follow(
    view: &View<'_>,
    written: &mut Written,
    held: &Held,
    edges: &[Edge],
    links: &[u32],
    mets: &[u32],
) -> Result<(), NoMemory>
    requires view { IsView view.now }
    requires held { IsHeld written.old held.now }
    requires edges { AreEdgesAt view.now held.now.node edges.now }
    requires links { (i : ℕ) → Has links.now i → IsBelow written.old (word_of held.now) i }
    requires mets { (i : ℕ) → Has mets.now i → IsStored written.old (spot_of held.now) i }
    ensures added { OnOk result (AreAddedIn view.now written.old written.new) }
    ensures along { OnOk result ((e : AnyEdge) → EdgeOf view.now e → IsAlongIfBest written.new held.now.number e) }
    ensures popped { OnOk result ((i : ℕ) → Has links.now i → (e : AnyEdge) → EdgeOf view.now e → IsPoppedIfBest written.new held.now.number i e) }
    ensures put { OnOk result ((i : ℕ) → Has mets.now i → (base : AnySite) (n : AnyNode) → StartOf view.now base n → IsPutIfBest written.new held.now.number i base n) }
{
    // Each line has a length.
    let _count = written.len();
    if written.is_bettered(held.number - 1) {
        return Ok(());
    }
    along_all(view, written, held, edges)?;
    pop_links(view, written, held, edges, links)?;
    put_mets(view, written, held, mets)?;
    Ok(())
}

// The numbers of the lines by which an object that is there may be stored. At an end alone there are some.
fn mets_at(mets: &ByKey<Spot, u32>, spot: Spot, at_end: bool) -> &[u32]
    requires { (i : ℕ) → Has (found_at of_spot.eq-value.it mets.now spot) i → IsTrue at_end }
    ensures { (i : ℕ) → Has result.now i ↔ Has (found_at of_spot.eq-value.it mets.now spot) i }
{
    if at_end { mets.at(spot) } else { &[] }
}

// At an end the line that put an object there is filed.
fn file_object(
    spots: &mut ByKey<Spot, u32>,
    spot: Spot,
    number: u32,
    at_end: bool,
) -> Result<(), NoMemory>
    ensures { OnOk result ((k : AnySpot) (i : ℕ) → Has (found_at of_spot.eq-value.it spots.new k) i
        ↔ (Has (found_at of_spot.eq-value.it spots.old k) i ⊎ (IsTrue at_end × (k ≡ spot) × (i ≡ number)))) }
{
    if at_end {
        spots.add(spot, number)?;
    }
    Ok(())
}

// Goes through a line that put an object where an edge takes the first letter of its word off.
fn work_taker(
    view: &View<'_>,
    work: &mut Work,
    held: &Held,
    edges: &[Edge],
    at_end: bool,
) -> Result<(), NoMemory>
    requires view { IsView view.now }
    requires work { IsWorkingOf view.now work.old }
    requires held { IsHeld work.old.written held.now }
    requires number { held.now.number ≡ work.old.done + 1 }
    requires edges { AreEdgesAt view.now held.now.node edges.now }
    requires wanted { IsFollowedAt view.now.wants.now held.now.site held.now.entry held.now.node }
    requires taken { (e : AnyEdge) × Has edges.now e × Takes held.now.side held.now.entry e.kind }
    requires end { IsTrue at_end ↔ EndOf view.now held.now.node }
    ensures added { OnOk result (AreAddedIn view.now work.old.written work.new.written) }
    ensures work { OnOk result (IsWorkingOf view.now work.new) }
    ensures done { OnOk result (work.new.done ≡ work.old.done + 1) }
{
    let word = held.word();
    let spot = held.spot();
    let links = work.links.at(word);
    let mets = mets_at(&work.mets, spot, at_end);
    follow(view, &mut work.written, held, edges, links, mets)?;
    work.takers.add(word, held.number)?;
    file_object(&mut work.spots, spot, held.number, at_end)?;
    work.done = held.number;
    Ok(())
}

// Goes through one that put it where none does.
fn work_other(
    view: &View<'_>,
    work: &mut Work,
    held: &Held,
    edges: &[Edge],
    at_end: bool,
) -> Result<(), NoMemory>
    requires view { IsView view.now }
    requires work { IsWorkingOf view.now work.old }
    requires held { IsHeld work.old.written held.now }
    requires number { held.now.number ≡ work.old.done + 1 }
    requires edges { AreEdgesAt view.now held.now.node edges.now }
    requires untaken { (e : AnyEdge) → Has edges.now e → Takes held.now.side held.now.entry e.kind → ⊥ }
    requires end { IsTrue at_end ↔ EndOf view.now held.now.node }
    ensures added { OnOk result (AreAddedIn view.now work.old.written work.new.written) }
    ensures work { OnOk result (IsWorkingOf view.now work.new) }
    ensures done { OnOk result (work.new.done ≡ work.old.done + 1) }
{
    let spot = held.spot();
    let mets = mets_at(&work.mets, spot, at_end);
    follow(view, &mut work.written, held, edges, &[], mets)?;
    file_object(&mut work.spots, spot, held.number, at_end)?;
    work.done = held.number;
    Ok(())
}

// Goes past one that put it where it isn't followed.
fn work_past(view: &View<'_>, work: &mut Work, held: &Held, at_end: bool) -> Result<(), NoMemory>
    requires work { IsWorkingOf view.now work.old }
    requires held { IsHeld work.old.written held.now }
    requires number { held.now.number ≡ work.old.done + 1 }
    requires unwanted { IsFollowedAt view.now.wants.now held.now.site held.now.entry held.now.node → ⊥ }
    requires end { IsTrue at_end ↔ EndOf view.now held.now.node }
    ensures added { OnOk result (AreAddedIn view.now work.old.written work.new.written) }
    ensures work { OnOk result (IsWorkingOf view.now work.new) }
    ensures done { OnOk result (work.new.done ≡ work.old.done + 1) }
{
    file_object(&mut work.spots, held.spot(), held.number, at_end)?;
    work.done = held.number;
    Ok(())
}

// Goes through a line that put an object somewhere.
fn work_at(
    view: &View<'_>,
    work: &mut Work,
    held: &Held,
    last: &mut Option<Site>,
) -> Result<(), NoMemory>
    requires view { IsView view.now }
    requires work { IsWorkingOf view.now work.old }
    requires held { IsHeld work.old.written held.now }
    requires number { held.now.number ≡ work.old.done + 1 }
    requires last { IfSome last.old (IsEverywhere view.now.wants.now) }
    ensures added { OnOk result (AreAddedIn view.now work.old.written work.new.written) }
    ensures work { OnOk result (IsWorkingOf view.now work.new) }
    ensures done { OnOk result (work.new.done ≡ work.old.done + 1) }
    ensures last { IfSome last.new (IsEverywhere view.now.wants.now) }
{
    let Stop {
        edges,
        is_end: at_end,
    } = view.stop(held.node);
    if !view.wants.follows(last, held.site, &held.entry, held.node) {
        return work_past(view, work, held, at_end);
    }
    if is_taken(held, edges) {
        work_taker(view, work, held, edges, at_end)
    } else {
        work_other(view, work, held, edges, at_end)
    }
}

// Goes through a line that gave what stands below the first letter of a word.
fn work_link(view: &View<'_>, work: &mut Work, word: Word, below: &Below) -> Result<(), NoMemory>
    requires view { IsView view.now }
    requires work { IsWorkingOf view.now work.old }
    requires below { Cites work.old.written.given below.now.number (Link word.side word.site word.entry below.now.entry) }
    requires long { cited_length work.old.written.lengths below.now.number ≡ below.now.length }
    requires number { below.now.number ≡ work.old.done + 1 }
    ensures added { OnOk result (AreAddedIn view.now work.old.written work.new.written) }
    ensures work { OnOk result (IsWorkingOf view.now work.new) }
    ensures done { OnOk result (work.new.done ≡ work.old.done + 1) }
{
    let takers = work.takers.at(word);
    pop_takers(view, &mut work.written, word, below, takers)?;
    work.links.add(word, below.number)?;
    work.done = below.number;
    Ok(())
}

// Goes through a line by which an object that is there may be stored.
fn work_met(view: &View<'_>, work: &mut Work, spot: Spot, meeting: &Meeting) -> Result<(), NoMemory>
    requires view { IsView view.now }
    requires work { IsWorkingOf view.now work.old }
    requires meets { Cites work.old.written.given meeting.now.number (Met spot.site meeting.now.base meeting.now.store) }
    requires arg { meeting.now.store.arg ≡ spot.node }
    requires number { meeting.now.number ≡ work.old.done + 1 }
    ensures added { OnOk result (AreAddedIn view.now work.old.written work.new.written) }
    ensures work { OnOk result (IsWorkingOf view.now work.new) }
    ensures done { OnOk result (work.new.done ≡ work.old.done + 1) }
{
    let objects = work.spots.at(spot);
    put_objects(view, &mut work.written, spot, meeting, objects)?;
    work.mets.add(spot, meeting.number)?;
    work.done = meeting.number;
    Ok(())
}

// Goes through the next line. What is kept is a site whose objects are followed everywhere, where one was found.
fn work_next(view: &View<'_>, work: &mut Work, last: &mut Option<Site>) -> Result<(), NoMemory>
    requires view { IsView view.now }
    requires work { IsWorkingOf view.now work.old }
    requires more { work.old.done < length work.old.written.given }
    requires last { IfSome last.old (IsEverywhere view.now.wants.now) }
    ensures added { OnOk result (AreAddedIn view.now work.old.written work.new.written) }
    ensures work { OnOk result (IsWorkingOf view.now work.new) }
    ensures done { OnOk result (work.new.done ≡ work.old.done + 1) }
    ensures last { IfSome last.new (IsEverywhere view.now.wants.now) }
{
    let _count = work.written.len();
    let number = work.done + 1;
    let length = work.written.length(work.done);
    match *work.written.fact(work.done) {
        Fact::At {
            side,
            site,
            entry,
            node,
        } => {
            let word = Word { side, site, entry };
            work_at(view, work, &Held::new(number, word, node, length), last)
        }
        Fact::Link {
            side,
            site,
            entry,
            below,
        } => {
            let word = Word { side, site, entry };
            work_link(view, work, word, &Below::new(number, below, length))
        }
        Fact::Met {
            object,
            base,
            store,
        } => {
            let meeting = Meeting::new(number, base, store);
            work_met(view, work, meeting.spot(object), &meeting)
        }
        Fact::Shared { .. } => {
            work.done = number;
            Ok(())
        }
    }
}

/// Goes through the lines that are left, and through those that are put behind them, until none is left.
pub fn work_off(view: &View<'_>, work: &mut Work) -> Result<(), NoMemory>
    requires view { IsView view.now }
    requires work { IsWorkOf view.now work.old }
    ensures added { OnOk result (AreAddedIn view.now work.old.written work.new.written) }
    ensures work { OnOk result (IsWorkOf view.now work.new) }
    ensures all { OnOk result (work.new.done ≡ length work.new.written.given) }
{
    let mut last = None;
    while work.done < work.written.len() {
        work_next(view, work, &mut last)?;
    }
    Ok(())
}

/// No lines. Takes no memory.
pub fn nothing(alloc: Global, view: &View<'_>) -> Work
    ensures lines { result.written.lines ≡ [] }
    ensures given { result.written.given ≡ [] }
    ensures lengths { result.written.lengths ≡ [] }
    ensures work { IsWorkOf view.now result }
{
    Work {
        written: Written::new(alloc),
        done: 0,
        takers: ByKey::new(alloc),
        links: ByKey::new(alloc),
        spots: ByKey::new(alloc),
        mets: ByKey::new(alloc),
    }
}
