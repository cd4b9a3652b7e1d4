//! A look at the sites that changed: what their call strings at the ends of stores begin with, and which pairs meet now.
ghost use Rattle.std.specs.Prelude.{◌≡◌, ◌↔◌, ◌<◌, ℕ, length, IsTrue, OnOk};
ghost use Rattle.lists.specs.Lists.{Has};
ghost use Rattle.spds_solve.specs.Known.{IsInRange, IsKnown, Keeps};
ghost use Rattle.spds_solve.specs.Looks.{CountsAt, IsCandidateAt, IsGrownAt, IsNotedAt, IsNotedCell, IsNotedEnd, IsView};
ghost use Rattle.spds_solve.specs.Mets.{numbers_of};
ghost use Rattle.spds_solve.specs.Searches.{IsStill};
ghost use Rattle.spds_tables.specs.declared.numbered.Met.{Met as AMet};

use super::ends::{End, StoreEnd};
use super::heads::{Head, head_of};
use super::known::Known;
use super::mets::Mets;
use super::posts::Post;
use super::scan::{View, is_base, try_mets};
use lists::NoMemory;
use spds_tables::count_of;
use std::alloc::Global;

/// Whether the site counts at the end of the store: at the base only where its own object is there, and has the field. That may come to be so later.
fn counts(view: &View<'_>, site: u32, at: StoreEnd) -> bool
    requires view { IsView view.now }
    requires site { site < length view.now.parts.now.starts.items }
    requires store { at.store < length view.now.parts.now.stores.items }
    ensures { IsTrue result ↔ CountsAt view.now site at }
{
    match at.end {
        End::Arg => true,
        End::Base => is_base(view, site, at.store),
    }
}

/// Notes what call strings of the site begin with at the end of a store, if the site counts.
fn note_end(
    view: &View<'_>,
    known: &mut Known,
    mets: &Mets,
    site: u32,
    head: Head,
    at: StoreEnd,
) -> Result<(), NoMemory>
    requires view { IsView view.now }
    requires known { IsKnown view.now.parts.now mets.now known.old }
    requires site { site < length view.now.parts.now.starts.items }
    requires store { at.store < length view.now.parts.now.stores.items }
    ensures known { OnOk result (IsKnown view.now.parts.now mets.now known.new) }
    ensures keeps { OnOk result (Keeps known.old known.new) }
    ensures noted { OnOk result (IsNotedEnd view.now known.new site head at) }
{
    if !counts(view, site, at) {
        return Ok(());
    }
    let store = at.store;
    known.add(mets, at.end, Post { store, head, site })?;
    Ok(())
}

/// Notes what call strings of the site at the cell begin with.
fn note_cell(
    view: &View<'_>,
    known: &mut Known,
    mets: &Mets,
    site: u32,
    head: Head,
    cell: u32,
) -> Result<(), NoMemory>
    requires view { IsView view.now }
    requires known { IsKnown view.now.parts.now mets.now known.old }
    requires site { site < length view.now.parts.now.starts.items }
    ensures known { OnOk result (IsKnown view.now.parts.now mets.now known.new) }
    ensures keeps { OnOk result (Keeps known.old known.new) }
    ensures noted { OnOk result (IsNotedCell view.now known.new site head cell) }
{
    for at in view.ends.at(cell) {
        note_end(view, known, mets, site, head, *at)?;
    }
    Ok(())
}

/// Notes what the call strings of the site begin with.
fn note_site(
    alloc: Global,
    view: &View<'_>,
    known: &mut Known,
    mets: &Mets,
    site: u32,
) -> Result<(), NoMemory>
    requires view { IsView view.now }
    requires known { IsKnown view.now.parts.now mets.now known.old }
    requires site { site < length view.now.parts.now.starts.items }
    ensures known { OnOk result (IsKnown view.now.parts.now mets.now known.new) }
    ensures keeps { OnOk result (Keeps known.old known.new) }
    ensures noted { OnOk result (IsNotedAt view.now known.new site) }
{
    let openings = view.tables.each[site as usize].calls.openings(alloc)?;
    for opening in &openings {
        let head = head_of(opening.first);
        note_cell(view, known, mets, site, head, opening.node)?;
    }
    Ok(())
}

/// Notes what the call strings of the site begin with, if its tables changed.
fn note_changed(
    alloc: Global,
    view: &View<'_>,
    known: &mut Known,
    mets: &Mets,
    site: u32,
) -> Result<(), NoMemory>
    requires view { IsView view.now }
    requires known { IsKnown view.now.parts.now mets.now known.old }
    requires site { site < length view.now.parts.now.starts.items }
    requires flag { site < length view.now.tables.now.changed.items }
    requires noted { IsStill view.now.tables.now site → IsNotedAt view.now known.old site }
    ensures known { OnOk result (IsKnown view.now.parts.now mets.now known.new) }
    ensures keeps { OnOk result (Keeps known.old known.new) }
    ensures noted { OnOk result (IsNotedAt view.now known.new site) }
{
    if !view.tables.changed[site as usize] {
        return Ok(());
    }
    note_site(alloc, view, known, mets, site)?;
    Ok(())
}

/// Notes what the call strings of the sites that changed begin with.
fn note_all(alloc: Global, view: &View<'_>, known: &mut Known, mets: &Mets) -> Result<(), NoMemory>
    requires view { IsView view.now }
    requires known { IsKnown view.now.parts.now mets.now known.old }
    requires flags { length view.now.tables.now.changed.items ≡ length view.now.parts.now.starts.items }
    requires noted { (site : ℕ) → IsStill view.now.tables.now site → IsNotedAt view.now known.old site }
    ensures known { OnOk result (IsKnown view.now.parts.now mets.now known.new) }
    ensures noted { OnOk result ((site : ℕ) → IsNotedAt view.now known.new site) }
{
    for site in 0..count_of(view.tables.each.len())? {
        note_changed(alloc, view, known, mets, site)?;
    }
    Ok(())
}

/// Looks at the sites that changed, and puts in the meets that there are now. A pair that had no common call string is looked at again only where one of
/// its sites changed.
pub fn look(
    alloc: Global,
    view: &View<'_>,
    known: &mut Known,
    mets: &mut Mets,
) -> Result<(), NoMemory>
    requires view { IsView view.now }
    requires known { IsKnown view.now.parts.now mets.old known.old }
    requires flags { length view.now.tables.now.changed.items ≡ length view.now.parts.now.starts.items }
    requires noted { (site : ℕ) → IsStill view.now.tables.now site → IsNotedAt view.now known.old site }
    requires met { (m : AMet) → m.store < length view.now.parts.now.stores.items → IsStill view.now.tables.now m.object → IsStill view.now.tables.now m.base
        → IsCandidateAt view.now m → Has (numbers_of mets.old) m }
    ensures known { OnOk result (IsKnown view.now.parts.now mets.new known.new) }
    ensures noted { OnOk result ((site : ℕ) → IsNotedAt view.now known.new site) }
    ensures closed { OnOk result ((m : AMet) → m.store < length view.now.parts.now.stores.items → IsCandidateAt view.now m → Has (numbers_of mets.new) m) }
    ensures grown { OnOk result (IsGrownAt view.now mets.old mets.new) }
{
    note_all(alloc, view, known, mets)?;
    let waiting = known.waiting(alloc, &view.tables.changed)?;
    try_mets(alloc, view, &waiting, mets)?;
    known.drop_met(alloc, mets)?;
    Ok(())
}
