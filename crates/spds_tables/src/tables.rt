//! The tables of one site.
ghost use Rattle.std.specs.Prelude.{◌⊎◌, ◌≡◌, ◌<◌, ◌≤◌, ◌↔◌, ℕ, All, List, [], true, take, length, IfNone, IfOk, IfSome, IsTrue, Ok, OnOk, false, ◌++◌, ◌∷◌};
ghost use Rattle.lists.specs.Lists.{Has};
ghost use Rattle.spds_tables.specs.declared.numbered.Met.{Met as AMet};
ghost use Rattle.spds_tables.specs.declared.numbered.StartAt.{StartAt as AStart};
ghost use Rattle.spds_tables.specs.Parts.{AreLedIn, IsInParts, candidates};
ghost use Rattle.spds_tables.specs.Systems.{Reaches};
ghost use Rattle.spds_tables.specs.Tables.{AreArrivals, AreBuilt, AreBuiltWithin, AreOpenFor, AreSettled, ArrivesAt, IsCallJob, Opens, settled_tables};

use super::asking::asked;
use super::begun::Begun;
use super::numbered::{Met, StartAt};
use super::parts::Parts;
use super::size::Size;
use super::works::{add_field_starts, add_pushes, begin_all};
use auto_table::Entry;
use call_side::{CallBases, CallWork, shared_by_works};
use indexmap::IndexSet;
use lists::NoMemory;
use post_star::Work;
use std::alloc::Global;
use weight_laws::Reach;

/// The two systems of a site with their tables, over meets that grow.
#[derive(Drop)]
pub struct SiteTables {
    pub fields: Work<Reach>,
    pub calls: CallWork,
    /// The start nodes of the call system.
    pub begun: Begun,
    /// The meets of which the site is the object.
    pub mets: Vec<Met>,
    /// Whether the tables have come to the end, with no start node missing.
    pub done: bool,
}

/// No start.
fn blank(alloc: Global, parts: &Parts) -> Result<SiteTables, NoMemory>
    ensures fields { IfOk result (λ t. t.fields ≡ record { steps = parts.now.fields.value.steps; last = parts.now.fields.value.last; rules = parts.now.fields.value.rules; starts = []; settled = true }) }
    ensures calls { IfOk result (λ t. t.calls ≡ record { steps = parts.now.calls.value.steps; last = parts.now.calls.value.last; rules = parts.now.calls.value.rules; starts = []; settled = true }) }
    ensures begun { IfOk result (λ t. t.begun ≡ []) }
    ensures mets { IfOk result (λ t. t.mets.items ≡ []) }
    ensures done { IfOk result (λ t. t.done ≡ false) }
{
    Ok(SiteTables {
        fields: Work::new(alloc, parts.fields.clone()?),
        calls: CallWork::new(alloc, parts.calls.clone()?)?,
        begun: Begun::new(alloc),
        mets: Vec::new(alloc),
        done: false,
    })
}

/// Puts the starts of the site into blank tables.
fn fill(tables: &mut SiteTables, parts: &Parts, site: u32) -> Result<(), NoMemory>
    requires led { AreLedIn parts.now }
    requires site { site < length parts.now.starts.items }
    requires fields { tables.old.fields ≡ record { steps = parts.now.fields.value.steps; last = parts.now.fields.value.last; rules = parts.now.fields.value.rules; starts = []; settled = true } }
    requires calls { tables.old.calls ≡ record { steps = parts.now.calls.value.steps; last = parts.now.calls.value.last; rules = parts.now.calls.value.rules; starts = []; settled = true } }
    requires begun { tables.old.begun ≡ [] }
    requires mets { tables.old.mets.items ≡ [] }
    requires done { tables.old.done ≡ false }
    ensures { OnOk result (AreBuilt parts.now site [] tables.new) }
{
    let starts = parts.starts_of(site);
    add_field_starts(&mut tables.fields, &parts.field_cells, starts)?;
    begin_all(
        &mut tables.calls,
        &mut tables.begun,
        &parts.call_cells,
        starts,
    )?;
    Ok(())
}

/// The marks of a call string that both tables give at these cells, the innermost call first; `None` where there is none.
pub fn shared_word(
    alloc: Global,
    bases: &CallBases,
    first: &SiteTables,
    a: u32,
    second: &SiteTables,
    b: u32,
) -> Result<Option<Vec<u32>>, NoMemory>
    requires first { first.now.calls.settled ≡ true }
    requires second { second.now.calls.settled ≡ true }
    requires first_steps { first.now.calls.steps ≡ bases.now.steps }
    requires second_steps { second.now.calls.steps ≡ bases.now.steps }
    requires first_last { first.now.calls.last ≡ bases.now.last }
    requires second_last { second.now.calls.last ≡ bases.now.last }
    ensures first { IfOk result (λ r. IfSome r (λ word. Reaches first.now.calls a word.items)) }
    ensures second { IfOk result (λ r. IfSome r (λ word. Reaches second.now.calls b word.items)) }
    ensures none { IfOk result (λ r. IfNone r ((word : List ℕ) → Reaches first.now.calls a word → Reaches second.now.calls b word → ⊥)) }
{
    shared_by_works(alloc, bases, &first.calls, a, &second.calls, b)
}

/// Whether both tables give one call string at these cells.
pub fn share(
    alloc: Global,
    bases: &CallBases,
    first: &SiteTables,
    a: u32,
    second: &SiteTables,
    b: u32,
) -> Result<bool, NoMemory>
    requires first { first.now.calls.settled ≡ true }
    requires second { second.now.calls.settled ≡ true }
    requires first_steps { first.now.calls.steps ≡ bases.now.steps }
    requires second_steps { second.now.calls.steps ≡ bases.now.steps }
    requires first_last { first.now.calls.last ≡ bases.now.last }
    requires second_last { second.now.calls.last ≡ bases.now.last }
    ensures { IfOk result (λ yes. IsTrue yes ↔ ((word : List ℕ) × Reaches first.now.calls a word × Reaches second.now.calls b word)) }
{
    let shared = shared_word(alloc, bases, first, a, second, b)?;
    Ok(shared.is_some())
}

impl SiteTables {
    /// The tables of a site without meets. They aren't settled.
    pub fn new(alloc: Global, parts: &Parts, site: u32) -> Result<Self, NoMemory>
        requires led { AreLedIn parts.now }
        requires site { site < length parts.now.starts.items }
        ensures { IfOk result (λ t. AreBuilt parts.now site [] t) }
    {
        let mut tables = blank(alloc, parts)?;
        fill(&mut tables, parts, site)?;
        Ok(tables)
    }

    /// Brings both tables to the end.
    fn settle(&mut self) -> Result<(), NoMemory>
        ensures { OnOk result (self.new ≡ settled_tables self.old) }
    {
        self.fields.settle()?;
        self.calls.settle()?;
        Ok(())
    }

    /// Begins at further start nodes.
    fn open(&mut self, parts: &Parts, starts: &[StartAt]) -> Result<(), NoMemory>
        requires led { AreLedIn parts.now }
        requires among { (s : AStart) → Has starts.now s → Has (candidates parts.now) s }
        requires job { IsCallJob parts.now self.old.begun self.old.calls }
        ensures built { OnOk result ((site : ℕ) (mets all : List AMet) → AreBuiltWithin parts.now site mets all self.old
            → ((s : AStart) → Has starts.now s → Opens parts.now site all s) → AreBuiltWithin parts.now site mets all self.new) }
        ensures begun { OnOk result ((s : AStart) → Has starts.now s → Has self.new.begun s) }
        ensures behind { OnOk result ((behind : List AStart) × (self.new.begun ≡ self.old.begun ++ behind)) }
        ensures job { OnOk result (IsCallJob parts.now self.new.begun self.new.calls) }
        ensures undone { OnOk result (self.new.done ≡ false) }
    {
        self.done = false;
        begin_all(&mut self.calls, &mut self.begun, &parts.call_cells, starts)?;
        Ok(())
    }

    /// Takes a meet in. Its object comes to the store, so the call system begins at the start nodes of the base at once.
    fn take_in(&mut self, parts: &Parts, site: u32, met: Met) -> Result<(), NoMemory>
        requires led { AreLedIn parts.now }
        requires met { IsInParts parts.now met }
        requires job { IsCallJob parts.now self.old.begun self.old.calls }
        ensures built { OnOk result ((mets all : List AMet) → AreBuiltWithin parts.now site mets all self.old
            → AreOpenFor parts.now site (met ∷ []) all → AreBuiltWithin parts.now site (mets ++ met ∷ []) all self.new) }
        ensures job { OnOk result (IsCallJob parts.now self.new.begun self.new.calls) }
    {
        if met.object == site {
            let starts = parts.starts_of(met.base);
            self.open(parts, starts)?;
            self.mets.push(met)?;
            add_pushes(
                &mut self.fields,
                &parts.field_cells,
                parts.store_nodes(met.store),
                starts,
            )?;
        }
        Ok(())
    }

    /// Takes further meets in, all of whose objects come to their stores.
    pub fn catch_up(&mut self, parts: &Parts, site: u32, mets: &[Met]) -> Result<(), NoMemory>
        requires led { AreLedIn parts.now }
        requires mets { All (IsInParts parts.now) mets.now }
        requires job { IsCallJob parts.now self.old.begun self.old.calls }
        ensures { OnOk result ((first : List AMet) → AreBuilt parts.now site first self.old
            → AreOpenFor parts.now site mets.now (first ++ mets.now) → AreBuilt parts.now site (first ++ mets.now) self.new) }
    {
        for met in mets {
            self.take_in(parts, site, *met)?;
        }
        Ok(())
    }

    /// Settles, and begins at what is asked for; `false` says that nothing was.
    fn grow(&mut self, alloc: Global, parts: &Parts) -> Result<bool, NoMemory>
        requires led { AreLedIn parts.now }
        requires built { (site : ℕ) × (mets : List AMet) × AreBuilt parts.now site mets self.old }
        ensures built { OnOk result ((site : ℕ) (mets : List AMet) → AreBuilt parts.now site mets self.old → AreBuilt parts.now site mets self.new) }
        ensures more { result ≡ Ok true → length self.old.begun < length self.new.begun }
        ensures done { result ≡ Ok false → (site : ℕ) (mets : List AMet) → AreBuilt parts.now site mets self.old → AreSettled parts.now site mets self.new }
    {
        self.settle()?;
        let asked = asked(alloc, parts, self)?;
        if asked.is_empty() {
            return Ok(false);
        }
        self.open(parts, &asked)?;
        Ok(true)
    }

    /// Brings both tables to the end, and begins at what static fields come to, until nothing more is asked for.
    pub fn complete(&mut self, alloc: Global, parts: &Parts) -> Result<(), NoMemory>
        requires led { AreLedIn parts.now }
        requires built { (site : ℕ) × (mets : List AMet) × AreBuilt parts.now site mets self.old }
        ensures { OnOk result ((site : ℕ) (mets : List AMet) → AreBuilt parts.now site mets self.old → AreSettled parts.now site mets self.new) }
    {
        if self.done {
            return Ok(());
        }
        while self.grow(alloc, parts)? {}
        self.done = true;
        Ok(())
    }

    /// Whether the empty word is in the field system at the cell, by one look-up.
    pub fn has_fields(&self, node: u32) -> bool
        requires settled { self.now.fields.settled ≡ true }
        requires last { self.now.fields.last ≡ 0 }
        ensures { IsTrue result ↔ Reaches self.now.fields node [] }
    {
        self.fields.table().at(Entry::Base(0), node).0
    }

    /// How much both tables hold.
    pub fn size(&self) -> Size
        requires fields { self.now.fields.settled ≡ true }
        requires calls { self.now.calls.settled ≡ true }
    {
        Size::of(self.fields.table()).plus(Size::of(self.calls.saturated()))
    }

    /// The cells at which some call string is.
    pub fn arrivals(&self, alloc: Global) -> Result<IndexSet<u32>, NoMemory>
        requires { self.now.calls.settled ≡ true }
        ensures { IfOk result (λ nodes. AreArrivals self.now.calls nodes.keys) }
    {
        self.calls.arrivals(alloc)
    }
}
