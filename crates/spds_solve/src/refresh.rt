//! The tables of all sites, and which of them changed.
ghost use Rattle.std.specs.Prelude.{◌≡◌, ◌+◌, ◌<◌, ◌≤◌, ◌++◌, ◌∷◌, ℕ, All, List, Some, [], length, slice_get, take, IfOk, OnOk};
ghost use Rattle.spds_solve.specs.Searches.{AllBuilt, AllSettled, AreCompleted, AreStill, AreTaken, CompletesTables, IsStill, MayCompleteAll, TakesTables};
ghost use Rattle.spds_tables.specs.declared.numbered.Met.{Met as AMet};
ghost use Rattle.spds_tables.specs.Parts.{AreLedIn, IsInParts};
ghost use Rattle.spds_tables.specs.Tables.{AreOpenFor};

use lists::NoMemory;
use piece_join::{Bring, Gate, bring_all, bring_here};
use spds_tables::{Met, Parts, SiteTables, count_of};
use std::alloc::Global;
use std::marker::Sync;
use std::thread::Threads;

/// The tables of all sites.
#[derive(Drop)]
pub struct Tables {
    pub each: Vec<SiteTables>,
    /// Of each site whether its tables changed since they were looked at.
    pub changed: Vec<bool>,
}

/// Tables without meets, of so many sites.
fn all_tables(alloc: Global, parts: &Parts, count: u32) -> Result<Vec<SiteTables>, NoMemory>
    requires led { AreLedIn parts.now }
    requires count { count ≡ length parts.now.starts.items }
    ensures { IfOk result (λ tables. AllBuilt parts.now [] tables.items) }
{
    let mut all = Vec::new(alloc);
    for site in 0..count {
        all.push(SiteTables::new(alloc, parts, site)?)?;
    }
    Ok(all)
}

// What the tables of a site that changed are brought to the end with.
#[derive(Clone, Copy)]
struct Completing<'a> {
    alloc: Global,
    parts: &'a Parts,
    changed: &'a [bool],
}

impl Bring<SiteTables> for Completing<'_> {
    ghost use Rattle.spds_solve.specs.Searches.{IsCompleted, MayComplete};

    ghost may = { λ c site tables. MayComplete c.parts.now c.changed.now site tables };

    ghost ends = { λ c site old new. IsCompleted c.parts.now c.changed.now site old new };

    fn bring(&self, site: u32, tables: &mut SiteTables) -> Result<(), NoMemory> {
        if self.changed[site as usize] {
            tables.complete(self.alloc, self.parts)?;
        }
        Ok(())
    }
}

/// Brings the tables of all sites that changed to the end, one after the other in the caller's thread.
pub fn complete_here(
    alloc: Global,
    parts: &Parts,
    changed: &[bool],
    tables: &mut [SiteTables],
) -> Result<(), NoMemory>
    requires { MayCompleteAll parts.now changed.now tables.old }
    ensures { OnOk result (AreCompleted parts.now changed.now tables.old tables.new) }
{
    let completing = Completing {
        alloc,
        parts,
        changed,
    };
    bring_here(&completing, tables)?;
    Ok(())
}

/// The same in pieces, side by side. The gate is told of each as it begins.
pub fn complete_in_pieces<R: Threads + Sync, G: Gate>(
    threads: &R,
    gate: &G,
    alloc: Global,
    parts: &Parts,
    changed: &[bool],
    tables: &mut [SiteTables],
) -> Result<(), NoMemory>
    requires { MayCompleteAll parts.now changed.now tables.old }
    ensures { OnOk result (AreCompleted parts.now changed.now tables.old tables.new) }
{
    let completing = Completing {
        alloc,
        parts,
        changed,
    };
    bring_all(threads, gate, &completing, tables)?;
    Ok(())
}

// Brings the tables of all sites that changed to the end, by the call that is given.
fn complete_by<F: Fn(&Parts, &[bool], &mut [SiteTables]) -> Result<(), NoMemory>>(
    complete: &F,
    parts: &Parts,
    changed: &[bool],
    tables: &mut Vec<SiteTables>,
) -> Result<(), NoMemory>
    requires takes { TakesTables (F.pre complete.now) }
    requires gives { CompletesTables (F.post complete.now) }
    requires may { MayCompleteAll parts.now changed.now tables.old.items }
    ensures { OnOk result (AreCompleted parts.now changed.now tables.old.items tables.new.items) }
{
    complete(parts, changed, tables)?;
    Ok(())
}

impl Tables {
    /// The tables of so many sites, without meets. None was looked at.
    pub fn new(alloc: Global, parts: &Parts, count: u32) -> Result<Self, NoMemory>
        requires led { AreLedIn parts.now }
        requires count { count ≡ length parts.now.starts.items }
        ensures taken { IfOk result (λ tables. AreTaken parts.now [] tables) }
        ensures none { IfOk result (λ tables. (site : ℕ) → IsStill tables site → ⊥) }
    {
        let each = all_tables(alloc, parts, count)?;
        let changed = vec![in alloc; true; count as usize]?;
        Ok(Tables { each, changed })
    }

    /// Takes a meet in. It goes to the site of its object alone, since meets of other objects ask nothing of a site.
    fn take(&mut self, parts: &Parts, met: Met) -> Result<(), NoMemory>
        requires led { AreLedIn parts.now }
        requires met { IsInParts parts.now met }
        requires taken { (mets : List AMet) × AreTaken parts.now mets self.old }
        ensures still { OnOk result (AreStill self.old self.new) }
        ensures taken { OnOk result ((mets : List AMet) → AreTaken parts.now mets self.old
            → AreOpenFor parts.now met.object (met ∷ []) (mets ++ met ∷ []) → AreTaken parts.now (mets ++ met ∷ []) self.new) }
    {
        let site = met.object;
        self.changed[site as usize] = true;
        self.each[site as usize].catch_up(parts, site, &[met])?;
        Ok(())
    }

    /// Takes all meets in but those that were taken before.
    fn take_all(&mut self, parts: &Parts, taken: usize, mets: &[Met]) -> Result<(), NoMemory>
        requires led { AreLedIn parts.now }
        requires mets { All (IsInParts parts.now) mets.now }
        requires low { taken ≤ length mets.now }
        requires opens { (i : ℕ) (m : AMet) → slice_get mets.now i ≡ Some m → AreOpenFor parts.now m.object (m ∷ []) (take i mets.now ++ m ∷ []) }
        requires taken { AreTaken parts.now (take taken mets.now) self.old }
        ensures still { OnOk result (AreStill self.old self.new) }
        ensures taken { OnOk result (AreTaken parts.now mets.now self.new) }
    {
        for at in taken..mets.len() {
            self.take(parts, mets[at])?;
        }
        Ok(())
    }

    /// The same of the sites that changed since they were looked at.
    fn complete_all<F: Fn(&Parts, &[bool], &mut [SiteTables]) -> Result<(), NoMemory>>(
        &mut self,
        complete: &F,
        parts: &Parts,
    ) -> Result<(), NoMemory>
        requires takes { TakesTables (F.pre complete.now) }
        requires gives { CompletesTables (F.post complete.now) }
        requires led { AreLedIn parts.now }
        requires taken { (mets : List AMet) × AreTaken parts.now mets self.old }
        ensures still { OnOk result (AreStill self.old self.new) }
        ensures settled { OnOk result ((mets : List AMet) → AreTaken parts.now mets self.old → AreTaken parts.now mets self.new × AllSettled parts.now mets self.new.each.items) }
    {
        // Sites are numbered: more of them than there are numbers find no memory.
        count_of(self.each.len())?;
        complete_by(complete, parts, &self.changed, &mut self.each)?;
        Ok(())
    }

    /// Takes all meets in but those that were taken before, and brings the tables that changed to the end.
    pub fn bring<F: Fn(&Parts, &[bool], &mut [SiteTables]) -> Result<(), NoMemory>>(
        &mut self,
        complete: &F,
        parts: &Parts,
        taken: usize,
        mets: &[Met],
    ) -> Result<(), NoMemory>
        requires takes { TakesTables (F.pre complete.now) }
        requires gives { CompletesTables (F.post complete.now) }
        requires led { AreLedIn parts.now }
        requires mets { All (IsInParts parts.now) mets.now }
        requires low { taken ≤ length mets.now }
        requires opens { (i : ℕ) (m : AMet) → slice_get mets.now i ≡ Some m → AreOpenFor parts.now m.object (m ∷ []) (take i mets.now ++ m ∷ []) }
        requires taken { AreTaken parts.now (take taken mets.now) self.old }
        ensures still { OnOk result (AreStill self.old self.new) }
        ensures taken { OnOk result (AreTaken parts.now mets.now self.new) }
        ensures settled { OnOk result (AllSettled parts.now mets.now self.new.each.items) }
    {
        self.take_all(parts, taken, mets)?;
        self.complete_all(complete, parts)?;
        Ok(())
    }

    /// All sites were looked at.
    pub fn rest(&mut self)
        ensures each { self.new.each ≡ self.old.each }
        ensures count { length self.new.changed.items ≡ length self.old.changed.items }
        ensures still { (site : ℕ) → site < length self.old.changed.items → IsStill self.new site }
    {
        for site in 0..self.changed.len() {
            self.changed[site] = false;
        }
    }
}
