//! The solver.
ghost use Rattle.std.specs.Prelude.{◌≡◌, ◌<◌, ◌≤◌, ◌⊎◌, ◌↔◌, ◌++◌, ◌*◌, All, ℕ, List, Ok, false, true, length, take, map, slice_get, Some, IfOk, OnOk, [], IsTrue};
ghost use Rattle.std.specs.Thread.{IsSync};
ghost use Rattle.demand_set.specs.Demands.{IsDemandOf};
ghost use Rattle.lists.specs.Lists.{Has, IsApart};
ghost use Rattle.link_rules.specs.WellLinked.{IsWellLinked};
ghost use Rattle.spds_rules.specs.Demand.{Asked};
ghost use Rattle.spds_solve.specs.declared.arrivals.Arrival.{Arrival as AnArrival};
ghost use Rattle.spds_solve.specs.Ends.{AreEnds};
ghost use Rattle.spds_solve.specs.Looks.{AreLooked};
ghost use Rattle.spds_solve.specs.Mets.{numbers_of};
ghost use Rattle.spds_solve.specs.Searches.{AreCompleted, AreFoundBy, AreTaken, CompletesTables, IsComplete, IsStill, MayCompleteAll, TakesTables};
ghost use Rattle.spds_solve.specs.Solved.{IsSolved};
ghost use Rattle.spds_solve.specs.declared.met.Met.{Met as AMet};
ghost use Rattle.spds_tables.specs.declared.tables.SiteTables.{SiteTables as ATables};
ghost use Rattle.spds_tables.specs.Parts.{AreLedIn, IsInParts};
ghost use Rattle.spds_tables.specs.Tables.{ArrivesAt};

use super::arrivals::{Arrival, Arrivals};
use super::compose::{Ways, compose};
use super::ends::Ends;
use super::known::Known;
use super::looks::look;
use super::mets::Mets;
use super::refresh::{Tables, complete_here, complete_in_pieces};
use super::scan::View;
use super::solved::Solved;
use demand_set::Demand;
use link_program::Linked;
use link_sites::Site;
use lists::NoMemory;
use piece_join::{Gate, Open};
use spds_tables::{Parts, SiteTables, Size, count_of};
use std::alloc::Global;
use std::marker::Sync;
use std::thread::Threads;

/// What stays as it is from turn to turn.
#[derive(Clone, Copy)]
struct Given<'a> {
    alloc: Global,
    linked: &'a Linked,
    sites: &'a [Site],
    parts: &'a Parts,
    ends: &'a Ends,
}

/// Brings the tables to the end for all meets but those taken before, and looks for further meets; `false` says that there are none.
fn turn<F: Fn(&Parts, &[bool], &mut [SiteTables]) -> Result<(), NoMemory>>(
    complete: &F,
    given: &Given<'_>,
    tables: &mut Tables,
    known: &mut Known,
    mets: &mut Mets,
    taken: usize,
) -> Result<bool, NoMemory>
    requires takes { TakesTables (F.pre complete.now) }
    requires gives { CompletesTables (F.post complete.now) }
    requires led { AreLedIn given.now.parts.now }
    requires mets { All (IsInParts given.now.parts.now) (numbers_of mets.old) }
    requires taken { taken ≤ length mets.old }
    requires sites { length given.now.sites.now ≡ length given.now.parts.now.starts.items }
    requires ends { AreEnds given.now.parts.now given.now.ends.now }
    requires found { AreFoundBy given.now.linked.now given.now.sites.now given.now.parts.now mets.old }
    requires looked { AreLooked given.now.linked.now given.now.sites.now given.now.parts.now (take taken (numbers_of mets.old)) mets.old tables.old known.old }
    ensures mets { OnOk result (All (IsInParts given.now.parts.now) (numbers_of mets.new)) }
    ensures apart { OnOk result (IsApart (numbers_of mets.new)) }
    ensures behind { OnOk result ((behind : List AMet) × (mets.new ≡ mets.old ++ behind)) }
    ensures found { OnOk result (AreFoundBy given.now.linked.now given.now.sites.now given.now.parts.now mets.new) }
    ensures looked { OnOk result (AreLooked given.now.linked.now given.now.sites.now given.now.parts.now (numbers_of mets.old) mets.new tables.new known.new) }
    ensures more { result ≡ Ok true → length mets.old < length mets.new }
    ensures done { result ≡ Ok false → IsComplete given.now.linked.now given.now.sites.now given.now.parts.now tables.new.each.items mets.new }
{
    let before = mets.as_slice().len();
    tables.bring(complete, given.parts, taken, mets.numbers())?;
    let view = View {
        linked: given.linked,
        sites: given.sites,
        parts: given.parts,
        ends: given.ends,
        tables: &*tables,
    };
    look(given.alloc, &view, known, mets)?;
    tables.rest();
    Ok(mets.as_slice().len() > before)
}

/// Goes on in turns until no further meet is found. Before each turn what the meets give by themselves is put in.
fn search<F: Fn(&Parts, &[bool], &mut [SiteTables]) -> Result<(), NoMemory>>(
    complete: &F,
    given: &Given<'_>,
    tables: &mut Tables,
    mets: &mut Mets,
) -> Result<(), NoMemory>
    requires takes { TakesTables (F.pre complete.now) }
    requires gives { CompletesTables (F.post complete.now) }
    requires led { AreLedIn given.now.parts.now }
    requires sites { length given.now.sites.now ≡ length given.now.parts.now.starts.items }
    requires ends { AreEnds given.now.parts.now given.now.ends.now }
    requires taken { AreTaken given.now.parts.now [] tables.old }
    requires changed { (site : ℕ) → IsStill tables.old site → ⊥ }
    requires none { mets.old ≡ [] }
    ensures complete { OnOk result (IsComplete given.now.linked.now given.now.sites.now given.now.parts.now tables.new.each.items mets.new) }
    ensures apart { OnOk result (IsApart (numbers_of mets.new)) }
{
    let alloc = given.alloc;
    let mut known = Known::new(alloc);
    let mut ways = Ways::new(alloc);
    let mut taken = 0;
    let mut goes_on = true;
    while goes_on {
        compose(alloc, &mut ways, mets)?;
        let before = mets.as_slice().len();
        goes_on = turn(complete, given, tables, &mut known, mets, taken)?;
        taken = before;
    }
    Ok(())
}

/// Puts in the cells at which some call string of an object of the site is.
fn add_arrivals(
    alloc: Global,
    tables: &SiteTables,
    site: u32,
    arrivals: &mut Arrivals,
) -> Result<(), NoMemory>
    requires { tables.now.calls.settled ≡ true }
    ensures { OnOk result ((a : AnArrival) → Has arrivals.new a ↔ (Has arrivals.old a ⊎ ((a.site ≡ site) × ArrivesAt tables.now.calls a.cell))) }
{
    let arrived = tables.arrivals(alloc)?;
    let cells = arrived.as_slice();
    for cell in cells {
        arrivals.add(Arrival { site, cell: *cell })?;
    }
    Ok(())
}

/// Puts in those of all sites.
fn all_arrivals(
    alloc: Global,
    tables: &[SiteTables],
    arrivals: &mut Arrivals,
) -> Result<(), NoMemory>
    requires calls { (t : ATables) → Has tables.now t → t.calls.settled ≡ true }
    requires none { arrivals.old ≡ [] }
    ensures { OnOk result ((a : AnArrival) → Has arrivals.new a ↔ ((t : ATables) × (slice_get tables.now a.site ≡ Some t) × ArrivesAt t.calls a.cell)) }
{
    let count = count_of(tables.len())?;
    for site in 0..count {
        add_arrivals(alloc, &tables[site as usize], site, arrivals)?;
    }
    Ok(())
}

/// How much the tables of all sites hold.
fn whole_size(tables: &[SiteTables]) -> Size
    requires { (t : ATables) → Has tables.now t → (t.fields.settled ≡ true) × (t.fields.last ≡ 0) × (t.calls.settled ≡ true) }
{
    let mut size = Size::none();
    for site in tables {
        size = size.plus(site.size());
    }
    size
}

// The meets of the demand and the two systems of its sites, exactly, where the tables that changed in a turn are brought to the end by the call that is
// given.
fn solve_by<F: Fn(&Parts, &[bool], &mut [SiteTables]) -> Result<(), NoMemory>>(
    complete: &F,
    alloc: Global,
    linked: &Linked,
    demand: &Demand,
) -> Result<Solved, NoMemory>
    requires takes { TakesTables (F.pre complete.now) }
    requires gives { CompletesTables (F.post complete.now) }
    requires well { IsWellLinked linked.now }
    requires demanded { (q : Asked) × IsDemandOf linked.now q demand.now }
    ensures { IfOk result (λ solved. (q : Asked) → IsDemandOf linked.now q demand.now → IsSolved linked.now q demand.now solved) }
{
    let parts = Parts::new(alloc, linked, demand)?;
    let ends = Ends::of(alloc, &parts)?;
    let given = Given {
        alloc,
        linked,
        sites: demand.sites(),
        parts: &parts,
        ends: &ends,
    };
    let mut tables = Tables::new(alloc, &parts, count_of(parts.starts.len())?)?;
    let mut mets = Mets::new(alloc);
    search(complete, &given, &mut tables, &mut mets)?;
    let Tables { each: tables, .. } = tables;
    let mut arrivals = Arrivals::new(alloc);
    all_arrivals(alloc, &tables, &mut arrivals)?;
    let size = whole_size(&tables);
    Ok(Solved::of(parts, tables, mets, arrivals, size))
}

/// The meets of the demand and the two systems of its sites, exactly, in the caller's thread. Want of memory is the only refusal.
pub fn solve_here(alloc: Global, linked: &Linked, demand: &Demand) -> Result<Solved, NoMemory>
    requires well { IsWellLinked linked.now }
    requires demanded { (q : Asked) × IsDemandOf linked.now q demand.now }
    ensures { IfOk result (λ solved. (q : Asked) → IsDemandOf linked.now q demand.now → IsSolved linked.now q demand.now solved) }
{
    let complete = |parts: &Parts, changed: &[bool], tables: &mut [SiteTables]| -> Result<
        (),
        NoMemory,
    >
        requires { MayCompleteAll parts.now changed.now tables.old }
        ensures { OnOk result (AreCompleted parts.now changed.now tables.old tables.new) }
    { complete_here(alloc, parts, changed, tables) };
    solve_by(&complete, alloc, linked, demand)
}

/// The same, with the answer of one thread. The tables of more than 16 sites are brought to the end in pieces side by side, in each turn, and the gate is
/// told of each piece as it begins.
pub fn solve_with<R: Threads + Sync, G: Gate>(
    threads: &R,
    alloc: Global,
    linked: &Linked,
    demand: &Demand,
    gate: &G,
) -> Result<Solved, NoMemory>
    requires well { IsWellLinked linked.now }
    requires demanded { (q : Asked) × IsDemandOf linked.now q demand.now }
    ensures { IfOk result (λ solved. (q : Asked) → IsDemandOf linked.now q demand.now → IsSolved linked.now q demand.now solved) }
{
    let complete = |parts: &Parts, changed: &[bool], tables: &mut [SiteTables]| -> Result<
        (),
        NoMemory,
    >
        requires { IsSync R.row × IsSync G.row × MayCompleteAll parts.now changed.now tables.old }
        ensures { OnOk result (AreCompleted parts.now changed.now tables.old tables.new) }
    { complete_in_pieces(threads, gate, alloc, parts, changed, tables) };
    solve_by(&complete, alloc, linked, demand)
}

/// The same with no gate.
pub fn solve<R: Threads + Sync>(
    threads: &R,
    alloc: Global,
    linked: &Linked,
    demand: &Demand,
) -> Result<Solved, NoMemory>
    requires well { IsWellLinked linked.now }
    requires demanded { (q : Asked) × IsDemandOf linked.now q demand.now }
    ensures { IfOk result (λ solved. (q : Asked) → IsDemandOf linked.now q demand.now → IsSolved linked.now q demand.now solved) }
{
    solve_with(threads, alloc, linked, demand, &Open)
}
