//! The trace.
ghost use Rattle.std.specs.Prelude.{◌≡◌, [], All, length, map, take, IfOk, OnOk};
ghost use Rattle.lists.specs.Lists.{IsApart};
ghost use Rattle.link_sites.specs.declared.site.Site.{Site as AnySite};
ghost use Rattle.spds_rules.specs.declared.node.Node.{Node as AnyNode};
ghost use Rattle.spds_rules.specs.declared.store.StoreAt.{StoreAt as AnyStore};
ghost use Rattle.spds_rules.specs.Systems.{Meets};
ghost use Rattle.demand_set.specs.Demands.{IsDemandOf};
ghost use Rattle.cert_rules.specs.declared.fact.Fact.TheVariants.{Met as IsMet};
ghost use Rattle.cert_rules.specs.Certified.{AreGiven};
ghost use Rattle.spds_rules.specs.Demand.{about};
ghost use Rattle.cert_rules.specs.Lengths.{lengths_of};
ghost use Rattle.cert_rules.specs.Spelled.{FitsLine};
ghost use Rattle.cert_lines.specs.Noted.{IsThere};
ghost use Rattle.cert_rules.specs.Told.{as_told};
ghost use Rattle.cert_work.specs.Roads.{AreAddedIn, IsView, StartOf};
ghost use Rattle.cert_work.specs.Wants.{AreWants, IsWanted};
ghost use Rattle.cert_work.specs.Work.{AreEndsFiled, IsWorkOf};
ghost use Rattle.cert_trace.specs.Closed.{AreClosed};
ghost use Rattle.cert_trace.specs.Meeting.{IsJustified};
ghost use Rattle.cert_trace.specs.Readings.{AreAllFiled};
ghost use Rattle.spds_solve.specs.Solved.{AreMeets, IsSolved, StandsForMeet};
ghost use Rattle.cert_trace.specs.Resting.{AreWanted, IsNext, IsTraced, no_lines};

use super::fitting::all_fit;
use super::meeting::{Meeting, meet};
use cert_work::{View, Work, nothing, start_all, work_off};
use demand_set::Demand;
use lists::NoMemory;
use spds_solve::{Met, Solved};
use std::alloc::Global;

// What starts, and all that comes of it without a meet.
fn begin(alloc: Global, view: &View<'_>, demand: &Demand) -> Result<Work, NoMemory>
    requires view { IsView view.now }
    requires demand { IsDemandOf view.now.linked.now (about view.now.target) demand.now }
    requires wanted { AreWanted view.now }
    ensures traced { IfOk result (IsTraced view.now demand.now []) }
    ensures added { IfOk result (λ k. AreAddedIn view.now no_lines k.written) }
{
    let mut work = nothing(alloc, view);
    start_all(view, &mut work.written, demand.nodes())?;
    work_off(view, &mut work)?;
    Ok(work)
}

// The lines for a meet, and all that comes of it.
fn follow_wanted(
    alloc: Global,
    view: &View<'_>,
    work: &mut Work,
    meeting: &Meeting<'_>,
) -> Result<(), NoMemory>
    requires view { IsView view.now }
    requires work { IsWorkOf view.now work.old }
    requires all { work.old.done ≡ length work.old.written.given }
    requires justified { IsJustified view.now work.old.written meeting.now }
    ensures added { OnOk result (AreAddedIn view.now work.old.written work.new.written) }
    ensures work { OnOk result (IsWorkOf view.now work.new) }
    ensures all { OnOk result (work.new.done ≡ length work.new.written.given) }
    ensures there { OnOk result (IsThere work.new.written (IsMet meeting.now.object meeting.now.base meeting.now.store) 0) }
{
    meet(alloc, view, work, meeting)?;
    work_off(view, work)?;
    Ok(())
}

// Those for the next meet, if objects are followed where it leads.
fn follow(
    alloc: Global,
    view: &View<'_>,
    demand: &Demand,
    work: &mut Work,
    met: &Met,
) -> Result<(), NoMemory>
    requires view { IsView view.now }
    requires wanted { AreWanted view.now }
    requires next { IsNext view.now demand.now work.old met.now }
    requires meets { (o base : AnySite) (s : AnyStore) → StandsForMeet demand.now met.now o base s → Meets view.now.linked.now (about view.now.target) o base s }
    ensures added { OnOk result (AreAddedIn view.now work.old.written work.new.written) }
    ensures work { OnOk result (IsWorkOf view.now work.new) }
    ensures all { OnOk result (work.new.done ≡ length work.new.written.given) }
    ensures there { OnOk result ((o base : AnySite) (s : AnyStore) (n : AnyNode) → StandsForMeet demand.now met.now o base s → StartOf view.now base n
        → IsWanted view.now.wants.now o n → IsThere work.new.written (IsMet o base s) 0) }
{
    let meeting = Meeting {
        object: demand.sites()[met.object as usize],
        base: demand.sites()[met.base as usize],
        store: demand.stores()[met.store as usize],
        string: met.string.as_slice(),
    };
    if view.is_wanted_in(meeting.object, meeting.base) {
        follow_wanted(alloc, view, work, &meeting)?;
        return Ok(());
    }
    Ok(())
}

// Those for all meets, one after another.
fn follow_all(
    alloc: Global,
    view: &View<'_>,
    demand: &Demand,
    work: &mut Work,
    mets: &[Met],
) -> Result<(), NoMemory>
    requires view { IsView view.now }
    requires wanted { AreWanted view.now }
    requires traced { IsTraced view.now demand.now [] work.old }
    requires mets { AreMeets view.now.linked.now (about view.now.target) demand.now mets.now }
    ensures added { OnOk result (AreAddedIn view.now work.old.written work.new.written) }
    ensures traced { OnOk result (IsTraced view.now demand.now mets.now work.new) }
{
    for met in mets {
        follow(alloc, view, demand, work, met)?;
    }
    Ok(())
}

/// Lines that give each fact of both systems of a solved demand, over all its meets, as far as objects are followed: of each fact one that is no longer
/// than any derivation. All are gone through. No two are the same, and each can be spelled. Costs time and memory for each fact.
pub(crate) fn trace_of(
    alloc: Global,
    view: &View<'_>,
    demand: &Demand,
    solved: &Solved,
) -> Result<Work, NoMemory>
    requires view { IsView view.now }
    requires demand { IsDemandOf view.now.linked.now (about view.now.target) demand.now }
    requires solved { IsSolved view.now.linked.now (about view.now.target) demand.now solved.now }
    requires wanted { AreWants view.now.linked.now view.now.target view.now.wants.now (Meets view.now.linked.now (about view.now.target)) }
    ensures given { IfOk result (λ k. AreGiven view.now.linked.now view.now.target k.written.lines k.written.given) }
    ensures told { IfOk result (λ k. k.written.lengths ≡ map as_told (lengths_of k.written.lines)) }
    ensures apart { IfOk result (λ k. IsApart k.written.lines) }
    ensures fits { IfOk result (λ k. All FitsLine k.written.lines) }
    ensures closed { IfOk result (λ k. AreClosed view.now.linked.now view.now.target k.written (Meets view.now.linked.now (about view.now.target))) }
    ensures filed { IfOk result (λ k. AreAllFiled k) }
    ensures ends { IfOk result (λ k. AreEndsFiled view.now.linked.now view.now.target k) }
{
    let mut work = begin(alloc, view, demand)?;
    follow_all(alloc, view, demand, &mut work, solved.meets())?;
    all_fit(work.written.lines());
    Ok(work)
}
