//! The verdict on a program.
ghost use Rattle.std.specs.Prelude.{◌≡◌, ◌≢◌, ◌≤◌, ◌<◌, ◌^◌, ℕ, [], All, Err, length, map, IfOk, IsErr};
ghost use Rattle.demand_set.specs.Demands.{IsDemandOf};
ghost use Rattle.link_rules.specs.WellLinked.{IsWellLinked};
ghost use Rattle.run_covers.specs.Covers.{IsCovered};
ghost use Rattle.spds_solve.specs.Solved.{IsSolved};
ghost use Rattle.site_events.specs.EventStatements.{AreEventStatements};
ghost use Rattle.track_runs.specs.Monitor.{IsSafe};
ghost use Rattle.track_systems.specs.Findings.{AreFindings};
ghost use Rattle.track_verdicts.specs.Found.{found_of};
ghost use Rattle.track_verdicts.specs.Verdicts.{IsBeyond, IsTellable, IsVerdict, IsWithin};
ghost use Rattle.type_track.specs.Receivers.{asked_for};
ghost use Rattle.type_track.specs.Searches.{IsGiven};

use super::receivers::{nodes_of, receivers_in};
use super::search::{Search, find_all};
use demand_set::{Demand, DemandError, Reach};
use jim_ast::List;
use link_program::Linked;
use lists::NoMemory;
use program_demand::demand;
use protocol_words::Protocol;
use query_core::Hands;
use site_events::{EventStatement, event_statements, events_of, receivers};
use spds_solve::{Gate, Solved};
use std::marker::Sync;
use std::thread::Threads;
use track_tables::{SolvedDemand, TrackParts, held_in};
use track_verdicts::{Finding, Verdict};

/// The findings over a solved demand of the receivers of all event statements.
fn findings_in<R: Threads + Sync, G: Gate>(
    hands: &Hands<'_, R, G>,
    protocol: &Protocol,
    statements: &[EventStatement],
    given: &SolvedDemand<'_>,
    solved: &Solved,
) -> Result<Vec<Finding>, NoMemory>
    requires given { IsGiven protocol.now (asked_for statements.now) given.now }
    requires statements { AreEventStatements given.now.linked.now protocol.now statements.now }
    requires solved { IsSolved given.now.linked.now (asked_for statements.now) given.now.demand.now solved.now }
    ensures { IfOk result (λ findings. AreFindings given.now.linked.now protocol.now (asked_for statements.now) (map found_of findings.items)) }
{
    let events = events_of(hands.alloc, given.linked, protocol, statements)?;
    let receivers = receivers_in(hands.alloc, statements, given.demand)?;
    let nodes = nodes_of(hands.alloc, &receivers)?;
    let held = held_in(hands.alloc, solved, &nodes)?;
    let search = Search {
        protocol,
        given: *given,
        events: &events,
        receivers: &receivers,
        held: &held,
    };
    find_all(hands, &search)
}

/// The same over what was solved.
fn findings_by<R: Threads + Sync, G: Gate>(
    hands: &Hands<'_, R, G>,
    linked: &Linked,
    protocol: &Protocol,
    statements: &[EventStatement],
    demand: &Demand,
    solved: &Solved,
) -> Result<Vec<Finding>, NoMemory>
    requires well { IsWellLinked linked.now }
    requires class { protocol.now.class < length linked.now.classes }
    requires statements { AreEventStatements linked.now protocol.now statements.now }
    requires demand { IsDemandOf linked.now (asked_for statements.now) demand.now }
    requires few { length demand.now.sites < 2 ^ 32 }
    requires solved { IsSolved linked.now (asked_for statements.now) demand.now solved.now }
    ensures { IfOk result (λ findings. AreFindings linked.now protocol.now (asked_for statements.now) (map found_of findings.items)) }
{
    let parts = TrackParts::new(hands.alloc, linked, demand)?;
    let loaded = held_in(hands.alloc, solved, parts.loaded())?;
    let given = SolvedDemand {
        linked,
        demand,
        parts: &parts,
        loaded: &loaded,
    };
    findings_in(hands, protocol, statements, &given, solved)
}

/// The same over a demand that isn't solved yet.
fn findings_over<R: Threads + Sync, G: Gate>(
    hands: &Hands<'_, R, G>,
    linked: &Linked,
    protocol: &Protocol,
    statements: &[EventStatement],
    demand: &Demand,
) -> Result<Vec<Finding>, NoMemory>
    requires well { IsWellLinked linked.now }
    requires class { protocol.now.class < length linked.now.classes }
    requires statements { AreEventStatements linked.now protocol.now statements.now }
    requires demand { IsDemandOf linked.now (asked_for statements.now) demand.now }
    requires few { length demand.now.sites < 2 ^ 32 }
    ensures { IfOk result (λ findings. AreFindings linked.now protocol.now (asked_for statements.now) (map found_of findings.items)) }
{
    let solved = hands.solve(linked, demand)?;
    findings_by(hands, linked, protocol, statements, demand, &solved)
}

/// The verdict over this demand.
fn verdict_over<R: Threads + Sync, G: Gate>(
    hands: &Hands<'_, R, G>,
    linked: &Linked,
    protocol: &Protocol,
    statements: &[EventStatement],
    demand: &Demand,
) -> Result<Verdict, NoMemory>
    requires well { IsWellLinked linked.now }
    requires class { protocol.now.class < length linked.now.classes }
    requires statements { AreEventStatements linked.now protocol.now statements.now }
    requires demand { IsDemandOf linked.now (asked_for statements.now) demand.now }
    requires few { length demand.now.nodes < 2 ^ 32 }
    ensures verdict { IfOk result (IsVerdict linked.now protocol.now) }
    ensures size { IfOk result (λ v. v.demanded ≡ length demand.now.nodes) }
{
    let findings = findings_over(hands, linked, protocol, statements, demand)?;
    let demanded = demand.nodes().len() as u32;
    Ok(Verdict {
        findings: List::from_vec(findings),
        demanded,
    })
}

/// The verdict on a program under a protocol: each event that may come in a state in which no row allows it, by site, place and state, and the size of
/// the demand of the receivers of all event statements. Sites are settled and searched in pieces side by side, and the gate of the hands is told of each as
/// it begins.
///
/// The error is `OverBudget` exactly where more nodes are demanded than `budget`, and else `NoMemory`. Where the targets of calls cover what runs do and
/// there is no finding, no run, of any length, breaks the protocol.
pub fn track<R: Threads + Sync, G: Gate>(
    hands: &Hands<'_, R, G>,
    linked: &Linked,
    protocol: &Protocol,
    budget: u32,
) -> Result<Verdict, DemandError>
    requires well { IsWellLinked linked.now }
    requires class { protocol.now.class < length linked.now.classes }
    ensures verdict { IfOk result (IsVerdict linked.now protocol.now) }
    ensures tellable { IfOk result (λ v. All (IsTellable linked.now protocol.now) v.findings) }
    ensures within { IfOk result (λ v. v.demanded ≤ budget) }
    ensures over { (spent : ℕ) → result ≡ Err (DemandError.OverBudget spent) → (spent ≡ budget) × IsBeyond linked.now protocol.now budget }
    ensures beyond { IsBeyond linked.now protocol.now budget → IsErr result }
    ensures enough { (spent : ℕ) → IsWithin linked.now protocol.now budget → result ≢ Err (DemandError.OverBudget spent) }
    ensures safe { IsCovered linked.now → IfOk result (λ v. v.findings ≡ [] → IsSafe linked.now protocol.now) }
{
    protocol.tell_form();
    let statements = event_statements(hands.alloc, linked, protocol)?;
    let nodes = receivers(hands.alloc, &statements)?;
    match demand(hands.alloc, linked, &nodes, Reach::Tracked, budget) {
        Ok(demand) => Ok(verdict_over(hands, linked, protocol, &statements, &demand)?),
        Err(error) => Err(error),
    }
}
