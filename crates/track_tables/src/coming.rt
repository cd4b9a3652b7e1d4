//! Back from calls, over the marks that are open alone: the time goes by these, and not by all calls of a method.
ghost use Rattle.std.specs.Prelude.{◌≡◌, ◌≤◌, ℕ, Some, length, slice_get, IsTrue, OnOk};
ghost use Rattle.lists.specs.Lists.{Has};
ghost use Rattle.link_sites.specs.declared.site.Site.{Site};
ghost use Rattle.site_events.specs.Sites.{AreEventsOf};
ghost use Rattle.spds_rules.specs.Demand.{Asked};
ghost use Rattle.track_rules.specs.Protocols.{ProtocolParts};
ghost use Rattle.track_tables.specs.declared.returns.Return.{Return as AReturn};
ghost use Rattle.track_tables.specs.Making.{AreOf, IsBackAmong, IsDue, IsGrown, IsPast, IsTaken};

use super::given::SolvedDemand;
use super::growth::{Due, Growth};
use super::returns::Return;
use super::rules::add_edge;
use lists::NoMemory;
use site_events::SiteEvents;

/// Puts the rule of the edge back from a call last, if it is due.
fn add_due(
    given: &SolvedDemand<'_>,
    events: &SiteEvents,
    back: Return,
    is_due: bool,
    growth: &mut Growth,
) -> Result<(), NoMemory>
    ensures grown { OnOk result (IsGrown growth.old growth.new) }
    ensures each { OnOk result ((k : ProtocolParts) (q : Asked) (a : Site) → AreEventsOf given.now.linked.now k q a events.now
        → AreOf given.now.linked.now k q a given.now.demand.now.nodes given.now.parts.now.calls (λ e. back.edge ≡ e) growth.old.work.rules growth.new.work.rules) }
    ensures taken { OnOk result ((k : ProtocolParts) (q : Asked) (a : Site) → AreEventsOf given.now.linked.now k q a events.now → IsTrue is_due
        → IsTaken given.now.linked.now k q a given.now.demand.now.nodes given.now.parts.now.calls back.edge growth.new.work.rules) }
{
    if is_due {
        add_edge(given, events, back.edge, growth)?;
    }
    Ok(())
}

/// Puts the rules of those edges back from calls last that are due.
fn add_back(
    given: &SolvedDemand<'_>,
    events: &SiteEvents,
    returns: &[Return],
    due: Due,
    growth: &mut Growth,
) -> Result<(), NoMemory>
    ensures grown { OnOk result (IsGrown growth.old growth.new) }
    ensures each { OnOk result ((k : ProtocolParts) (q : Asked) (a : Site) → AreEventsOf given.now.linked.now k q a events.now
        → AreOf given.now.linked.now k q a given.now.demand.now.nodes given.now.parts.now.calls (IsBackAmong returns.now) growth.old.work.rules growth.new.work.rules) }
    ensures taken { OnOk result ((k : ProtocolParts) (q : Asked) (a : Site) → AreEventsOf given.now.linked.now k q a events.now → (r : AReturn) → Has returns.now r
        → IsDue growth.old due r
        → IsTaken given.now.linked.now k q a given.now.demand.now.nodes given.now.parts.now.calls r.edge growth.new.work.rules) }
{
    for back in returns {
        let is_due = growth.has_due(due, *back);
        add_due(given, events, *back, is_due, growth)?;
    }
    Ok(())
}

/// Puts the rules of all edges from the node back from calls over open marks last, mark by mark.
fn add_by_mark(
    given: &SolvedDemand<'_>,
    events: &SiteEvents,
    node: u32,
    growth: &mut Growth,
) -> Result<(), NoMemory>
    ensures grown { OnOk result (IsGrown growth.old growth.new) }
    ensures each { OnOk result ((k : ProtocolParts) (q : Asked) (a : Site) → AreEventsOf given.now.linked.now k q a events.now
        → AreOf given.now.linked.now k q a given.now.demand.now.nodes given.now.parts.now.calls (IsBackAmong given.now.parts.now.returns) growth.old.work.rules growth.new.work.rules) }
    ensures taken { OnOk result ((k : ProtocolParts) (q : Asked) (a : Site) → AreEventsOf given.now.linked.now k q a events.now → (r : AReturn)
        → Has given.now.parts.now.returns r → r.edge.from ≡ node → Has growth.new.marks.keys r.mark
        → IsTaken given.now.linked.now k q a given.now.demand.now.nodes given.now.parts.now.calls r.edge growth.new.work.rules) }
{
    let mut at = 0;
    while let Some(mark) = growth.mark_at(at) {
        let returns = given.parts.returns().crossing(node, mark);
        add_back(given, events, returns, Due::Each, growth)?;
        at += 1;
    }
    Ok(())
}

/// Goes back from the node over the marks that are open: by its edges, or by the marks, whatever is less.
pub fn go_back(
    given: &SolvedDemand<'_>,
    events: &SiteEvents,
    node: u32,
    growth: &mut Growth,
) -> Result<(), NoMemory>
    ensures grown { OnOk result (IsGrown growth.old growth.new) }
    ensures each { OnOk result ((k : ProtocolParts) (q : Asked) (a : Site) → AreEventsOf given.now.linked.now k q a events.now
        → AreOf given.now.linked.now k q a given.now.demand.now.nodes given.now.parts.now.calls (IsBackAmong given.now.parts.now.returns) growth.old.work.rules growth.new.work.rules) }
    ensures taken { OnOk result ((k : ProtocolParts) (q : Asked) (a : Site) → AreEventsOf given.now.linked.now k q a events.now → (r : AReturn)
        → Has given.now.parts.now.returns r → r.edge.from ≡ node → Has growth.old.marks.keys r.mark
        → IsTaken given.now.linked.now k q a given.now.demand.now.nodes given.now.parts.now.calls r.edge growth.new.work.rules) }
{
    let returns = given.parts.returns().from_node(node);
    if returns.len() <= growth.marks.len() {
        add_back(given, events, returns, Due::Open, growth)
    } else {
        add_by_mark(given, events, node, growth)
    }
}

/// Goes back from the first nodes that were reached, so many of them, over the marks that were opened since there were so many.
pub fn come_back(
    given: &SolvedDemand<'_>,
    events: &SiteEvents,
    at: usize,
    seen: usize,
    growth: &mut Growth,
) -> Result<(), NoMemory>
    ensures grown { OnOk result (IsGrown growth.old growth.new) }
    ensures each { OnOk result ((k : ProtocolParts) (q : Asked) (a : Site) → AreEventsOf given.now.linked.now k q a events.now
        → AreOf given.now.linked.now k q a given.now.demand.now.nodes given.now.parts.now.calls (IsBackAmong given.now.parts.now.returns) growth.old.work.rules growth.new.work.rules) }
    ensures taken { OnOk result ((k : ProtocolParts) (q : Asked) (a : Site) → AreEventsOf given.now.linked.now k q a events.now → (r : AReturn) (i : ℕ)
        → Has given.now.parts.now.returns r → IsPast growth.old.reached.keys at r.edge.from → seen ≤ i → slice_get growth.new.marks.keys i ≡ Some r.mark
        → IsTaken given.now.linked.now k q a given.now.demand.now.nodes given.now.parts.now.calls r.edge growth.new.work.rules) }
{
    let mut number = seen;
    while let Some(mark) = growth.mark_at(number) {
        let returns = given.parts.returns().over(mark);
        add_back(given, events, returns, Due::Past(at), growth)?;
        number += 1;
    }
    Ok(())
}
