//! The rules of a site.
ghost use Rattle.std.specs.Prelude.{◌≡◌, ◌↔◌, ◌⊎◌, ◌++◌, ◌∷◌, [], ℕ, Some, IsTrue, OnOk};
ghost use Rattle.auto_table.specs.declared.rule.Rule.{Rule as ARule};
ghost use Rattle.call_side.specs.Trails.{AreKept};
ghost use Rattle.demand_set.specs.declared.numbered.EdgeAt.{EdgeAt as AnEdge};
ghost use Rattle.lists.specs.Lists.{Has};
ghost use Rattle.link_sites.specs.declared.site.Site.{Site};
ghost use Rattle.post_star.specs.declared.key.Key.TheVariants as key;
ghost use Rattle.post_star.specs.Groups.{found_at};
ghost use Rattle.post_star.specs.Measures.{to_of};
ghost use Rattle.site_events.specs.Sites.{AreEventsOf};
ghost use Rattle.spds_rules.specs.Demand.{Asked};
ghost use Rattle.track_rules.specs.Protocols.{ProtocolParts};
ghost use Rattle.track_systems.specs.Values.{IsWeight};
ghost use Rattle.track_tables.specs.declared.returns.Return.{Return as AReturn};
ghost use Rattle.track_tables.specs.Making.{AreOf, IsEdgeOf, IsGrown, IsOpenFor, IsRuleBy, IsRuleOf, IsTaken};
ghost use Rattle.track_tables.specs.Systems.{LeadsAlong};
ghost use Rattle.weight_laws.specs.declared.rel.Rel.{Rel as ARel};
ghost use Rattle.weight_laws.specs.Rel.{rel_domain};

use super::coming::{come_back, go_back};
use super::given::{SolvedDemand, node_at};
use super::growth::Growth;
use auto_table::Rule;
use call_side::Calls;
use demand_set::EdgeAt;
use link_program::Linked;
use lists::{NoMemory, Numbered};
use site_events::{SiteEvents, flow_weight, own_weight};
use spds_rules::{EdgeKind, Node};
use weight_laws::{Rel, Weight};

/// How states change along an edge of this kind. What comes out of the heap or of a static field doesn't go along its edge: it begins anew.
fn edge_weight(linked: &Linked, events: &SiteEvents, from: Node, kind: EdgeKind, to: Node) -> Rel
    ensures { (k : ProtocolParts) (q : Asked) (a : Site) → AreEventsOf linked.now k q a events.now → IsWeight result (LeadsAlong linked.now k q a from kind to) }
{
    match kind {
        EdgeKind::Flow => flow_weight(linked, events, from, to),
        EdgeKind::Call(call) => own_weight(linked, events, call, from.var),
        EdgeKind::Return(_) => Rel::one(),
        EdgeKind::Load(_) | EdgeKind::Jump => Rel::zero(),
    }
}

/// Whether the weight leads no state anywhere.
fn leads_nowhere(weight: Rel) -> bool
    ensures { IsTrue result → weight ≡ rel_domain.zero }
{
    weight == Rel::zero()
}

/// The rule of an edge with this weight, if its kind has one.
fn edge_rule(calls: &Calls, edge: EdgeAt, weight: Rel) -> Option<Rule<Rel>>
    ensures { (r : ARule ARel) → (result ≡ Some r) ↔ IsRuleBy calls.now edge.kind edge.from edge.to weight r }
{
    let (from, to) = (edge.from, edge.to);
    match edge.kind {
        EdgeKind::Flow => Some(Rule::Flow { from, to, weight }),
        EdgeKind::Call(call) => {
            let mark = calls.mark_of(call)?;
            Some(Rule::Push {
                from,
                to,
                mark,
                weight,
            })
        }
        EdgeKind::Return(call) => {
            let mark = calls.mark_of(call)?;
            Some(Rule::Pop {
                from,
                mark,
                to,
                weight,
            })
        }
        EdgeKind::Load(_) | EdgeKind::Jump => None,
    }
}

/// Opens the mark that the rule puts on, if it does one.
fn open_for(rule: Rule<Rel>, marks: &mut Numbered<u32>) -> Result<(), NoMemory>
    ensures kept { OnOk result (AreKept marks.old.keys marks.new.keys) }
    ensures opened { OnOk result (IsOpenFor marks.new.keys rule) }
{
    if let Rule::Push { mark, .. } = rule {
        marks.add(mark)?;
    }
    Ok(())
}

/// Puts the rule last, the node that it leads to among those that are reached, and the mark that it puts on among those that are open.
fn add_rule(growth: &mut Growth, rule: Rule<Rel>, to: u32) -> Result<(), NoMemory>
    requires { to ≡ to_of rule }
    ensures grown { OnOk result (IsGrown growth.old growth.new) }
    ensures rules { OnOk result (growth.new.work.rules ≡ growth.old.work.rules ++ rule ∷ []) }
{
    growth.work.add_rule(rule)?;
    growth.reached.add(to)?;
    open_for(rule, &mut growth.marks)?;
    Ok(())
}

/// Puts the rule of an edge last, if states lead along it, and the node that it leads to among those that are reached.
pub fn add_edge(
    given: &SolvedDemand<'_>,
    events: &SiteEvents,
    edge: EdgeAt,
    growth: &mut Growth,
) -> Result<(), NoMemory>
    ensures grown { OnOk result (IsGrown growth.old growth.new) }
    ensures each { OnOk result ((k : ProtocolParts) (q : Asked) (a : Site) → AreEventsOf given.now.linked.now k q a events.now → (r : ARule ARel) → Has growth.new.work.rules r
        → Has growth.old.work.rules r ⊎ IsRuleOf given.now.linked.now k q a given.now.demand.now.nodes given.now.parts.now.calls edge r) }
    ensures taken { OnOk result ((k : ProtocolParts) (q : Asked) (a : Site) → AreEventsOf given.now.linked.now k q a events.now
        → IsTaken given.now.linked.now k q a given.now.demand.now.nodes given.now.parts.now.calls edge growth.new.work.rules) }
{
    let nodes = given.demand.nodes();
    let Some(from) = node_at(nodes, edge.from) else {
        return Ok(());
    };
    let Some(to) = node_at(nodes, edge.to) else {
        return Ok(());
    };
    let weight = edge_weight(given.linked, events, from, edge.kind, to);
    if leads_nowhere(weight) {
        return Ok(());
    }
    if let Some(rule) = edge_rule(given.parts.calls(), edge, weight) {
        add_rule(growth, rule, edge.to)?;
    }
    Ok(())
}

/// Puts the rules of edges last.
pub fn add_edges(
    given: &SolvedDemand<'_>,
    events: &SiteEvents,
    edges: &[EdgeAt],
    growth: &mut Growth,
) -> Result<(), NoMemory>
    ensures grown { OnOk result (IsGrown growth.old growth.new) }
    ensures each { OnOk result ((k : ProtocolParts) (q : Asked) (a : Site) → AreEventsOf given.now.linked.now k q a events.now
        → AreOf given.now.linked.now k q a given.now.demand.now.nodes given.now.parts.now.calls (Has edges.now) growth.old.work.rules growth.new.work.rules) }
    ensures taken { OnOk result ((k : ProtocolParts) (q : Asked) (a : Site) → AreEventsOf given.now.linked.now k q a events.now → (e : AnEdge) → Has edges.now e
        → IsTaken given.now.linked.now k q a given.now.demand.now.nodes given.now.parts.now.calls e growth.new.work.rules) }
{
    for edge in edges {
        add_edge(given, events, *edge, growth)?;
    }
    Ok(())
}

/// Goes on from each node that is reached, along its edges, and back from calls over marks that are open, until no node is new.
pub fn spread(
    given: &SolvedDemand<'_>,
    events: &SiteEvents,
    growth: &mut Growth,
) -> Result<(), NoMemory>
    ensures grown { OnOk result (IsGrown growth.old growth.new) }
    ensures each { OnOk result ((k : ProtocolParts) (q : Asked) (a : Site) → AreEventsOf given.now.linked.now k q a events.now
        → AreOf given.now.linked.now k q a given.now.demand.now.nodes given.now.parts.now.calls (IsEdgeOf given.now.parts.now) growth.old.work.rules growth.new.work.rules) }
    ensures onward { OnOk result ((k : ProtocolParts) (q : Asked) (a : Site) → AreEventsOf given.now.linked.now k q a events.now → (number : ℕ) (e : AnEdge)
        → Has growth.new.reached.keys number → Has (found_at given.now.parts.now.onward (key.Node number)) e
        → IsTaken given.now.linked.now k q a given.now.demand.now.nodes given.now.parts.now.calls e growth.new.work.rules) }
    ensures back { OnOk result ((k : ProtocolParts) (q : Asked) (a : Site) → AreEventsOf given.now.linked.now k q a events.now → (r : AReturn)
        → Has given.now.parts.now.returns r → Has growth.new.reached.keys r.edge.from → Has growth.new.marks.keys r.mark
        → IsTaken given.now.linked.now k q a given.now.demand.now.nodes given.now.parts.now.calls r.edge growth.new.work.rules) }
{
    let mut at = 0;
    while let Some(node) = growth.reached_at(at) {
        let seen = growth.marks.len();
        go_back(given, events, node, growth)?;
        add_edges(given, events, given.parts.onward(node), growth)?;
        at += 1;
        come_back(given, events, at, seen, growth)?;
    }
    Ok(())
}
