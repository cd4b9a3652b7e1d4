//! Weights.
ghost use Rattle.link_sites.specs.declared.site.Site.{Site};
ghost use Rattle.site_events.specs.Sites.{AreEventsOf};
ghost use Rattle.spds_rules.specs.Demand.{Asked};
ghost use Rattle.track_rules.specs.Protocols.{ProtocolParts};
ghost use Rattle.track_systems.specs.Values.{IsWeight};
ghost use Rattle.track_systems.specs.Weights.{Across, Changes, Owns};

use super::passed::{Passing, passing_by_call};
use super::receiving::{has_other_receiver, is_into_flight, is_receiver};
use super::site::SiteEvents;
use link_program::Linked;
use link_sites::Place;
use spds_rules::{Node, Var};
use weight_laws::{Rel, Weight};

/// What the call itself does to what the variable holds, of an object of the site: nothing, where it is no event on such an object. Where it may be
/// one, it is one on its receiver; another variable may hold the same object as the receiver, or another object. Takes no memory.
pub fn own_weight(linked: &Linked, events: &SiteEvents, call: Place, variable: Var) -> Rel
    ensures { (k : ProtocolParts) (q : Asked) (a : Site) → AreEventsOf linked.now k q a events.now → IsWeight result (Owns linked.now k q a call variable) }
{
    match events.goes(call) {
        Some(event) => {
            if is_receiver(linked, call, variable) {
                event
            } else {
                event.combine(Rel::one())
            }
        }
        None => Rel::one(),
    }
}

// What the call at the node does to what its variable holds: first by itself, and then by events in the methods that it may enter.
fn across(linked: &Linked, events: &SiteEvents, node: Node) -> Rel
    ensures { (k : ProtocolParts) (q : Asked) (a : Site) → AreEventsOf linked.now k q a events.now → IsWeight result (Across linked.now k q a node.place node.var) }
{
    let own = own_weight(linked, events, node.place, node.var);
    let inside = events.inside(linked, node.place);
    own.extend(inside)
}

/// How the states of the site's objects change along the flow from one node to another. Where nothing goes along it, as over a call that passes a local
/// whose formals are all settled, this is the empty relation. Asks the events a constant number of times, and goes over the call's targets. Takes no memory.
pub fn flow_weight(linked: &Linked, events: &SiteEvents, from: Node, to: Node) -> Rel
    ensures { (k : ProtocolParts) (q : Asked) (a : Site) → AreEventsOf linked.now k q a events.now → IsWeight result (Changes linked.now k q a from to) }
{
    match passing_by_call(linked, from.place, from.var) {
        None => Rel::one(),
        Some(Passing::Kept) => across(linked, events, from),
        Some(Passing::Settled) => {
            if is_into_flight(from, to) && has_other_receiver(linked, from.place, from.var) {
                Rel::one()
            } else {
                Rel::zero()
            }
        }
        Some(Passing::Unsettled) => {
            let over = across(linked, events, from);
            if is_into_flight(from, to) {
                over.combine(Rel::one())
            } else {
                over
            }
        }
    }
}
