//! The states of the objects of one site.
ghost use Rattle.std.specs.Prelude.{◌≡◌, ◌↔◌, ◌<◌, ℕ, List, [], Some, length, slice_get, true, IfOk};
ghost use Rattle.demand_set.specs.Demands.{DemandParts, IsDemandOf};
ghost use Rattle.link_rules.specs.Linked.{LinkedProgram};
ghost use Rattle.link_sites.specs.declared.place.Place.{Place};
ghost use Rattle.link_sites.specs.declared.site.Site.{Site as ASite};
ghost use Rattle.post_star.specs.Readings.{IsSaturated};
ghost use Rattle.site_events.specs.Sites.{AreEventsOf};
ghost use Rattle.spds_rules.specs.declared.node.Node.{Node};
ghost use Rattle.spds_rules.specs.Demand.{Asked};
ghost use Rattle.track_rules.specs.Protocols.{ProtocolParts};
ghost use Rattle.track_systems.specs.Laws.{IsAmongSixteen};
ghost use Rattle.track_systems.specs.Track.{Tracks};
ghost use Rattle.track_tables.specs.Begun.{IsBegun, IsFirstWeight};
ghost use Rattle.track_tables.specs.Making.{AreLoadedIn, AreTrackParts};
ghost use Rattle.track_tables.specs.Systems.{IsTrackTable};
ghost use Rattle.weight_laws.specs.Rel.{Relates, rel_domain};

use super::by_node::by_node;
use super::given::SolvedDemand;
use super::growth::Growth;
use super::opening::open_strings;
use super::parts::TrackParts;
use super::rules::spread;
use super::starts::{at_places, begin_all, is_made_at};
use auto_table::{Entry, Table};
use link_sites::Site;
use lists::{Groups, NoMemory, Numbered};
use post_star::{Work, any_value_from};
use site_events::SiteEvents;
use std::alloc::Global;
use std::marker::Model;
use weight_laws::{Rel, Weight};

/// No rule and no start.
fn blank(alloc: Global, parts: &TrackParts) -> Result<Growth, NoMemory>
    ensures work { IfOk result (λ growth. growth.work ≡ record { steps = parts.now.strings.value.steps; last = parts.now.strings.value.last; rules = parts.now.strings.value.rules; starts = []; settled = true }) }
    ensures reached { IfOk result (λ growth. growth.reached.keys ≡ []) }
{
    Ok(Growth {
        work: Work::new(alloc, parts.strings().clone()?),
        reached: Numbered::new(alloc),
        marks: Numbered::new(alloc),
    })
}

/// The weight with which objects begin at the start nodes of a site: no event came yet to those that have just been made, and any may have come to constants.
fn first_weight(events: &SiteEvents, sites: &[Site], site: u32) -> Rel
    ensures { (p : LinkedProgram) (k : ProtocolParts) (q : Asked) (a : ASite) → slice_get sites.now site ≡ Some a → AreEventsOf p k q a events.now
        → IsFirstWeight p k q a result }
{
    if is_made_at(sites, site) {
        Rel::one()
    } else {
        events.anywhere()
    }
}

/// The starts of a site: its start nodes, and what comes out of the heap or of static fields.
fn begun(
    alloc: Global,
    given: &SolvedDemand<'_>,
    events: &SiteEvents,
    site: u32,
) -> Result<Growth, NoMemory>
    requires site { site < length given.now.demand.now.sites }
    requires parts { AreTrackParts given.now.linked.now given.now.demand.now given.now.parts.now }
    ensures { IfOk result (λ growth. (k : ProtocolParts) (q : Asked) (a : ASite) → IsDemandOf given.now.linked.now q given.now.demand.now
        → AreLoadedIn given.now.linked.now q given.now.demand.now given.now.parts.now given.now.loaded.now → slice_get given.now.demand.now.sites site ≡ Some a → AreEventsOf given.now.linked.now k q a events.now
        → IsBegun given.now.linked.now k q a given.now.demand.now given.now.parts.now growth) }
{
    let (linked, nodes) = (given.linked, given.demand.nodes());
    let mut growth = blank(alloc, given.parts)?;
    let first = first_weight(events, given.demand.sites(), site);
    begin_all(linked, nodes, given.demand.starts(site), first, &mut growth)?;
    let loaded = at_places(alloc, given.parts.loaded(), given.loaded.at(site))?;
    begin_all(linked, nodes, &loaded, events.anywhere(), &mut growth)?;
    open_strings(alloc, given, &mut growth)?;
    Ok(growth)
}

/// The table of the work, brought to the end.
fn settled(work: Work<Rel>) -> Result<Table<Rel>, NoMemory>
    ensures { IfOk result (IsSaturated rel_domain work.rules work.starts work.steps work.last) }
{
    let mut work = work;
    work.settle()?;
    Ok(work.into_table())
}

/// The values of the system of one site under a protocol: its table, and the entries by the nodes at which they have a weight. Contracts see the table.
#[derive(Drop)]
pub struct SiteStates {
    table: Table<Rel>,
    entries: Groups<u32, Entry>,
}

impl Model for SiteStates {
    ghost use Rattle.auto_table.specs.Cells.{Cells};
    ghost use Rattle.weight_laws.specs.declared.rel.Rel.{Rel};

    ghost Value = { Cells Rel };

    ghost use Rattle.track_tables.specs.ByNode.{AreByNode};

    ghost view = { λ s. s.table };

    ghost invariant = { λ s. AreByNode s.table s.entries };
}

impl SiteStates {
    /// The values of the system of the site with the number in the demand, on whose objects these events may come. Want of memory is the only refusal.
    pub fn of(
        alloc: Global,
        given: &SolvedDemand<'_>,
        events: &SiteEvents,
        site: u32,
    ) -> Result<Self, NoMemory>
        requires site { site < length given.now.demand.now.sites }
        requires parts { AreTrackParts given.now.linked.now given.now.demand.now given.now.parts.now }
        ensures { IfOk result (λ states. (k : ProtocolParts) (q : Asked) (a : ASite) → IsDemandOf given.now.linked.now q given.now.demand.now
            → AreLoadedIn given.now.linked.now q given.now.demand.now given.now.parts.now given.now.loaded.now → slice_get given.now.demand.now.sites site ≡ Some a
            → AreEventsOf given.now.linked.now k q a events.now → IsTrackTable given.now.linked.now k q a given.now.demand.now states) }
    {
        let mut growth = begun(alloc, given, events, site)?;
        spread(given, events, &mut growth)?;
        let table = settled(growth.work)?;
        let entries = by_node(alloc, &table)?;
        Ok(SiteStates { table, entries })
    }

    /// The value of the node with the number in the demand: it leads state 0 to the states in which objects of the site may be there. The time goes by the
    /// entries that have the node and those that they lead to.
    pub fn value(&self, alloc: Global, node: u32) -> Result<Rel, NoMemory>
        ensures { IfOk result (λ w. (p : LinkedProgram) (k : ProtocolParts) (q : Asked) (a : ASite) (d : DemandParts) (n : Node) (i : ℕ) → IsTrackTable p k q a d self.now
            → IsAmongSixteen k → slice_get d.nodes node ≡ Some n → i < 16 → Relates w 0 i ↔ ((string : List Place) × Tracks p k q a n string i)) }
    {
        any_value_from(alloc, &self.table, node, self.entries.at(node))
    }
}
