//! The events on the objects of one site.
ghost use Rattle.std.specs.Prelude.{◌≡◌, List, [], IfNone, IfOk, IfSome, OnOk, map};
ghost use Rattle.link_rules.specs.Linked.{LinkedProgram};
ghost use Rattle.link_sites.specs.declared.site.Site.{Site};
ghost use Rattle.spds_rules.specs.Demand.{Asked};
ghost use Rattle.site_events.specs.declared.event_statement.EventStatement.{EventStatement as AnEvent};
ghost use Rattle.site_events.specs.Callers.{AreCallers};
ghost use Rattle.site_events.specs.Leading.{Leads};
ghost use Rattle.track_rules.specs.Protocols.{ProtocolParts};
ghost use Rattle.track_systems.specs.Events.{Goes};
ghost use Rattle.track_systems.specs.Values.{IsWeight};
ghost use Rattle.track_systems.specs.Weights.{Anywhere, May, Sends, Within};
ghost use Rattle.weight_laws.specs.Rel.{Relates, rel_domain};
ghost use Rattle.site_events.specs.declared.statement.Statement.{Statement as AStatement};
ghost use Rattle.site_events.specs.Events.{AreEventsIn, AreHeldAmong};
ghost use Rattle.site_events.specs.Sites.{AreEventsOf, AreInMethods, AreRisen};
ghost use Rattle.site_events.specs.Tables.{HasOne};

use super::events::Events;
use super::inner::{Inner, inside_of};
use super::loud::loud_methods;
use super::places::targets_at;
use super::relations::Relations;
use super::star::closure;
use super::statement::{Statement, statement_at};
use link_program::Linked;
use link_sites::Place;
use lists::{Groups, NoMemory};
use std::alloc::Global;
use weight_laws::{Rel, Weight};

/// What events do to the objects of one site.
#[derive(Drop)]
pub struct SiteEvents {
    own: Relations,
    // Of each event that may come.
    inner: Vec<Inner>,
    anywhere: Rel,
}

impl SiteEvents {
    /// What the event statement at the place does, where it may be an event on an object of the site; else none. One look-up.
    pub fn goes(&self, place: Place) -> Option<Rel>
        ensures some { (p : LinkedProgram) (k : ProtocolParts) (q : Asked) (a : Site) → AreEventsOf p k q a self.now
            → IfSome result (λ w. May p k q a place × IsWeight w (Goes p k place)) }
        ensures none { (p : LinkedProgram) (k : ProtocolParts) (q : Asked) (a : Site) → AreEventsOf p k q a self.now
            → IfNone result (May p k q a place → ⊥) }
    {
        if place.raised {
            return None;
        }
        self.own.find(statement_at(place))
    }

    /// What events in the methods that the call at the place may enter do, in any order and each any number of times. The time goes by the events that may
    /// come, and by the targets of the call. Takes no memory.
    pub fn inside(&self, linked: &Linked, call: Place) -> Rel
        ensures { (k : ProtocolParts) (q : Asked) (a : Site) → AreEventsOf linked.now k q a self.now
            → IsWeight result (Sends linked.now k q a (Within linked.now call)) }
    {
        closure(inside_of(&self.inner, targets_at(linked, call)))
    }

    /// What events anywhere do, in any order and each any number of times.
    pub fn anywhere(&self) -> Rel
        ensures { (p : LinkedProgram) (k : ProtocolParts) (q : Asked) (a : Site) → AreEventsOf p k q a self.now
            → IsWeight result (Sends p k q a Anywhere) }
    {
        self.anywhere
    }
}

// The methods of some statements.
fn methods_of(alloc: Global, statements: &[Statement]) -> Result<Vec<u32>, NoMemory>
    ensures { IfOk result (λ methods. methods.items ≡ map (λ s. s.method) statements.now) }
{
    let mut methods = Vec::with_capacity(alloc, statements.len())?;
    for statement in statements {
        methods.push(statement.method)?;
    }
    Ok(methods)
}

impl SiteEvents {
    // No event may come.
    fn none(alloc: Global) -> Self
        ensures own { (s : AStatement) → HasOne result.own s → ⊥ }
        ensures inner { result.inner.items ≡ [] }
        ensures anywhere { result.anywhere ≡ rel_domain.zero }
    {
        SiteEvents {
            own: Relations::new(alloc),
            inner: Vec::new(alloc),
            anywhere: Rel::zero(),
        }
    }

    // An event may come at these statements, and does this.
    fn add(
        &mut self,
        alloc: Global,
        callers: &Groups<u32, u32>,
        statements: &[Statement],
        does: Rel,
    ) -> Result<(), NoMemory>
        ensures { OnOk result ((p : LinkedProgram) → AreCallers p callers.now → AreInMethods p statements.now → AreRisen p statements.now does self.old self.new) }
    {
        if statements.is_empty() {
            return Ok(());
        }
        self.own.raise_all(statements, does)?;
        let methods = methods_of(alloc, statements)?;
        let loud = loud_methods(alloc, callers, &methods)?;
        self.inner.push(Inner { does, loud })?;
        self.anywhere = self.anywhere.combine(does);
        Ok(())
    }

    // Events may come in any order and each any number of times.
    fn close(&mut self)
        ensures own { self.new.own ≡ self.old.own }
        ensures inner { self.new.inner ≡ self.old.inner }
        ensures anywhere { IsWeight self.new.anywhere (Leads (Relates self.old.anywhere)) }
    {
        self.anywhere = closure(self.anywhere);
    }
}

/// The events on the objects of a site, of which those statements may be events on them that stand at these places of the list of event statements. The time is
/// linear in these, in the events of the protocol, and for each event that may come in the methods from which a run may come to it, and in the methods that call
/// each of these, however many calls they have.
pub fn site_events(alloc: Global, events: &Events, places: &[u32]) -> Result<SiteEvents, NoMemory>
    ensures { IfOk result (λ e. (p : LinkedProgram) (k : ProtocolParts) (q : Asked) (a : Site) (statements : List AnEvent) → AreEventsIn p k statements events.now
        → AreHeldAmong p q a statements places.now → AreEventsOf p k q a e) }
{
    let statements = events.by_event(alloc, places)?;
    let mut found = SiteEvents::none(alloc);
    for event in 0..events.count()? {
        found.add(
            alloc,
            events.callers(),
            statements.at(event),
            events.relation(event),
        )?;
    }
    found.close();
    Ok(found)
}
