//! Objects are followed back.
ghost use Rattle.std.specs.Prelude.{◌≡◌, IfOk, OnOk};
ghost use Rattle.lists.specs.Lists.{Has};
ghost use Rattle.link_rules.specs.Linked.{LinkedProgram};
ghost use Rattle.spds_rules.specs.declared.edge.Edge.{Edge as AnyEdge};
ghost use Rattle.spds_rules.specs.declared.store.StoreAt.{StoreAt as AnyStore};
ghost use Rattle.spds_rules.specs.Systems.{Meets};
ghost use Rattle.demand_set.specs.Demands.{IsDemandOf};
ghost use Rattle.spds_solve.specs.Solved.{IsSolved};
ghost use Rattle.spds_rules.specs.Demand.{about};
ghost use Rattle.cert_lines.specs.declared.keys.Spot.{Spot as AnySpot};
ghost use Rattle.cert_work.specs.Wants.{AreWants, IsWanted, IsWider};
ghost use Rattle.cert_trace.specs.Settled.{IsFollowedBack};

use super::ahead::ahead_of;
use super::answered::want_answered;
use super::filing::{Grounds, file_back, file_mets};
use super::pairing::Pairing;
use cert_lines::Spot;
use cert_work::Wants;
use demand_set::Demand;
use link_program::Linked;
use link_sites::Site;
use lists::NoMemory;
use spds_rules::{Edge, Node, StoreAt, site_of};
use spds_solve::Solved;
use std::alloc::Global;

// Objects of the site are followed where the edges come from.
fn want_sources(wants: &mut Wants, site: Site, edges: &[Edge]) -> Result<(), NoMemory>
    ensures all { OnOk result ((e : AnyEdge) → Has edges.now e → IsWanted wants.new site e.from) }
    ensures wider { OnOk result (IsWider wants.old wants.new) }
{
    for edge in edges {
        wants.add(site, edge.from)?;
    }
    Ok(())
}

// Both are followed at the store.
fn want_store(wants: &mut Wants, pairing: Pairing, store: StoreAt) -> Result<(), NoMemory>
    ensures both { OnOk result (IsWanted wants.new pairing.object store.arg × IsWanted wants.new pairing.base store.base) }
    ensures wider { OnOk result (IsWider wants.old wants.new) }
{
    wants.add(pairing.object, store.arg)?;
    wants.add(pairing.base, store.base)?;
    Ok(())
}

// Both are followed at the stores.
fn want_stores(wants: &mut Wants, pairing: Pairing, stores: &[StoreAt]) -> Result<(), NoMemory>
    ensures both { OnOk result ((s : AnyStore) → Has stores.now s → IsWanted wants.new pairing.object s.arg × IsWanted wants.new pairing.base s.base) }
    ensures wider { OnOk result (IsWider wants.old wants.new) }
{
    for store in stores {
        want_store(wants, pairing, *store)?;
    }
    Ok(())
}

// An object is followed back from where it is followed.
fn want_back(wants: &mut Wants, grounds: &Grounds, spot: Spot) -> Result<(), NoMemory>
    ensures back { OnOk result (IsFollowedBack wants.new grounds.now spot) }
    ensures wider { OnOk result (IsWider wants.old wants.new) }
{
    want_sources(wants, spot.site, grounds.back.at(spot.node))?;
    let Some(base) = site_of(spot.node) else {
        return Ok(());
    };
    let pairing = Pairing {
        object: spot.site,
        base,
    };
    want_stores(wants, pairing, grounds.stores.at(pairing))?;
    Ok(())
}

// All are followed back, from where they come to be followed too.
fn want_all(wants: &mut Wants, grounds: &Grounds) -> Result<(), NoMemory>
    ensures back { OnOk result ((spot : AnySpot) → Has wants.new.spots.keys spot → IsFollowedBack wants.new grounds.now spot) }
    ensures wider { OnOk result (IsWider wants.old wants.new) }
{
    let mut at: u32 = 0;
    while (at as usize) < wants.spots.len() {
        let spot = wants.spots.key(at);
        want_back(wants, grounds, spot)?;
        at += 1;
    }
    Ok(())
}

/// Where objects have to be followed for the answers of a node: those of answered sites everywhere, and others back from the stores into them, and both
/// only where a load of the first field of their words lies ahead. Costs look-ups for each edge, each store, each meet and each place at which they are
/// followed.
pub(crate) fn wants_of(
    alloc: Global,
    linked: &Linked,
    demand: &Demand,
    solved: &Solved,
    target: Node,
) -> Result<Wants, NoMemory>
    requires demand { IsDemandOf linked.now (about target) demand.now }
    requires solved { IsSolved linked.now (about target) demand.now solved.now }
    ensures { IfOk result (λ wants. AreWants linked.now target wants (Meets linked.now (about target))) }
{
    let number = demand.number_of(target).unwrap();
    let back = file_back(alloc, demand.edges())?;
    let ahead = ahead_of(alloc, demand, &back)?;
    let mut wants = Wants::new(alloc, ahead);
    want_answered(demand, solved, &mut wants, number)?;
    let stores = file_mets(alloc, demand, solved.meets(), &mut wants)?;
    let grounds = Grounds { back, stores };
    want_all(&mut wants, &grounds)?;
    Ok(wants)
}
