//! Ways back from where objects are followed.
ghost use Rattle.std.specs.Prelude.{◌≡◌, IfOk, OnOk};
ghost use Rattle.lists.specs.Groups.{found_at};
ghost use Rattle.lists.specs.Lists.{Has};
ghost use Rattle.link_rules.specs.Linked.{LinkedProgram};
ghost use Rattle.link_sites.specs.declared.site.Site.{Site as AnySite};
ghost use Rattle.spds_rules.specs.declared.edge.Edge.{Edge as AnyEdge};
ghost use Rattle.spds_rules.specs.declared.store.StoreAt.{StoreAt as AnyStore};
ghost use Rattle.spds_rules.specs.Demand.{Asked};
ghost use Rattle.spds_solve.specs.Solved.{AreMeets, IsListed, StandsForMeet};
ghost use Rattle.cert_work.specs.Wants.{IsWider};
ghost use Rattle.cert_trace.specs.Settled.{IsBackFiled, IsSettled, IsStoreFiled};

use super::pairing::Pairing;
use cert_lines::Origin;
use cert_work::Wants;
use demand_set::Demand;
use link_sites::Site;
use lists::{ByKey, NoMemory};
use spds_rules::{Edge, Node, StoreAt};
use spds_solve::Met;
use std::alloc::Global;

/// Edges by where they lead, and stores, by an object and one that it may be stored into.
#[derive(Drop)]
pub(crate) struct Grounds {
    pub(crate) back: ByKey<Node, Edge>,
    pub(crate) stores: ByKey<Pairing, StoreAt>,
}

/// The edges by where they lead.
pub(crate) fn file_back(alloc: Global, edges: &[Edge]) -> Result<ByKey<Node, Edge>, NoMemory>
    ensures { IfOk result (λ files. (e : AnyEdge) → Has edges.now e → IsBackFiled files e) }
{
    let mut files = ByKey::new(alloc);
    for edge in edges {
        files.add(edge.to, *edge)?;
    }
    Ok(files)
}

// Where the object is followed everywhere, the other is followed at the store. Else the store is filed.
fn file_met(
    wants: &mut Wants,
    stores: &mut ByKey<Pairing, StoreAt>,
    pairing: Pairing,
    store: StoreAt,
) -> Result<(), NoMemory>
    ensures settled { OnOk result (IsSettled wants.new stores.new pairing.object pairing.base store) }
    ensures wider { OnOk result (IsWider wants.old wants.new) }
    ensures kept { OnOk result ((o base : AnySite) (s : AnyStore) → IsStoreFiled stores.old o base s → IsStoreFiled stores.new o base s) }
{
    let origin = Origin {
        site: pairing.object,
    };
    if let Some(_number) = wants.sites.find(origin) {
        wants.add(pairing.base, store.base)?;
        return Ok(());
    }
    stores.add(pairing, store)?;
    Ok(())
}

// The same of a meet.
fn file_next(
    demand: &Demand,
    wants: &mut Wants,
    stores: &mut ByKey<Pairing, StoreAt>,
    met: &Met,
) -> Result<(), NoMemory>
    requires { (o : AnySite) × (base : AnySite) × (s : AnyStore) × StandsForMeet demand.now met.now o base s }
    ensures settled { OnOk result ((o base : AnySite) (s : AnyStore) → StandsForMeet demand.now met.now o base s → IsSettled wants.new stores.new o base s) }
    ensures wider { OnOk result (IsWider wants.old wants.new) }
    ensures kept { OnOk result ((o base : AnySite) (s : AnyStore) → IsStoreFiled stores.old o base s → IsStoreFiled stores.new o base s) }
{
    let pairing = Pairing {
        object: demand.sites()[met.object as usize],
        base: demand.sites()[met.base as usize],
    };
    let store = demand.stores()[met.store as usize];
    file_met(wants, stores, pairing, store)?;
    Ok(())
}

/// The stores of meets by what is stored and where, but for objects that are followed everywhere: what these are stored into is followed at the stores.
pub(crate) fn file_mets(
    alloc: Global,
    demand: &Demand,
    mets: &[Met],
    wants: &mut Wants,
) -> Result<ByKey<Pairing, StoreAt>, NoMemory>
    requires { (p : LinkedProgram) × (q : Asked) × AreMeets p q demand.now mets.now }
    ensures settled { IfOk result (λ stores. (o base : AnySite) (s : AnyStore) → IsListed demand.now mets.now o base s → IsSettled wants.new stores o base s) }
    ensures wider { OnOk result (IsWider wants.old wants.new) }
{
    let mut stores = ByKey::new(alloc);
    for met in mets {
        file_next(demand, wants, &mut stores, met)?;
    }
    Ok(stores)
}
