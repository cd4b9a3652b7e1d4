//! From sites to those behind one of their fields.
ghost use Rattle.std.specs.Prelude.{◌≡◌, ◌<◌, ◌^◌, ◌↔◌, ◌⊎◌, IfOk, IsTrue, OnOk, Some, length, slice_get};
ghost use Rattle.lists.specs.Lists.{Has};
ghost use Rattle.link_rules.specs.Linked.{LinkedProgram};
ghost use Rattle.link_sites.specs.declared.site.Site.{Site};
ghost use Rattle.spds_rules.specs.Demand.{Asked};
ghost use Rattle.demand_set.specs.Demands.{DemandParts};
ghost use Rattle.spds_solve.specs.Solved.{IsSolved};
ghost use Rattle.path_query.specs.declared.hops.Way.{Way as AWay};
ghost use Rattle.path_query.specs.Numbers.{AreNumbersOf, IsAmong, IsLedTo, IsNamed, IsPosed, IsWay, IsWayIn};
ghost use Rattle.path_query.specs.Paths.{IsBehind};

use super::posed::Posed;
use lists::NoMemory;
use spds_nodes::{has_field, stores_of};
use spds_rules::StoreAt;
use spds_solve::Solved;
use std::alloc::Global;

/// A way over a store, by the numbers of its argument and its base among the nodes, from the site with a number, which may be at the base.
#[derive(Clone, Copy)]
pub(crate) struct Way {
    pub arg: u32,
    pub base: u32,
    pub owner: u32,
}

// Adds the ways over a store whose ends have these numbers.
fn push_ways(
    ways: &mut Vec<Way>,
    posed: &Posed<'_>,
    owners: &[u32],
    store: StoreAt,
    arg: u32,
    base: u32,
) -> Result<(), NoMemory>
    requires arg { slice_get posed.now.demand.now.nodes arg ≡ Some store.arg }
    requires base { slice_get posed.now.demand.now.nodes base ≡ Some store.base }
    ensures { OnOk result ((q : Asked) → IsPosed posed.now.linked.now q posed.now.demand.now posed.now.solved.now → (w : AWay)
        → Has ways.new.items w ↔ (Has ways.old.items w ⊎ IsWay posed.now.linked.now q posed.now.demand.now owners.now store w)) }
{
    for owner in owners {
        if let Some(site) = posed.demand.sites().get(*owner as usize) {
            if posed.solved.holds(*owner, base) && has_field(posed.linked, *site, store.field) {
                ways.push(Way {
                    arg,
                    base,
                    owner: *owner,
                })?;
            }
        }
    }
    Ok(())
}

// Adds the ways over a store.
fn push_store(
    ways: &mut Vec<Way>,
    posed: &Posed<'_>,
    owners: &[u32],
    store: StoreAt,
) -> Result<(), NoMemory>
    ensures { OnOk result ((q : Asked) → IsPosed posed.now.linked.now q posed.now.demand.now posed.now.solved.now → (w : AWay)
        → Has ways.new.items w ↔ (Has ways.old.items w ⊎ IsWay posed.now.linked.now q posed.now.demand.now owners.now store w)) }
{
    let Some(arg) = posed.demand.number_of(store.arg) else {
        return Ok(());
    };
    let Some(base) = posed.demand.number_of(store.base) else {
        return Ok(());
    };
    push_ways(ways, posed, owners, store, arg, base)
}

// The ways over stores from the sites with these numbers.
fn ways_over(
    alloc: Global,
    posed: &Posed<'_>,
    owners: &[u32],
    stores: &[StoreAt],
) -> Result<Vec<Way>, NoMemory>
    ensures { IfOk result (λ ways. (q : Asked) → IsPosed posed.now.linked.now q posed.now.demand.now posed.now.solved.now → (w : AWay)
        → Has ways.items w ↔ IsWayIn posed.now.linked.now q posed.now.demand.now owners.now stores.now w) }
{
    let mut ways = Vec::new(alloc);
    for store in stores {
        push_store(&mut ways, posed, owners, *store)?;
    }
    Ok(ways)
}

// Whether one of the ways leads to the site with this number.
fn is_led(alloc: Global, solved: &Solved, ways: &[Way], site: u32) -> Result<bool, NoMemory>
    ensures { IfOk result (λ is. (p : LinkedProgram) (q : Asked) (d : DemandParts) (o : Site) → IsSolved p q d solved.now → slice_get d.sites site ≡ Some o
        → ((w : AWay) → Has ways.now w → IsNamed d w) → IsTrue is ↔ IsLedTo p q d ways.now o) }
{
    for way in ways {
        if solved.holds(site, way.arg)
            && solved.one_string(alloc, site, way.arg, way.owner, way.base)?
        {
            return Ok(true);
        }
    }
    Ok(false)
}

// The numbers of the sites to which one of the ways leads, ascending.
fn led(alloc: Global, posed: &Posed<'_>, ways: &[Way]) -> Result<Vec<u32>, NoMemory>
    requires few { length posed.now.demand.now.sites < 2 ^ 32 }
    ensures { IfOk result (λ numbers. (q : Asked) → IsPosed posed.now.linked.now q posed.now.demand.now posed.now.solved.now
        → ((w : AWay) → Has ways.now w → IsNamed posed.now.demand.now w)
        → AreNumbersOf posed.now.demand.now.sites (IsLedTo posed.now.linked.now q posed.now.demand.now ways.now) numbers.items) }
{
    let mut numbers = Vec::new(alloc);
    for site in 0..posed.demand.sites().len() as u32 {
        if is_led(alloc, posed.solved, ways, site)? {
            numbers.push(site)?;
        }
    }
    Ok(numbers)
}

/// The numbers of the sites behind a field of the sites with these numbers, ascending.
pub(crate) fn behind(
    alloc: Global,
    posed: &Posed<'_>,
    owners: &[u32],
    field: u32,
) -> Result<Vec<u32>, NoMemory>
    requires few { length posed.now.demand.now.sites < 2 ^ 32 }
    ensures { IfOk result (λ numbers. (q : Asked) → IsPosed posed.now.linked.now q posed.now.demand.now posed.now.solved.now
        → AreNumbersOf posed.now.demand.now.sites
        (IsBehind posed.now.linked.now q (IsAmong posed.now.demand.now.sites owners.now) field) numbers.items) }
{
    let stores = stores_of(alloc, posed.linked, field)?;
    let ways = ways_over(alloc, posed, owners, stores.as_slice())?;
    led(alloc, posed, ways.as_slice())
}
