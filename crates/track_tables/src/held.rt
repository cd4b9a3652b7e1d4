//! Where objects of sites are held.
ghost use Rattle.std.specs.Prelude.{◌≡◌, ℕ, Some, eqb, slice_get, IfOk};
ghost use Rattle.demand_set.specs.Demands.{DemandParts};
ghost use Rattle.lists.specs.Groups.{items_with};
ghost use Rattle.link_rules.specs.Linked.{LinkedProgram};
ghost use Rattle.link_sites.specs.declared.site.Site.{Site as ASite};
ghost use Rattle.spds_rules.specs.Demand.{Asked};
ghost use Rattle.spds_solve.specs.Solved.{IsSolved};
ghost use Rattle.track_tables.specs.Held.{AreHeldAt, AreHeldIn, AreOfDemand};

use super::noted::note;
use lists::{Groups, Keyed, NoMemory};
use spds_solve::Solved;
use spds_tables::count_of;
use std::alloc::Global;

// The places of the nodes, each noted for the sites of which its node may hold objects.
fn note_all(alloc: Global, solved: &Solved, nodes: &[u32]) -> Result<Vec<Keyed<u32, u32>>, NoMemory>
    ensures { IfOk result (λ noted. (p : LinkedProgram) (q : Asked) (d : DemandParts) (site : ℕ) (a : ASite) → IsSolved p q d solved.now → AreOfDemand d nodes.now
        → slice_get d.sites site ≡ Some a → AreHeldAt p q d a nodes.now (items_with eqb noted.items site)) }
{
    let holders = solved.holders(alloc)?;
    let mut noted = Vec::new(alloc);
    for place in 0..count_of(nodes.len())? {
        let sites = solved.holding(alloc, &holders, nodes[place as usize])?;
        note(sites.keys(), place, &mut noted)?;
    }
    Ok(noted)
}

/// For each site of a solved demand the places in the list, from 0 and in order, at which a node may hold objects of the site. The nodes are told by their
/// numbers in the demand. The time goes by the nodes, and by the sites that come to their cells. Want of memory is the only refusal.
pub fn held_in(alloc: Global, solved: &Solved, nodes: &[u32]) -> Result<Groups<u32, u32>, NoMemory>
    ensures { IfOk result (λ held. (p : LinkedProgram) (q : Asked) (d : DemandParts) → IsSolved p q d solved.now → AreOfDemand d nodes.now
        → AreHeldIn p q d nodes.now held) }
{
    let noted = note_all(alloc, solved, nodes)?;
    Groups::of(alloc, &noted)
}
