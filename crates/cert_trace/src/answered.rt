//! The sites of an answer.
ghost use Rattle.std.specs.Prelude.{◌≡◌, ℕ, suc, IfOk, OnOk, Some, slice_get};
ghost use Rattle.link_rules.specs.Linked.{LinkedProgram};
ghost use Rattle.link_sites.specs.declared.site.Site.{Site as AnySite};
ghost use Rattle.demand_set.specs.Demands.{DemandParts};
ghost use Rattle.spds_rules.specs.declared.node.Node.{Node as AnyNode};
ghost use Rattle.spds_rules.specs.Answers.{IsAnswered};
ghost use Rattle.spds_rules.specs.Demand.{Asked};
ghost use Rattle.spds_solve.specs.Solved.{IsSolved};
ghost use Rattle.cert_work.specs.Wants.{IsEverywhere};

use cert_lines::Origin;
use cert_work::Wants;
use demand_set::Demand;
use link_sites::Site;
use lists::NoMemory;
use spds_solve::Solved;
use std::alloc::AllocError;

// The next number.
fn after(number: u32) -> Result<u32, NoMemory>
    ensures { IfOk result (λ next. next ≡ suc number) }
{
    match number.checked_add(1) {
        Some(next) => Ok(next),
        None => Err(AllocError),
    }
}

// Lets objects of a site be followed everywhere, if the target may hold them.
fn want_if(
    solved: &Solved,
    wants: &mut Wants,
    site: Site,
    number: u32,
    target: u32,
) -> Result<(), NoMemory>
    ensures wanted { OnOk result ((p : LinkedProgram) (q : Asked) (d : DemandParts) (n : AnyNode) → IsSolved p q d solved.now → slice_get d.sites number ≡ Some site
        → slice_get d.nodes target ≡ Some n → IsAnswered p q n site → IsEverywhere wants.new site) }
    ensures kept { OnOk result ((o : AnySite) → IsEverywhere wants.old o → IsEverywhere wants.new o) }
    ensures ahead { OnOk result (wants.new.ahead ≡ wants.old.ahead) }
{
    if solved.holds(number, target) {
        wants.sites.add(Origin { site })?;
    }
    Ok(())
}

/// Lets objects of the sites that the node with the number may hold be followed everywhere. Costs a look-up for each site of the demand.
pub(crate) fn want_answered(
    demand: &Demand,
    solved: &Solved,
    wants: &mut Wants,
    target: u32,
) -> Result<(), NoMemory>
    ensures wanted { OnOk result ((p : LinkedProgram) (q : Asked) (n : AnyNode) → IsSolved p q demand.now solved.now → slice_get demand.now.nodes target ≡ Some n
        → (i : ℕ) (o : AnySite) → slice_get demand.now.sites i ≡ Some o → IsAnswered p q n o → IsEverywhere wants.new o) }
    ensures ahead { OnOk result (wants.new.ahead ≡ wants.old.ahead) }
{
    let sites = demand.sites();
    let mut number: u32 = 0;
    while (number as usize) < sites.len() {
        want_if(solved, wants, sites[number as usize], number, target)?;
        number = after(number)?;
    }
    Ok(())
}
