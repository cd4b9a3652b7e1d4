//! Sites by their numbers.
ghost use Rattle.std.specs.Prelude.{◌≡◌, ◌<◌, ◌^◌, ℕ, IfOk, Some, length, slice_get};
ghost use Rattle.lists.specs.Lists.{Has, Each};
ghost use Rattle.link_rules.specs.Linked.{LinkedProgram};
ghost use Rattle.spds_rules.specs.declared.node.Node.{Node};
ghost use Rattle.spds_rules.specs.Answers.{IsAnswered};
ghost use Rattle.spds_rules.specs.Demand.{Asked};
ghost use Rattle.path_query.specs.Numbers.{AreNumbersOf, IsPosed};

use demand_set::Demand;
use link_sites::Site;
use lists::NoMemory;
use spds_solve::Solved;
use std::alloc::Global;

/// The numbers of the sites whose objects the node with this number may hold, ascending.
pub(crate) fn held(
    alloc: Global,
    demand: &Demand,
    solved: &Solved,
    node: u32,
) -> Result<Vec<u32>, NoMemory>
    requires few { length demand.now.sites < 2 ^ 32 }
    ensures { IfOk result (λ numbers. (p : LinkedProgram) (q : Asked) (n : Node) → IsPosed p q demand.now solved.now
        → slice_get demand.now.nodes node ≡ Some n → AreNumbersOf demand.now.sites (IsAnswered p q n) numbers.items) }
{
    let mut numbers = Vec::new(alloc);
    for site in 0..demand.sites().len() as u32 {
        if solved.holds(site, node) {
            numbers.push(site)?;
        }
    }
    Ok(numbers)
}

/// The sites with these numbers, in their order.
pub(crate) fn sites_at(
    alloc: Global,
    demand: &Demand,
    numbers: &[u32],
) -> Result<Vec<Site>, NoMemory>
    requires { (k : ℕ) → Has numbers.now k → k < length demand.now.sites }
    ensures { IfOk result (λ sites. Each (λ k o. slice_get demand.now.sites k ≡ Some o) numbers.now sites.items) }
{
    let mut sites = Vec::new(alloc);
    for number in numbers {
        sites.push(demand.sites()[*number as usize])?;
    }
    Ok(sites)
}
