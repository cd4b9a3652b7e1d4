//! Which sites a local may hold.
ghost use Rattle.std.specs.Prelude.{◌≡◌, ◌≢◌, ◌↔◌, ◌≤◌, ◌∷◌, [], ℕ, Err, IfOk, IsErr};
ghost use Rattle.link_rules.specs.WellLinked.{IsWellLinked};
ghost use Rattle.spds_rules.specs.declared.node.Node.{Node as ANode};
ghost use Rattle.run_covers.specs.Covers.{IsCovered};
ghost use Rattle.query_core.specs.declared.places.Which.{Which as AWhich};
ghost use Rattle.query_core.specs.Answers.{HoldsAllRuns, IsAffordable, IsAnswerTo, IsOver};
ghost use Rattle.query_core.specs.Places.{IsMissing, IsPlaceOf};
ghost use Rattle.query_core.specs.Solvers.{IsDemanded, IsSolution, SolvesDemands, TakesDemands};
ghost use Rattle.std.specs.Thread.{IsSync};

use super::error::QueryError;
use super::finding::find;
use super::hands::{Hands, Solver};
use super::places::place;
use demand_set::Demand;
use jim_ast::List;
use link_program::Linked;
use link_sites::Site;
use lists::NoMemory;
use spds_solve::{Gate, Solved, solve_here};
use std::alloc::Global;
use std::marker::Sync;
use std::thread::Threads;

/// The sites of an answer, in the order in which they are printed, and how many nodes were demanded.
#[derive(Drop)]
pub struct Answer {
    pub sites: List<Site>,
    pub demanded: u32,
}

// The same as `points_to`, by the call that solves a demand.
fn points_to_by<F: Fn(&Linked, &Demand) -> Result<Solved, NoMemory>>(
    solver: &Solver<'_, F>,
    linked: &Linked,
    method: &str,
    index: u32,
    local: &str,
    budget: u32,
) -> Result<Answer, QueryError>
    requires takes { TakesDemands (F.pre solver.now.solve.now) }
    requires gives { SolvesDemands (F.post solver.now.solve.now) }
    requires well { IsWellLinked linked.now }
    ensures answer { IfOk result (λ answer. (n : ANode) × IsPlaceOf linked.now method.now index local.now n
        × IsAnswerTo linked.now n answer.sites answer.demanded) }
    ensures within { IfOk result (λ answer. answer.demanded ≤ budget) }
    ensures missing { (which : AWhich) → (result ≡ Err (QueryError.NoSuchPlace which)) ↔ IsMissing linked.now method.now index local.now which }
    ensures over { (spent : ℕ) → result ≡ Err (QueryError.OverBudget spent)
        → (spent ≡ budget) × ((n : ANode) × IsPlaceOf linked.now method.now index local.now n × IsOver linked.now (n ∷ []) budget) }
    ensures beyond { (n : ANode) → IsPlaceOf linked.now method.now index local.now n → IsOver linked.now (n ∷ []) budget → IsErr result }
    ensures enough { (n : ANode) (spent : ℕ) → IsPlaceOf linked.now method.now index local.now n → IsAffordable linked.now (n ∷ []) budget
        → result ≢ Err (QueryError.OverBudget spent) }
    ensures sound { IsCovered linked.now → IfOk result (λ answer. (n : ANode) → IsPlaceOf linked.now method.now index local.now n
        → HoldsAllRuns linked.now n answer.sites) }
{
    let node = place(linked, method, index, local)?;
    let found = find(solver, linked, node, None, budget)?;
    Ok(Answer {
        sites: found.sites,
        demanded: found.demanded,
    })
}

/// The sites whose objects a local, named as for `place`, may hold just before a statement (Späth, Ali and Bodden 2019), with the size of the demand of
/// its node.
///
/// The error is `NoSuchPlace` exactly where a part of the place isn't there, `OverBudget` exactly where more nodes are demanded than `budget`, and else
/// `NoMemory`. Where the targets of calls cover what runs do, the answer holds for each run of any length: whatever the local holds in a frame that
/// stands there is of one of the sites.
pub fn points_to<R: Threads + Sync, G: Gate>(
    hands: &Hands<'_, R, G>,
    linked: &Linked,
    method: &str,
    index: u32,
    local: &str,
    budget: u32,
) -> Result<Answer, QueryError>
    requires well { IsWellLinked linked.now }
    ensures answer { IfOk result (λ answer. (n : ANode) × IsPlaceOf linked.now method.now index local.now n
        × IsAnswerTo linked.now n answer.sites answer.demanded) }
    ensures within { IfOk result (λ answer. answer.demanded ≤ budget) }
    ensures missing { (which : AWhich) → (result ≡ Err (QueryError.NoSuchPlace which)) ↔ IsMissing linked.now method.now index local.now which }
    ensures over { (spent : ℕ) → result ≡ Err (QueryError.OverBudget spent)
        → (spent ≡ budget) × ((n : ANode) × IsPlaceOf linked.now method.now index local.now n × IsOver linked.now (n ∷ []) budget) }
    ensures beyond { (n : ANode) → IsPlaceOf linked.now method.now index local.now n → IsOver linked.now (n ∷ []) budget → IsErr result }
    ensures enough { (n : ANode) (spent : ℕ) → IsPlaceOf linked.now method.now index local.now n → IsAffordable linked.now (n ∷ []) budget
        → result ≢ Err (QueryError.OverBudget spent) }
    ensures sound { IsCovered linked.now → IfOk result (λ answer. (n : ANode) → IsPlaceOf linked.now method.now index local.now n
        → HoldsAllRuns linked.now n answer.sites) }
{
    let solve = |linked: &Linked, demand: &Demand| -> Result<Solved, NoMemory>
        requires { IsSync R.row × IsSync G.row × IsDemanded linked.now demand.now }
        ensures { IfOk result (IsSolution linked.now demand.now) }
    { hands.solve(linked, demand) };
    let solver = Solver {
        alloc: hands.alloc,
        solve: &solve,
    };
    points_to_by(&solver, linked, method, index, local, budget)
}

/// The same in the caller's thread.
pub fn points_to_here(
    alloc: Global,
    linked: &Linked,
    method: &str,
    index: u32,
    local: &str,
    budget: u32,
) -> Result<Answer, QueryError>
    requires well { IsWellLinked linked.now }
    ensures answer { IfOk result (λ answer. (n : ANode) × IsPlaceOf linked.now method.now index local.now n
        × IsAnswerTo linked.now n answer.sites answer.demanded) }
    ensures within { IfOk result (λ answer. answer.demanded ≤ budget) }
    ensures missing { (which : AWhich) → (result ≡ Err (QueryError.NoSuchPlace which)) ↔ IsMissing linked.now method.now index local.now which }
    ensures over { (spent : ℕ) → result ≡ Err (QueryError.OverBudget spent)
        → (spent ≡ budget) × ((n : ANode) × IsPlaceOf linked.now method.now index local.now n × IsOver linked.now (n ∷ []) budget) }
    ensures beyond { (n : ANode) → IsPlaceOf linked.now method.now index local.now n → IsOver linked.now (n ∷ []) budget → IsErr result }
    ensures enough { (n : ANode) (spent : ℕ) → IsPlaceOf linked.now method.now index local.now n → IsAffordable linked.now (n ∷ []) budget
        → result ≢ Err (QueryError.OverBudget spent) }
    ensures sound { IsCovered linked.now → IfOk result (λ answer. (n : ANode) → IsPlaceOf linked.now method.now index local.now n
        → HoldsAllRuns linked.now n answer.sites) }
{
    let solve = |linked: &Linked, demand: &Demand| -> Result<Solved, NoMemory>
        requires { IsDemanded linked.now demand.now }
        ensures { IfOk result (IsSolution linked.now demand.now) }
    { solve_here(alloc, linked, demand) };
    let solver = Solver {
        alloc,
        solve: &solve,
    };
    points_to_by(&solver, linked, method, index, local, budget)
}
