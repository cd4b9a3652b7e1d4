//! That a demand of more sites than one piece has is solved in pieces as in one thread: the same meets, in the same order.
ghost use Rattle.demand_set.specs.Demands.{IsDemandOf};
ghost use Rattle.link_rules.specs.WellLinked.{IsWellLinked};
ghost use Rattle.spds_rules.specs.Demand.{Asked};
ghost use Rattle.spds_rules.specs.Nodes.{IsNode};

use demand_set::{Demand, DemandError, Reach};
use link_program::Linked;
use linked_text::linked_of;
use linked_text::spelled::node;
use lists::NoMemory;
use program_demand::demand;
use spds_nodes::is_node;
use spds_rules::Node;
use spds_solve::{Met, Solved, solve, solve_here};
use std::alloc::{AllocError, Global};
use std::marker::Sync;
use std::thread::Threads;

// A list of twenty cells, built cell by cell and read to its end. Each cell meets each one in front of it, since a call system keeps no fields.
fn cells(alloc: Global) -> Result<String, AllocError> {
    let mut text = String::from_str(
        alloc,
        "class N { N next; } class Main { static void main(java.lang.String[]) { N n, m, x; n = new N; ",
    )?;
    for _ in 1..20u32 {
        text.push_str("m = new N; m.<N: N next> = n; n = m; ")?;
    }
    text.push_str("x = n; ")?;
    for _ in 1..20u32 {
        text.push_str("x = x.<N: N next>; ")?;
    }
    text.push_str("return; } }")?;
    Ok(text)
}

// Before the return of `main`.
const END: &str = "0.78.l2";

fn is_same(met: &Met, other: &Met) -> bool {
    (met.object, met.base, met.store) == (other.object, other.base, other.store)
        && met.string.as_slice() == other.string.as_slice()
}

// Whether both have the same 190 meets, in the same order.
fn have_same(solved: &Solved, other: &Solved) -> bool {
    let (mets, others) = (solved.meets(), other.meets());
    mets.len() == 190
        && others.len() == 190
        && mets
            .iter()
            .zip(others.iter())
            .all(|(met, other)| is_same(met, other))
}

// Whether what is solved in pieces is the same.
fn is_same_in_pieces<R: Threads + AllocGlobal + Sync>(
    rt: &R,
    linked: &Linked,
    found: &Demand,
    solved: &Solved,
) -> Result<bool, NoMemory>
    requires well { IsWellLinked linked.now }
    requires demanded { (q : Asked) × IsDemandOf linked.now q found.now }
{
    match solve(rt, rt.alloc(), linked, found) {
        Ok(other) => Ok(have_same(solved, &other)),
        Err(error) => Err(error),
    }
}

fn is_solved_alike<R: Threads + AllocGlobal + Sync>(
    rt: &R,
    linked: &Linked,
    found: &Demand,
) -> Result<bool, NoMemory>
    requires well { IsWellLinked linked.now }
    requires demanded { (q : Asked) × IsDemandOf linked.now q found.now }
{
    match solve_here(rt.alloc(), linked, found) {
        Ok(solved) => is_same_in_pieces(rt, linked, found, &solved),
        Err(error) => Err(error),
    }
}

fn is_demanded<R: Threads + AllocGlobal + Sync>(
    rt: &R,
    linked: &Linked,
    target: Node,
) -> Result<bool, NoMemory>
    requires well { IsWellLinked linked.now }
    requires target { IsNode linked.now target }
{
    match demand(rt.alloc(), linked, &[target], Reach::Plain, u32::MAX) {
        Ok(found) => Ok(found.sites().len() == 20 && is_solved_alike(rt, linked, &found)?),
        Err(DemandError::OverBudget { .. }) => Ok(false),
        Err(DemandError::NoMemory) => Err(AllocError),
    }
}

fn is_right<R: Threads + AllocGlobal + Sync>(rt: &R) -> Result<bool, NoMemory> {
    let text = cells(rt.alloc())?;
    let Some(Ok(linked)) = linked_of(rt.alloc(), text.as_str()) else {
        return Ok(false);
    };
    match node(END) {
        Some(target) if is_node(&linked, target) => is_demanded(rt, &linked, target),
        _ => Ok(false),
    }
}

#[test]
fn pieces_find_the_same(rt: HostRuntime) -> Result<(), NoMemory> {
    assert!(rt; is_right(&rt)?);
    Ok(())
}
