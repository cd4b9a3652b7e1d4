//! How much a saturation works on: what is done isn't done again. No contract says so.
ghost use Rattle.std.specs.Prelude.{◌≡◌, ◌<◌};

use auto_table::Rule;
use lists::NoMemory;
use post_star::{Start, Work};
use std::alloc::Global;
use std::test::Fail;
use weight_laws::Least;

/// A flow from a node to the next one.
fn add_flow(work: &mut Work<Least>, node: u32) -> Result<(), NoMemory>
    requires { node < 4294967295 }
{
    work.add_rule(Rule::Flow {
        from: node,
        to: node + 1,
        weight: Least(1),
    })
}

/// How many items it takes to go on to the end.
fn items_of(work: &mut Work<Least>) -> Result<u64, NoMemory> {
    let before = work.worked();
    work.settle()?;
    Ok(work.worked().saturating_sub(before))
}

/// The items of a chain of 1,000 flows, and those of one more flow at its end.
fn chain_and_one_more(work: &mut Work<Least>) -> Result<(u64, u64), NoMemory>
    requires { work.old.last ≡ 0 }
{
    work.add_start(Start {
        base: 0,
        node: 0,
        weight: Least(0),
    })?;
    for node in 0..1000 {
        add_flow(work, node)?;
    }
    let first = items_of(work)?;
    add_flow(work, 1000)?;
    let second = items_of(work)?;
    Ok((first, second))
}

/// The same of a new work with no base steps.
fn chain_items(alloc: Global) -> Result<(u64, u64), NoMemory> {
    let mut work = Work::with_bases(alloc, Vec::new(alloc), 0)?;
    chain_and_one_more(&mut work)
}

#[test]
fn old_pairs_are_not_worked_again(rt: HostRuntime) -> Result<(), Fail> {
    let (first, second) = chain_items(rt.alloc())?;
    assert!(rt; first >= 1000);
    assert!(rt; 0 < second && second < 10);
    Ok(())
}
