//! Weights that are raised, and works that are settled.
ghost use Rattle.std.specs.Prelude.{◌≡◌, ◌<◌};

use auto_table::{Entry, Rule, Table};
use lists::NoMemory;
use post_star::{Start, Work};
use std::alloc::Global;
use std::test::Fail;
use weight_laws::{Least, Weight};

// Raises a weight, once more where there was no memory.
fn raised(table: &mut Table<Least>, node: u32) -> Result<bool, NoMemory> {
    let entry = Entry::Pushed { node, mark: 7 };
    match table.raise(entry, 3, Least(node)) {
        Ok(new) => Ok(new),
        Err(_) => {
            let kept = table.at(entry, 3) == Least::zero();
            Ok(table.raise(entry, 3, Least(node))? && kept)
        }
    }
}

#[test]
fn tables_go_on(rt: HostRuntime) -> Result<(), Fail> {
    let mut table = Table::new(rt.alloc());
    for node in 0..20u32 {
        assert!(rt; raised(&mut table, node)?);
    }
    for node in 0..20u32 {
        assert!(rt; table.at(Entry::Pushed { node, mark: 7 }, 3) == Least(node));
    }
    assert_eq!(rt; table.entries().len(), 20);
    Ok(())
}

// A chain of calls into one method, from which each returns.
fn chain(alloc: Global) -> Result<Work<Least>, NoMemory> {
    let mut work = Work::with_bases(alloc, Vec::new(alloc), 0)?;
    work.add_start(Start {
        base: 0,
        node: 0,
        weight: Least(0),
    })?;
    for node in 0..12u32 {
        work.add_rule(Rule::Push {
            from: 2 * node,
            to: 100,
            mark: node + 1,
            weight: Least(1),
        })?;
        work.add_rule(Rule::Pop {
            from: 101,
            mark: node + 1,
            to: 2 * node + 2,
            weight: Least(1),
        })?;
    }
    work.add_rule(Rule::Flow {
        from: 100,
        to: 101,
        weight: Least(1),
    })?;
    Ok(work)
}

// Settles it, once more where there was no memory.
fn settled(alloc: Global) -> Result<Work<Least>, NoMemory> {
    let mut work = match chain(alloc) {
        Ok(work) => work,
        Err(_) => chain(alloc)?,
    };
    if work.settle().is_err() {
        work.settle()?;
    }
    Ok(work)
}

#[test]
fn works_go_on(rt: HostRuntime) -> Result<(), Fail> {
    let work = settled(rt.alloc())?;
    assert!(rt; work.settled());
    let table = work.table();
    for node in 0..13u32 {
        assert!(rt; table.at(Entry::Base(0), 2 * node) == Least(3 * node));
    }
    Ok(())
}
