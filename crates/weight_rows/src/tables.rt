//! What tables keep of the weights that are raised in them.
use auto_table::{Entry, Linked, Reached, Table};
use std::alloc::{AllocError, Global};
use std::test::Fail;
use weight_laws::{Least, Pair, Reach, Rel, Weight};

const BASE: Entry = Entry::Base(4);

const PUSHED: Entry = Entry::Pushed { node: 1, mark: 7 };

/// Raises one weight twice, at a node and at a link. The second time it was already there.
fn raise_twice<W: Weight>(table: &mut Table<W>, weight: W) -> Result<bool, AllocError> {
    let first = table.raise(BASE, 3, weight)?;
    let again = table.raise(BASE, 3, weight)?;
    let linked = table.raise_link(PUSHED, BASE, weight)?;
    let linked_again = table.raise_link(PUSHED, BASE, weight)?;
    Ok(first && !again && linked && !linked_again)
}

fn has_only<W: Weight>(table: &Table<W>, weight: W) -> bool {
    table.at(BASE, 3) == weight
        && table.link_at(PUSHED, BASE) == weight
        && table.at(BASE, 4) == W::zero()
        && table.link_at(BASE, PUSHED) == W::zero()
        && table.entries().len() == 2
}

fn holds_in<W: Weight>(table: &mut Table<W>, weight: W) -> Result<bool, AllocError> {
    let raised = raise_twice(table, weight)?;
    Ok(raised && has_only(table, weight))
}

fn holds<W: Weight>(alloc: Global, weight: W) -> Result<bool, AllocError> {
    let mut table = Table::new(alloc);
    holds_in(&mut table, weight)
}

#[test]
fn each_domain(rt: HostRuntime) -> Result<(), Fail> {
    let mut words = [0; 16];
    words[2] = 8;
    assert!(rt; holds(rt.alloc(), Reach(true))?);
    assert!(rt; holds(rt.alloc(), Rel(words))?);
    assert!(rt; holds(rt.alloc(), Least(9))?);
    assert!(rt; holds(rt.alloc(), Pair(Least(9), Reach(false)))?);
    Ok(())
}

fn filled(table: &mut Table<Least>) -> Result<bool, AllocError> {
    table.raise(BASE, 2, Least(u32::MAX))?;
    for (node, cost) in [(3, 9), (5, 2), (3, 4), (3, 6)] {
        table.raise(BASE, node, Least(cost))?;
    }
    table.raise_link(PUSHED, BASE, Least(8))?;
    table.raise_link(PUSHED, PUSHED, Least(3))?;
    Ok(has_rows(table))
}

fn has_rows(table: &Table<Least>) -> bool {
    let row = [
        Reached {
            node: 3,
            weight: Least(4),
        },
        Reached {
            node: 5,
            weight: Least(2),
        },
    ];
    let parents = [
        Linked {
            parent: BASE,
            weight: Least(8),
        },
        Linked {
            parent: PUSHED,
            weight: Least(3),
        },
    ];
    table.row(BASE) == row.as_slice()
        && table.row(PUSHED).is_empty()
        && table.parents(PUSHED) == parents.as_slice()
        && table.parents(BASE).is_empty()
        && table.entries() == [BASE, PUSHED].as_slice()
}

fn fills(alloc: Global) -> Result<bool, AllocError> {
    let mut table = Table::new(alloc);
    filled(&mut table)
}

#[test]
fn rows(rt: HostRuntime) -> Result<(), Fail> {
    assert!(rt; fills(rt.alloc())?);
    Ok(())
}

/// What `raise` answers to 5, 5, 6 and 4 at one place, and then to 4 at another.
fn answers(table: &mut Table<Least>) -> Result<[bool; 5], AllocError> {
    let first = table.raise(BASE, 1, Least(5))?;
    let same = table.raise(BASE, 1, Least(5))?;
    let worse = table.raise(BASE, 1, Least(6))?;
    let better = table.raise(BASE, 1, Least(4))?;
    let elsewhere = table.raise(PUSHED, 1, Least(4))?;
    Ok([first, same, worse, better, elsewhere])
}

fn answers_of_new(alloc: Global) -> Result<[bool; 5], AllocError> {
    let mut table = Table::new(alloc);
    answers(&mut table)
}

#[test]
fn raise_says_whether_it_rose(rt: HostRuntime) -> Result<(), Fail> {
    assert!(rt; answers_of_new(rt.alloc())? == [true, false, false, true, true]);
    Ok(())
}
