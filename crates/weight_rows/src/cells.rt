//! The cells of small systems, and the rules between their heads.
ghost use Rattle.std.specs.Prelude.{◌<◌};

use auto_table::Rule;
use lists::NoMemory;
use rule_cells::{Cell, Contracted, cells_of, contract, number_heads, renumber};
use std::alloc::Global;
use std::test::Fail;
use weight_laws::{Least, Reach, Rel, Weight};

fn flow<W: Weight>(from: u32, to: u32, weight: W) -> Rule<W> {
    Rule::Flow { from, to, weight }
}

fn cell<W: Weight>(head: u32, offset: W) -> Cell<W> {
    Cell { head, offset }
}

/// A chain from 5 to 2; a node that two flows lead to, one of a push, one of a pop, and one that is kept.
fn rules_of_all_kinds() -> [Rule<Least>; 8] {
    [
        flow(5, 4, Least(1)),
        flow(4, 3, Least(2)),
        flow(3, 2, Least(4)),
        flow(3, 1, Least(8)),
        flow(2, 1, Least(16)),
        Rule::Push {
            from: 4,
            to: 0,
            mark: 7,
            weight: Least(3),
        },
        Rule::Pop {
            from: 0,
            mark: 7,
            to: 6,
            weight: Least(5),
        },
        flow(8, 7, Least(1)),
    ]
}

fn has_cells(cells: &[Cell<Least>]) -> bool {
    let wanted = [
        (0, 0),
        (1, 0),
        (5, 7),
        (5, 3),
        (5, 1),
        (5, 0),
        (6, 0),
        (7, 0),
        (8, 0),
    ];
    let mut same = cells.len() == wanted.len();
    for (cell, (head, offset)) in cells.iter().zip(wanted) {
        same = same && cell.head == head && cell.offset.0 == offset;
    }
    same
}

fn has_rules(few: &Contracted<Least>) -> bool {
    let rules = [
        flow(5, 1, Least(11)),
        flow(5, 1, Least(23)),
        Rule::Push {
            from: 5,
            to: 0,
            mark: 7,
            weight: Least(4),
        },
        Rule::Pop {
            from: 0,
            mark: 7,
            to: 6,
            weight: Least(5),
        },
        flow(8, 7, Least(1)),
    ];
    few.rules.as_slice() == rules.as_slice() && few.sources.as_slice() == [3, 4, 5, 6, 7].as_slice()
}

fn kinds_hold(alloc: Global) -> Result<bool, NoMemory> {
    let rules = rules_of_all_kinds();
    let made = cells_of(alloc, 9, &rules, &[5, 7])?;
    let few = contract(alloc, &made.cells, &rules)?;
    Ok(has_cells(&made.cells) && has_rules(&few))
}

#[test]
fn all_kinds(rt: HostRuntime) -> Result<(), Fail> {
    assert!(rt; kinds_hold(rt.alloc())?);
    Ok(())
}

/// The relation with one pair.
fn leading(from: usize, to: u32) -> Rel
    requires from { from < 16 }
    requires to { to < 16 }
{
    let mut words = [0; 16];
    words[from] = 1 << to;
    Rel(words)
}

/// A circle of two flows, and a node that comes from it, twice by the same flow.
fn circle_holds(alloc: Global) -> Result<bool, NoMemory> {
    let rules = [
        flow(1, 2, leading(1, 2)),
        flow(2, 1, leading(2, 0)),
        flow(1, 0, leading(1, 3)),
        flow(1, 0, leading(1, 3)),
    ];
    let made = cells_of(alloc, 3, &rules, &[])?;
    let few = contract(alloc, &made.cells, &rules)?;
    let wanted = [
        cell(1, leading(1, 3)),
        cell(1, Rel::one()),
        cell(1, leading(1, 2)),
    ];
    Ok(
        made.cells.as_slice() == wanted.as_slice()
            && few.rules.as_slice() == [flow(1, 1, leading(1, 0))].as_slice()
            && few.sources.as_slice() == [1].as_slice(),
    )
}

#[test]
fn circles(rt: HostRuntime) -> Result<(), Fail> {
    assert!(rt; circle_holds(rt.alloc())?);
    Ok(())
}

/// How many of so many nodes are their own heads.
fn heads(alloc: Global, count: u32, rules: &[Rule<Reach>]) -> Result<usize, NoMemory> {
    let made = cells_of(alloc, count, rules, &[])?;
    Ok(
        made.cells
            .iter()
            .enumerate()
            .filter(|(node, cell)| cell.head as usize == *node)
            .count(),
    )
}

fn copy(from: u32, to: u32) -> Rule<Reach> {
    flow(from, to, Reach(true))
}

/// So many nodes in a row, each a copy of the one before: numbers rise, or fall, or it ends where it begins.
fn chain_cells(alloc: Global, count: u32) -> Result<(usize, usize, usize), NoMemory>
    requires { 0 < count }
{
    let mut rising = Vec::new(alloc);
    let mut falling = Vec::new(alloc);
    for node in 1..count {
        rising.push(copy(node - 1, node))?;
        falling.push(copy(node, node - 1))?;
    }
    let one = heads(alloc, count, &rising)?;
    let other = heads(alloc, count, &falling)?;
    rising.push(copy(count - 1, 0))?;
    Ok((one, other, heads(alloc, count, &rising)?))
}

#[test]
fn chains(rt: HostRuntime) -> Result<(), Fail> {
    assert!(rt; chain_cells(rt.alloc(), 1000)? == (1, 1, 1));
    Ok(())
}

/// A local that is used at so many nodes in a row, each time for the same node.
fn used_cells(alloc: Global, uses: u32) -> Result<usize, NoMemory>
    requires { uses < 1000 }
{
    let mut rules = Vec::new(alloc);
    for node in 1..uses {
        rules.push(copy(node, node + 1))?;
        rules.push(copy(node, 0))?;
    }
    rules.push(copy(uses, 0))?;
    heads(alloc, uses + 1, &rules)
}

#[test]
fn uses(rt: HostRuntime) -> Result<(), Fail> {
    let few = used_cells(rt.alloc(), 8)?;
    let many = used_cells(rt.alloc(), 64)?;
    assert!(rt; few == 2 && many == 2);
    Ok(())
}

/// Of nodes 0 to 4 nodes 1, 2 and 4 are heads, by two pushes and a flow that isn't alone.
fn numbers_hold(alloc: Global) -> Result<bool, NoMemory> {
    let rules = [
        copy(1, 0),
        Rule::Push {
            from: 4,
            to: 2,
            mark: 7,
            weight: Reach(true),
        },
        copy(2, 3),
        copy(4, 1),
        copy(3, 1),
    ];
    let made = cells_of(alloc, 5, &rules, &[])?;
    let few = contract(alloc, &made.cells, &rules)?;
    let numbers = number_heads(alloc, &made.cells, 5)?;
    let dense = renumber(alloc, &few.rules, &numbers.numbers)?;
    let wanted = [
        Rule::Push {
            from: 2,
            to: 1,
            mark: 7,
            weight: Reach(true),
        },
        copy(2, 0),
        copy(1, 0),
    ];
    Ok(
        numbers.heads.as_slice() == [1, 2, 4].as_slice()
            && numbers.numbers.as_slice() == [0, 0, 1, 1, 2].as_slice()
            && dense.as_slice() == wanted.as_slice(),
    )
}

#[test]
fn numbers(rt: HostRuntime) -> Result<(), Fail> {
    assert!(rt; numbers_hold(rt.alloc())?);
    Ok(())
}
