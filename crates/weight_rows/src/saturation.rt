//! Saturation of small systems, and of systems to which rules come later: what their tables read was found by hand.
ghost use Rattle.std.specs.Prelude.{◌≡◌, ◌∷◌, []};

use auto_table::{Entry, Rule, Table};
use lists::NoMemory;
use post_star::{BaseStep, Bases, Start, Work, any_value, saturate, value};
use std::alloc::Global;
use std::test::Fail;
use weight_laws::{Least, Pair, Reach, Rel, Weight};

/// The table of the rules from node 0 with the empty word.
fn from_node_0<W: Weight>(alloc: Global, rules: &[Rule<W>]) -> Result<Table<W>, NoMemory> {
    let mut starts = Vec::new(alloc);
    starts.push(Start {
        base: 0,
        node: 0,
        weight: W::one(),
    })?;
    let bases = Bases {
        steps: &[],
        last: 0,
    };
    saturate(alloc, rules, &starts, &bases)
}

/// What the table reads with no base steps.
fn read<W: Weight>(table: &Table<W>, node: u32, word: &[u32]) -> W {
    value(
        table,
        &Bases {
            steps: &[],
            last: 0,
        },
        node,
        word,
    )
}

/// A push, a flow in a circle and a pop, with one weight each.
fn circle<W: Weight>(rules: &mut Vec<Rule<W>>, weight: W) -> Result<(), NoMemory> {
    rules.push(Rule::Push {
        from: 0,
        to: 1,
        mark: 7,
        weight,
    })?;
    rules.push(Rule::Flow {
        from: 1,
        to: 1,
        weight,
    })?;
    rules.push(Rule::Pop {
        from: 1,
        mark: 7,
        to: 2,
        weight,
    })?;
    Ok(())
}

/// Whether node 2 has the value with the empty word, and over all words.
fn ends_with<W: Weight>(alloc: Global, table: &Table<W>, least: W) -> Result<bool, NoMemory> {
    let any = any_value(alloc, table, 2)?;
    Ok(read(table, 2, &[]) == least && any == least)
}

/// Whether the circle leads to node 2 with the value.
fn round<W: Weight>(alloc: Global, weight: W, least: W) -> Result<bool, NoMemory> {
    let mut rules = Vec::new(alloc);
    circle(&mut rules, weight)?;
    let table = from_node_0(alloc, &rules)?;
    ends_with(alloc, &table, least)
}

/// Whether the table reads each of the costs, at its node and word.
fn all_read(table: &Table<Least>, bases: &Bases<'_>, costs: &[(u32, &[u32], u32)]) -> bool {
    for (node, word, least) in costs {
        if value(table, bases, *node, word).0 != *least {
            return false;
        }
    }
    true
}

#[test]
fn each_domain(rt: HostRuntime) -> Result<(), Fail> {
    assert!(rt; round(rt.alloc(), Reach(true), Reach(true))?);
    assert!(rt; round(rt.alloc(), Least(3), Least(6))?);
    assert!(rt;
        round(
            rt.alloc(),
            Pair(Least(1), Reach(false)),
            Pair(Least(2), Reach(false))
        )?
    );
    let mut words = [0; 16];
    words[0] = 2;
    words[1] = 4;
    words[2] = 8;
    words[3] = 16;
    let mut twice_or_more = [0; 16];
    twice_or_more[0] = 4 | 8 | 16;
    twice_or_more[1] = 8 | 16;
    twice_or_more[2] = 16;
    assert!(rt; round(rt.alloc(), Rel(words), Rel(twice_or_more))?);
    Ok(())
}

/// The table of a flow, a push and a pop.
fn pushed_and_popped(alloc: Global) -> Result<Table<Least>, NoMemory> {
    let rules = [
        Rule::Flow {
            from: 0,
            to: 1,
            weight: Least(2),
        },
        Rule::Push {
            from: 1,
            to: 2,
            mark: 7,
            weight: Least(1),
        },
        Rule::Pop {
            from: 2,
            mark: 7,
            to: 3,
            weight: Least(4),
        },
    ];
    from_node_0(alloc, &rules)
}

/// Whether that table has the costs that it should have.
fn has_pushed(alloc: Global, table: &Table<Least>) -> Result<bool, NoMemory> {
    let bases = Bases {
        steps: &[],
        last: 0,
    };
    let costs = [
        (0, [].as_slice(), 0),
        (1, [].as_slice(), 2),
        (2, [7].as_slice(), 3),
        (2, [].as_slice(), u32::MAX),
        (2, [7, 7].as_slice(), u32::MAX),
        (3, [].as_slice(), 7),
        (3, [7].as_slice(), u32::MAX),
    ];
    let any = any_value(alloc, table, 2)?;
    Ok(any.0 == 3 && all_read(table, &bases, &costs))
}

/// Whether the saturated table has them.
fn pushes_hold(alloc: Global) -> Result<bool, NoMemory> {
    let table = pushed_and_popped(alloc)?;
    has_pushed(alloc, &table)
}

#[test]
fn pushes_and_pops(rt: HostRuntime) -> Result<(), Fail> {
    assert!(rt; pushes_hold(rt.alloc())?);
    Ok(())
}

/// Base 1 stands for a 5, then any number of 6, then a 5.
fn circles(alloc: Global, steps: &[BaseStep]) -> Result<Table<Least>, NoMemory>
    requires { steps.now ≡ record { base = 1; mark = 5; below = 2 } ∷ record { base = 2; mark = 6; below = 2 } ∷ record { base = 2; mark = 5; below = 0 } ∷ [] }
{
    let rules = [
        Rule::Pop {
            from: 0,
            mark: 5,
            to: 1,
            weight: Least(1),
        },
        Rule::Pop {
            from: 1,
            mark: 6,
            to: 1,
            weight: Least(10),
        },
        Rule::Push {
            from: 1,
            to: 2,
            mark: 9,
            weight: Least(2),
        },
        Rule::Push {
            from: 2,
            to: 2,
            mark: 9,
            weight: Least(3),
        },
        Rule::Pop {
            from: 2,
            mark: 9,
            to: 3,
            weight: Least(0),
        },
    ];
    let starts = [Start {
        base: 1,
        node: 0,
        weight: Least(100),
    }];
    saturate(alloc, &rules, &starts, &Bases { steps, last: 0 })
}

/// Whether the words that the bases stand for have the costs that they should have.
fn circles_hold(alloc: Global) -> Result<bool, NoMemory> {
    let steps = [
        BaseStep {
            base: 1,
            mark: 5,
            below: 2,
        },
        BaseStep {
            base: 2,
            mark: 6,
            below: 2,
        },
        BaseStep {
            base: 2,
            mark: 5,
            below: 0,
        },
    ];
    let bases = Bases {
        steps: &steps,
        last: 0,
    };
    let costs = [
        (0, [5, 6, 5].as_slice(), 100),
        (0, [6, 5].as_slice(), u32::MAX),
        (1, [6, 5].as_slice(), 101),
        (1, [].as_slice(), u32::MAX),
        (2, [9, 5].as_slice(), 103),
        (2, [9, 9, 6, 5].as_slice(), 106),
        (3, [6, 6, 5].as_slice(), 103),
        (3, [9, 5].as_slice(), 106),
    ];
    let table = circles(alloc, &steps)?;
    Ok(all_read(&table, &bases, &costs))
}

#[test]
fn bases_and_circles(rt: HostRuntime) -> Result<(), Fail> {
    assert!(rt; circles_hold(rt.alloc())?);
    Ok(())
}

/// Begins at node 0.
fn start(work: &mut Work<Least>) -> Result<(), NoMemory>
    requires { work.old.last ≡ 0 }
{
    work.add_start(Start {
        base: 0,
        node: 0,
        weight: Least(0),
    })
}

/// The value at the node after the work has come to the end.
fn settled_value(work: &mut Work<Least>, node: u32) -> Result<u32, NoMemory> {
    work.settle()?;
    Ok(value(work.table(), &work.bases(), node, &[]).0)
}

/// Rules come in after a work was settled, and the values follow.
fn goes_on(work: &mut Work<Least>) -> Result<bool, NoMemory>
    requires { work.old.last ≡ 0 }
{
    start(work)?;
    work.add_rule(Rule::Flow {
        from: 0,
        to: 1,
        weight: Least(2),
    })?;
    let open = !work.settled();
    let first = settled_value(work, 1)?;
    work.add_rule(Rule::Push {
        from: 1,
        to: 2,
        mark: 7,
        weight: Least(1),
    })?;
    work.add_rule(Rule::Pop {
        from: 2,
        mark: 7,
        to: 3,
        weight: Least(4),
    })?;
    let second = settled_value(work, 3)?;
    work.add_rule(Rule::Flow {
        from: 0,
        to: 3,
        weight: Least(3),
    })?;
    let third = settled_value(work, 3)?;
    Ok(open && work.settled() && first == 2 && second == 7 && third == 3)
}

/// The same of a work with no base steps.
fn went_on(alloc: Global) -> Result<bool, NoMemory> {
    let mut work = Work::with_bases(alloc, Vec::new(alloc), 0)?;
    goes_on(&mut work)
}

#[test]
fn rules_come_in(rt: HostRuntime) -> Result<(), Fail> {
    assert!(rt; went_on(rt.alloc())?);
    Ok(())
}

/// A table that no saturation made: a circle, and a link of a base, which no reading follows.
fn foreign(alloc: Global, table: &mut Table<Least>) -> Result<bool, NoMemory> {
    let inner = Entry::Pushed { node: 1, mark: 7 };
    table.raise(inner, 5, Least(1))?;
    table.raise_link(inner, inner, Least(2))?;
    let none = any_value(alloc, table, 5)?;
    table.raise_link(inner, Entry::Base(3), Least(10))?;
    table.raise_link(Entry::Base(3), Entry::Base(4), Least(0))?;
    let one = any_value(alloc, table, 5)?;
    Ok(none.0 == u32::MAX && one.0 == 11)
}

/// Whether a new table can become that one.
fn made_foreign(alloc: Global) -> Result<bool, NoMemory> {
    let mut table = Table::new(alloc);
    foreign(alloc, &mut table)
}

#[test]
fn any_table(rt: HostRuntime) -> Result<(), Fail> {
    assert!(rt; made_foreign(rt.alloc())?);
    Ok(())
}
