//! Words that two tables share, and the ways of bases to the root.
use auto_table::{Entry, Table};
use call_side::{IndexedBases, entries_at, shared, shared_at, shared_from};
use lists::NoMemory;
use post_star::{BaseStep, Bases, value};
use std::alloc::Global;
use std::test::Fail;
use weight_laws::Reach;

/// The root is 3. It calls 1 by the call 10, which calls 0 by 11 and by 12; 0 calls 2 by 13. Nothing calls 30, which calls 31 by 15.
const STEPS: [BaseStep; 5] = [
    BaseStep {
        base: 0,
        mark: 11,
        below: 1,
    },
    BaseStep {
        base: 0,
        mark: 12,
        below: 1,
    },
    BaseStep {
        base: 1,
        mark: 10,
        below: 3,
    },
    BaseStep {
        base: 2,
        mark: 13,
        below: 0,
    },
    BaseStep {
        base: 31,
        mark: 15,
        below: 30,
    },
];

const ROOT: u32 = 3;

fn pushed(node: u32, mark: u32) -> Entry {
    Entry::Pushed { node, mark }
}

fn reach(table: &mut Table<Reach>, entry: Entry, node: u32) -> Result<(), NoMemory> {
    table.raise(entry, node, Reach(true))?;
    Ok(())
}

fn link(table: &mut Table<Reach>, child: Entry, parent: Entry) -> Result<(), NoMemory> {
    table.raise_link(child, parent, Reach(true))?;
    Ok(())
}

/// Node 5: 10, and 11 10. Node 6: 13 and each string of 0. Node 9: 14, as often as one likes, but once at least. Node 31: words of a base that doesn't
/// lead to the root.
fn fill_first(table: &mut Table<Reach>) -> Result<(), NoMemory> {
    reach(table, Entry::Base(1), 5)?;
    reach(table, pushed(7, 11), 5)?;
    link(table, pushed(7, 11), Entry::Base(1))?;
    reach(table, Entry::Base(2), 6)?;
    reach(table, pushed(20, 14), 9)?;
    link(table, pushed(20, 14), pushed(20, 14))?;
    link(table, pushed(20, 14), Entry::Base(ROOT))?;
    reach(table, Entry::Base(31), 31)
}

/// Node 6: the strings of 0. Node 8: the empty word. Node 9: 14 14. Node 12: 13 12 10. Node 31: as in the first.
fn fill_second(table: &mut Table<Reach>) -> Result<(), NoMemory> {
    reach(table, Entry::Base(0), 6)?;
    reach(table, Entry::Base(ROOT), 8)?;
    reach(table, pushed(21, 14), 9)?;
    link(table, pushed(21, 14), pushed(22, 14))?;
    link(table, pushed(22, 14), Entry::Base(ROOT))?;
    reach(table, pushed(23, 13), 12)?;
    link(table, pushed(23, 13), pushed(24, 12))?;
    link(table, pushed(24, 12), Entry::Base(1))?;
    reach(table, Entry::Base(31), 31)
}

fn first(alloc: Global) -> Result<Table<Reach>, NoMemory> {
    let mut table = Table::new(alloc);
    fill_first(&mut table)?;
    Ok(table)
}

fn second(alloc: Global) -> Result<Table<Reach>, NoMemory> {
    let mut table = Table::new(alloc);
    fill_second(&mut table)?;
    Ok(table)
}

/// A node of each table, and the word that both hold, if there is one.
const CASES: [(u32, u32, Option<&[u32]>); 9] = [
    (5, 6, Some(&[11, 10])),
    (5, 8, None),
    (5, 9, None),
    (5, 12, None),
    (6, 12, Some(&[13, 12, 10])),
    (9, 9, Some(&[14, 14])),
    (9, 6, None),
    (31, 31, None),
    (40, 6, None),
];

const BASES: Bases<'static> = Bases {
    steps: &STEPS,
    last: ROOT,
};

fn is_word(found: &Option<Vec<u32>>, word: Option<&[u32]>) -> bool {
    match found {
        Some(found) => word == Some(found.as_slice()),
        None => word.is_none(),
    }
}

/// Whether the word is found, whichever table comes first.
fn finds(
    alloc: Global,
    a: &Table<Reach>,
    n: u32,
    b: &Table<Reach>,
    m: u32,
    word: Option<&[u32]>,
) -> Result<bool, NoMemory> {
    let found = shared(alloc, &BASES, a, n, b, m)?;
    let turned = shared(alloc, &BASES, b, m, a, n)?;
    Ok(is_word(&found, word) && is_word(&turned, word))
}

fn finds_all(alloc: Global, a: &Table<Reach>, b: &Table<Reach>) -> Result<bool, NoMemory> {
    for (n, m, word) in &CASES {
        if !finds(alloc, a, *n, b, *m, *word)? {
            return Ok(false);
        }
    }
    Ok(true)
}

/// Whether what is found for the node twice has the value one.
fn finds_its_own(alloc: Global, table: &Table<Reach>, node: u32) -> Result<bool, NoMemory> {
    match shared(alloc, &BASES, table, node, table, node)? {
        Some(word) => Ok(value(table, &BASES, node, &word).0),
        None => Ok(false),
    }
}

fn each_finds_its_own(alloc: Global, table: &Table<Reach>) -> Result<bool, NoMemory> {
    for node in [6, 8, 12] {
        if !finds_its_own(alloc, table, node)? {
            return Ok(false);
        }
    }
    Ok(true)
}

fn indexed(alloc: Global) -> Result<IndexedBases, NoMemory> {
    let steps = Vec::from_slice(alloc, &STEPS)?;
    IndexedBases::new(alloc, steps, ROOT)
}

fn knows(
    alloc: Global,
    bases: &IndexedBases,
    base: u32,
    word: Option<&[u32]>,
) -> Result<bool, NoMemory> {
    let way = bases.way(alloc, base)?;
    Ok(is_word(&way, word))
}

fn knows_ways(alloc: Global, bases: &IndexedBases) -> Result<bool, NoMemory> {
    Ok(
        knows(alloc, bases, ROOT, Some(&[]))?
            && knows(alloc, bases, 1, Some(&[10]))?
            && knows(alloc, bases, 31, None)?,
    )
}

/// Whether the word is found over the indexed bases.
fn finds_at(
    alloc: Global,
    bases: &IndexedBases,
    a: &Table<Reach>,
    b: &Table<Reach>,
) -> Result<bool, NoMemory> {
    let found = shared_at(alloc, bases, a, 6, b, 12)?;
    Ok(is_word(&found, Some(&[13, 12, 10])))
}

/// Whether it is found from the entries that have the nodes.
fn finds_from(
    alloc: Global,
    bases: &IndexedBases,
    a: &Table<Reach>,
    b: &Table<Reach>,
) -> Result<bool, NoMemory> {
    let firsts = entries_at(alloc, a, 6)?;
    let seconds = entries_at(alloc, b, 12)?;
    let found = shared_from(alloc, bases, a, &firsts, b, &seconds)?;
    Ok(is_word(&found, Some(&[13, 12, 10])))
}

/// What isn't right over the indexed bases, if anything.
fn wrong_over(
    alloc: Global,
    bases: &IndexedBases,
    a: &Table<Reach>,
    b: &Table<Reach>,
) -> Result<Option<&'static str>, NoMemory> {
    if !knows_ways(alloc, bases)? {
        return Ok(Some("ways home"));
    }
    if !finds_at(alloc, bases, a, b)? {
        return Ok(Some("a word at two nodes over indexed bases"));
    }
    if !finds_from(alloc, bases, a, b)? {
        return Ok(Some("a word from entries over indexed bases"));
    }
    Ok(None)
}

fn wrong_in(
    alloc: Global,
    a: &Table<Reach>,
    b: &Table<Reach>,
) -> Result<Option<&'static str>, NoMemory> {
    if !finds_all(alloc, a, b)? {
        return Ok(Some("a word of two tables"));
    }
    if !each_finds_its_own(alloc, b)? {
        return Ok(Some("a word of one table twice"));
    }
    match indexed(alloc) {
        Ok(bases) => wrong_over(alloc, &bases, a, b),
        Err(error) => Err(error),
    }
}

fn wrong_with(alloc: Global, a: &Table<Reach>) -> Result<Option<&'static str>, NoMemory> {
    match second(alloc) {
        Ok(b) => wrong_in(alloc, a, &b),
        Err(error) => Err(error),
    }
}

fn wrong(alloc: Global) -> Result<Option<&'static str>, NoMemory> {
    match first(alloc) {
        Ok(a) => wrong_with(alloc, &a),
        Err(error) => Err(error),
    }
}

#[test]
fn words_and_ways(rt: HostRuntime) -> Result<(), Fail> {
    assert_eq!(rt; wrong(rt.alloc())?, None);
    Ok(())
}
