//! Words that two tables hold.
ghost use Rattle.std.specs.Prelude.{ℕ, List, IfNone, IfOk, IfSome};
ghost use Rattle.call_side.specs.Words.{AreAt, Holds, SpellsFrom};

use super::indexed::IndexedBases;
use super::question::Question;
use super::search::search;
use auto_table::{Entry, Table};
use lists::NoMemory;
use post_star::Bases;
use post_star::copies::copied;
use std::alloc::Global;
use weight_laws::Reach;

/// The entries that have the node, in the order of the table.
pub fn entries_at(alloc: Global, table: &Table<Reach>, node: u32) -> Result<Vec<Entry>, NoMemory>
    ensures { IfOk result (λ entries. AreAt table.now node entries.items) }
{
    let all = table.entries();
    let mut entries = Vec::new(alloc);
    for entry in all {
        let Reach(is_there) = table.at(*entry, node);
        if is_there {
            entries.push(*entry)?;
        }
    }
    Ok(entries)
}

/// A word that one of the first entries reads in one table, and one of the second in the other, the innermost mark first; `None` where there is none.
pub fn shared_from(
    alloc: Global,
    bases: &IndexedBases,
    first: &Table<Reach>,
    firsts: &[Entry],
    second: &Table<Reach>,
    seconds: &[Entry],
) -> Result<Option<Vec<u32>>, NoMemory>
    ensures first { IfOk result (λ r. IfSome r (λ word. SpellsFrom bases.now.steps bases.now.last first.now firsts.now word.items)) }
    ensures second { IfOk result (λ r. IfSome r (λ word. SpellsFrom bases.now.steps bases.now.last second.now seconds.now word.items)) }
    ensures none { IfOk result (λ r. IfNone r ((word : List ℕ) → SpellsFrom bases.now.steps bases.now.last first.now firsts.now word
        → SpellsFrom bases.now.steps bases.now.last second.now seconds.now word → ⊥)) }
{
    let question = Question {
        bases,
        first,
        firsts,
        second,
        seconds,
    };
    search(alloc, &question)
}

/// A word that the one table holds at `n` and the other at `m`, the innermost mark first: neither table gives it the value zero. `None` where there is
/// none. As `shared`, over base steps that were indexed before.
pub fn shared_at(
    alloc: Global,
    bases: &IndexedBases,
    a: &Table<Reach>,
    n: u32,
    b: &Table<Reach>,
    m: u32,
) -> Result<Option<Vec<u32>>, NoMemory>
    ensures first { IfOk result (λ r. IfSome r (λ word. Holds bases.now.steps bases.now.last a.now n word.items)) }
    ensures second { IfOk result (λ r. IfSome r (λ word. Holds bases.now.steps bases.now.last b.now m word.items)) }
    ensures none { IfOk result (λ r. IfNone r ((word : List ℕ) → Holds bases.now.steps bases.now.last a.now n word → Holds bases.now.steps bases.now.last b.now m word → ⊥)) }
{
    let firsts = entries_at(alloc, a, n)?;
    let seconds = entries_at(alloc, b, m)?;
    shared_from(alloc, bases, a, &firsts, b, &seconds)
}

/// A word that the one table holds at `n` and the other at `m`, the innermost mark first: neither table gives it the value zero. `None` where there is
/// none.
pub fn shared(
    alloc: Global,
    bases: &Bases<'_>,
    a: &Table<Reach>,
    n: u32,
    b: &Table<Reach>,
    m: u32,
) -> Result<Option<Vec<u32>>, NoMemory>
    ensures first { IfOk result (λ r. IfSome r (λ word. Holds bases.now.steps.now bases.now.last a.now n word.items)) }
    ensures second { IfOk result (λ r. IfSome r (λ word. Holds bases.now.steps.now bases.now.last b.now m word.items)) }
    ensures none { IfOk result (λ r. IfNone r ((word : List ℕ) → Holds bases.now.steps.now bases.now.last a.now n word → Holds bases.now.steps.now bases.now.last b.now m word → ⊥)) }
{
    let steps = copied(alloc, bases.steps)?;
    let indexed = IndexedBases::new(alloc, steps, bases.last)?;
    shared_at(alloc, &indexed, a, n, b, m)
}
