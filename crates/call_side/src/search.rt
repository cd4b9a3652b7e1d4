//! The search for a word that two tables share: over pairs of entries, one of each table, that the same word leads to. It looks at each pair once,
//! and stops at the first of which the rest is known.
ghost use Rattle.std.specs.Prelude.{◌≡◌, ◌<◌, ◌++◌, ℕ, List, IfNone, IfOk, IfSome, OnOk, Some, length, reverse, slice_get};
ghost use Rattle.auto_table.specs.declared.entry.Entry.TheVariants.{Base};
ghost use Rattle.lists.specs.Lists.{Has};
ghost use Rattle.call_side.specs.declared.pairs.Pair.{Pair as APair};
ghost use Rattle.call_side.specs.Search.{AreBegun, Came, IsEnd, IsLedOn, IsShared, IsTrail, MoveBoth, ShareNone, SpellBoth, asked, last_pair};
ghost use Rattle.call_side.specs.Trails.{AreBackward, AreKept, IsBack};

use super::moves::{marks, nexts};
use super::origin::{Origin, marks_back};
use super::pairs::{Pair, Seen};
use super::question::Question;
use auto_table::Entry;
use lists::NoMemory;
use std::alloc::Global;

// Puts the pairs of an entry and each of the second ones in.
fn add_row(
    seen: &mut Seen,
    first: Entry,
    seconds: &[Entry],
    origin: Option<Origin>,
) -> Result<(), NoMemory>
    ensures { OnOk result (Came (λ pair. (pair.first ≡ first) × Has seconds.now pair.second) origin seen.old.pairs.keys seen.old.origins.items seen.new.pairs.keys seen.new.origins.items) }
{
    for second in seconds {
        let pair = Pair {
            first,
            second: *second,
        };
        seen.add(pair, origin)?;
    }
    Ok(())
}

// Puts the pairs of each of the first and each of the second entries in.
fn add_all(
    seen: &mut Seen,
    firsts: &[Entry],
    seconds: &[Entry],
    origin: Option<Origin>,
) -> Result<(), NoMemory>
    ensures { OnOk result (Came (λ pair. Has firsts.now pair.first × Has seconds.now pair.second) origin seen.old.pairs.keys seen.old.origins.items seen.new.pairs.keys seen.new.origins.items) }
{
    for first in firsts {
        add_row(seen, *first, seconds, origin)?;
    }
    Ok(())
}

// Goes on from the pair with the number by a mark.
fn lead_on(
    alloc: Global,
    question: &Question<'_>,
    seen: &mut Seen,
    from: usize,
    pair: Pair,
    mark: u32,
) -> Result<(), NoMemory>
    requires there { slice_get seen.old.pairs.keys from ≡ Some pair }
    requires trail { IsTrail (asked question.now) seen.old.pairs.keys seen.old.origins.items }
    ensures kept { OnOk result (AreKept seen.old.pairs.keys seen.new.pairs.keys) }
    ensures trail { OnOk result (IsTrail (asked question.now) seen.new.pairs.keys seen.new.origins.items) }
    ensures led { OnOk result (IsLedOn (asked question.now) pair mark seen.new.pairs.keys) }
{
    let firsts = nexts(alloc, question.bases, question.first, pair.first, mark)?;
    let seconds = nexts(alloc, question.bases, question.second, pair.second, mark)?;
    add_all(seen, &firsts, &seconds, Some(Origin { mark, from }))
}

// The marks by which both entries of the pair may lead on, maybe with others.
fn marks_of(alloc: Global, question: &Question<'_>, pair: Pair) -> Result<Vec<u32>, NoMemory>
    ensures { IfOk result (λ marks. (mark : ℕ) (next : APair) → MoveBoth (asked question.now) pair mark next → Has marks.items mark) }
{
    match pair.first {
        Entry::Base(_) => marks(alloc, question.bases, pair.second),
        Entry::Pushed { .. } => marks(alloc, question.bases, pair.first),
    }
}

// Goes on from the pair with the number by all marks.
fn go_on(
    alloc: Global,
    question: &Question<'_>,
    seen: &mut Seen,
    from: usize,
    pair: Pair,
) -> Result<(), NoMemory>
    requires there { slice_get seen.old.pairs.keys from ≡ Some pair }
    requires trail { IsTrail (asked question.now) seen.old.pairs.keys seen.old.origins.items }
    ensures kept { OnOk result (AreKept seen.old.pairs.keys seen.new.pairs.keys) }
    ensures trail { OnOk result (IsTrail (asked question.now) seen.new.pairs.keys seen.new.origins.items) }
    ensures led { OnOk result ((mark : ℕ) → IsLedOn (asked question.now) pair mark seen.new.pairs.keys) }
{
    let marks = marks_of(alloc, question, pair)?;
    for mark in &marks {
        lead_on(alloc, question, seen, from, pair, *mark)?;
    }
    Ok(())
}

// The base that both entries of the pair are, if they are one.
fn common_base(pair: Pair) -> Option<u32>
    ensures some { IfSome result (λ base. (pair.first ≡ Base base) × (pair.second ≡ Base base)) }
    ensures none { IfNone result ((base : ℕ) → pair.first ≡ Base base → pair.second ≡ Base base → ⊥) }
{
    match pair.first {
        Entry::Base(base) => {
            if pair.second == Entry::Base(base) {
                return Some(base);
            }
            None
        }
        Entry::Pushed { .. } => None,
    }
}

// A word that both entries of the pair read, where one is known: both are one base that leads to the last one.
fn way_of(alloc: Global, question: &Question<'_>, pair: Pair) -> Result<Option<Vec<u32>>, NoMemory>
    ensures some { IfOk result (λ r. IfSome r (λ way. SpellBoth (asked question.now) pair way.items)) }
    ensures none { IfOk result (λ r. IfNone r (pair ≡ last_pair (asked question.now).last → ⊥)) }
{
    match common_base(pair) {
        Some(base) => question.bases.way(alloc, base),
        None => Ok(None),
    }
}

// The number of a pair, and a word that both of its entries read.
#[derive(Drop)]
struct End {
    number: usize,
    way: Vec<u32>,
}

// The first pair of which such a word is known.
fn find_end(
    alloc: Global,
    question: &Question<'_>,
    seen: &mut Seen,
) -> Result<Option<End>, NoMemory>
    requires trail { IsTrail (asked question.now) seen.old.pairs.keys seen.old.origins.items }
    requires begun { AreBegun (asked question.now) seen.old.pairs.keys }
    ensures trail { OnOk result (IsTrail (asked question.now) seen.new.pairs.keys seen.new.origins.items) }
    ensures some { IfOk result (λ r. IfSome r (λ end. IsEnd (asked question.now) seen.new.pairs.keys end.number end.way.items)) }
    ensures none { IfOk result (λ r. IfNone r (ShareNone (asked question.now))) }
{
    let mut number = 0;
    while let Some(pair) = seen.pair(number) {
        if let Some(way) = way_of(alloc, question, pair)? {
            return Ok(Some(End { number, way }));
        }
        go_on(alloc, question, seen, number, pair)?;
        number += 1;
    }
    Ok(None)
}

// The word that leads to the end, and then the one that both of its entries read.
fn word_by(alloc: Global, seen: &Seen, end: &End) -> Result<Vec<u32>, NoMemory>
    requires backward { AreBackward seen.now.origins.items }
    requires there { end.now.number < length seen.now.origins.items }
    ensures { IfOk result (λ word. (marks : List ℕ) × IsBack seen.now.origins.items end.now.number marks × (word.items ≡ reverse marks ++ end.now.way.items)) }
{
    let mut word = marks_back(alloc, &seen.origins, end.number)?;
    word.reverse();
    word.extend_from_slice(&end.way)?;
    Ok(word)
}

// Goes on from the pairs to begin with, and reads the word back from the end that is found.
fn answer(
    alloc: Global,
    question: &Question<'_>,
    seen: &mut Seen,
) -> Result<Option<Vec<u32>>, NoMemory>
    requires trail { IsTrail (asked question.now) seen.old.pairs.keys seen.old.origins.items }
    requires begun { AreBegun (asked question.now) seen.old.pairs.keys }
    ensures some { IfOk result (λ r. IfSome r (λ word. IsShared (asked question.now) word.items)) }
    ensures none { IfOk result (λ r. IfNone r (ShareNone (asked question.now))) }
{
    match find_end(alloc, question, seen)? {
        Some(end) => Ok(Some(word_by(alloc, seen, &end)?)),
        None => Ok(None),
    }
}

/// A word that one of the first and one of the second entries read, and none where there is none.
pub fn search(alloc: Global, question: &Question<'_>) -> Result<Option<Vec<u32>>, NoMemory>
    ensures some { IfOk result (λ r. IfSome r (λ word. IsShared (asked question.now) word.items)) }
    ensures none { IfOk result (λ r. IfNone r (ShareNone (asked question.now))) }
{
    let mut seen = Seen::new(alloc);
    add_all(&mut seen, question.firsts, question.seconds, None)?;
    answer(alloc, question, &mut seen)
}
