//! Meets compose: what is stored into an object may be stored wherever that object is. So the meets that a turn finds give more, with no look at a table.
//!
//! A meet goes on by those of its base, in the order of the list and under the strings of these. So what it comes to rests on what is there already.
ghost use Rattle.std.specs.Prelude.{◌≡◌, ◌<◌, ◌+◌, ℕ, [], Some, length, slice_get, OnOk};
ghost use Rattle.lists.specs.Lists.{Has, IsApart};
ghost use Rattle.spds_solve.specs.declared.met.Met.{Met as AMet};
ghost use Rattle.spds_solve.specs.Composing.{AreComposed, AreFiled, AreJoined, IsReady, IsThere};
ghost use Rattle.spds_solve.specs.Mets.{numbers_of};

use super::met::Met;
use super::mets::Mets;
use jim_ast::List;
use lists::{ByKey, NoMemory};
use post_star::copies::copied;
use post_star::key::Key;
use spds_tables::Met as Numbers;
use std::alloc::Global;

/// Where the meets of a list stand, as far as they were gone through.
#[derive(Drop)]
pub struct Ways {
    /// The places of the meets, by their object.
    pub by_object: ByKey<Key, usize>,
    /// The places of those that were found by looking, by their base.
    pub by_base: ByKey<Key, usize>,
    /// How many were gone through.
    pub done: usize,
}

impl Ways {
    /// No meet was gone through. Takes no memory.
    pub fn new(alloc: Global) -> Self
        ensures { AreComposed [] result }
    {
        Ways {
            by_object: ByKey::new(alloc),
            by_base: ByKey::new(alloc),
            done: 0,
        }
    }
}

/// Puts in what the meets at two places give, under the string of the second, unless it is there.
fn join(alloc: Global, first: usize, next: usize, mets: &mut Mets) -> Result<(), NoMemory>
    requires { IsReady mets.old first next }
    ensures joined { OnOk result (AreJoined mets.old mets.new) }
    ensures there { OnOk result (IsThere mets.old mets.new first next) }
{
    let found = mets.as_slice();
    let (object, last) = (found[first].object, &found[next]);
    let (base, store) = (last.base, last.store);
    if mets.contains(Numbers {
        object,
        base,
        store,
    }) {
        return Ok(());
    }
    let string = List::from_vec(copied(alloc, last.string.as_slice())?);
    mets.add(Met {
        object,
        base,
        store,
        string,
    })?;
    Ok(())
}

/// Puts in what each of the first meets gives with the next one.
fn follow(alloc: Global, firsts: &[usize], next: usize, mets: &mut Mets) -> Result<(), NoMemory>
    requires { (first : ℕ) → Has firsts.now first → IsReady mets.old first next }
    ensures joined { OnOk result (AreJoined mets.old mets.new) }
    ensures there { OnOk result ((first : ℕ) → Has firsts.now first → IsThere mets.old mets.new first next) }
{
    for first in firsts {
        join(alloc, *first, next, mets)?;
    }
    Ok(())
}

/// Puts in what the first meet gives with each of the next ones, in their order.
fn lead(alloc: Global, first: usize, nexts: &[usize], mets: &mut Mets) -> Result<(), NoMemory>
    requires { (done : ℕ) × (met : AMet) × (slice_get mets.old first ≡ Some met) × AreFiled mets.old done met.base nexts.now }
    ensures joined { OnOk result (AreJoined mets.old mets.new) }
    ensures there { OnOk result ((next : ℕ) → Has nexts.now next → IsThere mets.old mets.new first next) }
{
    for next in nexts {
        join(alloc, first, *next, mets)?;
    }
    Ok(())
}

/// Goes through one more meet: puts in what those that were found by looking give with it.
fn pass(alloc: Global, ways: &mut Ways, mets: &mut Mets) -> Result<(), NoMemory>
    requires composed { AreComposed mets.old ways.old }
    requires more { ways.old.done < length mets.old }
    ensures joined { OnOk result (AreJoined mets.old mets.new) }
    ensures composed { OnOk result (AreComposed mets.new ways.new) }
    ensures done { OnOk result (ways.new.done ≡ ways.old.done + 1) }
{
    let at = ways.done;
    let object = mets.as_slice()[at].object;
    follow(alloc, ways.by_base.at(Key::Node(object)), at, mets)?;
    ways.by_object.add(Key::Node(object), at)?;
    ways.done = at + 1;
    Ok(())
}

/// Puts in what a meet that was found by looking gives with those that were gone through.
fn begin(alloc: Global, ways: &mut Ways, mets: &mut Mets, at: usize) -> Result<(), NoMemory>
    requires composed { AreComposed mets.old ways.old }
    requires there { at < length mets.old }
    ensures joined { OnOk result (AreJoined mets.old mets.new) }
    ensures composed { OnOk result (AreComposed mets.new ways.new) }
    ensures done { OnOk result (ways.new.done ≡ ways.old.done) }
{
    let base = mets.as_slice()[at].base;
    lead(alloc, at, ways.by_object.at(Key::Node(base)), mets)?;
    ways.by_base.add(Key::Node(base), at)?;
    Ok(())
}

/// Goes through one more meet, which was found by looking if it stands before the end of those.
fn step(alloc: Global, ways: &mut Ways, mets: &mut Mets, found: usize) -> Result<(), NoMemory>
    requires composed { AreComposed mets.old ways.old }
    requires more { ways.old.done < length mets.old }
    ensures joined { OnOk result (AreJoined mets.old mets.new) }
    ensures composed { OnOk result (AreComposed mets.new ways.new) }
    ensures done { OnOk result (ways.new.done ≡ ways.old.done + 1) }
{
    let at = ways.done;
    pass(alloc, ways, mets)?;
    if at < found {
        begin(alloc, ways, mets, at)?;
    }
    Ok(())
}

/// Goes through the meets that are left, which were found by looking, and through those that they give.
pub fn compose(alloc: Global, ways: &mut Ways, mets: &mut Mets) -> Result<(), NoMemory>
    requires { AreComposed mets.old ways.old }
    ensures joined { OnOk result (AreJoined mets.old mets.new) }
    ensures composed { OnOk result (AreComposed mets.new ways.new) }
    ensures all { OnOk result (ways.new.done ≡ length mets.new) }
    ensures apart { OnOk result (IsApart (numbers_of mets.new)) }
{
    let found = mets.as_slice().len();
    while ways.done < mets.as_slice().len() {
        step(alloc, ways, mets, found)?;
    }
    Ok(())
}
