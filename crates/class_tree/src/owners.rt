ghost use Rattle.std.specs.Prelude.{◌≡◌, ℕ, ◌<◌, ◌↔◌, length, All, Contains, Some, IfOk, IsTrue};
ghost use Rattle.class_order.specs.Groups.{group};
ghost use Rattle.class_order.specs.Spans.{AreApart, HoldsAny};
ghost use Rattle.class_tree.specs.declared.first_rows.Member.{Member};
ghost use Rattle.class_tree.specs.Holders.{few_of};
ghost use Rattle.class_tree.specs.KeySpans.{spans_of};
ghost use Rattle.class_tree.specs.Owners.{AreOwners, AreReady, AreServed, IsHeld, IsSole};
ghost use Rattle.class_tree.specs.Runs.{IsLastHeld};

use super::first_rows::Member;
use super::holders::Holders;
use super::key_spans::{KeySpans, last_held};
use class_order::{Groups, Span, holds};
use class_rules::ClassRow;
use std::alloc::{AllocError, Global};

/// For each key its owners, the classes that have a member of it, so that it can be asked which places
/// are those of classes that reach one. A class that is no interface is reached from places that
/// follow each other, so the spans of such owners are united here, key by key. An interface may
/// be reached from as many spans of places as there are classes: where few own a key, these are
/// copied for no key, but looked up in the table of all classes, one interface after the other. Where
/// more than few do, which takes as many members a key, their spans are united too, so that no
/// look-up goes over many. The owners of a key are found by two searches, once for all that is asked
/// of them.
#[derive(Drop)]
pub struct Owners {
    others: KeySpans,
    pub interfaces: Holders,
}

// Those of the members that are in none of few interfaces with their key.
fn in_others(
    alloc: Global,
    members: &[Member],
    interfaces: &Holders,
) -> Result<Vec<Member>, AllocError>
    requires { length interfaces.now.interfaces ≡ length interfaces.now.keys }
    ensures { IfOk result (λ found. (m : Member) → Contains found.items m ↔ Contains members.now m × (Contains (few_of interfaces.now m.key) m.class → ⊥)) }
{
    let mut found = Vec::new(alloc);
    for member in members {
        if !interfaces.few(member.key).contains(&member.class) {
            found.push(*member)?;
        }
    }
    Ok(found)
}

// Whether a place lies in one of the spans that the table has for the classes.
fn any_holds(table: &Groups<Span>, classes: &[u32], place: u32) -> bool
    requires known { All (λ c. c < length table.now) classes.now }
    requires apart { (c : ℕ) → AreApart (group table.now c) }
    ensures { IsTrue result ↔ HoldsAny table.now classes.now place }
{
    for class in classes {
        if holds(table.get(*class as usize), place) {
            return true;
        }
    }
    false
}

impl Owners {
    /// The owners of each key of the members, interfaces with higher ranks first. `table` has for each
    /// class the places of those from which it is reached.
    pub fn new(
        alloc: Global,
        classes: &[ClassRow],
        members: &[Member],
        table: &Groups<Span>,
        ranks: &[u32],
    ) -> Result<Self, AllocError>
        requires known { All (λ m. m.class < length classes.now) members.now }
        requires len { length table.now ≡ length classes.now }
        requires apart { (c : ℕ) → AreApart (group table.now c) }
        ensures { IfOk result (AreOwners classes.now members.now table.now) }
    {
        let interfaces = Holders::new(alloc, classes, members, ranks)?;
        let others = in_others(alloc, members, &interfaces)?;
        Ok(Owners {
            others: KeySpans::new(alloc, others.as_slice(), table)?,
            interfaces,
        })
    }

    /// The owners of a key, which is found by halves in two lists. The table is the one that this was
    /// made from.
    pub fn of<'a>(&'a self, table: &'a Groups<Span>, key: u32) -> KeyOwners<'a>
        requires { AreServed table.now self.now }
        ensures ready { AreReady result }
        ensures table { result.table.now ≡ table.now }
        ensures united { result.united.now ≡ spans_of self.now.others key }
        ensures few { result.few.now ≡ few_of self.now.interfaces key }
    {
        KeyOwners {
            table,
            united: self.others.of(key),
            few: self.interfaces.few(key),
        }
    }
}

/// The owners of one key. Each question takes one search among the spans that are united, and one for
/// each of the few interfaces, which are at most four.
#[derive(Clone, Copy)]
pub struct KeyOwners<'a> {
    /// For each class the places of those from which it is reached.
    pub table: &'a Groups<Span>,
    /// The places of the classes that reach an owner that isn't one of the few interfaces.
    pub united: &'a [Span],
    /// The interfaces that own the key, where they are few.
    pub few: &'a [u32],
}

impl<'a> KeyOwners<'a> {
    /// Whether a place is that of a class that reaches an owner.
    pub fn holds(&self, place: u32) -> bool
        requires { AreReady self.now }
        ensures { IsTrue result ↔ IsHeld self.now place }
    {
        holds(self.united, place) || any_holds(self.table, self.few, place)
    }

    /// The last of the places from `from` up to `to`, `to` included, that is that of a class that
    /// reaches an owner.
    pub fn last(&self, from: u32, to: u32) -> Option<u32>
        requires { AreReady self.now }
        ensures { IsLastHeld (IsHeld self.now) from to result }
    {
        let mut last = last_held(self.united, from, to);
        for interface in self.few {
            // Of the places before the last one found none counts any more.
            let spans = self.table.get(*interface as usize);
            last = last_held(spans, last.unwrap_or(from), to).or(last);
        }
        last
    }

    /// The one owner that the class of a place reaches, where it is one of the few interfaces and no
    /// other one is reached.
    pub fn sole(&self, place: u32) -> Option<u32>
        requires { AreReady self.now }
        ensures { (owner : ℕ) → (result ≡ Some owner) ↔ IsSole self.now place owner }
    {
        if holds(self.united, place) {
            return None;
        }
        let mut sole = None;
        for interface in self.few {
            if holds(self.table.get(*interface as usize), place) {
                match sole {
                    Some(first) if first != *interface => return None,
                    _ => sole = Some(*interface),
                }
            }
        }
        sole
    }
}
