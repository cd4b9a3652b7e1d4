//! Stacks of parts of the grammar, and what a token leaves of them.

ghost use Rattle.std.specs.Prelude.{◌≡◌, ℕ, ◌+◌, ◌<◌, ◌≤◌, List, [], ◌∷◌, ◌++◌, length, map, IfOk, OnOk, Ok, Some, None, IsTrue, ◌↔◌};
ghost use Rattle.jim_grammar.specs.declared.machine.Entry.{Entry};
ghost use Rattle.jim_grammar.specs.Residuals.{Null, Step, Reads};
ghost use Rattle.jim_grammar.specs.Items.{re};
ghost use Rattle.jim_grammar.specs.Grammar.{program, seq};
ghost use Rattle.jim_grammar.specs.Stacks.{re_entry, entries, stacks, Adds, AddsAny, NullAny, Follows, Advances, Takes};

use crate::item::{ClassPiece, Item, Rule};
use crate::set::LeadSet;
use crate::table::rule_of;
use jim_signs::{Lead, Sign};
use lists::NoMemory;
use std::alloc::Global;

/// A piece of the grammar from one of its parts on.
#[derive(Clone, Copy, Debug, PartialEq, Eq, Hash)]
pub struct Entry {
    pub item: Item,
    pub at: usize,
}

/// What is still to be read: the part that is next is last.
pub type Stack = Vec<Entry>;

fn is_same(a: Lead, b: Lead) -> bool
    ensures { IsTrue result ↔ (a ≡ b) }
{
    a == b
}

pub fn copy_of(alloc: Global, entries: &[Entry]) -> Result<Stack, NoMemory>
    ensures { IfOk result (λ v. v.items ≡ entries.now) }
{
    entries.to_vec(alloc)
}

fn whole(item: Item) -> Entry
    ensures { result ≡ record { item = item; at = 0 } }
{
    Entry { item, at: 0 }
}

fn drop_last(stack: &mut Stack)
    ensures { (front : List Entry) (last : Entry) → stack.old.items ≡ front ++ last ∷ [] → stack.new.items ≡ front }
{
    stack.pop();
}

/// Adds to `out` the stacks that a token of the class leaves of the entry, over what is `below`.
/// True where the entry may be empty.
#[cycle(step)]
fn step(
    alloc: Global,
    entry: Entry,
    lead: Lead,
    below: &mut Stack,
    out: &mut Vec<Stack>,
) -> Result<bool, NoMemory>
    ensures adds { OnOk result (Adds lead (re_entry entry) (entries below.old.items) (stacks out.old.items) (stacks out.new.items)) }
    ensures empty { IfOk result (λ e. IsTrue e ↔ Null (re_entry entry)) }
    ensures same { OnOk result (below.new.items ≡ below.old.items) }
{
    match rule_of(entry.item) {
        Rule::Tok(wanted) => {
            if is_same(wanted, lead) {
                out.push(copy_of(alloc, below)?)?;
            }
            Ok(false)
        }
        Rule::One(set) => {
            if set.contains(lead) {
                out.push(copy_of(alloc, below)?)?;
            }
            Ok(false)
        }
        Rule::Seq(items) => {
            let all = sequence(alloc, entry, items, lead, below, out)?;
            Ok(all)
        }
        Rule::Any(items) => {
            let some = any(alloc, items, lead, below, out)?;
            Ok(some)
        }
        Rule::Star(item) => {
            over(alloc, entry, item, lead, below, out)?;
            Ok(true)
        }
        Rule::Opt(item) => {
            step(alloc, whole(item), lead, below, out)?;
            Ok(true)
        }
        Rule::Full(_) => Ok(true),
        Rule::UpTo(item, fewer) => {
            over(alloc, whole(fewer), item, lead, below, out)?;
            Ok(true)
        }
        Rule::FullShared(_, middle, _, rest) => {
            let only = over(alloc, whole(rest), middle, lead, below, out)?;
            Ok(only)
        }
        Rule::Shared(before, middle, after, rest, fewer, last) => {
            over(alloc, whole(fewer), before, lead, below, out)?;
            let empty = over(alloc, whole(rest), middle, lead, below, out)?;
            if !empty {
                return Ok(false);
            }
            over(alloc, whole(last), after, lead, below, out)?;
            Ok(true)
        }
    }
}

/// The same for an entry that is a sequence of these parts.
#[cycle(step)]
fn sequence(
    alloc: Global,
    entry: Entry,
    items: &[Item],
    lead: Lead,
    below: &mut Stack,
    out: &mut Vec<Stack>,
) -> Result<bool, NoMemory>
    requires { re entry.item ≡ seq (map re items.now) }
    ensures adds { OnOk result (Adds lead (re_entry entry) (entries below.old.items) (stacks out.old.items) (stacks out.new.items)) }
    ensures empty { IfOk result (λ e. IsTrue e ↔ Null (re_entry entry)) }
    ensures same { OnOk result (below.new.items ≡ below.old.items) }
{
    if entry.at >= items.len() {
        return Ok(true);
    }
    let next = Entry {
        item: entry.item,
        at: entry.at + 1,
    };
    let empty = over(alloc, next, items[entry.at], lead, below, out)?;
    if !empty {
        return Ok(false);
    }
    let rest = step(alloc, next, lead, below, out)?;
    Ok(rest)
}

/// The same for a piece, over one more entry.
#[cycle(step)]
fn over(
    alloc: Global,
    top: Entry,
    item: Item,
    lead: Lead,
    below: &mut Stack,
    out: &mut Vec<Stack>,
) -> Result<bool, NoMemory>
    ensures adds { OnOk result (Adds lead (re item) (entries below.old.items ++ re_entry top ∷ []) (stacks out.old.items) (stacks out.new.items)) }
    ensures empty { IfOk result (λ e. IsTrue e ↔ Null (re item)) }
    ensures same { OnOk result (below.new.items ≡ below.old.items) }
{
    below.push(top)?;
    let empty = step(alloc, whole(item), lead, below, out)?;
    drop_last(below);
    Ok(empty)
}

/// The same for each of the pieces.
#[cycle(step)]
fn any(
    alloc: Global,
    items: &[Item],
    lead: Lead,
    below: &mut Stack,
    out: &mut Vec<Stack>,
) -> Result<bool, NoMemory>
    ensures adds { OnOk result (AddsAny lead (map re items.now) (entries below.old.items) (stacks out.old.items) (stacks out.new.items)) }
    ensures empty { IfOk result (λ e. IsTrue e ↔ NullAny (map re items.now)) }
    ensures same { OnOk result (below.new.items ≡ below.old.items) }
{
    if items.len() == 0 {
        return Ok(false);
    }
    let first = step(alloc, whole(items[0]), lead, below, out)?;
    let more = any(alloc, &items[1..], lead, below, out)?;
    Ok(first || more)
}

/// Adds to `out` what the stack goes on with behind a token of the class.
fn follow(
    alloc: Global,
    stack: &mut Stack,
    lead: Lead,
    out: &mut Vec<Stack>,
) -> Result<(), NoMemory>
    ensures { OnOk result (Follows lead (entries stack.old.items) (stacks out.old.items) (stacks out.new.items)) }
{
    while let Some(entry) = stack.pop() {
        let empty = step(alloc, entry, lead, stack, out)?;
        if !empty {
            return Ok(());
        }
    }
    Ok(())
}

/// The stacks behind a token of the class.
pub fn advance(alloc: Global, old: &[Stack], lead: Lead) -> Result<Vec<Stack>, NoMemory>
    ensures { IfOk result (λ new. Advances lead (stacks old.now) (stacks new.items)) }
{
    let mut new = Vec::new(alloc);
    for stack in old {
        let mut left = copy_of(alloc, stack)?;
        follow(alloc, &mut left, lead, &mut new)?;
    }
    Ok(new)
}

/// The stack of the whole grammar.
pub fn start(alloc: Global) -> Result<Vec<Stack>, NoMemory>
    ensures { IfOk result (λ new. stacks new.items ≡ (program ∷ []) ∷ []) }
{
    let mut stack = Vec::new(alloc);
    stack.push(whole(Item::OfClass(ClassPiece::Program)))?;
    let mut new = Vec::new(alloc);
    new.push(stack)?;
    Ok(new)
}

/// Whether one of the stacks takes the empty list.
pub fn takes_nothing(alloc: Global, old: &[Stack]) -> Result<bool, NoMemory>
    ensures { IfOk result (λ b. IsTrue b ↔ Takes (stacks old.now) []) }
{
    for stack in old {
        let mut left = copy_of(alloc, stack)?;
        if all_empty(alloc, &mut left)? {
            return Ok(true);
        }
    }
    Ok(false)
}

/// Whether each entry may be empty.
fn all_empty(alloc: Global, stack: &mut Stack) -> Result<bool, NoMemory>
    ensures { IfOk result (λ b. IsTrue b ↔ Reads (entries stack.old.items) [] []) }
{
    while let Some(entry) = stack.pop() {
        let mut unused = Vec::new(alloc);
        let empty = step(alloc, entry, Lead::Other, stack, &mut unused)?;
        if !empty {
            return Ok(false);
        }
    }
    Ok(true)
}
