ghost use Rattle.std.specs.Prelude.{◌≡◌, ℕ, ◌<◌, ◌↔◌, length, map, All, Contains, IfOk};
ghost use Rattle.class_order.specs.Groups.{group};
ghost use Rattle.class_tree.specs.KeySpans.{AreClassesByKey, IsKeyed, spans_of};
ghost use Rattle.class_order.specs.Spans.{AreApart, Holds};
ghost use Rattle.class_tree.specs.Runs.{IsLastHeld};

use super::first_rows::Member;
use class_order::{Groups, Span, gathered, united};
use number_sets::SortedSet;
use std::alloc::{AllocError, Global};

/// For each key the places of the classes that reach one with a member of this key. The key is found by
/// halves.
#[derive(Drop)]
pub struct KeySpans {
    keys: SortedSet,
    spans: Groups<Span>,
}

// The key of each of the members.
fn each_key(alloc: Global, members: &[Member]) -> Result<Vec<u32>, AllocError>
    ensures { IfOk result (λ keys. keys.items ≡ map (λ m. m.key) members.now) }
{
    members.iter().map(|member| member.key).collect(alloc)
}

/// The keys of the members.
pub fn keys_of(alloc: Global, members: &[Member]) -> Result<SortedSet, AllocError>
    ensures { IfOk result (λ keys. All (λ m. Contains keys m.key) members.now) }
{
    let keys = each_key(alloc, members)?;
    Ok(SortedSet::new(keys))
}

/// For each of the keys the classes of its members.
pub fn classes_by_key(
    alloc: Global,
    members: &[Member],
    keys: &SortedSet,
) -> Result<Groups<u32>, AllocError>
    requires { All (λ m. Contains keys.now m.key) members.now }
    ensures len { IfOk result (λ classes. length classes ≡ length keys.now) }
    ensures classes { IfOk result (AreClassesByKey members.now keys.now) }
{
    let mut classes = Groups::new(alloc, keys.len())?;
    for member in members {
        if let Some(at) = keys.index_of(member.key) {
            classes.push(at, member.class)?;
        }
    }
    Ok(classes)
}

/// The last of the places from `from` up to `to`, `to` included, that lies in one of the spans.
pub fn last_held(spans: &[Span], from: u32, to: u32) -> Option<u32>
    requires { AreApart spans.now }
    ensures { IsLastHeld (Holds spans.now) from to result }
{
    let after = spans.partition_point(|span| span.start <= to);
    if after == 0 {
        return None;
    }
    let last = to.min(spans[after - 1].end - 1);
    if from <= last { Some(last) } else { None }
}

impl KeySpans {
    /// The spans of each key of the members. `reach` has for each class the places of those from
    /// which it is reached.
    pub fn new(alloc: Global, members: &[Member], reach: &Groups<Span>) -> Result<Self, AllocError>
        requires known { All (λ m. m.class < length reach.now) members.now }
        requires apart { (c : ℕ) → AreApart (group reach.now c) }
        ensures { IfOk result (IsKeyed members.now reach.now) }
    {
        let keys = keys_of(alloc, members)?;
        let classes = classes_by_key(alloc, members, &keys)?;
        let mut spans = Groups::new(alloc, keys.len())?;
        for at in 0..keys.len() {
            let all = gathered(alloc, classes.get(at), reach)?;
            spans.put(at, united(alloc, all)?);
        }
        Ok(KeySpans { keys, spans })
    }

    /// The spans of a key.
    pub fn of(&self, key: u32) -> &[Span]
        requires { length self.now.spans ≡ length self.now.keys }
        ensures { result.now ≡ spans_of self.now key }
    {
        match self.keys.index_of(key) {
            Some(at) => self.spans.get(at),
            None => &[],
        }
    }
}
