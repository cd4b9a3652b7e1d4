ghost use Rattle.std.specs.Prelude.{◌≡◌, ℕ, ◌+◌, ◌^◌, ◌<◌, ◌≤◌, [], false, length, All, Contains, IfOk, IsTrue, MatchBool, slice_get, slice_index, Some};
ghost use Rattle.class_order.specs.Groups.{group};
ghost use Rattle.class_rules.specs.Paths.{ProperPath};
ghost use Rattle.class_order.specs.Tables.{HasBegun, IsDepthFirst, IsFinishing, IsSearch, IsStraight, IsWithin, Under};

use super::groups::Groups;
use std::alloc::{AllocError, Global};

/// How far the search below a class has come.
#[derive(Clone, Copy)]
enum Stage {
    New,
    Open,
    Done,
}

/// A class on the way down, and how many of the classes one step below it are done.
#[derive(Clone, Copy)]
struct Visit {
    class: u32,
    next: usize,
}

/// The order in which a search downwards leaves the classes, and whether each stands after all that
/// are below it.
#[derive(Drop)]
pub struct Finish {
    pub order: Vec<u32>,
    pub straight: bool,
}

/// The first index from `from` on whose class is new, or the number of classes.
fn first_new(classes: &[u32], stages: &[Stage], from: usize) -> usize
    requires known { All (λ c. c < length stages.now) classes.now }
    requires from { from ≤ length classes.now }
    ensures within { result ≤ length classes.now }
    ensures begun { (j : ℕ) → from ≤ j → j < result → slice_get stages.now (slice_index classes.now j) ≡ Some Stage.New → ⊥ }
    ensures new { result < length classes.now → slice_get stages.now (slice_index classes.now result) ≡ Some Stage.New }
{
    let mut at = from;
    while at < classes.len() && !matches!(stages[classes[at] as usize], Stage::New) {
        at += 1;
    }
    at
}

/// Whether the search below each of the classes has ended.
fn are_done(classes: &[u32], stages: &[Stage]) -> bool
    requires { All (λ c. c < length stages.now) classes.now }
    ensures done { IsTrue result → (c : ℕ) → Contains classes.now c → slice_get stages.now c ≡ Some Stage.Done }
    ensures not_done { result ≡ false → (c : ℕ) × Contains classes.now c × (slice_get stages.now c ≡ Some Stage.Done → ⊥) }
{
    for class in classes {
        if !matches!(stages[*class as usize], Stage::Done) {
            return false;
        }
    }
    true
}

/// Searches what is below a class, and appends each class to `order` when all below it have been
/// searched. False where this comes back to a class whose search goes on.
fn search(
    alloc: Global,
    below: &Groups<u32>,
    start: u32,
    stages: &mut Vec<Stage>,
    order: &mut Vec<u32>,
) -> Result<bool, AllocError>
    requires below { (a b : ℕ) → Under below.now a b → a < length below.now }
    requires new { slice_get stages.old.items start ≡ Some Stage.New }
    requires searched { IsSearch below.now stages.old.items order.old.items [] }
    ensures searched { IfOk result (λ _. IsSearch below.now stages.new.items order.new.items []) }
    ensures begun { IfOk result (λ _. HasBegun stages.old.items start stages.new.items) }
    ensures straight { IfOk result (λ straight. MatchBool straight (IsStraight below.now order.old.items → IsStraight below.now order.new.items) ((a : ℕ) × ProperPath (Under below.now) a a)) }
{
    let mut straight = true;
    let mut path = Vec::new(alloc);
    stages[start as usize] = Stage::Open;
    path.push(Visit {
        class: start,
        next: 0,
    })?;
    while let Some(visit) = path.pop() {
        let lower = below.get(visit.class as usize);
        let next = first_new(lower, stages, visit.next);
        if next == lower.len() {
            if !are_done(lower, stages) {
                straight = false;
            }
            stages[visit.class as usize] = Stage::Done;
            order.push(visit.class)?;
        } else {
            let class = lower[next];
            stages[class as usize] = Stage::Open;
            path.push(Visit { next, ..visit })?;
            path.push(Visit { class, next: 0 })?;
        }
    }
    Ok(straight)
}

/// All classes, in the order in which a search downwards leaves them: each after those below it,
/// where no class is below itself. The search begins at `starts` in turn.
pub fn finish_order(
    alloc: Global,
    below: &Groups<u32>,
    starts: &[u32],
) -> Result<Finish, AllocError>
    requires below { (a b : ℕ) → Under below.now a b → a < length below.now }
    requires known { All (λ c. c < length below.now) starts.now }
    requires all { (c : ℕ) → c < length below.now → Contains starts.now c }
    ensures depth_first { IfOk result (λ finish. IsDepthFirst (Under below.now) finish.order.items) }
    ensures within { IfOk result (λ finish. IsWithin (length below.now) finish.order.items) }
    ensures all { IfOk result (λ finish. (c : ℕ) → c < length below.now → Contains finish.order.items c) }
    ensures straight { IfOk result (λ finish. MatchBool finish.straight (IsFinishing below.now finish.order.items) ((a : ℕ) × ProperPath (Under below.now) a a)) }
{
    let mut stages = vec![in alloc; Stage::New; below.len()]?;
    let mut order = Vec::with_capacity(alloc, below.len())?;
    let mut straight = true;
    for start in starts {
        if matches!(stages[*start as usize], Stage::New)
            && !search(alloc, below, *start, &mut stages, &mut order)?
        {
            straight = false;
        }
    }
    Ok(Finish { order, straight })
}
