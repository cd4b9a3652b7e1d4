//! The least place at which tokens are refused.

ghost use Rattle.std.specs.Prelude.{◌≡◌, ◌≢◌, ◌↔◌, ◌<◌, ◌≤◌, length, take, None, IfOk, IfSome};
ghost use Rattle.jim_grammar.specs.Stacks.{stacks, SoFar};
ghost use Rattle.jim_grammar.specs.Refusals.{Derives, Least};

use crate::automaton::{Automaton, Move};
use crate::machine::{Stack, advance, copy_of, takes_nothing};
use jim_signs::Sign;
use lists::NoMemory;
use std::alloc::Global;

/// The least place at which the tokens are refused, from 0, or `None` where they are a text of the grammar.
///
/// The place is the least one such that no text of the grammar begins with the tokens up to and with the one there. Where each token is right at its place,
/// and yet the tokens are no text, it is their number: the end came too early.
pub fn least_refused(alloc: Global, signs: &[Sign]) -> Result<Option<usize>, NoMemory>
    ensures accepted { IfOk result (λ at. (at ≡ None) ↔ Derives signs.now) }
    ensures refused { IfOk result (λ at. IfSome at (Least signs.now)) }
{
    let mut automaton = Automaton::new(alloc)?;
    let mut set = 0;
    for (at, sign) in signs.iter().enumerate() {
        match automaton.go(alloc, set, sign.lead)? {
            Some(Move::To(next)) => set = next,
            Some(Move::Nowhere) => return Ok(Some(at)),
            None => return least_refused_from(alloc, automaton.stacks(set), signs, at),
        }
    }
    end(alloc, automaton.stacks(set), signs)
}

/// The same where the tokens before the place have led to these stacks. Each step is made anew.
fn least_refused_from(
    alloc: Global,
    before: &[Stack],
    signs: &[Sign],
    from: usize,
) -> Result<Option<usize>, NoMemory>
    requires from { from ≤ length signs.now }
    requires some { length before.now ≢ 0 }
    requires so_far { SoFar (take from signs.now) (stacks before.now) }
    ensures accepted { IfOk result (λ at. (at ≡ None) ↔ Derives signs.now) }
    ensures refused { IfOk result (λ at. IfSome at (Least signs.now)) }
{
    let mut stacks = copies(alloc, before)?;
    for at in from..signs.len() {
        let next = advance(alloc, &stacks, signs[at].lead)?;
        if next.len() == 0 {
            return Ok(Some(at));
        }
        stacks = next;
    }
    end(alloc, &stacks, signs)
}

fn copies(alloc: Global, set: &[Stack]) -> Result<Vec<Stack>, NoMemory>
    ensures { IfOk result (λ v. stacks v.items ≡ stacks set.now) }
{
    let mut all = Vec::new(alloc);
    for stack in set {
        all.push(copy_of(alloc, stack)?)?;
    }
    Ok(all)
}

/// The answer where all the tokens have led to these stacks.
fn end(alloc: Global, last: &[Stack], signs: &[Sign]) -> Result<Option<usize>, NoMemory>
    requires some { length last.now ≢ 0 }
    requires so_far { SoFar signs.now (stacks last.now) }
    ensures accepted { IfOk result (λ at. (at ≡ None) ↔ Derives signs.now) }
    ensures refused { IfOk result (λ at. IfSome at (Least signs.now)) }
{
    if takes_nothing(alloc, last)? {
        return Ok(None);
    }
    Ok(Some(signs.len()))
}
