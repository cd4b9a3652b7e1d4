//! Words that two works share.
ghost use Rattle.std.specs.Prelude.{◌≡◌, ℕ, List, true, IfNone, IfOk, IfSome};
ghost use Rattle.call_side.specs.Coded.{HasWord};

use super::common::shared_at;
use super::decoded::decoded;
use super::numbers::NODES;
use super::split_bases::CallBases;
use super::work::CallWork;
use lists::NoMemory;
use std::alloc::Global;

/// A word that one work has at `n` and another at `m`, the innermost mark first; `None` where there is none.
pub fn shared_by_works(
    alloc: Global,
    bases: &CallBases,
    first: &CallWork,
    n: u32,
    second: &CallWork,
    m: u32,
) -> Result<Option<Vec<u32>>, NoMemory>
    requires first { first.now.settled ≡ true }
    requires second { second.now.settled ≡ true }
    requires first_steps { first.now.steps ≡ bases.now.steps }
    requires second_steps { second.now.steps ≡ bases.now.steps }
    requires first_last { first.now.last ≡ bases.now.last }
    requires second_last { second.now.last ≡ bases.now.last }
    ensures first { IfOk result (λ r. IfSome r (λ word. HasWord first.now n word.items)) }
    ensures second { IfOk result (λ r. IfSome r (λ word. HasWord second.now m word.items)) }
    ensures none { IfOk result (λ r. IfNone r ((word : List ℕ) → HasWord first.now n word → HasWord second.now m word → ⊥)) }
{
    let (a, b) = (first.saturated(), second.saturated());
    if n >= NODES || m >= NODES {
        return Ok(None);
    }
    let found = shared_at(alloc, bases.split(), a, n, b, m)?;
    match found {
        Some(word) => Ok(Some(decoded(alloc, &word)?)),
        None => Ok(None),
    }
}
