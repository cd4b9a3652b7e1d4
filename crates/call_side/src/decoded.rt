//! Words without the common mark.
ghost use Rattle.std.specs.Prelude.{◌≡◌, ◌+◌, ◌≢◌, ◌<◌, ◌⊎◌, ℕ, List, IfOk, length, slice_index};
ghost use Rattle.call_side.specs.Coded.{code, common_mark};
ghost use Rattle.post_star.specs.declared.bases.BaseStep.{BaseStep as AStep};

use super::numbers::COMMON;
use lists::NoMemory;
use std::alloc::Global;

/// Where the next mark stands: behind the common mark, where that is next.
fn own_place(word: &[u32], at: usize) -> usize
    requires { at < length word.now }
    ensures { ((slice_index word.now at ≡ common_mark) × (result ≡ at + 1)) ⊎ ((slice_index word.now at ≢ common_mark) × (result ≡ at)) }
{
    if word[at] == COMMON { at + 1 } else { at }
}

/// The word that has this code: each mark that stands behind a common mark, and each other.
pub fn decoded(alloc: Global, word: &[u32]) -> Result<Vec<u32>, NoMemory>
    ensures { IfOk result (λ plain. (steps : List AStep) (w : List ℕ) → word.now ≡ code steps w → plain.items ≡ w) }
{
    let mut plain = Vec::new(alloc);
    let mut at = 0;
    while at < word.len() {
        let own = own_place(word, at);
        if own >= word.len() {
            return Ok(plain);
        }
        plain.push(word[own])?;
        at = own + 1;
    }
    Ok(plain)
}
