//! Words that are lists.
ghost use Rattle.std.specs.Prelude.{◌≡◌, ◌↔◌, ℕ, List as Items, Some, IfOk};
ghost use Rattle.link_sites.specs.declared.place.Place.{Place as AnyPlace};
ghost use Rattle.cert_text.specs.Words.{AreCalls, AreNumbers, SpellsNumbers, SpellsString, texts};

use super::cuts::parts;
use super::nodes::call;
use super::numbers::number;
use jim_ast::List;
use link_sites::Place;
use lists::NoMemory;
use std::alloc::Global;

// The numbers that words spell.
fn numbers_of(alloc: Global, words: &[&[u8]]) -> Result<Option<List<u32>>, NoMemory>
    ensures { IfOk result (λ found. (numbers : Items ℕ) → (found ≡ Some numbers) ↔ AreNumbers (texts words.now) numbers) }
{
    let mut numbers = Vec::new(alloc);
    for word in words {
        let Some(number) = number(word) else {
            return Ok(None);
        };
        numbers.push(number)?;
    }
    Ok(Some(List::from_vec(numbers)))
}

// The calls that words spell.
fn calls_of(alloc: Global, words: &[&[u8]]) -> Result<Option<List<Place>>, NoMemory>
    ensures { IfOk result (λ found. (calls : Items AnyPlace) → (found ≡ Some calls) ↔ AreCalls (texts words.now) calls) }
{
    let mut calls = Vec::new(alloc);
    for word in words {
        let Some(call) = call(word) else {
            return Ok(None);
        };
        calls.push(call)?;
    }
    Ok(Some(List::from_vec(calls)))
}

/// The numbers that a word spells: one at least, with commas between them.
pub(crate) fn numbers(alloc: Global, word: &[u8]) -> Result<Option<List<u32>>, NoMemory>
    ensures { IfOk result (λ found. (numbers : Items ℕ) → (found ≡ Some numbers) ↔ SpellsNumbers word.now numbers) }
{
    let words = parts(alloc, word, b',')?;
    numbers_of(alloc, words.as_slice())
}

/// The call string that a word spells: a dash, or calls with commas between them.
pub(crate) fn string(alloc: Global, word: &[u8]) -> Result<Option<List<Place>>, NoMemory>
    ensures { IfOk result (λ found. (string : Items AnyPlace) → (found ≡ Some string) ↔ SpellsString word.now string) }
{
    if word == b"-".as_slice() {
        let none = Vec::new(alloc);
        return Ok(Some(List::from_vec(none)));
    }
    let words = parts(alloc, word, b',')?;
    calls_of(alloc, words.as_slice())
}
