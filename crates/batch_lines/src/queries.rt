//! The queries of a batch.
ghost use Rattle.std.specs.Prelude.{◌≡◌, ◌<◌, ◌^◌, ◌∷◌, ℕ, List, Err, Some, IfNone, IfOk, IfSome, MatchResult, length, map, IsUtf8};
ghost use Rattle.std.specs.Fmt.{decimal};
ghost use Rattle.batch_lines.specs.Queries.{AreQueries, IsFirstBad, QueryParts, SpellsQuery, lines_in, parts_of};

use super::cutting::split_once;
use super::error::BatchError;
use boom_words::number;
use lists::NoMemory;
use std::alloc::Global;

/// The most queries of a batch.
const MOST: u32 = 1000;

/// What a line of a batch asks: which sites may the local hold just before the statement of the method with the index?
#[derive(Clone, Copy)]
pub struct BatchQuery<'a> {
    pub index: u32,
    pub local: &'a str,
    pub method: &'a str,
}

// The number that a word spells.
fn index_of(alloc: Global, word: &[u8]) -> Result<Option<u32>, NoMemory>
    ensures some { IfOk result (λ found. IfSome found (λ n. (n < 2 ^ 32) × (word.now ≡ decimal n))) }
    ensures only { IfOk result (λ found. (n : ℕ) → n < 2 ^ 32 → word.now ≡ decimal n → found ≡ Some n) }
{
    match str::from_utf8(word) {
        Ok(word) => number(alloc, word),
        Err(_) => Ok(None),
    }
}

// A text that isn't empty.
fn text_of(word: &[u8]) -> Option<&str>
    ensures some { IfSome result (λ text. (text.now ≡ word.now) × (0 < length word.now) × IsUtf8 word.now) }
    ensures none { IfNone result (0 < length word.now → IsUtf8 word.now → ⊥) }
{
    if word.is_empty() {
        return None;
    }
    str::from_utf8(word).ok()
}

// The query that a line spells.
fn query(alloc: Global, line: &[u8]) -> Result<Option<BatchQuery<'_>>, NoMemory>
    ensures some { IfOk result (λ found. IfSome found (λ q. SpellsQuery line.now (parts_of q))) }
    ensures none { IfOk result (λ found. IfNone found ((q : QueryParts) → SpellsQuery line.now q → ⊥)) }
{
    let Some((index, rest)) = split_once(line, b' ') else {
        return Ok(None);
    };
    let Some((local, method)) = split_once(rest, b' ') else {
        return Ok(None);
    };
    let Some(index) = index_of(alloc, index)? else {
        return Ok(None);
    };
    let Some(local) = text_of(local) else {
        return Ok(None);
    };
    let Some(method) = text_of(method) else {
        return Ok(None);
    };
    Ok(Some(BatchQuery {
        index,
        local,
        method,
    }))
}

// The first line of a text that isn't empty, and what stands behind it.
fn first_line(text: &[u8]) -> (&[u8], &[u8])
    requires { 0 < length text.now }
    ensures first { lines_in text.now ≡ result.0.now ∷ lines_in result.1.now }
    ensures less { length result.1.now < length text.now }
{
    match split_once(text, b'\n') {
        Some(cut) => cut,
        None => (text, &text[text.len()..]),
    }
}

/// The queries that a text spells, a line each, `INDEX LOCAL METHOD` with a blank between each two: INDEX is decimal digits without a leading zero, at most
/// 4,294,967,295; LOCAL has no blank; METHOD is the rest of the line; both are UTF-8 and not empty. A line feed ends each line, but for the last, which may
/// lack it. At most 1,000 lines are queries. The error is `NotBatch` exactly where a line is no query or is the 1,001st, and names the first such line,
/// from 0.
pub fn read_queries(alloc: Global, text: &[u8]) -> Result<Vec<BatchQuery<'_>>, BatchError>
    ensures ok { IfOk result (λ found. AreQueries text.now (map parts_of found.items)) }
    ensures bad { (at : ℕ) → result ≡ Err (BatchError.NotBatch at) → IsFirstBad text.now at }
{
    let mut queries = Vec::new(alloc);
    let mut left = text;
    while !left.is_empty() {
        let (line, behind) = first_line(left);
        let at = queries.len() as u32;
        if at == MOST {
            return Err(BatchError::NotBatch { at });
        }
        let Some(query) = query(alloc, line)? else {
            return Err(BatchError::NotBatch { at });
        };
        queries.push(query)?;
        left = behind;
    }
    Ok(queries)
}
