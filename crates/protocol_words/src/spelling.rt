//! A word as a protocol by its names.
ghost use Rattle.std.specs.Prelude.{◌≡◌, ◌+◌, ◌^◌, ◌<◌, ◌∷◌, ℕ, List, IfErr, IfOk, length, map, vec_len};
ghost use Rattle.track_rules.specs.Protocols.{AreParts, Spells};
ghost use Rattle.protocol_words.specs.Spellings.{AreRows, BreaksAfterHead, IsUnspelled, named_protocol, named_row, texts};

use super::error::ProtocolError;
use super::words::{RowNames, row_names, two_names};
use jim_ast::Names;
use lists::NoMemory;
use std::alloc::{AllocError, Global};

/// A protocol by its names: the class, the state in which objects begin, and the rows.
#[derive(Drop)]
pub(crate) struct Spelling<'a> {
    pub(crate) class: &'a str,
    pub(crate) first: &'a str,
    pub(crate) rows: Vec<RowNames<'a>>,
}

// The parts of a word. There is room for 4,294,967,295.
fn parts_of(alloc: Global, word: &str) -> Result<Vec<&str>, NoMemory>
    ensures parts { IfOk result (λ parts. AreParts word.now (texts parts.items)) }
    ensures few { IfOk result (λ parts. vec_len parts < 2 ^ 32) }
{
    let parts: Vec<&str> = word.split(';').collect(alloc)?;
    if parts.len() > u32::MAX as usize {
        return Err(AllocError);
    }
    Ok(parts)
}

// The rows that the parts behind the first are. The error names the first part that isn't a row, or repeats the first state and the event of an earlier one.
fn read_rows<'a>(alloc: Global, parts: &[&'a str]) -> Result<Vec<RowNames<'a>>, ProtocolError>
    requires { length parts.now + 1 < 2 ^ 32 }
    ensures ok { IfOk result (λ rows. AreRows (texts parts.now) (map named_row rows.items)) }
    ensures err { IfErr result (λ e. (head : List ℕ) → BreaksAfterHead (head ∷ texts parts.now) e) }
{
    let mut rows = Vec::new(alloc);
    let mut keys = Names::new(alloc);
    for (index, part) in parts.iter().enumerate() {
        let refused = ProtocolError::NotProtocol {
            at: index as u32 + 1,
        };
        let Some(row) = row_names(part) else {
            return Err(refused);
        };
        if keys.find(row.key).is_some() {
            return Err(refused);
        }
        keys.add(row.key)?;
        rows.push(row)?;
    }
    Ok(rows)
}

/// The protocol that a word spells, by its names. The error names the first part that breaks the grammar.
pub(crate) fn read_spelling(alloc: Global, word: &str) -> Result<Spelling<'_>, ProtocolError>
    ensures ok { IfOk result (λ found. Spells word.now (named_protocol found)) }
    ensures few { IfOk result (λ found. vec_len found.rows + 1 < 2 ^ 32) }
    ensures err { IfErr result (IsUnspelled word.now) }
{
    let parts = parts_of(alloc, word)?;
    let Some((class, first)) = two_names(parts[0]) else {
        return Err(ProtocolError::NotProtocol { at: 0 });
    };
    let rows = read_rows(alloc, &parts[1..])?;
    Ok(Spelling { class, first, rows })
}
