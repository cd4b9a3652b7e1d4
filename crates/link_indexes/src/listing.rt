//! The lists of places by number, and of indexes by method.
ghost use Rattle.std.specs.Prelude.{◌≡◌, IfOk, map};
ghost use Rattle.link_indexes.specs.Facts.{HasKey, IsOfKind};
ghost use Rattle.link_indexes.specs.Rows.{AreTheIndexes};
ghost use Rattle.lists.specs.Filings.{row};
ghost use Rattle.link_indexes.specs.Tables.{AreIndexesBy, ArePlacesBy, IsAtIndex, codes_of};

use super::facts::{Key, Kind, is_of_kind, keys};
use super::filing::Filing;
use super::method::{MethodCode, Place};
use link_rules::Code;
use lists::Rows;
use std::alloc::{AllocError, Global};

/// The number of what stands at a place. There is room for 4,294,967,295 methods or statements.
pub fn number_of(at: usize) -> Result<u32, AllocError>
    ensures { IfOk result (λ number. number ≡ at) }
{
    if at >= u32::MAX as usize {
        return Err(AllocError);
    }
    Ok(at as u32)
}

/// For each number the places of the statements that have it as a key of this sort.
pub fn places_by(alloc: Global, key: Key, methods: &[MethodCode]) -> Result<Rows<Place>, AllocError>
    ensures { IfOk result (λ rows. ArePlacesBy (HasKey key) (codes_of methods.now) (row rows)) }
{
    let mut filing = Filing::new(alloc);
    for (number, method) in methods.iter().enumerate() {
        for (index, code) in method.code.as_slice().iter().enumerate() {
            let place = Place {
                method: number_of(number)?,
                index: number_of(index)?,
            };
            filing.put_all(keys(key, code), place)?;
        }
    }
    filing.lists(alloc)
}

/// The indexes of the statements of this kind.
fn indexes_of(alloc: Global, kind: Kind, code: &[Code]) -> Result<Vec<u32>, AllocError>
    ensures { IfOk result (λ indexes. AreTheIndexes (IsAtIndex (IsOfKind kind) code.now) indexes.items) }
{
    let mut indexes = Vec::new(alloc);
    for (index, statement) in code.iter().enumerate() {
        if is_of_kind(kind, statement) {
            indexes.push(number_of(index)?)?;
        }
    }
    Ok(indexes)
}

/// For each method the indexes of its statements of this kind.
pub fn indexes_by_method(
    alloc: Global,
    kind: Kind,
    methods: &[MethodCode],
) -> Result<Vec<Vec<u32>>, AllocError>
    ensures { IfOk result (λ lists. AreIndexesBy (IsOfKind kind) (codes_of methods.now) (map (λ v. v.items) lists.items)) }
{
    let mut lists = Vec::new(alloc);
    for method in methods {
        lists.push(indexes_of(alloc, kind, method.code.as_slice())?)?;
    }
    Ok(lists)
}
