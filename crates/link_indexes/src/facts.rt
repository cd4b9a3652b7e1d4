//! What a statement is listed for.
ghost use Rattle.std.specs.Prelude.{ℕ, ◌↔◌, IsTrue};
ghost use Rattle.lists.specs.Lists.{Has};
ghost use Rattle.link_indexes.specs.Facts.{Calls, HasKey, IsOfKind, Stores, StoresStatic};
ghost use Rattle.link_rules.specs.Flow.{IsRaised, IsReturn};

use link_rules::Code;
use std::slice::from_ref;

/// The sorts of numbers by which places are listed.
#[derive(Clone, Copy)]
pub enum Key {
    /// The methods that a call may run.
    Target,
    /// The instance field that is stored into, or 0 for the elements of arrays.
    Stored,
    StaticStored,
}

/// The kinds of statements whose indexes are listed by method.
#[derive(Clone, Copy)]
pub enum Kind {
    Returns,
    /// Those that an exception may come out of.
    Raised,
}

/// The number that stands for the elements of arrays.
const CELLS: u32 = 0;

fn targets_of(code: &Code) -> &[u32]
    ensures { (number : ℕ) → Has result.now number ↔ Calls number code.now }
{
    match code {
        Code::Call { targets, .. } => targets.as_slice(),
        _ => &[],
    }
}

fn stored_by(code: &Code) -> &[u32]
    ensures { (number : ℕ) → Has result.now number ↔ Stores number code.now }
{
    match code {
        Code::Store { field, .. } => from_ref(field),
        Code::StoreCell { .. } => from_ref(&CELLS),
        Code::NewMulti { levels, .. } if *levels > 1 => from_ref(&CELLS),
        _ => &[],
    }
}

fn static_stored_by(code: &Code) -> &[u32]
    ensures { (number : ℕ) → Has result.now number ↔ StoresStatic number code.now }
{
    match code {
        Code::StoreStatic { field, .. } => from_ref(field),
        _ => &[],
    }
}

/// The numbers that the statement has as keys of a sort. Takes no memory.
pub fn keys(key: Key, code: &Code) -> &[u32]
    ensures { (number : ℕ) → Has result.now number ↔ HasKey key number code.now }
{
    match key {
        Key::Target => targets_of(code),
        Key::Stored => stored_by(code),
        Key::StaticStored => static_stored_by(code),
    }
}

fn is_return(code: &Code) -> bool
    ensures { IsTrue result ↔ IsReturn code.now }
{
    matches!(code, Code::Return { .. })
}

// A call counts also where its receiver can't be null, since what it runs may raise.
fn is_raised(code: &Code) -> bool
    ensures { IsTrue result ↔ IsRaised code.now }
{
    match code {
        Code::Throw { .. } | Code::Call { .. } => true,
        Code::Load { .. } | Code::Store { .. } | Code::Length { .. } | Code::Monitor { .. } => true,
        Code::LoadCell { .. } | Code::StoreCell { .. } => true,
        Code::NewArray { .. } | Code::NewMulti { .. } | Code::Cast { .. } => true,
        Code::Numeric { divides, .. } => *divides,
        _ => false,
    }
}

/// Whether the statement is of the kind.
pub fn is_of_kind(kind: Kind, code: &Code) -> bool
    ensures { IsTrue result ↔ IsOfKind kind code.now }
{
    match kind {
        Kind::Returns => is_return(code),
        Kind::Raised => is_raised(code),
    }
}
