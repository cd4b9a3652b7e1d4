//! The stores of a field.
ghost use Rattle.std.specs.Prelude.{◌≡◌, AllPairs, IfOk, OnOk, false};
ghost use Rattle.lists.specs.Lists.{AreAll};
ghost use Rattle.spds_rules.specs.Stores.{level_var};
ghost use Rattle.spds_nodes.specs.Stored.{IsFiled, IsInnerStore, IsLocalStore, IsStoreAt, IsStoreOf, IsStoredBy, StorePrecedes};

use super::codes::arg_var;
use super::places::{before, code_at};
use link_program::Linked;
use link_rules::{Arg, Code};
use link_sites::Place;
use lists::NoMemory;
use spds_rules::{Node, StoreAt, Var};
use std::alloc::Global;

// The arrays of a level of those that a statement makes.
fn level_var(level: u8) -> Var
    ensures { result ≡ level_var level }
{
    match level {
        0 => Var::Made,
        _ => Var::Nested(level),
    }
}

// Adds the store into what a local holds, where the argument has a node.
fn push_store(
    stores: &mut Vec<StoreAt>,
    place: Place,
    field: u32,
    base: u32,
    arg: Arg,
) -> Result<(), NoMemory>
    ensures { OnOk result (IsFiled place (IsLocalStore place field base arg) stores.old.items stores.new.items) }
{
    if let Some(stored) = arg_var(arg) {
        let base = Node {
            place,
            var: Var::Local(base),
        };
        let arg = Node { place, var: stored };
        stores.push(StoreAt {
            place,
            field,
            base,
            arg,
        })?;
    }
    Ok(())
}

// Adds the stores of arrays into arrays, where arrays of so many levels are made.
fn push_levels(stores: &mut Vec<StoreAt>, place: Place, levels: u8) -> Result<(), NoMemory>
    ensures { OnOk result (IsFiled place (IsInnerStore place levels) stores.old.items stores.new.items) }
{
    for inner in 1..levels {
        let base = Node {
            place,
            var: level_var(inner - 1),
        };
        let arg = Node {
            place,
            var: Var::Nested(inner),
        };
        stores.push(StoreAt {
            place,
            field: 0,
            base,
            arg,
        })?;
    }
    Ok(())
}

// Adds what the statement stores into the field.
fn push_stored(
    stores: &mut Vec<StoreAt>,
    place: Place,
    code: &Code,
    field: u32,
) -> Result<(), NoMemory>
    ensures { OnOk result (IsFiled place (IsStoredBy place field code.now) stores.old.items stores.new.items) }
{
    match code {
        Code::Store {
            base,
            field: into,
            arg,
        } => {
            if *into != field {
                return Ok(());
            }
            push_store(stores, place, field, *base, *arg)
        }
        Code::StoreCell { base, arg } => {
            if field != 0 {
                return Ok(());
            }
            push_store(stores, place, field, *base, *arg)
        }
        Code::NewMulti { levels, .. } => {
            if field != 0 {
                return Ok(());
            }
            push_levels(stores, place, *levels)
        }
        _ => Ok(()),
    }
}

// Adds the stores of the field at the place.
fn push_stores(
    stores: &mut Vec<StoreAt>,
    linked: &Linked,
    place: Place,
    field: u32,
) -> Result<(), NoMemory>
    requires { place.raised ≡ false }
    ensures { OnOk result (IsFiled place (IsStoreAt linked.now field place) stores.old.items stores.new.items) }
{
    match code_at(linked, place.method, place.index) {
        Some(code) => push_stored(stores, place, code, field),
        None => Ok(()),
    }
}

/// All stores of an instance field, or for 0 of the elements of arrays, whose argument has a node, each once and in the order of their places. Where
/// arrays of arrays are made, each level but the outermost is stored into the one outside it, in the order of the levels.
pub fn stores_of(alloc: Global, linked: &Linked, field: u32) -> Result<Vec<StoreAt>, NoMemory>
    ensures all { IfOk result (λ stores. AreAll (IsStoreOf linked.now field) stores.items) }
    ensures ordered { IfOk result (λ stores. AllPairs StorePrecedes stores.items) }
{
    let mut stores = Vec::new(alloc);
    let places = linked.stores(field);
    for indexed in places {
        let place = before(indexed.method, indexed.index);
        push_stores(&mut stores, linked, place, field)?;
    }
    Ok(stores)
}
