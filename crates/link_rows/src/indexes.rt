//! Indexes of small codes, by hand.
use jim_ast::{List, Mode};
use link_indexes::{Indexes, MethodCode, Place};
use link_rules::{Arg, Code};
use std::alloc::{AllocError, Global};
use std::test::Fail;

fn call(alloc: Global, targets: &[u32]) -> Result<Code, AllocError> {
    Ok(Code::Call {
        to: None,
        mode: Mode::Static,
        class: 0,
        key: 0,
        receiver: None,
        args: List::from_vec(Vec::new(alloc)),
        targets: List::from_vec(Vec::from_slice(alloc, targets)?),
    })
}

// A loop, a call with a target named twice, and a store and a load of one field.
fn looping(alloc: Global) -> Result<Vec<Code>, AllocError> {
    let call = call(alloc, &[1, 0, 1])?;
    let arg = Arg::Null;
    Ok(vec![in alloc;
        Code::This { to: 0 },
        Code::Store {
            base: 0,
            field: 1,
            arg
        },
        Code::If { jump: 5 },
        Code::Load {
            to: 1,
            base: 0,
            field: 1
        },
        Code::Goto { jump: 2 },
        call,
        Code::Return { arg: None },
    ]?)
}

// A switch with a jump named twice, elements of arrays, static fields and throws.
fn switching(alloc: Global) -> Result<Vec<Code>, AllocError> {
    let call = call(alloc, &[1])?;
    let jumps = List::from_vec(Vec::from_slice(alloc, &[4, 5, 4])?);
    let arg = Arg::Null;
    Ok(vec![in alloc;
        Code::LoadStatic { to: 0, field: 3 },
        Code::StoreStatic { field: 3, arg },
        Code::Switch { jumps },
        Code::Throw { arg },
        Code::StoreCell { base: 0, arg },
        Code::LoadCell { to: 1, base: 0 },
        Code::Numeric {
            to: 1,
            divides: true
        },
        Code::Numeric {
            to: 1,
            divides: false
        },
        call,
        Code::Throw { arg },
    ]?)
}

// A jump to the next statement.
fn short(alloc: Global) -> Result<Vec<Code>, AllocError> {
    Ok(vec![in alloc; Code::If { jump: 1 }, Code::Return { arg: None }]?)
}

fn indexed(alloc: Global) -> Result<Indexes, AllocError> {
    let mut methods = Vec::new(alloc);
    for code in [looping(alloc)?, switching(alloc)?, short(alloc)?] {
        methods.push(MethodCode {
            code: List::from_vec(code),
            catches: List::from_vec(Vec::new(alloc)),
        })?;
    }
    Indexes::new(alloc, methods.as_slice())
}

const fn at(method: u32, index: u32) -> Place {
    Place { method, index }
}

// The indexes are made in one function and asked in another, since the prover goes over them at each way out of the function that owns them.
fn have_callers(indexes: &Indexes) -> bool {
    indexes.callers(0) == [at(0, 5)].as_slice()
        && indexes.callers(1) == [at(0, 5), at(1, 8)].as_slice()
        && indexes.callers(2).is_empty()
}

fn have_fields(indexes: &Indexes) -> bool {
    indexes.stores(0) == [at(1, 4)].as_slice()
        && indexes.stores(1) == [at(0, 1)].as_slice()
        && indexes.static_stores(3) == [at(1, 1)].as_slice()
        && indexes.static_stores(1).is_empty()
}

fn have_methods(indexes: &Indexes) -> bool {
    indexes.returns(0) == [6].as_slice()
        && indexes.returns(1).is_empty()
        && indexes.returns(3).is_empty()
        && indexes.raised(0) == [1, 3, 5].as_slice()
        && indexes.raised(1) == [3, 4, 5, 6, 8, 9].as_slice()
}

// The statements before each statement of a method, and before the one behind its last: with a blank between two, `-` for none, and a
// bar between the lists.
const BEFORE: [&str; 3] = [
    "- | 0 | 1 4 | 2 | 3 | 2 | 5 | -",
    "- | 0 | 1 | - | 2 | 2 4 | 5 | 6 | 7 | 8 | -",
    "- | 0 | -",
];

// Whether the numbers are these, with a blank between two; `-` for none.
fn are_numbers(numbers: &[u32], text: &str) -> bool {
    if text == "-" {
        return numbers.is_empty();
    }
    let mut count: usize = 0;
    for part in text.split(' ') {
        if numbers.get(count).copied() != part.parse::<u32>().ok() {
            return false;
        }
        count = count.saturating_add(1);
    }
    count == numbers.len()
}

fn are_before(indexes: &Indexes, method: u32, wanted: &str) -> bool {
    let mut index: u32 = 0;
    for before in wanted.split(" | ") {
        if !are_numbers(indexes.before(method, index), before) {
            return false;
        }
        index = index.saturating_add(1);
    }
    true
}

fn have_before(indexes: &Indexes) -> bool {
    are_before(indexes, 0, BEFORE[0])
        && are_before(indexes, 1, BEFORE[1])
        && are_before(indexes, 2, BEFORE[2])
}

// What isn't right of the indexes, if anything.
fn wrong_of(indexes: &Indexes) -> Option<&'static str> {
    if !have_callers(indexes) {
        return Some("callers");
    }
    if !have_fields(indexes) {
        return Some("fields");
    }
    if !have_methods(indexes) {
        return Some("indexes by method");
    }
    if have_before(indexes) {
        None
    } else {
        Some("statements before")
    }
}

fn wrong(alloc: Global) -> Result<Option<&'static str>, AllocError> {
    let indexes = indexed(alloc)?;
    Ok(wrong_of(&indexes))
}

#[test]
fn indexes(rt: HostRuntime) -> Result<(), Fail> {
    assert_eq!(rt; wrong(rt.alloc())?, None);
    Ok(())
}
