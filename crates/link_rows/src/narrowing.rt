//! What narrowing leaves of a program, by hand.
use link_indexes::Place;
use link_narrow::narrow;
use link_program::Linked;
use link_rules::Code;
use linked_text::{Rows, first_wrong};
use lists::NoMemory;
use narrow_rules::Kept;
use std::alloc::Global;
use std::test::Fail;

// 0 `m` of Z, 1 `m` of D, which calls 2, `b`, 3 `main`, with a call of both at 1, and 4 the root, with a call of `main` at 3.
const DISPATCH: &str = "interface I { java.lang.Object m(); }
class Z { java.lang.Object m() { java.lang.Object o; o = new Z; return o; } }
class C extends Z implements I { }
class D implements I { java.lang.Object m() { java.lang.Object o; o = staticinvoke <Main: java.lang.Object b()>(); return o; } }
class Main {
static java.lang.Object b() { java.lang.Object o; o = new D; return o; }
static void main(java.lang.String[]) { I r; java.lang.Object x; r = new C; x = interfaceinvoke r.<I: java.lang.Object m()>(); return; }
}
";

// A row has the targets that are named, each as method, index and target with dots between, and behind ` | ` what is left: the targets of the call at a place, `-`
// for none, or whether a method has lost its statements or still has so many.
const ROWS: &str = "# What is named stays, and the rest goes
3.1.0 | 3.1 0
3.1.1 | 3.1 1
3.1.0 3.1.1 | 3.1 0 1
- | 3.1 -
# in the order in which it stood, each once
3.1.1 3.1.0 3.1.1 | 3.1 0 1
# with its place
3.0.0 | 3.1 -
2.1.0 | 3.1 -
# A method that isn't reached any more loses its statements, and so does what it alone calls
3.1.0 | lost 1
3.1.0 | lost 2
3.1.0 | left 0 2
3.1.1 | lost 0
3.1.1 | left 2 2
- | lost 0
- | left 3 3
- | left 4 5
# Static calls keep their targets, whatever is named
- | 4.3 3
3.1.1 | 1.0 2";

// The target that a text names.
fn kept_of(text: &str) -> Option<Kept> {
    let (place, target) = text.rsplit_once('.')?;
    Some(Kept {
        place: place_of(place)?,
        target: target.parse::<u32>().ok()?,
    })
}

fn place_of(text: &str) -> Option<Place> {
    let (method, index) = text.split_once('.')?;
    Some(Place {
        method: method.parse::<u32>().ok()?,
        index: index.parse::<u32>().ok()?,
    })
}

// The targets that a row names.
fn named(alloc: Global, text: &str) -> Result<Vec<Kept>, NoMemory> {
    let mut kept = Vec::new(alloc);
    for part in text.split(' ') {
        if let Some(one) = kept_of(part) {
            kept.push(one)?;
        }
    }
    Ok(kept)
}

// Whether a list has these numbers, with a blank between two; `-` for none.
fn are_targets(targets: &[u32], text: &str) -> bool {
    if text == "-" {
        return targets.is_empty();
    }
    let mut count: usize = 0;
    for part in text.split(' ') {
        if part.parse::<u32>().ok().as_ref() != targets.get(count) {
            return false;
        }
        count = count.saturating_add(1);
    }
    count == targets.len()
}

// Whether the call at a place has these targets.
fn has_targets(left: &Linked, place: Place, text: &str) -> bool {
    if place.method >= left.methods() {
        return false;
    }
    match left.code(place.method).get(place.index as usize) {
        Some(Code::Call { targets, .. }) => are_targets(targets.as_slice(), text),
        _ => false,
    }
}

// How many statements a method has.
fn statements(left: &Linked, method: &str) -> Option<usize> {
    let method = method.parse::<u32>().ok()?;
    if method >= left.methods() {
        return None;
    }
    Some(left.code(method).len())
}

fn is_left(left: &Linked, wanted: &str) -> bool {
    match wanted.split_once(' ') {
        Some(("lost", method)) => statements(left, method) == Some(0),
        Some(("left", rest)) => match rest.split_once(' ') {
            Some((method, count)) => statements(left, method) == count.parse::<usize>().ok(),
            None => false,
        },
        Some((place, targets)) => match place_of(place) {
            Some(place) => has_targets(left, place, targets),
            None => false,
        },
        None => false,
    }
}

struct Narrowing;

impl Rows for Narrowing {
    fn is_right(&self, alloc: Global, linked: &Linked, row: &str) -> Result<bool, NoMemory> {
        let Some((kept, wanted)) = row.split_once(" | ") else {
            return Ok(false);
        };
        let kept = named(alloc, kept)?;
        match narrow(alloc, linked, &kept) {
            Ok(left) => Ok(is_left(&left, wanted)),
            Err(error) => Err(error),
        }
    }
}

#[test]
fn narrows(rt: HostRuntime) -> Result<(), Fail> {
    assert_eq!(rt; first_wrong(rt.alloc(), DISPATCH, &Narrowing, ROWS)?, None);
    Ok(())
}
