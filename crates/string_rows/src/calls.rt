//! Calls by number, and the call strings of methods as base steps.
ghost use Rattle.call_side.specs.Calls.{AreTheCalls};

use call_side::{Calls, bases};
use link_program::Linked;
use linked_text::spelled::call;
use linked_text::{Rows, first_wrong};
use lists::NoMemory;
use post_star::BaseStep;
use std::alloc::Global;
use std::test::Fail;

// 0 `id`, 1 `main`, with calls of `id` at 2 and 3.
const TWO_CALLS: &str = "class A { }
class Main { static java.lang.Object id(java.lang.Object) { java.lang.Object p; p := @parameter0: java.lang.Object; return p; }
static void main(java.lang.String[]) { java.lang.Object a, b, x, y; a = new A; b = new A;
x = staticinvoke <Main: java.lang.Object id(java.lang.Object)>(a); y = staticinvoke <Main: java.lang.Object id(java.lang.Object)>(b); return; } }";

// The calls of `main`, and a statement and a call with an exception in flight, which have no number.
const NUMBERS: [(&str, Option<u32>); 4] = [
    ("1.2", Some(0)),
    ("1.3", Some(1)),
    ("1.4", None),
    ("1.2!", None),
];

// Whether the calls have these numbers, both ways, and the last number is none's.
fn are_numbered(calls: &Calls) -> bool {
    for (text, number) in &NUMBERS {
        let Some(place) = call(text) else {
            return false;
        };
        if calls.mark_of(place) != *number {
            return false;
        }
        if let Some(number) = number
            && calls.call_of(*number) != Some(place)
        {
            return false;
        }
    }
    calls.call_of(u32::MAX).is_none()
}

// Whether the method that both call leads to `main` by each of them, and `main` leads to the root by one call.
fn are_strings(steps: &[BaseStep], root: u32) -> bool {
    let called = [0, 1].map(|mark| BaseStep {
        base: 0,
        mark,
        below: 1,
    });
    steps.len() == 3
        && called.iter().all(|step| steps.contains(step))
        && steps
            .iter()
            .any(|step| step.base == 1 && step.below == root)
}

// Whether the base steps of the calls are those strings.
fn lead_home(alloc: Global, linked: &Linked, calls: &Calls) -> Result<bool, NoMemory>
    requires { AreTheCalls linked.now calls.now }
{
    let steps = bases(alloc, linked, calls)?;
    Ok(are_strings(&steps, linked.root()))
}

fn is_right(alloc: Global, linked: &Linked, calls: &Calls) -> Result<bool, NoMemory>
    requires { AreTheCalls linked.now calls.now }
{
    Ok(are_numbered(calls) && lead_home(alloc, linked, calls)?)
}

struct Numbered;

impl Rows for Numbered {
    fn is_right(&self, alloc: Global, linked: &Linked, _: &str) -> Result<bool, NoMemory> {
        match Calls::new(alloc, linked) {
            Ok(calls) => is_right(alloc, linked, &calls),
            Err(error) => Err(error),
        }
    }
}

#[test]
fn numbers_both_ways(rt: HostRuntime) -> Result<(), Fail> {
    assert_eq!(rt;
        first_wrong(rt.alloc(), TWO_CALLS, &Numbered, "calls and strings")?,
        None
    );
    Ok(())
}
