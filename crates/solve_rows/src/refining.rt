//! Which targets calls keep by the answers of their receivers, by hand.
ghost use Rattle.link_rules.specs.WellLinked.{IsWellLinked};

use link_program::Linked;
use link_rules::Code;
use linked_text::linked_of;
use lists::NoMemory;
use query_core::Hands;
use refined_query::refine;
use spds_solve::Open;
use std::marker::Sync;
use std::test::Fail;
use std::thread::Threads;

// 0 `m` of Z, 1 `m` of D, 2 `main`, with calls of both at 3, 4, 5 and 6, and 3 the root, with a call of `main` at 3. The receivers are an object of C, which
// inherits from Z, one of C or of D, null, and one of U, which isn't below I.
const DISPATCH: &str = "interface I { java.lang.Object m(); }
class Z { java.lang.Object m() { return null; } }
class C extends Z implements I { }
class D implements I { java.lang.Object m() { return null; } }
class U { java.lang.Object m() { return null; } }
class Main { static void main(java.lang.String[]) { java.lang.Object r, s, t, u;
r = new C;
s = r;
if 0 == 1 goto label1;
interfaceinvoke r.<I: java.lang.Object m()>();
s = new D;
label1:
interfaceinvoke s.<I: java.lang.Object m()>();
t = null;
interfaceinvoke t.<I: java.lang.Object m()>();
u = new U;
interfaceinvoke u.<I: java.lang.Object m()>();
return; } }
";

// A row has the budget, and behind it the targets that the call at an index of a method keeps, `-` for none.
const ROWS: &str = "# A class that inherits the method that is called
100 2.3 0
# Objects of two classes, null, and a class that isn't below the one that is called
100 2.5 0 1
100 2.7 -
100 2.9 -
# The receivers at 3 and at 7 demand 4 nodes and 1: with less, all targets stay
4 2.3 0
3 2.3 0 1
1 2.7 -
0 2.7 0 1
# A static call isn't narrowed
100 3.3 2";

// Whether a list has these numbers, with a blank between two; `-` for none.
fn are_targets(targets: &[u32], text: &str) -> bool {
    if text == "-" {
        return targets.is_empty();
    }
    let mut count: usize = 0;
    for part in text.split(' ') {
        if part.parse::<u32>().ok().as_ref() != targets.get(count) {
            return false;
        }
        count = count.saturating_add(1);
    }
    count == targets.len()
}

// Whether the call at a place keeps these targets.
fn keeps(left: &Linked, place: &str, targets: &str) -> bool {
    let Some((method, index)) = place.split_once('.') else {
        return false;
    };
    let (Ok(method), Ok(index)) = (method.parse::<u32>(), index.parse::<usize>()) else {
        return false;
    };
    if method >= left.methods() {
        return false;
    }
    match left.code(method).get(index) {
        Some(Code::Call { targets: kept, .. }) => are_targets(kept.as_slice(), targets),
        _ => false,
    }
}

fn is_refined<R: Threads + AllocGlobal + Sync>(
    rt: &R,
    linked: &Linked,
    budget: u32,
    wanted: &str,
) -> Result<bool, NoMemory>
    requires { IsWellLinked linked.now }
{
    let hands = Hands {
        threads: rt,
        alloc: rt.alloc(),
        gate: &Open,
    };
    match (refine(&hands, linked, budget), wanted.split_once(' ')) {
        (Ok(left), Some((place, targets))) => Ok(keeps(&left, place, targets)),
        (Ok(_), None) => Ok(false),
        (Err(error), _) => Err(error),
    }
}

fn is_right<R: Threads + AllocGlobal + Sync>(
    rt: &R,
    linked: &Linked,
    row: &str,
) -> Result<bool, NoMemory>
    requires { IsWellLinked linked.now }
{
    let Some((budget, wanted)) = row.split_once(' ') else {
        return Ok(false);
    };
    match budget.parse::<u32>() {
        Ok(budget) => is_refined(rt, linked, budget, wanted),
        Err(_) => Ok(false),
    }
}

fn first_wrong_of<R: Threads + AllocGlobal + Sync>(
    rt: &R,
    linked: &Linked,
) -> Result<Option<&'static str>, NoMemory>
    requires { IsWellLinked linked.now }
{
    for row in ROWS.lines() {
        if !row.starts_with("# ") && !is_right(rt, linked, row)? {
            return Ok(Some(row));
        }
    }
    Ok(None)
}

fn first_wrong<R: Threads + AllocGlobal + Sync>(rt: &R) -> Result<Option<&'static str>, NoMemory> {
    match linked_of(rt.alloc(), DISPATCH) {
        Some(Ok(linked)) => first_wrong_of(rt, &linked),
        _ => Ok(Some(DISPATCH)),
    }
}

#[test]
fn keeps_what_receivers_lead_to(rt: HostRuntime) -> Result<(), Fail> {
    assert_eq!(rt; first_wrong(&rt)?, None);
    Ok(())
}
