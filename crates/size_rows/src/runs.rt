//! Runs with many frames, locals, steps and writes. The root makes four steps until it has called `main`, and ends with a step.
use super::answers::is_answered;
use super::queries::calls;
use asked_text::METHOD;
use std::alloc::{AllocError, Global};
use std::marker::Sync;
use std::test::Fail;
use std::thread::Threads;

// The reply of a run after so many steps, and what is told behind their number.
fn is_run<R: Threads + AllocGlobal + Sync>(
    rt: &R,
    text: &str,
    steps: &str,
    told: &str,
) -> Result<bool, AllocError> {
    let reply = format!(in rt.alloc(); "run Main\nsteps {told}")?;
    is_answered(rt, &["run", "Main", steps, "-"], text, reply.as_str())
}

// `main` makes two steps until it has called the first of 5,000 methods, each of which makes two until it has called the next one. The last one makes two,
// and each other one returns by one.
fn makes_frames<R: Threads + AllocGlobal + Sync>(rt: &R) -> Result<bool, AllocError> {
    let text = calls(rt.alloc(), 5000)?;
    let deepest = "10004\nend running\nat <Main: java.lang.Object f4999(java.lang.Object)> 0\n";
    let back = format!(in rt.alloc();
        "15005\nend running\nat {METHOD} 2\nlocal x {METHOD} 0 new A\nlocal y {METHOD} 0 new A\n"
    )?;
    Ok(
        is_run(rt, text.as_str(), "10004", deepest)?
            && is_run(rt, text.as_str(), "15005", back.as_str())?
            && is_run(rt, text.as_str(), "1000000", "15007\nend ended\n")?,
    )
}

#[test]
fn a_run_has_5002_frames(rt: HostRuntime) -> Result<(), Fail> {
    assert!(rt; makes_frames(&rt)?);
    Ok(())
}

// So many locals, each a copy of the one before.
fn locals(alloc: Global, count: u32) -> Result<String, AllocError> {
    let mut text = String::from_str(
        alloc,
        "class A { } class Main { static void main(java.lang.String[]) { A x0;\n",
    )?;
    for k in 1..count {
        write!(text, "A x{k};\n")?;
    }
    text.push_str("x0 = new A;\n")?;
    for k in 1..count {
        let from = k.saturating_sub(1);
        write!(text, "x{k} = x{from};\n")?;
    }
    text.push_str("return; } }\n")?;
    Ok(text)
}

// What is told of so many locals at the end of `main`.
fn held(alloc: Global, count: u32) -> Result<String, AllocError> {
    let steps = count.saturating_add(4);
    let mut told = format!(in alloc; "{steps}\nend running\nat {METHOD} {count}\n")?;
    for k in 0..count {
        write!(told, "local x{k} {METHOD} 0 new A\n")?;
    }
    Ok(told)
}

fn tells_locals<R: Threads + AllocGlobal + Sync>(rt: &R) -> Result<bool, AllocError> {
    let text = locals(rt.alloc(), 2000)?;
    let told = held(rt.alloc(), 2000)?;
    is_run(rt, text.as_str(), "2004", told.as_str())
}

#[test]
fn a_reply_has_2000_locals(rt: HostRuntime) -> Result<(), Fail> {
    assert!(rt; tells_locals(&rt)?);
    Ok(())
}

// A cell that is stored into itself again and again, and loaded.
const STORES: &str =
    "class Cell { Cell next; } class Main { static void main(java.lang.String[]) { Cell c, d; c = new Cell;
again: c.<Cell: Cell next> = c; d = c.<Cell: Cell next>; goto again; } }";

// From the sixth step on, which is a write, each third step is one: the 100,000th is step 300,003.
fn writes<R: Threads + AllocGlobal + Sync>(rt: &R) -> Result<bool, AllocError> {
    let told = format!(in rt.alloc();
        "300003\nend running\nat {METHOD} 2\nlocal c {METHOD} 0 new Cell\nlocal d {METHOD} 0 new Cell\n"
    )?;
    is_run(rt, STORES, "300003", told.as_str())
}

// Every turn of three steps makes an object, and a write of it into itself.
const OBJECTS: &str =
    "class Cell { Cell next; } class Main { static void main(java.lang.String[]) { Cell c;
again: c = new Cell; c.<Cell: Cell next> = c; goto again; } }";

// As many as a run may have. 999,996 steps are 333,332 turns.
fn makes_objects<R: Threads + AllocGlobal + Sync>(rt: &R) -> Result<bool, AllocError> {
    let told = format!(in rt.alloc();
        "1000000\nend running\nat {METHOD} 0\nlocal c {METHOD} 0 new Cell\n"
    )?;
    is_run(rt, OBJECTS, "1000000", told.as_str())
}

#[test]
fn runs_have_as_many_steps_as_may_be(rt: HostRuntime) -> Result<(), Fail> {
    assert!(rt; writes(&rt)?);
    assert!(rt; makes_objects(&rt)?);
    Ok(())
}
