//! Inputs and words of the greatest size that is taken, and where they can be made, of the next one.
use super::answers::{is_answered, is_refused};
use super::queries::copies;
use asked_text::METHOD;
use std::alloc::{AllocError, Global};
use std::marker::Sync;
use std::test::Fail;
use std::thread::Threads;

// A copy of an object, and so many bytes in all: the rest are blanks.
fn padded(alloc: Global, bytes: usize) -> Result<String, AllocError> {
    let mut text = copies(alloc, 1)?;
    for _ in text.len()..bytes {
        text.push(' ')?;
    }
    Ok(text)
}

fn reads_most<R: Threads + AllocGlobal + Sync>(rt: &R) -> Result<bool, AllocError> {
    let words = ["points-to", "Main", METHOD, "2", "y", "3"];
    let most = padded(rt.alloc(), 16_777_216)?;
    let more = padded(rt.alloc(), 16_777_217)?;
    let reply = format!(in rt.alloc();
        "points-to {METHOD} 2 y\nsite {METHOD} 0 new A\nsites 1\ndemanded 3\n"
    )?;
    Ok(
        is_answered(rt, &words, most.as_str(), reply.as_str())?
            && is_refused(rt, &words, more.as_str(), 3, "refused TooLong\n")?,
    )
}

#[test]
fn an_input_has_16777216_bytes(rt: HostRuntime) -> Result<(), Fail> {
    assert!(rt; reads_most(&rt)?);
    Ok(())
}

const TURNS: &str =
    "class Main { static void main(java.lang.String[]) { again: if 0 == 1 goto done; goto again; done: return; } }";

// The last choice leaves the loop. The first two are the root's: of its array, and of its store into it.
fn choices(alloc: Global, count: u32) -> Result<String, AllocError> {
    let mut word = String::new(alloc);
    for _ in 1..count {
        word.push('0')?;
    }
    word.push('1')?;
    Ok(word)
}

// 997 choices go on by two steps each; the last one leads to the end by two, and the root makes five.
fn chooses_most<R: Threads + AllocGlobal + Sync>(rt: &R) -> Result<bool, AllocError> {
    let most = choices(rt.alloc(), 1000)?;
    let more = choices(rt.alloc(), 1001)?;
    let words = ["run", "Main", "1000000", most.as_str()];
    let wrong = ["run", "Main", "1000000", more.as_str()];
    Ok(
        is_answered(rt, &words, TURNS, "run Main\nsteps 2001\nend ended\n")?
            && is_refused(rt, &wrong, TURNS, 1, "refused Usage\n")?,
    )
}

#[test]
fn a_run_has_1000_choices(rt: HostRuntime) -> Result<(), Fail> {
    assert!(rt; chooses_most(&rt)?);
    Ok(())
}

// A number of so many digits.
fn number(alloc: Global, digits: u32) -> Result<String, AllocError> {
    let mut text = String::from_str(
        alloc,
        "class Main { static void main(java.lang.String[]) { int x; x = ",
    )?;
    for _ in 0..digits {
        text.push('9')?;
    }
    text.push_str("; return; } }")?;
    Ok(text)
}

// The 39th digit is a token of its own, which no program has behind a number: eighteen tokens stand before it.
fn counts_digits<R: Threads + AllocGlobal + Sync>(rt: &R) -> Result<bool, AllocError> {
    let words = ["points-to", "Main", METHOD, "1", "x", "2"];
    let most = number(rt.alloc(), 38)?;
    let more = number(rt.alloc(), 39)?;
    let reply = format!(in rt.alloc(); "points-to {METHOD} 1 x\nsites 0\ndemanded 1\n")?;
    Ok(
        is_answered(rt, &words, most.as_str(), reply.as_str())?
            && is_refused(rt, &words, more.as_str(), 5, "refused NotJimple 18\n")?,
    )
}

#[test]
fn a_number_has_38_digits(rt: HostRuntime) -> Result<(), Fail> {
    assert!(rt; counts_digits(&rt)?);
    Ok(())
}
