//! Programs that are deep or long.
use super::texts::LOOP;
use asked_text::{METHOD, Pieces, is_reply_to};
use std::alloc::{AllocError, Global};
use std::marker::Sync;
use std::test::Fail;
use std::thread::Threads;

// All of a text at once.
const WHOLE: Pieces = Pieces {
    read: 1_000_000,
    write: 1000,
};

// A field whose type has so many pairs of brackets.
fn brackets(alloc: Global, pairs: usize) -> Result<String, AllocError> {
    let mut text = String::from_str(alloc, "class A { int")?;
    for _ in 0..pairs {
        text.push_str("[]")?;
    }
    text.push_str(" x; }")?;
    Ok(text)
}

fn refuses_the_256th<R: Threads + AllocGlobal + Sync>(rt: &R) -> Result<bool, AllocError> {
    let words = ["points-to", "Main", METHOD, "5", "x", "100"];
    let most = brackets(rt.alloc(), 255)?;
    let more = brackets(rt.alloc(), 256)?;
    Ok(
        is_reply_to(
            rt,
            &words,
            most.as_str(),
            WHOLE,
            6,
            "refused NotLinked NoEntry\n",
        )? && is_reply_to(
            rt,
            &words,
            more.as_str(),
            WHOLE,
            5,
            "refused NotJimple 514\n",
        )?,
    )
}

#[test]
fn refuses_the_256th_pair_of_brackets(rt: HostRuntime) -> Result<(), Fail> {
    assert!(rt; refuses_the_256th(&rt)?);
    Ok(())
}

// A chain of so many classes, each the parent of the next, and a program.
fn chain(alloc: Global, classes: u32) -> Result<String, AllocError> {
    let mut text = String::from_str(alloc, "class C0 { }\n")?;
    for k in 1..classes {
        let parent = k.saturating_sub(1);
        text.push_str(format!(in alloc; "class C{k} extends C{parent} {{ }}\n")?.as_str())?;
    }
    text.push_str(LOOP)?;
    Ok(text)
}

fn links_the_chain<R: Threads + AllocGlobal + Sync>(rt: &R) -> Result<bool, AllocError> {
    let words = ["points-to", "Main", METHOD, "5", "x", "100"];
    let text = chain(rt.alloc(), 5000)?;
    let reply = format!(in rt.alloc();
        "points-to {METHOD} 5 x\nsite {METHOD} 0 new A\nsite {METHOD} 3 new A\nsites 2\ndemanded 6\n"
    )?;
    is_reply_to(rt, &words, text.as_str(), WHOLE, 0, reply.as_str())
}

#[test]
fn links_a_chain_of_5000_classes(rt: HostRuntime) -> Result<(), Fail> {
    assert!(rt; links_the_chain(&rt)?);
    Ok(())
}
