//! Batches of queries behind a program, with the replies found by hand.
use super::gates::{Holding, Meeting, Told};
use asked_text::{METHOD, ROOM, SMALL, is_reply, words};
use boom_io::{MemSink, MemSource};
use boom_top::{Gate, boomer};
use std::alloc::{AllocError, Global};
use std::marker::Sync;
use std::test::Fail;
use std::thread::Threads;

const PROGRAM: &str = "class A { }
class Main {
static void main(java.lang.String[]) {
A x, y;
x = new A;
y = x;
label1:
if 0 == 1 goto label2;
x = new A;
goto label1;
label2:
return;
}
}
";

// A row has how many nodes each query may demand, the number of the status, what stands behind the program, and the reply: `;` and `~` stand for a line feed, and `@` for
// `main` of the class `Main`.
const ROWS: &str = "100 | 0 |  | batch 0~
100 | 0 | %queries | batch 0~
100 | 0 | %queries; | batch 0~
100 | 0 | %queries;5 x @;5 y @;9 x @ | batch 3~points-to @ 5 x~site @ 0 new A~site @ 3 new A~sites 2~demanded 6~points-to @ 5 y~site @ 0 new A~sites 1~demanded 6~refused NoSuchPlace index~
5 | 0 | %queries;0 x @;5 x @;0 z @; | batch 3~points-to @ 0 x~sites 0~demanded 1~refused OverBudget 5~refused NoSuchPlace local~
100 | 0 | %queries;0 x no method;0 x %queries | batch 2~refused NoSuchPlace method~refused NoSuchPlace method~
100 | 15 | %queries;; | refused NotBatch 0~
100 | 15 | %queries;5 x @;; | refused NotBatch 1~
100 | 15 | %queries;5 x @;5 y @;x 5 | refused NotBatch 2~
100 | 15 | %queries;5 x @;%queries;5 x @ | refused NotBatch 1~
100 | 15 | %queries;05 x @ | refused NotBatch 0~
100 | 15 | %queries;+5 x @ | refused NotBatch 0~
100 | 15 | %queries;4294967296 x @ | refused NotBatch 0~
100 | 15 | %queries;5  @ | refused NotBatch 0~
100 | 15 | %queries;5 x | refused NotBatch 0~
100 | 15 | %queries;5 x  | refused NotBatch 0~
100 | 15 | %queries;5 x @; 5 x @ | refused NotBatch 1~";

// The parts of a row.
fn parts(row: &str) -> Option<(&str, u8, &str, &str)> {
    let (budget, rest) = row.split_once(" | ")?;
    let (number, rest) = rest.split_once(" | ")?;
    let (behind, reply) = rest.split_once(" | ")?;
    Some((budget, number.parse::<u8>().ok()?, behind, reply))
}

// A text with the method and its line feeds.
fn spelled(alloc: Global, text: &str) -> Result<String, AllocError> {
    let named = text.replace(alloc, "@", METHOD)?;
    let cut = named.as_str().replace(alloc, ";", "\n")?;
    cut.as_str().replace(alloc, "~", "\n")
}

// Whether that is answered to what stands behind the program.
fn is_answered<R: Threads + AllocGlobal + Sync>(
    rt: &R,
    budget: &str,
    number: u8,
    behind: &str,
    reply: &str,
) -> Result<bool, AllocError> {
    let words = format!(in rt.alloc(); "batch;Main;{budget}")?;
    let behind = spelled(rt.alloc(), behind)?;
    let input = format!(in rt.alloc(); "{PROGRAM}{}", behind.as_str())?;
    let reply = spelled(rt.alloc(), reply)?;
    is_reply(
        rt,
        words.as_str(),
        input.as_bytes(),
        SMALL,
        number,
        reply.as_str(),
    )
}

fn first_wrong<R: Threads + AllocGlobal + Sync>(
    rt: &R,
) -> Result<Option<&'static str>, AllocError> {
    for row in ROWS.lines() {
        let Some((budget, number, behind, reply)) = parts(row) else {
            return Ok(Some(row));
        };
        if !is_answered(rt, budget, number, behind, reply)? {
            return Ok(Some(row));
        }
    }
    Ok(None)
}

#[test]
fn answers_each_query(rt: HostRuntime) -> Result<(), Fail> {
    assert_eq!(rt; first_wrong(&rt)?, None);
    Ok(())
}

// So many queries behind the mark, each of `x` before the first statement.
fn queries(alloc: Global, count: u32) -> Result<String, AllocError> {
    let mut text = String::from_str(alloc, "%queries")?;
    for _ in 0..count {
        text.push_str(";0 x @")?;
    }
    Ok(text)
}

// What is answered to them.
fn answers(alloc: Global, count: u32) -> Result<String, AllocError> {
    let mut text = format!(in alloc; "batch {count}~")?;
    for _ in 0..count {
        text.push_str("points-to @ 0 x~sites 0~demanded 1~")?;
    }
    Ok(text)
}

// Whether a thousand are answered, and one more is refused.
fn has_room_for_a_thousand<R: Threads + AllocGlobal + Sync>(rt: &R) -> Result<bool, AllocError> {
    let most = queries(rt.alloc(), 1000)?;
    let reply = answers(rt.alloc(), 1000)?;
    let more = queries(rt.alloc(), 1001)?;
    Ok(
        is_answered(rt, "1", 0, most.as_str(), reply.as_str())?
            && is_answered(rt, "1", 15, more.as_str(), "refused NotBatch 1000~")?,
    )
}

#[test]
fn a_thousand_are_the_most(rt: HostRuntime) -> Result<(), Fail> {
    assert!(rt; has_room_for_a_thousand(&rt)?);
    Ok(())
}

// Whether a batch of so many gets its reply, where the gate is told of pieces.
fn is_told<R: Threads + AllocGlobal + Sync, G: Gate>(
    rt: &R,
    gate: &G,
    count: u32,
) -> Result<bool, AllocError> {
    let words = words(rt.alloc(), "batch;Main;1")?;
    let behind = queries(rt.alloc(), count)?;
    let behind = spelled(rt.alloc(), behind.as_str())?;
    let input = format!(in rt.alloc(); "{PROGRAM}{}", behind.as_str())?;
    let reply = answers(rt.alloc(), count)?;
    let reply = spelled(rt.alloc(), reply.as_str())?;
    let mut source = MemSource::new(input.into_bytes(), Vec::new(rt.alloc()), 64);
    let mut sink = MemSink::new(rt.alloc(), ROOM, Vec::new(rt.alloc()), 64)?;
    let status = boomer(rt, rt.alloc(), &words, &mut source, &mut sink, gate);
    Ok(status.number() == 0 && sink.bytes() == reply.as_bytes())
}

fn is_let_go<R: Threads + AllocGlobal + Sync>(rt: &R) -> Result<bool, AllocError> {
    let holding = Holding::new();
    Ok(is_told(rt, &holding, 8)? && holding.is_ended())
}

// Eight queries are two pieces.
#[test]
fn the_second_piece_enters_while_the_first_is_held(rt: HostRuntime) -> Result<(), AllocError> {
    assert!(rt; is_let_go(&rt)?);
    Ok(())
}

fn meets<R: Threads + AllocGlobal + Sync>(rt: &R) -> Result<bool, AllocError> {
    let meeting = Meeting::new();
    Ok(is_told(rt, &meeting, 8)? && meeting.is_met())
}

#[test]
fn two_pieces_wait_for_each_other(rt: HostRuntime) -> Result<(), AllocError> {
    assert!(rt; meets(&rt)?);
    Ok(())
}

// Whether a batch of so many is so many pieces, and no query has pieces of its own.
fn is_cut<R: Threads + AllocGlobal + Sync>(
    rt: &R,
    count: u32,
    pieces: usize,
) -> Result<bool, AllocError> {
    let told = Told::new();
    Ok(is_told(rt, &told, count)? && told.is_once(pieces))
}

#[test]
fn each_piece_is_told_once(rt: HostRuntime) -> Result<(), AllocError> {
    assert!(rt; is_cut(&rt, 4, 1)?);
    assert!(rt; is_cut(&rt, 8, 2)?);
    Ok(())
}
