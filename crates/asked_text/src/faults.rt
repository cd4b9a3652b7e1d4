//! What a command answers where a read or a write fails.
use super::asking::{ROOM, asked, words_of};
use boom_io::{MemSink, MemSource};
use std::alloc::{AllocError, Global};
use std::marker::Sync;
use std::thread::Threads;

/// The words of a command that succeeds, and the text that it is about.
#[derive(Clone, Copy)]
pub struct Command<'a> {
    pub words: &'a [&'a str],
    pub text: &'a str,
}

// The most calls of a stream that are let fail.
const MOST: u32 = 10_000;

// The most bytes of a read, and of a write.
const READ: usize = 64;

const WRITE: usize = 5;

// How a call of the command came out.
#[derive(Clone, Copy, PartialEq, Eq)]
enum Outcome {
    // As wanted where a stream failed.
    Failed,
    // As wanted where none did.
    Answered,
    Wrong,
}

fn came_of(is_failed: bool, is_answered: bool) -> Outcome {
    if is_failed {
        Outcome::Failed
    } else if is_answered {
        Outcome::Answered
    } else {
        Outcome::Wrong
    }
}

// The number of the status, where the reads and the writes with these numbers fail.
fn asked_with<R: Threads + AllocGlobal + Sync>(
    rt: &R,
    command: Command<'_>,
    reads: Vec<u32>,
    sink: &mut MemSink,
) -> Result<u8, AllocError> {
    let words = words_of(rt.alloc(), command.words)?;
    let bytes = Vec::from_slice(rt.alloc(), command.text.as_bytes())?;
    let mut source = MemSource::new(bytes, reads, READ);
    Ok(asked(rt, &words, &mut source, sink))
}

// A list of one number.
fn one(alloc: Global, call: u32) -> Result<Vec<u32>, AllocError> {
    let mut calls = Vec::new(alloc);
    calls.push(call)?;
    Ok(calls)
}

// The reply where no stream fails, which is wanted of it.
fn reply<R: Threads + AllocGlobal + Sync>(
    rt: &R,
    command: Command<'_>,
) -> Result<Option<Vec<u8>>, AllocError> {
    let mut sink = MemSink::new(rt.alloc(), ROOM, Vec::new(rt.alloc()), WRITE)?;
    let number = asked_with(rt, command, Vec::new(rt.alloc()), &mut sink)?;
    if number == 0 {
        Ok(Some(Vec::from_slice(rt.alloc(), sink.bytes())?))
    } else {
        Ok(None)
    }
}

// The read with this number fails: status 2 and nothing written.
fn read_fails<R: Threads + AllocGlobal + Sync>(
    rt: &R,
    command: Command<'_>,
    call: u32,
    reply: &[u8],
) -> Result<Outcome, AllocError> {
    let mut sink = MemSink::new(rt.alloc(), ROOM, Vec::new(rt.alloc()), WRITE)?;
    let number = asked_with(rt, command, one(rt.alloc(), call)?, &mut sink)?;
    Ok(came_of(
        number == 2 && sink.bytes().is_empty(),
        number == 0 && sink.bytes() == reply,
    ))
}

// The write with this number fails: status 12, and what was written before.
fn write_fails<R: Threads + AllocGlobal + Sync>(
    rt: &R,
    command: Command<'_>,
    call: u32,
    reply: &[u8],
) -> Result<Outcome, AllocError> {
    let mut sink = MemSink::new(rt.alloc(), ROOM, one(rt.alloc(), call)?, WRITE)?;
    let number = asked_with(rt, command, Vec::new(rt.alloc()), &mut sink)?;
    let front = reply.get(..(call as usize).saturating_mul(WRITE));
    Ok(came_of(
        number == 12 && front == Some(sink.bytes()),
        number == 0 && sink.bytes() == reply,
    ))
}

/// How many reads the command makes, where each of them in turn fails as it should: with status 2, and nothing written. `None` where one doesn't.
pub fn reads_that_fail<R: Threads + AllocGlobal + Sync>(
    rt: &R,
    command: Command<'_>,
) -> Result<Option<u32>, AllocError> {
    let Some(reply) = reply(rt, command)? else {
        return Ok(None);
    };
    for call in 0..MOST {
        match read_fails(rt, command, call, &reply)? {
            Outcome::Failed => {}
            Outcome::Answered => return Ok(Some(call)),
            Outcome::Wrong => return Ok(None),
        }
    }
    Ok(None)
}

/// How many writes of five bytes it makes, where each fails as it should: with status 12, and exactly what was written before.
pub fn writes_that_fail<R: Threads + AllocGlobal + Sync>(
    rt: &R,
    command: Command<'_>,
) -> Result<Option<u32>, AllocError> {
    let Some(reply) = reply(rt, command)? else {
        return Ok(None);
    };
    for call in 0..MOST {
        match write_fails(rt, command, call, &reply)? {
            Outcome::Failed => {}
            Outcome::Answered => return Ok(Some(call)),
            Outcome::Wrong => return Ok(None),
        }
    }
    Ok(None)
}
