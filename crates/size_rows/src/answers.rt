//! What large commands answer.
use asked_text::whole_reply;
use std::alloc::AllocError;
use std::marker::Sync;
use std::thread::Threads;

/// More nodes than any query demands here.
pub const ANY: &str = "4294967295";

/// The most bytes of a reply here.
pub const ROOM: usize = 8_000_000;

/// Whether a command over a text gets a status of this number, and this reply.
pub fn is_refused<R: Threads + AllocGlobal + Sync>(
    rt: &R,
    words: &[&str],
    text: &str,
    number: u8,
    reply: &str,
) -> Result<bool, AllocError> {
    let (found, bytes) = whole_reply(rt, words, text, ROOM)?;
    Ok(found == number && bytes.as_slice() == reply.as_bytes())
}

/// Whether a command over a text is answered so.
pub fn is_answered<R: Threads + AllocGlobal + Sync>(
    rt: &R,
    words: &[&str],
    text: &str,
    reply: &str,
) -> Result<bool, AllocError> {
    is_refused(rt, words, text, 0, reply)
}
