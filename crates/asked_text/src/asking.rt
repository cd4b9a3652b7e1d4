//! What a command answers: the number of its status, and its reply.
use boom_io::{MemSink, MemSource};
use boom_top::{Open, boomer};
use std::alloc::{AllocError, Global};
use std::marker::Sync;
use std::thread::Threads;

pub const METHOD: &str = "<Main: void main(java.lang.String[])>";

/// The most bytes of a reply.
pub const ROOM: usize = 100_000;

/// The most bytes of a read, and of a write.
#[derive(Clone, Copy)]
pub struct Pieces {
    pub read: usize,
    pub write: usize,
}

/// Pieces of 64 bytes.
pub const SMALL: Pieces = Pieces {
    read: 64,
    write: 64,
};

// The number of the status.
pub(crate) fn asked<R: Threads + AllocGlobal + Sync>(
    rt: &R,
    words: &[String],
    source: &mut MemSource,
    sink: &mut MemSink,
) -> u8 {
    boomer(rt, rt.alloc(), words, source, sink, &Open).number()
}

/// Whether a command over bytes gets a status of this number, and this reply.
pub fn is_answered<R: Threads + AllocGlobal + Sync>(
    rt: &R,
    words: &[String],
    bytes: Vec<u8>,
    pieces: Pieces,
    number: u8,
    reply: &[u8],
) -> Result<bool, AllocError> {
    if pieces.read == 0 || pieces.write == 0 {
        return Ok(false);
    }
    let mut source = MemSource::new(bytes, Vec::new(rt.alloc()), pieces.read);
    let mut sink = MemSink::new(rt.alloc(), ROOM, Vec::new(rt.alloc()), pieces.write)?;
    let answered = asked(rt, words, &mut source, &mut sink);
    Ok(answered == number && sink.bytes() == reply)
}

/// The words of a row, with `;` between two; `@` stands for `main` of the class `Main`.
pub fn words(alloc: Global, row: &str) -> Result<Vec<String>, AllocError> {
    let mut words = Vec::new(alloc);
    for word in row.split(';') {
        let word = if word == "@" { METHOD } else { word };
        words.push(String::from_str(alloc, word)?)?;
    }
    Ok(words)
}

/// The reply that a row tells: `@` stands for `main` of the class `Main`, and `~` for a line feed.
pub fn reply_text(alloc: Global, row: &str) -> Result<String, AllocError> {
    let mut text = String::new(alloc);
    for c in row.chars() {
        match c {
            '@' => text.push_str(METHOD)?,
            '~' => text.push('\n')?,
            _ => text.push(c)?,
        }
    }
    Ok(text)
}

/// These words, each with a memory of its own.
pub fn words_of(alloc: Global, parts: &[&str]) -> Result<Vec<String>, AllocError> {
    let mut words = Vec::new(alloc);
    for part in parts {
        words.push(String::from_str(alloc, part)?)?;
    }
    Ok(words)
}

/// The same of these words, over a text.
pub fn is_reply_to<R: Threads + AllocGlobal + Sync>(
    rt: &R,
    parts: &[&str],
    text: &str,
    pieces: Pieces,
    number: u8,
    reply: &str,
) -> Result<bool, AllocError> {
    let words = words_of(rt.alloc(), parts)?;
    let bytes = Vec::from_slice(rt.alloc(), text.as_bytes())?;
    is_answered(rt, &words, bytes, pieces, number, reply.as_bytes())
}

/// The same of the words of a row.
pub fn is_reply<R: Threads + AllocGlobal + Sync>(
    rt: &R,
    row: &str,
    bytes: &[u8],
    pieces: Pieces,
    number: u8,
    reply: &str,
) -> Result<bool, AllocError> {
    let words = words(rt.alloc(), row)?;
    let bytes = Vec::from_slice(rt.alloc(), bytes)?;
    is_answered(rt, &words, bytes, pieces, number, reply.as_bytes())
}

/// The number of the status of the words of a row over a text, and the reply.
pub fn reply_of<R: Threads + AllocGlobal + Sync>(
    rt: &R,
    row: &str,
    text: &str,
) -> Result<(u8, Vec<u8>), AllocError> {
    let words = words(rt.alloc(), row)?;
    let bytes = Vec::from_slice(rt.alloc(), text.as_bytes())?;
    let mut source = MemSource::new(bytes, Vec::new(rt.alloc()), 1_000_000);
    let mut sink = MemSink::new(rt.alloc(), ROOM, Vec::new(rt.alloc()), 1000)?;
    let number = asked(rt, &words, &mut source, &mut sink);
    Ok((number, Vec::from_slice(rt.alloc(), sink.bytes())?))
}

/// The number of the status of these words over a text, and the reply, for which there is so much room.
pub fn whole_reply<R: Threads + AllocGlobal + Sync>(
    rt: &R,
    parts: &[&str],
    text: &str,
    room: usize,
) -> Result<(u8, Vec<u8>), AllocError> {
    let words = words_of(rt.alloc(), parts)?;
    let bytes = Vec::from_slice(rt.alloc(), text.as_bytes())?;
    let mut source = MemSource::new(bytes, Vec::new(rt.alloc()), 1_000_000);
    let mut sink = MemSink::new(rt.alloc(), room, Vec::new(rt.alloc()), 1_000_000)?;
    let number = asked(rt, &words, &mut source, &mut sink);
    Ok((number, Vec::from_slice(rt.alloc(), sink.bytes())?))
}

/// The number of the status of these words over a text.
pub fn status_of<R: Threads + AllocGlobal + Sync>(
    rt: &R,
    parts: &[&str],
    text: &str,
) -> Result<u8, AllocError> {
    let words = words_of(rt.alloc(), parts)?;
    let bytes = Vec::from_slice(rt.alloc(), text.as_bytes())?;
    let mut source = MemSource::new(bytes, Vec::new(rt.alloc()), 1_000_000);
    let mut sink = MemSink::new(rt.alloc(), ROOM, Vec::new(rt.alloc()), 1000)?;
    Ok(asked(rt, &words, &mut source, &mut sink))
}
