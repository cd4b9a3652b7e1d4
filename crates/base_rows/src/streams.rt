//! Reading and writing whole, in pieces, to a limit, and past faults.
use boom_io::{
    Failed, MemSink, MemSource, ReadAll, ReadSource, Sink, Source, WriteSink, read_all, write_all,
};
use std::alloc::{AllocError, Global};
use std::io::{Cursor, ErrorKind, Read, Write};
use std::test::Fail;

const TEXT: &[u8] = b"points-to";

// Whether the nine bytes are read within the limit, or are told to be too long.
fn is_read(alloc: Global, most: usize, limit: usize, fits: bool) -> Result<bool, AllocError> {
    if most == 0 || limit == usize::MAX {
        return Ok(false);
    }
    let mut source = MemSource::new(TEXT.to_vec(alloc)?, Vec::new(alloc), most);
    match read_all(alloc, &mut source, limit) {
        Ok(bytes) => Ok(fits && bytes.as_slice() == TEXT),
        Err(error) => Ok(!fits && error == ReadAll::TooLong),
    }
}

#[test]
fn reads_in_pieces_up_to_the_limit(rt: HostRuntime) -> Result<(), Fail> {
    // The most bytes of a read, the limit, and whether the nine bytes are within it.
    let rows = [
        (1, 9, true),
        (2, 9, true),
        (8, 9, true),
        (9, 9, true),
        (100, 9, true),
        (100, 1000000, true),
        (1, 8, false),
        (4, 8, false),
        (100, 8, false),
        (1, 0, false),
        (100, 0, false),
    ];
    for (most, limit, fits) in rows {
        assert!(rt;
            is_read(rt.alloc(), most, limit, fits)?,
            "most {most}, limit {limit}"
        );
    }
    let mut nothing = MemSource::new(Vec::new(rt.alloc()), Vec::new(rt.alloc()), 1);
    let bytes = read_all(rt.alloc(), &mut nothing, 0)?;
    assert!(rt; bytes.is_empty());
    Ok(())
}

// Whether the read with the number fails, of four bytes each, and the next ones give this rest.
fn goes_on(alloc: Global, call: u32, rest: &[u8]) -> Result<bool, AllocError> {
    let failing = vec![in alloc; call, 7]?;
    let mut source = MemSource::new(TEXT.to_vec(alloc)?, failing, 4);
    let is_fault = matches!(read_all(alloc, &mut source, 9), Err(ReadAll::ReadFault));
    match read_all(alloc, &mut source, 9) {
        Ok(again) => Ok(is_fault && again.as_slice() == rest),
        Err(_) => Ok(false),
    }
}

// Whether all is read where a read fails that isn't made.
fn is_whole(alloc: Global) -> Result<bool, AllocError> {
    let failing = vec![in alloc; 4]?;
    let mut source = MemSource::new(TEXT.to_vec(alloc)?, failing, 4);
    match read_all(alloc, &mut source, 9) {
        Ok(bytes) => Ok(bytes.as_slice() == TEXT),
        Err(_) => Ok(false),
    }
}

#[test]
fn fails_at_the_chosen_read_and_goes_on_behind_it(rt: HostRuntime) -> Result<(), Fail> {
    // Four bytes a read: the reads 0 to 2 give them, and read 3 finds the end.
    let rows: [(u32, &[u8]); 4] = [(0, b"points-to"), (1, b"ts-to"), (2, b"o"), (3, b"")];
    for (call, rest) in rows {
        assert!(rt; goes_on(rt.alloc(), call, rest)?, "at {call}");
    }
    assert!(rt; is_whole(rt.alloc())?);
    Ok(())
}

#[test]
fn reads_more_than_one_piece_of_room(rt: HostRuntime) -> Result<(), Fail> {
    // Lengths on both sides of the room that is made first, and of twice and four times as much.
    for len in [65535, 65536, 65537, 131072, 131073, 300000] {
        let bytes = vec![in rt.alloc(); 97u8; len]?;
        let mut source = MemSource::new(bytes, Vec::new(rt.alloc()), 50000);
        let read = read_all(rt.alloc(), &mut source, len)?;
        assert_eq!(rt; read.len(), len);
        let mut source = MemSource::new(read, Vec::new(rt.alloc()), usize::MAX);
        assert!(rt; read_all(rt.alloc(), &mut source, len - 1) == Err(ReadAll::TooLong));
    }
    Ok(())
}

// Whether a sink of so much room then holds these bytes, and all nine are told to be written where it does.
fn is_kept(
    alloc: Global,
    room: usize,
    most: usize,
    call: u32,
    holds: &[u8],
) -> Result<bool, AllocError> {
    if most == 0 {
        return Ok(false);
    }
    let mut sink = MemSink::new(alloc, room, vec![in alloc; call]?, most)?;
    let is_written = write_all(&mut sink, TEXT).is_ok();
    Ok(sink.bytes() == holds && is_written == (holds.len() == 9))
}

#[test]
fn writes_in_pieces_and_keeps_the_front(rt: HostRuntime) -> Result<(), Fail> {
    // The room, the most bytes of a write, the write that fails, and what the sink then holds.
    let rows: [(usize, usize, u32, &[u8]); 11] = [
        (9, 1, 9, b"points-to"),
        (9, 4, 3, b"points-to"),
        (9, 100, 1, b"points-to"),
        (1000, 9, 1, b"points-to"),
        (1000, 8, 1, b"points-t"),
        (1000, 4, 0, b""),
        (1000, 4, 1, b"poin"),
        (1000, 4, 2, b"points-t"),
        (0, 4, 9, b""),
        (3, 4, 9, b"poi"),
        (8, 4, 9, b"points-t"),
    ];
    for (room, most, call, holds) in rows {
        assert!(rt;
            is_kept(rt.alloc(), room, most, call, holds)?,
            "room {room}, most {most}, call {call}"
        );
    }
    let mut full = MemSink::new(rt.alloc(), 0, Vec::new(rt.alloc()), 1)?;
    assert!(rt; write_all(&mut full, b"").is_ok());
    Ok(())
}

#[test]
fn adapts_readers_and_writers_of_std(rt: HostRuntime) -> Result<(), Fail> {
    let mut source = ReadSource::new(Cursor::new(TEXT.to_vec(rt.alloc())?));
    let mut front = [0u8; 4];
    assert!(rt; source.read(&mut front) == Ok(4));
    assert_eq!(rt; front.as_slice(), b"poin".as_slice());
    let rest = read_all(rt.alloc(), &mut source, 5)?;
    assert_eq!(rt; rest.as_slice(), b"ts-to".as_slice());

    let mut out = Vec::new(rt.alloc());
    let mut sink = WriteSink::new(Cursor::new(&mut out));
    assert!(rt; sink.write(&front) == Ok(4));
    assert!(rt; write_all(&mut sink, &rest).is_ok());
    assert_eq!(rt; out.as_slice(), TEXT);

    // A cursor over four bytes takes four and then none.
    let mut full = WriteSink::new(Cursor::new([0u8; 4]));
    assert!(rt; write_all(&mut full, TEXT).is_err());
    Ok(())
}

// Fails at its first call, as if a signal had come, and from then on does what the stream in it does.
#[derive(Drop)]
struct Interrupted<T> {
    inner: T,
    was_called: bool,
}

impl<T: Read> Read for Interrupted<T> {
    fn read(&mut self, buf: &mut [u8]) -> std::io::Result<usize> {
        if self.was_called {
            return self.inner.read(buf);
        }
        self.was_called = true;
        Err(ErrorKind::Interrupted.into())
    }
}

impl<T: Write> Write for Interrupted<T> {
    fn write(&mut self, buf: &[u8]) -> std::io::Result<usize> {
        if self.was_called {
            return self.inner.write(buf);
        }
        self.was_called = true;
        Err(ErrorKind::Interrupted.into())
    }

    fn flush(&mut self) -> std::io::Result<()> {
        self.inner.flush()
    }
}

// An interrupted call is answered as a fault, and not tried again: the next call is the first to move bytes. That each `Err` counts as one
// fault is proved.
#[test]
fn answers_a_call_that_was_interrupted_and_goes_on(rt: HostRuntime) -> Result<(), Fail> {
    let mut source = ReadSource::new(Interrupted {
        inner: Cursor::new(TEXT.to_vec(rt.alloc())?),
        was_called: false,
    });
    let mut front = [0u8; 4];
    assert!(rt; source.read(&mut front) == Err(Failed));
    assert!(rt; source.read(&mut front) == Ok(4));
    assert_eq!(rt; front.as_slice(), b"poin".as_slice());

    let mut out = Vec::new(rt.alloc());
    let mut sink = WriteSink::new(Interrupted {
        inner: Cursor::new(&mut out),
        was_called: false,
    });
    assert!(rt; sink.write(&front) == Err(Failed));
    assert!(rt; sink.write(&front) == Ok(4));
    assert_eq!(rt; out.as_slice(), front.as_slice());
    Ok(())
}
