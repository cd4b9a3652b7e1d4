ghost use Rattle.std.specs.Prelude.{◌≡◌, ◌≢◌, ℕ, ◌+◌, ◌<◌, ◌≤◌, ◌++◌, length, take, vec_len, vec_capacity, IfOk, IfSome, OnOk, OnErr, Err};
ghost use Rattle.std.specs.Io.KnownBytes.{Appends, Consumes, IsAtEnd, Keeps};
ghost use Rattle.boom_io.specs.Causes.{Rose, HasCause};
ghost use Rattle.boom_io.specs.Whole.{TakesWithin, TakesFirst, AppendsProperPrefix};

use super::NoMemory;
use super::reading::{Failed, Source};
use super::writing::Sink;
use std::alloc::Global;

/// Why a text wasn't read.
#[derive(Clone, Copy, Debug, PartialEq, Eq)]
pub enum ReadAll {
    /// A read failed.
    ReadFault,
    /// There are more bytes than the limit.
    TooLong,
    /// There was no memory.
    NoMemory,
}

impl From<Failed> for ReadAll {
    ghost use Rattle.std.specs.Prelude.{◌≡◌};
    ghost use Rattle.boom_io.specs.declared.whole.ReadAll.TheVariants.{ReadFault};

    ghost from_gives = { λ _ e. e ≡ ReadFault };

    fn from(_failed: Failed) -> ReadAll {
        ReadAll::ReadFault
    }
}

impl From<NoMemory> for ReadAll {
    ghost use Rattle.std.specs.Prelude.{◌≡◌};
    ghost use Rattle.boom_io.specs.declared.whole.ReadAll.TheVariants.{NoMemory};

    ghost from_gives = { λ _ e. e ≡ NoMemory };

    fn from(_no_memory: NoMemory) -> ReadAll {
        ReadAll::NoMemory
    }
}

/// A write failed, and the text wasn't written whole.
#[derive(Clone, Copy, Debug, PartialEq, Eq)]
pub struct WriteFault;

// How many bytes are read at most at once.
const PIECE: usize = 16 * 1024;

// One read into a piece, whose front is then put behind the bytes that were read before. There is room for it.
fn read_behind<S: Source>(
    source: &mut S,
    piece: &mut [u8],
    bytes: &mut Vec<u8>,
) -> Result<usize, Failed>
    requires some { 0 < length piece.old }
    requires room { vec_len bytes.old + length piece.old ≤ vec_capacity bytes.old }
    ensures bound { IfOk result (λ n. n ≤ length piece.new) }
    ensures bytes { IfOk result (λ n. Consumes (S.left source.old) (S.left source.new) (take n piece.new)) }
    ensures put { IfOk result (λ n. bytes.new.items ≡ bytes.old.items ++ take n piece.new) }
    ensures end { IfOk result (λ n. n ≡ 0 → IsAtEnd (S.left source.new)) }
    ensures kept { OnErr result (Keeps (S.left source.old) (S.left source.new)) }
    ensures cause { HasCause (S.faults source.old) (S.faults source.new) result }
{
    let count = source.read(piece)?;
    let _ = bytes.extend_from_slice(&piece[..count]);
    Ok(count)
}

/// Reads until a read gives no byte, or until there are more than `limit` bytes.
///
/// `Ok` is exactly the bytes that were left, at most `limit`, and none are left. `TooLong` comes
/// exactly where `limit + 1` bytes were taken, and no more are. `ReadFault` comes only where the
/// count of faults rose, or stands at its last value: at the first read that fails. With each other
/// answer the count stays. `NoMemory` comes for want of room for the bytes. What was taken before an
/// error isn't given back.
pub fn read_all<S: Source>(alloc: Global, source: &mut S, limit: usize) -> Result<Vec<u8>, ReadAll>
    requires { limit < usize.MAX }
    ensures bytes { IfOk result (λ v. IfSome (S.left source.old) (λ left. v.items ≡ left)) }
    ensures within { IfOk result (λ v. vec_len v ≤ limit) }
    ensures end { OnOk result (IsAtEnd (S.left source.new)) }

    // On each answer: what was taken, told or not.
    ensures taken { TakesWithin limit (S.left source.old) (S.left source.new) result }
    ensures too_long { result ≡ Err ReadAll.TooLong
        → TakesFirst (limit + 1) (S.left source.old) (S.left source.new) }

    ensures read_fault { result ≡ Err ReadAll.ReadFault
        → Rose (S.faults source.old) (S.faults source.new) }
    ensures no_fault { result ≢ Err ReadAll.ReadFault
        → S.faults source.new ≡ S.faults source.old }
    ensures later { S.faults source.old ≤ S.faults source.new }
{
    let most = limit + 1;
    let mut piece = vec![in alloc; 0u8; PIECE.min(most)]?;
    let mut bytes = Vec::new(alloc);
    while bytes.len() < most {
        let room = piece.len().min(most - bytes.len());
        bytes.reserve(room)?;
        let count = read_behind(source, &mut piece[..room], &mut bytes)?;
        if count == 0 {
            return Ok(bytes);
        }
    }
    Err(ReadAll::TooLong)
}

/// Writes all bytes, in order. It takes no memory.
///
/// `WriteFault` comes only where the count of faults rose, or stands at its last value: at the first
/// write that fails. Then some of the first bytes were appended, perhaps none, and never all. With
/// `Ok` the count stays.
pub fn write_all<K: Sink>(sink: &mut K, bytes: &[u8]) -> Result<(), WriteFault>
    ensures bytes { OnOk result (Appends (K.written sink.old) (K.written sink.new) bytes.now) }
    ensures prefix { OnErr result (AppendsProperPrefix (K.written sink.old) (K.written sink.new) bytes.now) }
    ensures cause { HasCause (K.faults sink.old) (K.faults sink.new) result }
{
    let mut done = 0;
    while done < bytes.len() {
        match sink.write(&bytes[done..]) {
            Ok(count) => done += count,
            Err(Failed) => return Err(WriteFault),
        }
    }
    Ok(())
}
