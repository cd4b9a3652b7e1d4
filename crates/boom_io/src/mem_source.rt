ghost use Rattle.std.specs.Prelude.{◌≡◌, ◌+◌, ◌-◌, ◌^◌, ◌<◌, ◌↔◌, min, [], length, take, Contains, IsErr, IfOk, IfSome, Some};
ghost use Rattle.std.specs.Io.{ReadsAtMost};
ghost use Rattle.std.specs.Io.KnownBytes.{ReadConsumes};
ghost use Rattle.boom_io.specs.Causes.{HasCause, CountsFault};

use super::failing::fails_at;
use super::reading::{Failed, Source};
use std::marker::Model;

// Copies the front of `from`, at most `most` bytes, to the front of `to`, and says how many.
fn copy_front(from: &[u8], to: &mut [u8], most: usize) -> usize
    ensures count { result ≡ min (min (length from.now) most) (length to.old) }
    ensures moved { take result to.new ≡ take result from.now }
{
    let count = from.len().min(most).min(to.len());
    to[..count].copy_from_slice(&from[..count]);
    count
}

/// Bytes in memory, read at most `most` at a time, with reads that fail at chosen calls. It tells
/// its bytes.
#[derive(Drop)]
pub struct MemSource {
    bytes: Vec<u8>,
    at: usize,
    failing: Vec<u32>,
    calls: u64,
    most: usize,
    faults: u64,
}

impl Model for MemSource {
    ghost use Rattle.std.specs.Prelude.{◌≤◌, ◌<◌, drop, vec_len};
    ghost use Rattle.boom_io.specs.Memory.{Tape};

    ghost Value = { Tape };

    ghost view = { λ s. record {
      left = drop s.at s.bytes.items;
      failing = s.failing.items;
      calls = s.calls;
      most = s.most;
      faults = s.faults;
    } };

    ghost invariant = { λ s. (s.at ≤ vec_len s.bytes) × (0 < s.most) };
}

impl MemSource {
    /// A source of these bytes, of which one call gives at most `most`. The calls whose numbers, from
    /// 0, are in `failing` fail, and no other; each call searches that list. It takes no memory.
    pub fn new(bytes: Vec<u8>, failing: Vec<u32>, most: usize) -> Self
        requires { 0 < most }
        ensures { result ≡ record {
          left = bytes.items;
          failing = failing.items;
          calls = 0;
          most = most;
          faults = 0;
        } }
    {
        MemSource {
            bytes,
            at: 0,
            failing,
            calls: 0,
            most,
            faults: 0,
        }
    }
}

impl Source for MemSource {
    ghost left = { λ s. Some s.left };

    ghost faults = { λ s. s.faults };

    /// Gives as many bytes as the least of `most`, the buffer's length and the number of bytes left.
    /// Fails exactly at the chosen calls.
    fn read(&mut self, buf: &mut [u8]) -> Result<usize, Failed>
        requires { 0 < length buf.old }
        ensures bound { ReadsAtMost result buf.new }
        ensures bytes { ReadConsumes (Some self.old.left) (Some self.new.left) result buf.new }
        ensures end { IfOk result (λ n. IfSome (Some self.old.left)
            (λ xs. (n ≡ 0) ↔ (xs ≡ []))) }
        ensures cause { HasCause self.old.faults self.new.faults result }
        ensures counted { self.new.faults < 2 ^ 64 }

        ensures fails { IsErr result ↔ Contains self.old.failing self.old.calls }
        ensures count { IfOk result (λ n.
            n ≡ min (min (length self.old.left) self.old.most) (length buf.old)) }
        ensures one { CountsFault self.old.faults self.new.faults result }
        ensures calls { self.new.calls ≡ min (self.old.calls + 1) (2 ^ 64 - 1) }
        ensures kept { (self.new.failing ≡ self.old.failing) × (self.new.most ≡ self.old.most) }
    {
        let call = self.calls;
        self.calls = call.saturating_add(1);
        if fails_at(&self.failing, call) {
            self.faults = self.faults.saturating_add(1);
            return Err(Failed);
        }
        let count = copy_front(&self.bytes[self.at..], buf, self.most);
        self.at += count;
        Ok(count)
    }
}
