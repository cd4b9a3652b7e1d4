ghost use Rattle.std.specs.Prelude.{◌≡◌, ◌+◌, ◌-◌, ◌^◌, ◌<◌, ◌↔◌, ◌⊎◌, min, [], length, Contains, IsErr, IfOk, Some};
ghost use Rattle.std.specs.Io.KnownBytes.{WriteAppends};
ghost use Rattle.boom_io.specs.Causes.{HasCause, CountsFault};
ghost use Rattle.boom_io.specs.Whole.{WritesSome};

use super::NoMemory;
use super::failing::fails_at;
use super::reading::Failed;
use super::writing::Sink;
use std::alloc::Global;
use std::marker::Model;

/// Room in memory for bytes, written at most `most` at a time, with writes that fail at chosen
/// calls or for want of room. It tells its bytes.
#[derive(Drop)]
pub struct MemSink {
    bytes: Vec<u8>,
    room: usize,
    failing: Vec<u32>,
    calls: u64,
    most: usize,
    faults: u64,
}

impl Model for MemSink {
    ghost use Rattle.std.specs.Prelude.{◌≤◌, ◌<◌, vec_len, vec_capacity};
    ghost use Rattle.boom_io.specs.Memory.{Page};

    ghost Value = { Page };

    ghost view = { λ s. record {
      written = s.bytes.items;
      room = s.room;
      failing = s.failing.items;
      calls = s.calls;
      most = s.most;
      faults = s.faults;
    } };

    ghost invariant = { λ s. (vec_len s.bytes ≤ s.room) × (s.room ≤ vec_capacity s.bytes)
        × (0 < s.most) };
}

impl MemSink {
    /// An empty sink with room for `room` bytes, which is taken here. One call takes at most `most`
    /// bytes. The calls whose numbers, from 0, are in `failing` fail, which each call searches, and
    /// so do those that find the room full. `Err` comes only for want of memory for the room.
    pub fn new(alloc: Global, room: usize, failing: Vec<u32>, most: usize) -> Result<Self, NoMemory>
        requires { 0 < most }
        ensures { IfOk result (λ s. s ≡ record {
          written = [];
          room = room;
          failing = failing.items;
          calls = 0;
          most = most;
          faults = 0;
        }) }
    {
        let bytes = Vec::with_capacity(alloc, room)?;
        Ok(MemSink {
            bytes,
            room,
            failing,
            calls: 0,
            most,
            faults: 0,
        })
    }

    /// The bytes that were written, in order.
    pub fn bytes(&self) -> &[u8]
        ensures { result.now ≡ self.now.written }
    {
        self.bytes.as_slice()
    }
}

impl Sink for MemSink {
    ghost written = { λ s. Some s.written };

    ghost faults = { λ s. s.faults };

    /// Takes as many bytes as the least of the piece's length, `most` and the room left. Fails
    /// exactly at the chosen calls, and where the room is full.
    fn write(&mut self, piece: &[u8]) -> Result<usize, Failed>
        requires { 0 < length piece.now }
        ensures bound { WritesSome result piece.now }
        ensures bytes { WriteAppends (Some self.old.written) (Some self.new.written)
            result piece.now }
        ensures cause { HasCause self.old.faults self.new.faults result }
        ensures counted { self.new.faults < 2 ^ 64 }

        ensures fails { IsErr result ↔ (Contains self.old.failing self.old.calls
            ⊎ (length self.old.written ≡ self.old.room)) }
        ensures count { IfOk result (λ n. let room_left = self.old.room - length self.old.written in
            n ≡ min (min (length piece.now) self.old.most) room_left) }
        ensures one { CountsFault self.old.faults self.new.faults result }
        ensures calls { self.new.calls ≡ min (self.old.calls + 1) (2 ^ 64 - 1) }
        ensures kept { (self.new.failing ≡ self.old.failing) × (self.new.most ≡ self.old.most)
            × (self.new.room ≡ self.old.room) }
    {
        let call = self.calls;
        self.calls = call.saturating_add(1);
        let room_left = self.room - self.bytes.len();
        if fails_at(&self.failing, call) || room_left == 0 {
            self.faults = self.faults.saturating_add(1);
            return Err(Failed);
        }
        let count = piece.len().min(self.most).min(room_left);
        // The room was taken when the sink was made.
        if self.bytes.extend_from_slice(&piece[..count]).is_err() {
            unreachable!();
        }
        Ok(count)
    }
}
