ghost use Rattle.std.specs.Prelude.{ℕ, ◌^◌, ◌<◌, List, length};
ghost use Rattle.std.specs.declared.option.Option.{Option};
ghost use Rattle.std.specs.Io.KnownBytes.{WriteAppends};
ghost use Rattle.boom_io.specs.Causes.{HasCause};
ghost use Rattle.boom_io.specs.Whole.{WritesSome};

use super::reading::Failed;

/// Where bytes are written to.
pub trait Sink {
    /// The bytes that were written, in order, where the sink tells them.
    ghost written: { Self → Option (List ℕ) };
    /// How many writes failed. The count stops at the last value of a `u64`.
    ghost faults: { Self → ℕ };

    /// Writes a piece that isn't empty, or the front of it.
    ///
    /// `Ok(n)` says how many of its bytes were appended, at least one. `Err` comes only where the
    /// count of faults rose, or stands at its last value; then nothing was appended. With `Ok` the
    /// count stays.
    fn write(&mut self, piece: &[u8]) -> Result<usize, Failed>
        requires { 0 < length piece.now }
        ensures bound { WritesSome result piece.now }
        ensures bytes { WriteAppends (written self.old) (written self.new) result piece.now }
        ensures cause { HasCause (faults self.old) (faults self.new) result }
        ensures counted { faults self.new < 2 ^ 64 };
}
