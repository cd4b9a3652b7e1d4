ghost use Rattle.std.specs.Prelude.{◌≡◌, ℕ, ◌^◌, ◌<◌, ◌↔◌, List, [], length, IfOk, IfSome};
ghost use Rattle.std.specs.declared.option.Option.{Option};
ghost use Rattle.std.specs.Io.{ReadsAtMost};
ghost use Rattle.std.specs.Io.KnownBytes.{ReadConsumes};
ghost use Rattle.boom_io.specs.Causes.{HasCause};

/// A read or a write failed, and moved no byte.
#[derive(Clone, Copy, Debug, PartialEq, Eq)]
pub struct Failed;

/// Where bytes are read from.
pub trait Source {
    /// The bytes that are left, in order, where the source tells them.
    ghost left: { Self → Option (List ℕ) };
    /// How many reads failed. The count stops at the last value of a `u64`.
    ghost faults: { Self → ℕ };

    /// Reads the next bytes into the front of a buffer that isn't empty.
    ///
    /// `Ok(n)` says how many, at most the buffer's length; where the bytes are told, n is 0 exactly
    /// where none were left. `Err` comes only where the count of faults rose, or stands at its last
    /// value; then no byte was taken. With `Ok` the count stays. What the buffer holds behind the n
    /// bytes, or after an `Err`, is left open.
    fn read(&mut self, buf: &mut [u8]) -> Result<usize, Failed>
        requires { 0 < length buf.old }
        ensures bound { ReadsAtMost result buf.new }
        ensures bytes { ReadConsumes (left self.old) (left self.new) result buf.new }
        ensures end { IfOk result (λ n. IfSome (left self.old) (λ xs. (n ≡ 0) ↔ (xs ≡ []))) }
        ensures cause { HasCause (faults self.old) (faults self.new) result }
        ensures counted { faults self.new < 2 ^ 64 };
}
