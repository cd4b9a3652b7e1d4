//! Who is told that a piece begins.
use std::marker::Sync;

/// Is told of each piece as it begins, in the thread that runs the piece. Whatever a gate does, the answer is the same: no contract speaks of it.
pub trait Gate: Sync {
    /// The piece with this number begins. A piece isn't begun before the call returns.
    fn pass(&self, piece: u32);
}

/// The gate that does nothing.
#[derive(Clone, Copy, Debug, PartialEq, Eq)]
pub struct Open;

impl Gate for Open {
    fn pass(&self, _piece: u32) {}
}
