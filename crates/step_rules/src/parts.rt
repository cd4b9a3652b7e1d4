//! What is read of a run.

/// What a slot of a frame, a field or an element of an array holds. An object is named by its number in the heap, from 0 in the order in
/// which objects come to be.
#[derive(Clone, Copy, Debug, PartialEq, Eq)]
pub enum Value {
    Null,
    Number,
    Object(u32),
}

/// A slot of a frame. Locals and parameters are named by their numbers from 0.
#[derive(Clone, Copy, Debug, PartialEq, Eq)]
pub enum Slot {
    Local(u32),
    /// The receiver.
    This,
    Param(u32),
    /// The exception that a handler caught last.
    Caught,
    /// The exception in flight.
    Thrown,
}

/// Where a step leads: the run may go on, or it has ended, by the root's return, by an exception that no handler caught, named by its object,
/// or by a statement that isn't well typed.
#[derive(Clone, Copy, Debug, PartialEq, Eq)]
pub enum Moved {
    Went,
    Ended,
    Uncaught(u32),
    IllTyped,
}
