//! What a program reads and writes.
//!
//! A [`Source`] gives bytes and a [`Sink`] takes them, in pieces, and each counts its faults.
//! Contracts speak of the bytes that are left or were written, where a stream tells them, and a
//! fault is answered only where the count shows it. [`read_all`] and [`write_all`] move a whole
//! text.
//!
//! [`MemSource`] and [`MemSink`] are streams in memory that fail at chosen calls, for tests.
//! [`ReadSource`] and [`WriteSink`] are the trusted edge: the readers and writers of std.
#![tactic(auto)]

mod failing;
mod mem_sink;
mod mem_source;
mod read_source;
mod reading;
mod whole;
mod write_sink;
mod writing;

pub use mem_sink::MemSink;
pub use mem_source::MemSource;
pub use read_source::ReadSource;
pub use reading::{Failed, Source};
use std::alloc::AllocError;
pub use whole::{ReadAll, WriteFault, read_all, write_all};
pub use write_sink::WriteSink;
pub use writing::Sink;

/// There was no memory. It stands alone as the error of a call that nothing else can refuse.
pub type NoMemory = AllocError;
