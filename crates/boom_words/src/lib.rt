//! The words of a command line: which command they are, and what it asks for.
#![tactic(auto)]

mod fields;
mod laws;
mod request;
mod word;

pub use fields::{FieldWord, read_fields};
pub use laws::words_are_one;
pub use request::{Asked, Command, Query, Running, Tracking, read_words};
pub use word::number;
