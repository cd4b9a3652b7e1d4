//! From tokens to a program.
#![tactic(auto)]

mod laws;
mod reader;

pub use laws::{has_one_place, has_one_program};
pub use reader::{ParseError, ReadError, parse, read};
