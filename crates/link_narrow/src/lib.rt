//! Narrowing: from a linked program and the targets that calls keep to the program that is left, which shares all but its code with the first one.
#![tactic(auto)]

mod codes;
mod names;
mod narrowing;
mod reaching;

pub use narrowing::narrow;
