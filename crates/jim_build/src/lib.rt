//! Builds the program of tokens that are known to derive one.
#![tactic(auto)]

mod bodies;
mod classes;
mod decls;
mod lines;
mod members;
mod modifiers;

pub use classes::{build, derives_one};
