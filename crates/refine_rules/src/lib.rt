//! Refined calls: the program that is left where each call on an object keeps those of its targets that the answer of its receiver leads to, over and over,
//! that there is one, and that its runs are those of the first one.
//!
//! The crate has no code; its definitions say what is kept, and its contracts are the laws.
#![tactic(auto)]

mod laws;

pub use laws::{refined_is_determined, refined_keeps_runs};
