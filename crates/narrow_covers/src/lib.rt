//! A law of narrowing and of runs: where the targets that calls keep cover what runs do, the program that is left has the same runs, and its targets
//! cover them too.
//!
//! The crate has no code; its contract is the law. What is answered of the program that is left is so said of runs of the first one.
#![tactic(auto)]

mod laws;

pub use laws::narrowed_has_same_runs;
