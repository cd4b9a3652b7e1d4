//! Laws of points-to analysis: each run of the machine is simulated by the two pushdown systems.
//!
//! The crate has no code. Its contracts say, of a well-linked program, what the two systems tell of its runs, and how meets and words compose.
#![tactic(auto)]

mod laws;

pub use laws::{links_are_simulated, meets_compose, simulated, strings_included, words_compose};
