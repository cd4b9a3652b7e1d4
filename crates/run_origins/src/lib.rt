//! A law of the steps of runs: along which edge each object came that a slot of a frame holds.
//!
//! The crate has no code.
#![tactic(auto)]

mod laws;

pub use laws::steps_have_origins;
