//! Laws of typestate analysis: the systems of sites lie above the states of objects in each run, and where nothing is found no run breaks the protocol.
//!
//! The crate has no code.
#![tactic(auto)]

mod laws;

pub use laws::{links_are_track_sound, safe_without_findings, settled_formals, values_above};
