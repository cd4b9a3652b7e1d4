//! Runs under a protocol: which steps are events on objects, the states that a monitor keeps of these, and the runs that break the protocol.
//!
//! This crate has no code; its contracts are laws.
#![tactic(auto)]

mod laws;

pub use laws::runs_are_watched;
