//! Laws of linking: what linking gives is well linked, and what it gives, and what it tells of a refusal, is determined.
//!
//! The layers above take it as their premise that a program is well linked, and that it has one linked program, so that what is said of one is said of all.
//! This crate has no code; its contracts speak of all programs.
#![tactic(auto)]

mod laws;
mod one;

pub use laws::links_are_well;
pub use one::links_are_one;
