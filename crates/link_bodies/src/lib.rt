//! The locals and the labels of a body by number.
#![tactic(auto)]

mod index;
mod places;
mod repeats;

pub use index::BodyIndex;
