//! A search for a way through a graph. It stands on nothing but lists, and learns of the graph from the graph alone.
#![tactic(auto)]

mod search;
mod seen;
mod ways;

pub use search::way;
pub use ways::{Step, Ways};
