//! The replay of the certificate that a text spells, over a linked program and within a budget. It solves nothing.
#![tactic(auto)]

mod error;
mod replaying;

pub use error::ReplayedError;
pub use replaying::{Accepted, replayed};
