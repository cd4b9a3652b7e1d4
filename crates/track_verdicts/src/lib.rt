//! What an analysis under a protocol answers, as data.
#![tactic(auto)]

mod verdict;

pub use verdict::{Finding, Verdict};
