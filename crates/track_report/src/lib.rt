//! The reply about the verdict of an analysis under a protocol.
#![tactic(auto)]

mod report;

pub use report::verdict_text;
