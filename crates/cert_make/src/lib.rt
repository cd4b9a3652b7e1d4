//! Certificates from a trace: the lines that a claim needs, under new numbers, and how long the field derivation is that they write down.
#![tactic(auto)]

mod lengths;
mod needs;
mod renumber;
mod writing;

pub use lengths::field_length;
pub use writing::{ClaimLines, certificate_of};
