//! The runs of the command line: the run that a list of digits names, and the reply that tells how it stands.
#![tactic(auto)]

mod ends;
mod laws;
mod locals;
mod named;
mod objects;
mod report;

pub use laws::named_runs_are_one;
pub use report::run_text;
