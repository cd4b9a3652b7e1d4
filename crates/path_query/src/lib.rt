//! Queries of access paths over a linked program: the sites at the end of a path of fields from a local, for every run.
//!
//! The answer is exactly that of the definition over the demand of the local and of all stores of the fields, and holds for each run of any length.
#![tactic(auto)]

mod answer;
mod fields;
mod hops;
mod posed;
mod sites;
mod targets;

pub use answer::{PathAnswer, path_sites};
pub use fields::fields_named;
