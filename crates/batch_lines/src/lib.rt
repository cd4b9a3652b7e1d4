//! What stands behind a program in an input: where the input is cut, and the queries of a batch as lines spell them.
//!
//! It knows no programs. Begin with `specs/Cuts.antt` and `specs/Queries.antt`.
#![tactic(auto)]

mod cutting;
mod error;
mod queries;

pub use cutting::{Parts, cut_at};
pub use error::BatchError;
pub use queries::{BatchQuery, read_queries};
