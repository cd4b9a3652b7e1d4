//! Lines of a certificate as they are made, with what each gives and how long it is, and what facts and lines are looked for by. It knows of no program and of
//! no query.
#![tactic(auto)]

mod keys;
mod written;

pub use keys::{FieldAt, Known, Origin, Spot, Word};
pub use written::Written;
