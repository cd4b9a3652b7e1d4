//! Weighted automata over the configurations of a pushdown system: a weight for each pair of an entry and a node, and for
//! each link from an entry to an entry, with the rows of an entry for those who walk over them.
#![tactic(auto)]

pub mod entry;
pub mod grid;
pub mod naming;
pub mod row;
pub mod rule;
pub mod spot;
pub mod table;

pub use entry::Entry;
pub use lists::NoMemory;
pub use row::{Linked, Reached};
pub use rule::Rule;
pub use table::Table;
