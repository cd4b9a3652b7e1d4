//! What calls and accesses find: the methods that a call may run, each class and key asked for once, and the field that an access means.
#![tactic(auto)]

mod fields;
mod finding;
mod receivers;
mod row_set;
mod tables;
mod targets;

pub use fields::find_field;
pub use finding::Found;
pub use targets::Targets;
