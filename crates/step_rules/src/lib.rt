//! The machine that runs are runs of: its states, and what each statement does to one.
//!
//! The crate has the types by which a state is read. Its definitions say which states a run begins with and what one step of a run is: a
//! structural operational semantics of linked Jimple, in which what an analysis of references doesn't keep, as numerals, conditions and
//! indices, is a choice.
#![tactic(auto)]

mod laws;
mod parts;

pub use laws::{runs_go_on, steps_are_determined};
pub use parts::{Moved, Slot, Value};
