//! Indexes of linked code: who calls a method, which statements store into a field or load from it, where a method returns or may raise, and
//! which statements a run may come from. They are built once and speak of the code alone, whatever it was linked from.
#![tactic(auto)]

mod before;
mod facts;
mod filing;
mod indexes;
mod listing;
mod method;

pub use indexes::Indexes;
pub use method::{MethodCode, Place};
