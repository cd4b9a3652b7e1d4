//! What calls on objects select, by ranges of places: the classes that may have objects stand at some of the places, and what they select turns between
//! places.
#![tactic(auto)]

mod chosen;
mod minima;
mod parts;
mod selection;

pub use chosen::{Choice, choices_in, leasts_in};
pub use minima::Minima;
pub use parts::{Part, parts_of};
pub use selection::{Selection, selection_of};
