//! Classes as numbers with steps between them: the order in which a depth-first search leaves them,
//! the least that is below itself, their places, and what reaches a class as spans of places.
#![tactic(auto)]

mod cycles;
mod finish;
mod groups;
mod places;
mod reach;
mod spans;
mod walks;

pub use cycles::least_cyclic;
pub use finish::{Finish, finish_order};
pub use groups::Groups;
pub use places::places_of;
pub use reach::{gathered, reach_spans};
pub use spans::{Span, holds, united};
