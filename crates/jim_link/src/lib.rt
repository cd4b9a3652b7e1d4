//! Linking: an input and a prelude become a program whose names are numbers, or the first rule that refuses them is told.
#![tactic(auto)]

mod declares;
mod heads;
mod linking;
mod made;
mod members;
mod refusals;
mod rows;
mod texts;

pub use declares::declares_named;
pub use link_program::Linked;
pub use link_rules::{Arg, Catch, Code, LinkError, LinkKind};
pub use linking::link;
