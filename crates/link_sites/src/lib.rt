//! Places of a linked program and its allocation sites: the names by which runs, nodes and replies speak of where objects come from.
#![tactic(auto)]

mod place;
mod site;

pub use place::Place;
pub use site::Site;
