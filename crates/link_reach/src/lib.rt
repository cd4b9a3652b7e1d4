//! Which methods a run may reach, which classes are initialized, and the first refusal in any of these methods.
#![tactic(auto)]

mod answer;
mod firsts;
mod search;

pub use answer::{NotReached, Reachable, reach};
