//! Laws of linking and of runs: what linking gives as the targets of a call covers all methods that a run enters there, and what a run looks up there
//! is linked.
//!
//! They tie the targets of calls, found over classes before anything runs, to the look-up that the machine makes from the class of an object. This
//! crate has no code; its contracts are the laws.
#![tactic(auto)]

mod laws;

pub use laws::{links_are_covered, resolved_methods_are_linked};
