//! Fewer rules for the same derivations, for every lawful domain of weights.
//!
//! Joining nodes: where each of R nodes has the same C rules to follow, flows from the R nodes to a new node and the C rules from there do the same. Split
//! marks: where each of R calls enters each of C nodes of a method, a rule a call and a rule a node do the same, with a common mark in front of the call's.
#![tactic(auto)]

mod joined;
mod making;
mod sharing;
mod split;

pub use joined::{derivations_are_joined, joining_nodes_have_all, values_are_joined};
pub use making::{Marks, split_rules, split_steps};
pub use sharing::{join, shared_rules_are_joined};
pub use split::{bases_are_split, derivations_are_split, lists_give_places, values_are_split};
