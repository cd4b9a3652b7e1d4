//! Laws of the two pushdown systems: what the definitions of the crate below entail, whatever the program and the query.
//!
//! The layers above rest on them: that runs are simulated, and that what the solver finds, in any order, is what is defined. This crate has no code.
//! Each contract is a law, stated in `specs/`. The lemmas that the laws rest on are proved in `proofs/`, over any relation in the place of the meets.
#![tactic(auto)]

mod laws;

pub use laws::{
    any_order_finds_the_meets, calls_are_from_starts, meets_are_closed, meets_compose,
    strings_are_of_methods, strings_included, words_compose,
};
