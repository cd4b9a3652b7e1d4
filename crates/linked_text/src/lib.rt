//! Linked programs from their texts, rows of tests about them, and nodes, edges and sites from short texts. Tests over whole programs stand on it.
#![tactic(auto)]

pub mod programs;
mod reading;
mod rows;
pub mod spelled;

pub use reading::linked_of;
pub use rows::{Rows, first_wrong, told_of};
