//! The machine that makes runs of a linked program, step by step: each step is one that the definition of runs allows, and each that it allows
//! is made for some choice.
#![tactic(auto)]

mod applying;
mod calls;
mod classes;
mod entering;
mod fields;
mod frame;
mod kept;
mod leaving;
mod machine;
mod moves;
mod plan;
mod plans;
mod reading;
mod rows;
mod running;
mod sizes;
mod stack;
mod starting;
mod unwinds;

pub use machine::{Machine, start};
pub use running::Turned;
