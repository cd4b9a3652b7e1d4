//! Which rules refuse a method, which methods its calls may run, and which classes it asks to be initialized.
#![tactic(auto)]

mod beside;
mod callees;
mod checks;
mod examined;
mod examining;
mod faults;
mod labels;
mod locals;
mod mentioned;
mod parts;
mod site;

pub use examined::{Examined, Fault};
pub use examining::examine;
