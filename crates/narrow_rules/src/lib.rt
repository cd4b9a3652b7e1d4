//! The program that is left where calls on objects keep some of their targets: what it is, and that it is well linked where the first one is.
//!
//! The crate has the type of what is kept. Its definitions say which targets stay, which methods are still reached, and what becomes of the others.
#![tactic(auto)]

mod kept;
mod laws;

pub use kept::Kept;
pub use laws::{narrowed_is_determined, narrowed_is_well_linked};
