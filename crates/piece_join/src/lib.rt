//! A list whose items are brought to their ends in pieces, side by side, with the answer of one thread.
//!
//! What is done to an item is a [`Bring`]: it looks at the item and its number, and changes that item alone. [`bring_all`] cuts a list and gives its
//! pieces to threads, and [`bring_here`] goes over it in the caller's thread: both have one contract. How a list is cut, that pieces run side by side and
//! that a [`Gate`] is told of each once is in no contract, and is tested.
#![tactic(auto)]

mod gate;
mod pieces;

pub use gate::{Gate, Open};
pub use pieces::{Bring, bring_all, bring_here};
use std::alloc::AllocError;

/// Memory that was asked for wasn't found.
pub type NoMemory = AllocError;
