//! Many questions at once: each has a number and is answered by a text. The texts come in the order of the numbers, whichever is ready first.
//!
//! What is asked is an [`Ask`], which has one text at most for each number. [`ask_all`] cuts the numbers into pieces and gives these to threads: how they
//! are cut, that pieces run side by side and that a [`Pass`] is told of each once is in no contract, and is tested.
#![tactic(auto)]

mod asking;
mod texts;

pub use asking::{Ask, Pass, ask_all, have_one_answer};
use std::alloc::AllocError;
pub use texts::{Text, Texts};

/// Memory that was asked for wasn't found.
pub type NoMemory = AllocError;
