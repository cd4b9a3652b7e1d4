//! The heap of a run: objects with all that was written into them, and indexes by which the value of a field and the elements of an array are
//! read without a look at each write.
#![tactic(auto)]

mod heap;
mod object;
mod writes;

pub use heap::Heap;
pub use object::Object;
