//! Sets of numbers, and what is kept for numbers, whose look-ups rest on no hash: whoever picks the numbers can't make them slow.
//!
//! [`SortedSet`] is made from a list and doesn't change: a number is found by halves, whichever numbers there are. [`MarkedSet`] grows, and takes a byte
//! for each number up to the largest: it is for numbers that count something, as classes or methods.
//! [`NumberTable`] keeps something for each of some numbers.
#![tactic(auto)]

mod marked;
mod sorted;
mod table;

pub use marked::MarkedSet;
pub use sorted::SortedSet;
pub use table::NumberTable;
