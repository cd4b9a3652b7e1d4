//! The solver: the meets of a demand, and the two systems of its sites over them (Späth, Ali and Bodden 2019).
#![tactic(auto)]

mod arrivals;
mod compose;
mod ends;
mod heads;
mod holders;
mod known;
mod looks;
mod met;
mod mets;
mod posts;
mod refresh;
mod scan;
mod solved;
mod solver;

pub use holders::Holders;
pub use met::Met;
pub use piece_join::{Gate, Open};
pub use solved::Solved;
pub use solver::{solve, solve_here, solve_with};
