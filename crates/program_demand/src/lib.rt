//! The demand of a query over a linked program (Späth, Ali and Bodden 2019): the program as a graph, walked backwards from the targets.
//!
//! It knows neither how edges are found nor how a graph is walked. Read `finding` first.
#![tactic(auto)]

mod finding;
mod program;

pub use finding::demand;
