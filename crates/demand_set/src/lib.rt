//! What a query demands (Späth, Ali and Bodden 2019): the walk backwards over a graph of edges and stores, for any graph that can be asked for the edges into a
//! node and for the stores of a field; and what it found, with numbers for its nodes and sites.
//!
//! It doesn't know how a program's edges and stores are found. Read `walking` first, then `set`.
#![tactic(auto)]

mod demanded;
mod fields;
mod graph;
mod listed;
mod nodes;
mod numbered;
mod order;
mod searching;
mod set;
mod starts;
mod visiting;
mod walking;

pub use demanded::{DemandError, Walk, Walked};
pub use graph::Graph;
pub use listed::ListedGraph;
pub use nodes::Nodes;
pub use numbered::EdgeAt;
pub use set::Demand;
pub use spds_rules::Reach;
pub use walking::{walk, walk_numbered};
