//! Nodes, edges and the two pushdown systems of a points-to query (Späth, Ali and Bodden 2019): the types, and the definitions that say what a query
//! demands and what it answers, apart from the code that finds it.
#![tactic(auto)]

mod edge;
mod node;
mod reach;
mod store;

pub use edge::{Edge, EdgeKind};
pub use node::{Node, Var, site_of};
pub use reach::Reach;
pub use store::StoreAt;
