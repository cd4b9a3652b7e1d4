//! Domains of weights for weighted pushdown systems: idempotent semirings with a height, and the proofs of their laws.
//!
//! Four domains are here: truth (`Reach`), relations on sixteen states (`Rel`), least costs (`Least`), and pairs (`Pair`).
#![tactic(auto)]

pub mod least;
pub mod pair;
pub mod reach;
pub mod rel;
pub mod weight;

pub use least::Least;
pub use pair::Pair;
pub use reach::Reach;
pub use rel::Rel;
pub use weight::{Small, Weight};
