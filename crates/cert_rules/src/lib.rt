//! Certificates: the lines of which one is made, and the definitions that say when a list of lines shows that a query has a site in its answer, apart
//! from the code that reads, replays and makes them.
#![tactic(auto)]

mod certificate;
mod fact;
mod line;

pub use certificate::Certificate;
pub use fact::{Entry, Fact};
pub use line::{Line, Side};
