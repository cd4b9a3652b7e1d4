//! The reply to a query of one local, with a certificate for each site.
#![tactic(auto)]

mod explaining;
mod showing;

pub use explaining::explained;
