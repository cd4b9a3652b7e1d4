//! Laws of certificates: what the definitions of `cert_rules` entail of what a query answers. The crate has no code. Its lemmas on what lines give, one
//! after another, serve the replayer too.
#![tactic(auto)]

mod laws;

pub use laws::certified;
