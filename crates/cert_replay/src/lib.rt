//! The replayer: whether the lines of a certificate show that a query has a site in its answer. It solves nothing; it looks at the demand of the query,
//! and at each line once.
#![tactic(auto)]

mod cited;
mod edges;
mod error;
mod judging;
mod links;
mod replaying;
mod rows;
mod strings;
mod view;

pub use cert_rules::{Certificate, Line, Side};
pub use cert_text::{CertError, read_cert};
pub use error::ReplayError;
pub use replaying::{Claim, replay};
