//! Certificates as texts: the call that reads one and the calls that write one.
#![tactic(auto)]

mod commas;
mod cuts;
mod error;
mod heads;
mod lines;
mod nodes;
mod numbers;
mod reading;
mod writing;

pub use error::CertError;
pub use reading::read_cert;
pub use writing::{cert_text, push_certificate};
