//! Protocols, as a word of a command line spells them: the type, and the call that reads one.
#![tactic(auto)]

mod error;
mod laws;
mod numbering;
mod protocol;
mod reading;
mod spelling;
mod words;

pub use error::ProtocolError;
pub use laws::words_are_determined;
pub use protocol::Protocol;
pub use reading::read_protocol;
pub use track_rules::ProtocolRow;
