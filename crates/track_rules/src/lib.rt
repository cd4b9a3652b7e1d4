//! Typestate (Strom and Yemini 1986): the definitions that say what a protocol is, apart from the code that reads one.
#![tactic(auto)]

mod row;

pub use row::ProtocolRow;
