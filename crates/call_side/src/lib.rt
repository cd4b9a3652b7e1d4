//! The calls of a program as marks of a pushdown system: their numbers, call strings as base steps, works of call systems, and the words that two of these
//! share.
//!
//! Where many calls enter a method, each entry of the table of a call system would stand for a node of the method and for one of its calls; so a common mark
//! is put in front of the mark of each call that is one of a crowd: an entry for each node and one for each call, in place of one for each of both. What a
//! work shows is the system as it stands, without split marks.
//!
//! Nodes and bases that split marks bring have numbers of their own, behind those of 1,431,655,765 nodes and 2,147,483,648 bases. Systems that have more find
//! no memory.
#![tactic(auto)]

mod arrivals;
mod calls;
mod common;
mod crowd;
mod decoded;
mod homes;
mod indexed;
mod moves;
mod numbers;
mod opening;
mod origin;
mod pairs;
mod question;
mod search;
mod sharing;
mod split_bases;
mod stock;
mod strings;
mod work;

pub use calls::Calls;
pub use common::{entries_at, shared, shared_at, shared_from};
pub use indexed::IndexedBases;
pub use opening::Opening;
pub use sharing::shared_by_works;
pub use split_bases::CallBases;
pub use stock::CallCommon;
pub use strings::bases;
pub use work::CallWork;
