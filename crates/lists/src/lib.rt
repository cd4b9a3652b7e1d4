//! Keys by number, and items by key; and what is said and proved of any list: which elements it has, that none stands at two places, lists side by side.
//! It stands on nothing of ours, and whatever has lists can stand on it.
#![tactic(auto)]

mod by_key;
mod bytes;
mod chains;
mod filing;
mod groups;
mod key;
mod numbered;
mod rows;

pub use by_key::ByKey;
pub use bytes::same_bytes;
pub use filing::{Pair, rows_of};
pub use groups::{Groups, Keyed};
pub use key::Key;
pub use numbered::Numbered;
pub use rows::Rows;
use std::alloc::AllocError;

/// Memory that was asked for wasn't found.
pub type NoMemory = AllocError;
