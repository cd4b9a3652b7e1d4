//! Saturation of weighted pushdown systems: the table that it makes reads, for each node and word, the combination of the
//! weights of all derivations, exactly, for every lawful domain of weights.
#![tactic(auto)]

pub mod apply;
pub mod bases;
pub mod common;
pub mod copies;
pub mod index;
pub mod key;
pub mod over_words;
pub mod progress;
pub mod reading;
pub mod rise;
pub mod saturation;
pub mod system;
pub mod take;
pub mod turn;
pub mod work;

pub use bases::{BaseStep, Bases, Start};
pub use common::Common;
pub use over_words::{any_value, any_value_from};
pub use reading::value;
pub use saturation::saturate;
pub use work::Work;
