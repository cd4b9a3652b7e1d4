//! Typestate as weighted pushdown systems: in which states of a protocol the objects of a site may be, where, and under which call string.
//!
//! The crate has no code of its own: it is the definitions that the findings of an analysis, and the laws on runs, are said by, and a law that ties them
//! to the values of weighted pushdown systems.
#![tactic(auto)]

mod laws;

pub use laws::values_lead;
