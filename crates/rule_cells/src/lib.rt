//! Cells of the nodes of weighted pushdown systems: nodes that one flow alone leads to are kept by the head of their chain.
//!
//! The law of contraction, for every lawful domain of weights: a system derives at a node what its contraction derives at the head of the node, extended
//! by the product of the weights between. `cells_of` finds heads and offsets, `contract` the rules
//! between heads, and `number_heads` numbers without gaps for these. `cell_rules` does all of it for rules that weigh one: it gives rules over few numbers,
//! with the same derivations.
#![tactic(auto)]

mod between;
mod cells;
mod contraction;
mod distinct;
mod entered;
mod followed;
mod laws;
mod numbers;

pub use between::{CellRules, cell_rules, thin_cell_rules};
pub use cells::{Cell, Cells, cells_of};
pub use contraction::{Contracted, contract};
pub use entered::{Entered, entries_of};
pub use laws::{
    derivations_are_extended, derivations_are_kept, derivations_are_renamed, ones_have_no_offset,
    values_are_extended,
};
pub use numbers::{Numbers, number_heads, number_of, renumber};
