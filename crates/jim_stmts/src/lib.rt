//! Builds the types, calls, expressions and statements of tokens that are known to derive them.
//!
//! Nothing is refused here. Each contract says, for every tree of the grammar that the next tokens spell before a rest that doesn't go on with it,
//! that the result is what the tree means and that the rest is left; of other tokens it says nothing. `specs/Meanings` has what each tree means. A call fails only where
//! memory is wanting, and where the reader stands then is left open.
#![tactic(auto)]

mod calls;
mod exprs;
mod listed;
mod operands;
mod reader;
mod signatures;
mod stmts;

pub use calls::invoke;
pub use exprs::expr;
pub use listed::names;
pub use operands::imm;
pub use reader::Reader;
pub use signatures::{field_sig, maybe_types, method_sig, outcome, ty, types};
pub use stmts::stmt;
