//! The code of a method that no rule of linking refuses, in final numbers.
//!
//! Locals and jumps are numbered within the method. Classes, keys, fields, methods and constants are numbered within the program: fields once and for
//! all, methods by the rows of those that are linked, constants as they come. Each look-up finds what it looks for, since a rule would have
//! refused the method otherwise.
#![tactic(auto)]

mod args;
mod calls;
mod constants;
mod elements;
mod exprs;
mod fields;
mod method;
mod parts;
mod scope;
mod stmts;
mod stores;
mod types;

pub use constants::Constants;
pub use fields::{FieldNumber, FieldNumbers};
pub use method::{MethodCode, method_code};
pub use types::push_type;
