//! What linking is: the rules by which the names of a program become numbers, apart from the code that follows them.
//!
//! The crate has the types of a linked program's parts. Its definitions say which methods a run may reach, what the code of each is, and
//! which programs are refused.
#![tactic(auto)]

mod code;
mod laws;
mod refusal;

pub use code::{Arg, Catch, Code};
pub use laws::linking_is_determined;
pub use refusal::{LinkError, LinkKind};
