//! Tokens as the grammar sees them: a class for each kind of token, word and mark, and a number for what a token names.
#![tactic(auto)]

mod law;
mod seen;
mod sign;

pub use jim_text::Lead;
pub use law::{has_tokens, names_are_firsts};
pub use seen::{Sign, Signs};
pub use sign::{read_signs, signs};
