//! Tokens as the grammar sees them.
use jim_ast::Names;
use jim_text::Lead;

/// A token as the grammar sees it: its class, and what it names by a number. A name or a text has the number of its contents among the names of the
/// program, a parameter its own number, and each other token 0.
#[derive(Clone, Copy, Debug, PartialEq, Eq)]
pub struct Sign {
    pub lead: Lead,
    pub text: u32,
}

/// The names of a text, each once in the order in which it comes first, and one sign for each token.
#[derive(Drop)]
pub struct Signs {
    pub names: Names,
    pub signs: Vec<Sign>,
}
