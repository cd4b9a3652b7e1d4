//! What is indexed, and where a statement stands.
use jim_ast::List;
use link_rules::{Catch, Code};

/// What a run of a method goes by: its statements and its handlers.
#[derive(Drop)]
pub struct MethodCode {
    pub code: List<Code>,
    pub catches: List<Catch>,
}

/// A statement of a program: the number of its method, and its index there.
#[derive(Clone, Copy, Debug, PartialEq, Eq, Hash)]
pub struct Place {
    pub method: u32,
    pub index: u32,
}
