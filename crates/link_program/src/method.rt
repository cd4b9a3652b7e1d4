//! What a method is besides its code.
use super::elements::ElementText;
use jim_ast::{List, Name};

/// A method without its code: its text, whether it has a receiver, how many parameters it has, the names of its locals in declared order, fewer than
/// 4,294,967,296, and the arrays that it makes.
#[derive(Drop)]
pub struct MethodHead {
    pub text: Name,
    pub has_this: bool,
    pub params: u32,
    pub locals: List<Name>,
    pub elements: List<ElementText>,
}
