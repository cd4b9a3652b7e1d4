//! Where a run stands.

/// A place of a linked program: just before a statement, or, where `raised`, at the statement with an exception in flight. The method is named by
/// its number, the statement by its index in the method, from 0.
#[derive(Clone, Copy, Debug, PartialEq, Eq, Hash)]
pub struct Place {
    pub method: u32,
    pub index: u32,
    pub raised: bool,
}
