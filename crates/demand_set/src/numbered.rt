//! Edges by numbers.
use spds_rules::EdgeKind;

/// An edge from one node to another, each by its number.
#[derive(Clone, Copy, Debug, PartialEq, Eq)]
pub struct EdgeAt {
    pub from: u32,
    pub to: u32,
    pub kind: EdgeKind,
}
