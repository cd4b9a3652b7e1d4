//! A certificate.
use super::line::Line;
use jim_ast::List;
use spds_rules::Node;

/// Lines, and the node of which they claim what it may hold. Where a text spells one, the target stands in line 0 and the lines behind it.
#[derive(Drop)]
pub struct Certificate {
    pub target: Node,
    pub lines: List<Line>,
}
