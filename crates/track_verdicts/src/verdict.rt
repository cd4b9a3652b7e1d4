//! Findings and verdicts.
use jim_ast::List;
use link_sites::{Place, Site};

/// An event that may come in a state in which no row of the protocol allows it: the site of the objects, the place of the event statement, the state
/// and the event by their numbers.
#[derive(Clone, Copy, Debug, PartialEq, Eq)]
pub struct Finding {
    pub site: Site,
    pub place: Place,
    pub state: u8,
    pub event: u32,
}

/// What an analysis under a protocol answers: its findings, by site, place and state, and the number of nodes that it looked at. The program is safe
/// under the protocol where there is no finding.
#[derive(Drop)]
pub struct Verdict {
    pub findings: List<Finding>,
    pub demanded: u32,
}
