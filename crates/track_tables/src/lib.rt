//! The weighted pushdown system of a site under a protocol, settled: in which states of the protocol the objects of the site may be at each node.
//!
//! Nodes and calls go by their numbers, and each node of the demand is a node of the table. A rule is made for each edge along which states lead, from
//! each node that the system reaches, and back from a call where its mark may be on top there.
//!
//! At which places of a list of nodes there may be objects of a site, that list is gone through once for all sites.
#![tactic(auto)]

mod by_node;
mod coming;
mod given;
mod growth;
mod held;
mod noted;
mod opening;
mod parts;
mod returns;
mod rules;
mod starts;
mod states;

pub use given::SolvedDemand;
pub use held::held_in;
pub use parts::TrackParts;
pub use states::SiteStates;
