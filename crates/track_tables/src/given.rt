//! What the sites of a demand are asked over.
ghost use Rattle.std.specs.Prelude.{◌≡◌, slice_get};

use super::parts::TrackParts;
use demand_set::Demand;
use link_program::Linked;
use link_sites::Site;
use lists::Groups;
use spds_rules::Node;

/// A program, what is demanded of it, what the systems of all sites share, and where objects of each site come out of the heap or of static fields.
#[derive(Clone, Copy)]
pub struct SolvedDemand<'a> {
    pub linked: &'a Linked,
    pub demand: &'a Demand,
    pub parts: &'a TrackParts,
    /// For each site the places in the list of loaded nodes at which there may be objects of it.
    pub loaded: &'a Groups<u32, u32>,
}

/// The node with the number.
pub fn node_at(nodes: &[Node], number: u32) -> Option<Node>
    ensures { result ≡ slice_get nodes.now number }
{
    nodes.get(number as usize).copied()
}

/// The site with the number.
pub fn site_at(sites: &[Site], number: u32) -> Option<Site>
    ensures { result ≡ slice_get sites.now number }
{
    sites.get(number as usize).copied()
}
