//! Where the objects of a site begin.
ghost use Rattle.std.specs.Prelude.{◌≡◌, ◌↔◌, [], ◌∷◌, Some, slice_get, IfOk, IsTrue, OnOk};
ghost use Rattle.call_side.specs.Bases.{AreLed, IsLast};
ghost use Rattle.link_sites.specs.declared.site.Site.{Site as ASite};
ghost use Rattle.site_events.specs.Events.{AreAtPlaces};
ghost use Rattle.track_systems.specs.Track.{IsMade};
ghost use Rattle.track_tables.specs.Making.{HasBegun};

use super::given::{node_at, site_at};
use super::growth::Growth;
use link_program::Linked;
use link_sites::Site;
use lists::NoMemory;
use post_star::Start;
use spds_nodes::is_node;
use spds_rules::Node;
use std::alloc::Global;
use weight_laws::Rel;

/// Whether objects of the site are made by statements of the program. Constants are there from the first.
fn is_made(site: Site) -> bool
    ensures { IsTrue result ↔ IsMade site }
{
    match site {
        Site::New(_) | Site::Nested(_, _) | Site::Raised(_, _) => true,
        Site::Text(_) | Site::Class(_) => false,
    }
}

/// The same of the site with the number.
pub fn is_made_at(sites: &[Site], number: u32) -> bool
    ensures { (a : ASite) → slice_get sites.now number ≡ Some a → IsTrue result ↔ IsMade a }
{
    match site_at(sites, number) {
        Some(site) => is_made(site),
        None => false,
    }
}

/// Puts a start with the weight at the node with the number last, if the program has the node, and the node among those that are reached.
fn begin(
    linked: &Linked,
    nodes: &[Node],
    number: u32,
    weight: Rel,
    growth: &mut Growth,
) -> Result<(), NoMemory>
    requires led { AreLed linked.now growth.old.work.steps }
    requires last { IsLast linked.now growth.old.work.last }
    ensures { OnOk result (HasBegun linked.now nodes.now (number ∷ []) weight growth.old growth.new) }
{
    if let Some(node) = node_at(nodes, number) {
        if is_node(linked, node) {
            growth.work.add_start(Start {
                base: node.place.method,
                node: number,
                weight,
            })?;
            growth.reached.add(number)?;
        }
    }
    Ok(())
}

/// Puts starts with the weight at the nodes with these numbers last.
pub fn begin_all(
    linked: &Linked,
    nodes: &[Node],
    numbers: &[u32],
    weight: Rel,
    growth: &mut Growth,
) -> Result<(), NoMemory>
    requires led { AreLed linked.now growth.old.work.steps }
    requires last { IsLast linked.now growth.old.work.last }
    ensures { OnOk result (HasBegun linked.now nodes.now numbers.now weight growth.old growth.new) }
{
    for number in numbers {
        begin(linked, nodes, *number, weight, growth)?;
    }
    Ok(())
}

// The number at the place in the list.
fn number_at(numbers: &[u32], place: u32) -> Option<u32>
    ensures { result ≡ slice_get numbers.now place }
{
    numbers.get(place as usize).copied()
}

/// The numbers at these places in the list.
pub fn at_places(alloc: Global, numbers: &[u32], places: &[u32]) -> Result<Vec<u32>, NoMemory>
    ensures { IfOk result (λ found. AreAtPlaces numbers.now places.now found.items) }
{
    let mut found = Vec::with_capacity(alloc, places.len())?;
    for place in places {
        if let Some(number) = number_at(numbers, *place) {
            found.push(number)?;
        }
    }
    Ok(found)
}
