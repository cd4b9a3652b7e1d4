//! The sites that a list of nodes demands, and their start nodes.
ghost use Rattle.std.specs.Prelude.{◌≡◌, ◌↔◌, ◌<◌, ◌≤◌, ◌^◌, [], AllPairs, IfOk, OnOk, length, map, replicate};
ghost use Rattle.lists.specs.Lists.{Has, IsApart};
ghost use Rattle.link_sites.specs.declared.site.Site.{Site as AnySite};
ghost use Rattle.link_sites.specs.Sites.{Precedes};
ghost use Rattle.spds_rules.specs.declared.node.Node.{Node as AnyNode};
ghost use Rattle.spds_rules.specs.Nodes.{IsNode};
ghost use Rattle.demand_set.specs.Starts.{AreStarts, HasStart, IsFiled};

use super::order::sort_sites;
use indexmap::IndexSet;
use link_program::Linked;
use link_sites::Site;
use lists::NoMemory;
use spds_rules::{Node, site_of};
use std::alloc::Global;

// The sites of which one of the nodes is a start node, each once.
fn found_sites(alloc: Global, nodes: &[Node]) -> Result<IndexSet<Site>, NoMemory>
    ensures found { IfOk result (λ sites. (s : AnySite) → Has sites.keys s ↔ HasStart nodes.now s) }
    ensures few { IfOk result (λ sites. length sites.keys ≤ length nodes.now) }
{
    let mut sites = IndexSet::new(alloc);
    for node in nodes {
        if let Some(site) = site_of(*node) {
            sites.insert(site)?;
        }
    }
    Ok(sites)
}

/// The sites of which one of the nodes is a start node, each once and in the order in which they are printed.
pub fn sites_of(alloc: Global, linked: &Linked, nodes: &[Node]) -> Result<IndexSet<Site>, NoMemory>
    requires nodes { (n : AnyNode) → Has nodes.now n → IsNode linked.now n }
    ensures found { IfOk result (λ sites. (s : AnySite) → Has sites.keys s ↔ HasStart nodes.now s) }
    ensures few { IfOk result (λ sites. length sites.keys ≤ length nodes.now) }
    ensures ordered { IfOk result (λ sites. AllPairs (Precedes linked.now) sites.keys) }
    ensures apart { IfOk result (λ sites. IsApart sites.keys) }
{
    linked.tell_form();
    let mut sites = found_sites(alloc, nodes)?;
    sort_sites(linked, &mut sites)?;
    Ok(sites)
}

// So many empty lists.
fn empty_lists(alloc: Global, count: usize) -> Result<Vec<Vec<u32>>, NoMemory>
    ensures { IfOk result (λ lists. map (λ v. v.items) lists.items ≡ replicate count []) }
{
    let mut lists = Vec::with_capacity(alloc, count)?;
    for _ in 0..count {
        lists.push(Vec::new(alloc))?;
    }
    Ok(lists)
}

// Puts the number of a node last in the list of its site.
fn file(
    starts: &mut Vec<Vec<u32>>,
    sites: &IndexSet<Site>,
    node: Node,
    number: u32,
) -> Result<(), NoMemory>
    requires many { length starts.old.items ≡ length sites.now.keys }
    requires apart { IsApart sites.now.keys }
    ensures { OnOk result (IsFiled sites.now.keys node number (map (λ v. v.items) starts.old.items) (map (λ v. v.items) starts.new.items)) }
{
    let Some(site) = site_of(node) else {
        return Ok(());
    };
    let Some(at) = sites.get_index_of(&site) else {
        return Ok(());
    };
    starts[at].push(number)?;
    Ok(())
}

/// For each site the numbers of its start nodes, each once.
pub fn starts_of(
    alloc: Global,
    nodes: &[Node],
    sites: &IndexSet<Site>,
) -> Result<Vec<Vec<u32>>, NoMemory>
    requires few { length nodes.now < 2 ^ 32 }
    requires apart { IsApart sites.now.keys }
    ensures { IfOk result (λ starts. AreStarts nodes.now sites.now.keys (map (λ v. v.items) starts.items)) }
{
    let mut starts = empty_lists(alloc, sites.len())?;
    for (number, node) in nodes.iter().enumerate() {
        file(&mut starts, sites, *node, number as u32)?;
    }
    Ok(starts)
}
