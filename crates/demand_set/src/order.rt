//! The order in which sites are printed.
ghost use Rattle.std.specs.Prelude.{◌≡◌, ◌↔◌, [], AllPairs, OnOk, length, slice_index_or};
ghost use Rattle.lists.specs.Lists.{Has, IsApart};
ghost use Rattle.link_sites.specs.declared.site.Site.{Site as AnySite};
ghost use Rattle.link_sites.specs.Sites.{IsSite, Precedes};
ghost use Rattle.demand_set.specs.Order.{numbers_of, site_cmp, text_of};

use indexmap::IndexSet;
use jim_ast::Name;
use link_program::Linked;
use link_sites::Site;
use lists::NoMemory;
use std::cmp::Ordering;

// The numbers by which sites are compared first.
fn numbers_of(site: Site) -> [u32; 5]
    ensures { result ≡ numbers_of site }
{
    match site {
        Site::New(place) => [0, place.method, place.index, 0, 0],
        Site::Nested(place, level) => [0, place.method, place.index, 1, u32::from(level)],
        Site::Raised(place, kind) => [0, place.method, place.index, 2, u32::from(kind)],
        Site::Text(_) => [1, 0, 0, 0, 0],
        Site::Class(_) => [2, 0, 0, 0, 0],
    }
}

// The name at an index, and none behind the last.
fn name_at(names: &[Name], index: u32) -> &str
    ensures { result.now ≡ slice_index_or names.now index [] }
{
    match names.get(index as usize) {
        Some(name) => name.as_str(),
        None => "",
    }
}

// The text by which constants are compared.
fn text_of(linked: &Linked, site: Site) -> &str
    ensures { result.now ≡ text_of linked.now site }
{
    match site {
        Site::Text(number) => name_at(linked.texts(), number),
        Site::Class(number) => name_at(linked.class_texts(), number),
        _ => "",
    }
}

// How two sites compare.
fn compare(linked: &Linked, a: Site, b: Site) -> Ordering
    ensures { result ≡ site_cmp linked.now a b }
{
    match numbers_of(a).cmp(&numbers_of(b)) {
        Ordering::Less => Ordering::Less,
        Ordering::Equal => text_of(linked, a).cmp(text_of(linked, b)),
        Ordering::Greater => Ordering::Greater,
    }
}

/// Brings sites of a program into the order in which they are printed.
pub fn sort_sites(linked: &Linked, sites: &mut IndexSet<Site>) -> Result<(), NoMemory>
    requires sites { (s : AnySite) → Has sites.old.keys s → IsSite linked.now s }
    ensures ordered { OnOk result (AllPairs (Precedes linked.now) sites.new.keys) }
    ensures apart { OnOk result (IsApart sites.new.keys) }
    ensures len { OnOk result (length sites.new.keys ≡ length sites.old.keys) }
    ensures same { OnOk result ((s : AnySite) → Has sites.new.keys s ↔ Has sites.old.keys s) }
{
    linked.tell_form();
    sites.sort_unstable_by(
        |a: &Site, b: &Site| -> Ordering
            ensures { result ≡ site_cmp linked.entry.now a.now b.now }
        { compare(linked, *a, *b) },
    )?;
    Ok(())
}
