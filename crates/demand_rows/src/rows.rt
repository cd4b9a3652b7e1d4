//! What is asked of a program, and what it answers: a row is what is asked, and the answer behind ` = `.
//! - `into NODE` and `tracked NODE`: all edges that end in the node; in a `tracked` one also those that do where objects are tracked.
//! - `node NODE`: whether the program has it.
//! - `starts SITE`: the start nodes of a site.
//! - `stores FIELD`: the stores of a field: the place of each, what it stores into, and what it stores.
//! - `class SITE`: the name of the class of a site.
//! - `field SITE FIELD`: whether the objects of a site have a field.
use link_program::Linked;
use linked_text::Rows;
use linked_text::spelled::{are_edges, are_nodes, node, site};
use lists::NoMemory;
use spds_nodes::{has_field, into, is_node, site_class, starts_of, stores_of};
use spds_rules::{Node, Reach, StoreAt};
use std::alloc::Global;

fn ends_in(
    alloc: Global,
    linked: &Linked,
    to: &str,
    reach: Reach,
    wanted: &str,
) -> Result<bool, NoMemory> {
    let Some(to) = node(to) else {
        return Ok(false);
    };
    let edges = into(alloc, linked, to, reach)?;
    Ok(are_edges(&edges, to, wanted))
}

fn starts_at(alloc: Global, linked: &Linked, of: &str, wanted: &str) -> Result<bool, NoMemory> {
    let Some(of) = site(of) else {
        return Ok(false);
    };
    let nodes = starts_of(alloc, linked, of)?;
    Ok(are_nodes(&nodes, wanted))
}

// Whether a store of the field is this one: the node that it stores into, and the node that it stores, at one place.
fn is_store(store: &StoreAt, field: u32, text: &str) -> bool {
    let Some((base, arg)) = text.split_once(' ') else {
        return false;
    };
    store.field == field
        && node(base) == Some(store.base)
        && node(arg) == Some(store.arg)
        && store.base.place == store.place
        && store.arg.place == store.place
}

// Whether the stores of the field are exactly these, in this order.
fn are_stores(stores: &[StoreAt], field: u32, wanted: &str) -> bool {
    if wanted == "-" {
        return stores.is_empty();
    }
    let mut count: usize = 0;
    for text in wanted.split(", ") {
        match stores.get(count) {
            Some(store) if is_store(store, field, text) => count = count.saturating_add(1),
            _ => return false,
        }
    }
    count == stores.len()
}

fn is_stored(alloc: Global, linked: &Linked, field: &str, wanted: &str) -> Result<bool, NoMemory> {
    let Ok(field) = field.parse::<u32>() else {
        return Ok(false);
    };
    let stores = stores_of(alloc, linked, field)?;
    Ok(are_stores(&stores, field, wanted))
}

// The answer to a question of yes or no.
fn is_answered(answer: bool, wanted: &str) -> bool {
    wanted == if answer { "yes" } else { "no" }
}

fn has_node(linked: &Linked, of: &str, wanted: &str) -> bool {
    match node(of) {
        Some(of) => is_answered(is_node(linked, of), wanted),
        None => false,
    }
}

fn has_class(linked: &Linked, of: &str, wanted: &str) -> bool {
    let Some(of) = site(of) else {
        return false;
    };
    let class = site_class(linked, of);
    match wanted {
        "-" => class.is_none(),
        name => class.is_some() && class == linked.class_number(name),
    }
}

fn has_site_field(linked: &Linked, of: &str, wanted: &str) -> bool {
    let Some((of, field)) = of.split_once(' ') else {
        return false;
    };
    match (site(of), field.parse::<u32>()) {
        (Some(of), Ok(field)) => is_answered(has_field(linked, of, field), wanted),
        _ => false,
    }
}

/// Rows of such questions.
pub struct Asked;

impl Rows for Asked {
    fn is_right(&self, alloc: Global, linked: &Linked, row: &str) -> Result<bool, NoMemory> {
        let Some((asked, wanted)) = row.split_once(" = ") else {
            return Ok(false);
        };
        match asked.split_once(' ') {
            Some(("into", of)) => ends_in(alloc, linked, of, Reach::Plain, wanted),
            Some(("tracked", of)) => ends_in(alloc, linked, of, Reach::Tracked, wanted),
            Some(("starts", of)) => starts_at(alloc, linked, of, wanted),
            Some(("stores", field)) => is_stored(alloc, linked, field, wanted),
            Some(("node", of)) => Ok(has_node(linked, of, wanted)),
            Some(("class", of)) => Ok(has_class(linked, of, wanted)),
            Some(("field", of)) => Ok(has_site_field(linked, of, wanted)),
            _ => Ok(false),
        }
    }
}
