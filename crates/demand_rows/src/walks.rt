//! Walks over listed graphs: what is demanded, and what the graph is asked for.
use demand_set::{DemandError, ListedGraph, Walk, walk};
use linked_text::spelled::{edge, node};
use spds_rules::{Edge, Node, StoreAt};
use std::alloc::{AllocError, Global};
use std::test::Fail;

// A main of `a = new A; b = new B; x = id(a); y = id(b); return;`, an edge a line, with what it ends in behind ` > `. One is listed twice.
const TWO_CALLS: &str = "flow 1.0.new > 1.1.l0
flow 1.1.l0 > 1.2.l0
flow 1.2.l0 > 1.3.l0
flow 1.3.l0 > 1.4.l0
flow 1.1.new > 1.2.l1
flow 1.2.l1 > 1.3.l1
flow 1.3.l1 > 1.4.l1
call 1.2.l0 > 0.0.p0
call 1.3.l1 > 0.0.p0
flow 0.0.p0 > 0.1.l0
return 1.2 0.1.l0 > 1.3.l2
return 1.3 0.1.l0 > 1.4.l3
flow 1.3.l2 > 1.4.l2
flow 1.3.l2 > 1.4.l2";

// Targets, the budget, how many nodes, edges, fields and stores are demanded where that is within it, and what the graph is asked for, in order.
const OF_TWO_CALLS: &str =
    "1.4.l2 | 10 | 10 9 0 0 | 1.4.l2 1.3.l2 0.1.l0 0.0.p0 1.2.l0 1.3.l1 1.1.l0 1.2.l1 1.0.new 1.1.new
1.4.l2 | 9 | over | 1.4.l2 1.3.l2 0.1.l0 0.0.p0 1.2.l0 1.3.l1 1.1.l0 1.2.l1
1.1.l0 1.0.new 1.1.l0 | 2 | 2 1 0 0 | 1.1.l0 1.0.new
- | 0 | 0 0 0 0 | -";

// A main of `a = new Box; b = new A; a.v = b; x = a.v; return;`.
const ONE_FIELD: &str = "flow 1.0.new > 1.1.l0
flow 1.1.l0 > 1.2.l0
flow 1.2.l0 > 1.3.l0
flow 1.1.new > 1.2.l1
load 1 1.3.l0 > 1.4.l2";

// The store of `v`, and one of another field: the field, what is stored into, and what is stored.
const STORES: &str = "1 1.2.l0 1.2.l1
2 1.2.l0 1.2.l3";

const WITH_STORES: &str =
    "1.4.l2 | 7 | 7 5 1 1 | 1.4.l2 1.3.l0 1.2.l0 1.2.l1 1.1.l0 1.1.new 1.0.new";

const WITHOUT_STORES: &str = "1.4.l2 | 7 | 5 4 1 0 | 1.4.l2 1.3.l0 1.2.l0 1.1.l0 1.0.new";

// The edge that a line spells.
fn edge_of(line: &str) -> Option<Edge> {
    let (from, to) = line.split_once(" > ")?;
    edge(from, node(to)?)
}

fn edges_of(alloc: Global, text: &str) -> Result<Vec<Edge>, AllocError> {
    let mut edges = Vec::new(alloc);
    for line in text.lines() {
        if let Some(edge) = edge_of(line) {
            edges.push(edge)?;
        }
    }
    Ok(edges)
}

// The store that a line spells.
fn store_of(line: &str) -> Option<StoreAt> {
    let (field, nodes) = line.split_once(' ')?;
    let (base, arg) = nodes.split_once(' ')?;
    let base = node(base)?;
    Some(StoreAt {
        place: base.place,
        field: field.parse::<u32>().ok()?,
        base,
        arg: node(arg)?,
    })
}

fn stores_of(alloc: Global, text: &str) -> Result<Vec<StoreAt>, AllocError> {
    let mut stores = Vec::new(alloc);
    for line in text.lines() {
        if let Some(store) = store_of(line) {
            stores.push(store)?;
        }
    }
    Ok(stores)
}

fn nodes_of(alloc: Global, text: &str) -> Result<Vec<Node>, AllocError> {
    let mut nodes = Vec::new(alloc);
    for part in text.split(' ') {
        if let Some(node) = node(part) {
            nodes.push(node)?;
        }
    }
    Ok(nodes)
}

// How many nodes, edges, fields and stores were found.
fn counted(alloc: Global, found: &Walk) -> Result<String, AllocError> {
    format!(in alloc;
        "{} {} {} {}",
        found.nodes.as_slice().len(),
        found.edges.as_slice().len(),
        found.fields.as_slice().len(),
        found.stores.as_slice().len()
    )
}

fn is_counted(alloc: Global, found: &Walk, wanted: &str) -> Result<bool, AllocError> {
    let told = counted(alloc, found)?;
    Ok(told.as_str() == wanted)
}

fn finds(
    alloc: Global,
    graph: &mut ListedGraph,
    targets: &[Node],
    budget: u32,
    wanted: &str,
) -> Result<bool, AllocError> {
    match walk(alloc, graph, targets, budget) {
        Ok(found) => is_counted(alloc, &found, wanted),
        Err(DemandError::OverBudget { budget: told }) => Ok(wanted == "over" && told == budget),
        Err(DemandError::NoMemory) => Err(AllocError),
    }
}

// Whether the nodes are exactly these, in this order.
fn are_listed(nodes: &[Node], text: &str) -> bool {
    if text == "-" {
        return nodes.is_empty();
    }
    let mut count: usize = 0;
    for part in text.split(' ') {
        match node(part) {
            Some(node) if nodes.get(count) == Some(&node) => count = count.saturating_add(1),
            _ => return false,
        }
    }
    count == nodes.len()
}

fn is_walked(
    alloc: Global,
    graph: &mut ListedGraph,
    targets: &[Node],
    budget: u32,
    wanted: &str,
    asked: &str,
) -> Result<bool, AllocError> {
    Ok(finds(alloc, graph, targets, budget, wanted)? && are_listed(graph.asked.as_slice(), asked))
}

// The parts of a row.
fn parts(row: &str) -> Option<(&str, u32, &str, &str)> {
    let (targets, rest) = row.split_once(" | ")?;
    let (budget, rest) = rest.split_once(" | ")?;
    let (wanted, asked) = rest.split_once(" | ")?;
    Some((targets, budget.parse::<u32>().ok()?, wanted, asked))
}

fn is_right(alloc: Global, edges: &str, stores: &str, row: &str) -> Result<bool, AllocError> {
    let Some((targets, budget, wanted, asked)) = parts(row) else {
        return Ok(false);
    };
    let mut graph = ListedGraph {
        edges: edges_of(alloc, edges)?,
        stores: stores_of(alloc, stores)?,
        asked: Vec::new(alloc),
    };
    let targets = nodes_of(alloc, targets)?;
    is_walked(alloc, &mut graph, &targets, budget, wanted, asked)
}

// The first row that isn't right.
fn first_wrong(
    alloc: Global,
    edges: &str,
    stores: &str,
    rows: &'static str,
) -> Result<Option<&'static str>, AllocError> {
    for row in rows.lines() {
        if !is_right(alloc, edges, stores, row)? {
            return Ok(Some(row));
        }
    }
    Ok(None)
}

#[test]
fn walks_and_asks(rt: HostRuntime) -> Result<(), Fail> {
    for (edges, stores, rows) in [
        (TWO_CALLS, "", OF_TWO_CALLS),
        (ONE_FIELD, STORES, WITH_STORES),
        (ONE_FIELD, "", WITHOUT_STORES),
    ] {
        assert_eq!(rt; first_wrong(rt.alloc(), edges, stores, rows)?, None);
    }
    Ok(())
}
