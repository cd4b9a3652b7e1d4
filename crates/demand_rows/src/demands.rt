//! What queries demand: how many nodes, and which sites.
ghost use Rattle.std.specs.Prelude.{All, IsTrue};
ghost use Rattle.spds_rules.specs.Nodes.{IsNode};

use super::programs::{
    ALL_SORTS, ESCAPES, FILES, FILES_READ_AGAIN, INHERITED, NULL_RECEIVER, PASSED_BOX, RECURSION,
    SAME_TEXT, STATIC_BOX, STORED_NULL, TWO_CALLS,
};
use demand_set::{Demand, DemandError};
use link_program::Linked;
use linked_text::programs::TWO_BOXES;
use linked_text::spelled::{are_nodes, are_sites, node};
use linked_text::{Rows, first_wrong};
use lists::NoMemory;
use program_demand::demand;
use spds_nodes::is_node;
use spds_rules::{EdgeKind, Node, Reach};
use std::alloc::{AllocError, Global};
use std::test::Fail;

// Queries of each program, a row a line: the targets, behind `tracked` where back edges count, and behind ` = ` how many nodes are demanded and of which
// sites start nodes are among them, in their order.
const CASES: [(&str, &str); 13] = [
    (TWO_CALLS, "1.4.l2 = 10, 1.0.new 1.1.new"),
    (TWO_BOXES, "2.8.l4 = 31, 2.0.new 2.1.new 2.2.new 2.3.new"),
    (PASSED_BOX, "1.4.l2 = 13, 0.3.new 1.0.new"),
    (STATIC_BOX, "0.9.l5 = 16, 0.0.new 0.1.new 0.2.new"),
    (RECURSION, "1.1.l0 = 5, 0.1.new"),
    (
        ESCAPES,
        "2.4.l1 = 15, 0.0.new 0.1.new 0.2.r0 0.3.r0
# what is caught
2.3.l0 = 12, 0.0.new 0.2.r0 0.3.r0",
    ),
    (NULL_RECEIVER, "0.4.l1 = 4, 0.1.r0"),
    (INHERITED, "2.2.l1 = 5, 0.0.new 1.0.new"),
    (
        SAME_TEXT,
        "# one text twice
1.3.l0 1.3.l1 = 7, t0
# two texts
1.3.l0 1.3.l2 = 6, t1 t0",
    ),
    (ALL_SORTS, "0.9.l0 = 10, 0.8.new t1 t0 k1 k0"),
    (
        STORED_NULL,
        "0.4.l2 = 5, 0.0.new
# unset
0.0.l2 = 1, -",
    ),
    (
        FILES,
        "3.1.l0 3.2.l0 4.3.l0 = 7, 4.0.new
# files that are tracked
tracked 3.1.l0 3.2.l0 4.3.l0 = 10, 4.0.new",
    ),
    (
        FILES_READ_AGAIN,
        "# files that are read again
tracked 3.1.l0 3.2.l0 4.3.l0 4.4.l1 = 12, 4.0.new",
    ),
];

// Whether some edge of the demand loads the field.
fn is_loaded(found: &Demand, field: u32) -> bool {
    found
        .edges()
        .iter()
        .any(|edge| edge.kind == EdgeKind::Load(field))
}

// Whether the fields are those that edges load.
fn are_loaded(found: &Demand) -> bool {
    let all_listed = found.edges().iter().all(|edge| match edge.kind {
        EdgeKind::Load(field) => found.fields().contains(&field),
        _ => true,
    });
    all_listed && found.fields().iter().all(|field| is_loaded(found, *field))
}

// Whether each node has its number.
fn are_numbered(found: &Demand) -> bool {
    for (number, node) in found.nodes().iter().enumerate() {
        if found.number_of(*node) != u32::try_from(number).ok() {
            return false;
        }
    }
    true
}

fn is_found(found: &Demand, count: u32, sites: &str) -> bool {
    found.nodes().len() == count as usize
        && are_sites(found.sites(), sites)
        && are_numbered(found)
        && are_loaded(found)
}

// What is told of a query.
#[derive(Clone, Copy, PartialEq, Eq)]
enum Answer {
    Right,
    Wrong,
    Over(u32),
}

// Whether the query demands so many nodes and these sites, or the budget that it demands more than.
fn told(
    alloc: Global,
    linked: &Linked,
    targets: &[Node],
    reach: Reach,
    budget: u32,
    sites: &str,
) -> Result<Answer, NoMemory>
    requires { All (IsNode linked.now) targets.now }
{
    match demand(alloc, linked, targets, reach, budget) {
        Ok(found) if is_found(&found, budget, sites) => Ok(Answer::Right),
        Ok(_) => Ok(Answer::Wrong),
        Err(DemandError::OverBudget { budget }) => Ok(Answer::Over(budget)),
        Err(DemandError::NoMemory) => Err(AllocError),
    }
}

// Whether the program has all the nodes.
fn are_in(linked: &Linked, nodes: &[Node]) -> bool
    ensures { IsTrue result → All (IsNode linked.now) nodes.now }
{
    nodes.iter().all(|node| is_node(linked, *node))
}

// Whether it is right within a budget of just as many nodes, and over one that is less by one.
fn are_right(
    alloc: Global,
    linked: &Linked,
    targets: &[Node],
    reach: Reach,
    wanted: &str,
) -> Result<bool, NoMemory> {
    let Some((count, sites)) = wanted.split_once(", ") else {
        return Ok(false);
    };
    let Ok(count) = count.parse::<u32>() else {
        return Ok(false);
    };
    if !are_in(linked, targets) {
        return Ok(false);
    }
    let one_less = count.saturating_sub(1);
    Ok(
        told(alloc, linked, targets, reach, count, sites)? == Answer::Right
            && told(alloc, linked, targets, reach, one_less, sites)? == Answer::Over(one_less),
    )
}

// The nodes that a text spells, as far as it does.
fn nodes_of(alloc: Global, text: &str) -> Result<Vec<Node>, NoMemory> {
    let mut nodes = Vec::new(alloc);
    for part in text.split(' ') {
        let Some(node) = node(part) else {
            return Ok(nodes);
        };
        nodes.push(node)?;
    }
    Ok(nodes)
}

struct Demanded;

impl Rows for Demanded {
    fn is_right(&self, alloc: Global, linked: &Linked, row: &str) -> Result<bool, NoMemory> {
        let Some((asked, wanted)) = row.split_once(" = ") else {
            return Ok(false);
        };
        let (reach, spelled) = match asked.strip_prefix("tracked ") {
            Some(spelled) => (Reach::Tracked, spelled),
            None => (Reach::Plain, asked),
        };
        let targets = nodes_of(alloc, spelled)?;
        Ok(are_nodes(&targets, spelled) && are_right(alloc, linked, &targets, reach, wanted)?)
    }
}

#[test]
fn nodes_and_sites_in_order(rt: HostRuntime) -> Result<(), Fail> {
    for (text, rows) in CASES {
        assert_eq!(rt; first_wrong(rt.alloc(), text, &Demanded, rows)?, None);
    }
    Ok(())
}
