//! What queries find: each object that may be stored into another, with a call string under which it may; the sites at a node, and what two nodes share
//! under one call string; and how much tables hold.
ghost use Rattle.demand_set.specs.Demands.{IsDemandOf};
ghost use Rattle.link_rules.specs.WellLinked.{IsWellLinked};
ghost use Rattle.spds_rules.specs.Demand.{Asked};
ghost use Rattle.spds_rules.specs.Nodes.{IsNode};

use super::programs::{COPIES, CROWDED, PASSED_ON, THREE_CELLS};
use demand_set::{Demand, DemandError, Reach};
use link_program::Linked;
use link_sites::Site;
use linked_text::programs::TWO_BOXES;
use linked_text::spelled::{is_string, node, site};
use linked_text::{Rows, first_wrong};
use lists::NoMemory;
use program_demand::demand;
use spds_nodes::is_node;
use spds_rules::Node;
use spds_solve::{Met, Solved, solve_here};
use std::alloc::{AllocError, Global};
use std::test::Fail;

// A query of each program. A row has its target and what is found, behind ` | `:
// - `meets`: all that meets: the object, what it is stored into, and the calls of the string, the innermost first;
// - `shares`: another node, and the one site that it and the target may both hold under one call string, `-` if there is none;
// - `lists`: the one site that the target may hold, by the index of sites by cells;
// - `holds`: so many nodes are demanded, and the tables of all sites hold so many facts. No contract says how many.

// Behind the last call of `main`. `x` came out of the first box, into which `o` was put. `p` was put into the second box.
const OF_TWO_BOXES: &str = "2.8.l4 | meets 2.2.new 2.0.new 2.4,3.3; 2.3.new 2.1.new 2.5,3.3
2.8.l4 | shares 2.4.l2 2.2.new
2.8.l4 | shares 2.5.l3 -
2.8.l4 | lists 2.2.new";

// The first cell meets the third as well, since it is wherever the second is.
const OF_THREE_CELLS: &str =
    "0.8.l5 | meets 0.0.new 0.1.new 1.3; 0.1.new 0.3.new 1.3; 0.0.new 0.3.new 1.3";

// Before the return of `main`. `o` comes to the second box only when what is in the first one is known. Until then no call string of `set` has both, though
// all go through `mid`. A call system keeps no fields, so the first box itself may be what comes out of it, and goes the same way.
const OF_PASSED_ON: &str =
    "2.7.l4 | meets 2.2.new 2.0.new 1.2,2.3,3.3; 2.2.new 2.1.new 1.2,2.5,3.3; 2.0.new 2.1.new 1.2,2.5,3.3; 2.0.new 2.0.new 1.2,2.5,3.3";

// The object, as it is made, and its copy in each of four locals share one cell in each kind of system.
const OF_COPIES: &str = "0.4.l3 | holds 5 2";

// Before the return of `main`. Each object comes to its own box alone, by each of the twelve calls of `set`: the first of these is told. Strings have the marks
// of calls alone, and none of a common mark.
const OF_CROWDED: &str = "2.8.l5 | meets 2.2.new 2.0.new 1.2,2.4,3.3; 2.3.new 2.1.new 1.2,2.5,3.3
2.8.l5 | shares 2.5.l3 2.3.new
2.8.l5 | shares 2.4.l2 -
2.8.l5 | lists 2.3.new";

// Whether the meet is this one.
fn is_meeting(sites: &[Site], met: &Met, text: &str) -> bool {
    let Some((object, rest)) = text.split_once(' ') else {
        return false;
    };
    let Some((base, string)) = rest.split_once(' ') else {
        return false;
    };
    site(object).as_ref() == sites.get(met.object as usize)
        && site(base).as_ref() == sites.get(met.base as usize)
        && is_string(met.string.as_slice(), string)
}

// Whether the meet is told as one, and isn't with its object and its base reversed, if these are two.
fn is_told(solved: &Solved, met: &Met) -> bool {
    solved.meet(met.object, met.base, met.store)
        && (met.object == met.base || !solved.meet(met.base, met.object, met.store))
}

// Whether the meets are these, in any order.
fn are_these(sites: &[Site], solved: &Solved, wanted: &str) -> bool {
    let meets = solved.meets();
    let mut count: usize = 0;
    for text in wanted.split("; ") {
        if !meets.iter().any(|met| is_meeting(sites, met, text)) {
            return false;
        }
        count = count.saturating_add(1);
    }
    meets.len() == count && meets.iter().all(|met| is_told(solved, met))
}

// Whether of all sites just the shared one is at both nodes, and under one call string.
fn are_shared(
    alloc: Global,
    sites: &[Site],
    solved: &Solved,
    nodes: (u32, u32),
    shared: Option<Site>,
) -> Result<bool, NoMemory> {
    let (first, second) = nodes;
    for (place, at) in sites.iter().enumerate() {
        let Ok(number) = u32::try_from(place) else {
            return Ok(false);
        };
        let is_shared = shared == Some(*at);
        let is_held = solved.holds(number, first) && solved.holds(number, second);
        if is_held != is_shared {
            return Ok(false);
        }
        if is_shared && !solved.together(alloc, number, first, second)? {
            return Ok(false);
        }
    }
    Ok(true)
}

// Whether the target and the other node share this site.
fn shares(
    alloc: Global,
    found: &Demand,
    solved: &Solved,
    target: Node,
    wanted: &str,
) -> Result<bool, NoMemory> {
    let Some((other, shared)) = wanted.split_once(' ') else {
        return Ok(false);
    };
    let Some(other) = node(other) else {
        return Ok(false);
    };
    let shared = site(shared);
    if shared.is_none() && !wanted.ends_with(" -") {
        return Ok(false);
    }
    match (found.number_of(target), found.number_of(other)) {
        (Some(first), Some(second)) => {
            are_shared(alloc, found.sites(), solved, (first, second), shared)
        }
        _ => Ok(false),
    }
}

// Whether the target may hold objects of this site alone, as the list of its sites tells.
fn lists(
    alloc: Global,
    found: &Demand,
    solved: &Solved,
    target: Node,
    wanted: &str,
) -> Result<bool, NoMemory> {
    let Some(number) = found.number_of(target) else {
        return Ok(false);
    };
    let holders = solved.holders(alloc)?;
    let held = solved.holding(alloc, &holders, number)?;
    let wanted = site(wanted);
    let sites = found.sites();
    Ok(
        held.keys().len() == 1
            && held
                .keys()
                .iter()
                .all(|key| wanted.as_ref() == sites.get(*key as usize)),
    )
}

// Whether so many nodes are demanded, and there are so many facts.
fn holds(alloc: Global, found: &Demand, solved: &Solved, wanted: &str) -> Result<bool, NoMemory> {
    let told = format!(in alloc; "{} {}", found.nodes().len(), solved.size().facts)?;
    Ok(told.as_str() == wanted)
}

fn is_found(
    alloc: Global,
    found: &Demand,
    solved: &Solved,
    target: Node,
    wanted: &str,
) -> Result<bool, NoMemory> {
    match wanted.split_once(' ') {
        Some(("meets", wanted)) => Ok(are_these(found.sites(), solved, wanted)),
        Some(("shares", wanted)) => shares(alloc, found, solved, target, wanted),
        Some(("lists", wanted)) => lists(alloc, found, solved, target, wanted),
        Some(("holds", wanted)) => holds(alloc, found, solved, wanted),
        _ => Ok(false),
    }
}

// What is owned is lent on, each by a function of its own, since the prover goes over it at each way out of the function that owns it.
fn is_solved(
    alloc: Global,
    linked: &Linked,
    found: &Demand,
    target: Node,
    wanted: &str,
) -> Result<bool, NoMemory>
    requires well { IsWellLinked linked.now }
    requires demanded { (q : Asked) × IsDemandOf linked.now q found.now }
{
    match solve_here(alloc, linked, found) {
        Ok(solved) => is_found(alloc, found, &solved, target, wanted),
        Err(error) => Err(error),
    }
}

fn is_demanded(alloc: Global, linked: &Linked, target: Node, wanted: &str) -> Result<bool, NoMemory>
    requires well { IsWellLinked linked.now }
    requires target { IsNode linked.now target }
{
    match demand(alloc, linked, &[target], Reach::Plain, u32::MAX) {
        Ok(found) => is_solved(alloc, linked, &found, target, wanted),
        Err(DemandError::OverBudget { .. }) => Ok(false),
        Err(DemandError::NoMemory) => Err(AllocError),
    }
}

struct Queries;

impl Rows for Queries {
    fn is_right(&self, alloc: Global, linked: &Linked, row: &str) -> Result<bool, NoMemory>
        requires { IsWellLinked linked.now }
    {
        let Some((target, wanted)) = row.split_once(" | ") else {
            return Ok(false);
        };
        match node(target) {
            Some(target) if is_node(linked, target) => is_demanded(alloc, linked, target, wanted),
            _ => Ok(false),
        }
    }
}

#[test]
fn meets_answers_and_cells(rt: HostRuntime) -> Result<(), Fail> {
    for (text, rows) in [
        (TWO_BOXES, OF_TWO_BOXES),
        (THREE_CELLS, OF_THREE_CELLS),
        (PASSED_ON, OF_PASSED_ON),
        (COPIES, OF_COPIES),
        (CROWDED, OF_CROWDED),
    ] {
        assert_eq!(rt; first_wrong(rt.alloc(), text, &Queries, rows)?, None);
    }
    Ok(())
}
