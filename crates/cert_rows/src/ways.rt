//! Ways through a small graph.
use super::graph::{Arc, Arcs};
use lists::NoMemory;
use std::alloc::Global;
use std::test::Fail;
use way_find::{Step, way};

fn arc_of(from: u32, label: u32, to: u32) -> Arc {
    Arc { from, label, to }
}

fn start(label: u32, to: u32) -> Step<u32> {
    Step { label, to }
}

// Whether the labels are those of the way from the starts to the goal; no labels where there is none. Two ways lead from 1 to 4, and from there one back to 1
// and one on to 5. To 6 leads one from 7 alone.
fn is_way(
    alloc: Global,
    starts: &[Step<u32>],
    goal: u32,
    labels: &[u32],
) -> Result<bool, NoMemory> {
    let arcs = [
        arc_of(1, 10, 2),
        arc_of(1, 11, 3),
        arc_of(2, 12, 4),
        arc_of(3, 13, 4),
        arc_of(4, 14, 1),
        arc_of(4, 15, 5),
        arc_of(7, 16, 6),
    ];
    let ways = Arcs { arcs: &arcs, goal };
    match way(alloc, &ways, starts)? {
        Some(found) => Ok(found.as_slice() == labels),
        None => Ok(labels.is_empty()),
    }
}

#[test]
fn lead_to_a_goal(rt: HostRuntime) -> Result<(), Fail> {
    let alloc = rt.alloc();
    // The first of two that are as long.
    assert!(rt; is_way(alloc, &[start(7, 1)], 5, &[7, 10, 12, 15])?);
    assert!(rt; is_way(alloc, &[start(8, 3), start(9, 2)], 4, &[8, 13])?);
    // A start that is a goal.
    assert!(rt; is_way(alloc, &[start(7, 1)], 1, &[7])?);
    Ok(())
}

#[test]
fn end_where_all_was_seen(rt: HostRuntime) -> Result<(), Fail> {
    let alloc = rt.alloc();
    assert!(rt; is_way(alloc, &[start(7, 1)], 6, &[])?);
    assert!(rt; is_way(alloc, &[], 1, &[])?);
    Ok(())
}
