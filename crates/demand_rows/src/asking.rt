//! A walk over the graph of a program, which tells what it was asked for.
ghost use Rattle.std.specs.Prelude.{Some};
ghost use Rattle.spds_rules.specs.declared.reach.Reach.TheVariants.{Plain};
ghost use Rattle.spds_rules.specs.Edges.{IsEdge};
ghost use Rattle.spds_rules.specs.Stores.{IsStore};

use super::programs::TWO_CALLS;
use demand_set::{DemandError, Graph, walk};
use link_program::Linked;
use linked_text::spelled::{are_nodes, node};
use linked_text::{Rows, first_wrong};
use lists::NoMemory;
use spds_nodes::{into, stores_of};
use spds_rules::{Edge, Node, Reach, StoreAt};
use std::alloc::{AllocError, Global};
use std::test::Fail;

// The edges and the stores of a program, with the nodes that it was asked for.
#[derive(Drop)]
struct AskedGraph<'a> {
    linked: &'a Linked,
    asked: Vec<Node>,
}

impl<'a> Graph for AskedGraph<'a> {
    ghost edge = { λ g. IsEdge g.linked.now Plain };

    ghost store = { λ g. IsStore g.linked.now };

    ghost asked = { λ g. Some g.asked.items };

    fn edges_into(&mut self, alloc: Global, node: Node) -> Result<Vec<Edge>, NoMemory> {
        let edges = into(alloc, self.linked, node, Reach::Plain)?;
        self.asked.push(node)?;
        Ok(edges)
    }

    fn stores(&mut self, alloc: Global, field: u32) -> Result<Vec<StoreAt>, NoMemory> {
        stores_of(alloc, self.linked, field)
    }
}

// What the first call's result demands behind the second call, the target first.
const BEHIND_X: &str = "1.4.l2 1.3.l2 0.1.l0 0.0.p0 1.2.l0 1.1.l0 1.0.new 1.3.l1 1.2.l1 1.1.new";

// Whether each of the nodes is demanded, and none stands twice: as many of those that are demanded are among them.
fn are_demanded(nodes: &[Node]) -> bool {
    let mut count: usize = 0;
    for part in BEHIND_X.split(' ') {
        match node(part) {
            Some(node) if nodes.contains(&node) => count = count.saturating_add(1),
            _ => {}
        }
    }
    count == nodes.len()
}

// Whether a walk is right: within ten nodes it finds all ten, and asks for these, in its order; else it asks for demanded nodes, as many as the budget
// at most.
fn is_right(alloc: Global, graph: &mut AskedGraph<'_>, budget: u32) -> Result<bool, NoMemory> {
    let Some(target) = node("1.4.l2") else {
        return Ok(false);
    };
    match walk(alloc, graph, &[target], budget) {
        Ok(found) => Ok(
            budget >= 10
                && are_nodes(found.nodes.as_slice(), BEHIND_X)
                && graph.asked.as_slice() == found.nodes.as_slice(),
        ),
        Err(DemandError::OverBudget { budget: told }) => Ok(
            budget < 10
                && told == budget
                && graph.asked.len() <= budget as usize
                && are_demanded(graph.asked.as_slice()),
        ),
        Err(DemandError::NoMemory) => Err(AllocError),
    }
}

struct Budgets;

impl Rows for Budgets {
    fn is_right(&self, alloc: Global, linked: &Linked, row: &str) -> Result<bool, NoMemory> {
        let Ok(budget) = row.parse::<u32>() else {
            return Ok(false);
        };
        let mut graph = AskedGraph {
            linked,
            asked: Vec::new(alloc),
        };
        is_right(alloc, &mut graph, budget)
    }
}

const BUDGETS: &str = "0
1
9
10
100";

#[test]
fn asks_for_each_node_once(rt: HostRuntime) -> Result<(), Fail> {
    assert_eq!(rt;
        first_wrong(rt.alloc(), TWO_CALLS, &Budgets, BUDGETS)?,
        None
    );
    Ok(())
}
