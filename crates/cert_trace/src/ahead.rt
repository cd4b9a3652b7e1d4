//! Loads lie ahead.
ghost use Rattle.std.specs.Prelude.{◌≡◌, ℕ, IfOk, IsTrue, OnOk};
ghost use Rattle.lists.specs.Lists.{Has};
ghost use Rattle.spds_rules.specs.declared.edge.Edge.{Edge as AnyEdge};
ghost use Rattle.spds_rules.specs.declared.edge.EdgeKind.TheVariants.{Load};
ghost use Rattle.spds_rules.specs.declared.node.Node.{Node as AnyNode};
ghost use Rattle.spds_rules.specs.declared.store.StoreAt.{StoreAt as AnyStore};
ghost use Rattle.cert_lines.specs.declared.keys.FieldAt.{FieldAt as AnyFieldAt};
ghost use Rattle.lists.specs.Grown.{IsLonger};
ghost use Rattle.cert_trace.specs.Ahead.{IsAheadIn, IsArgFiled, IsBefore, IsFound, IsSearched};
ghost use Rattle.cert_trace.specs.Settled.{IsBackFiled};

use cert_lines::FieldAt;
use cert_work::Ahead;
use demand_set::Demand;
use lists::{ByKey, NoMemory, Numbered};
use spds_rules::{Edge, EdgeKind, Node, StoreAt};
use std::alloc::Global;

/// A search looks at so many edges and stores, for each of the demand. What is left then would cost more than it saves.
const STEPS: usize = 16;

// What the stores take, by their fields.
fn file_args(alloc: Global, stores: &[StoreAt]) -> Result<ByKey<u32, Node>, NoMemory>
    ensures { IfOk result (λ files. (s : AnyStore) → Has stores.now s → IsArgFiled files s) }
{
    let mut files = ByKey::new(alloc);
    for store in stores {
        files.add(store.field, store.arg)?;
    }
    Ok(files)
}

// Where loads stand, they lie ahead.
fn add_loads(found: &mut Numbered<FieldAt>, edges: &[Edge]) -> Result<(), NoMemory>
    ensures all { OnOk result ((e : AnyEdge) (f : ℕ) → Has edges.now e → e.kind ≡ Load f → IsFound found.new.keys f e.from) }
{
    for edge in edges {
        if let EdgeKind::Load(field) = edge.kind {
            let node = edge.from;
            found.add(FieldAt { field, node })?;
        }
    }
    Ok(())
}

// So do they before each of the nodes.
fn add_nodes(found: &mut Numbered<FieldAt>, field: u32, nodes: &[Node]) -> Result<(), NoMemory>
    ensures all { OnOk result ((n : AnyNode) → Has nodes.now n → IsFound found.new.keys field n) }
    ensures longer { OnOk result (IsLonger found.old.keys found.new.keys) }
{
    for node in nodes {
        found.add(FieldAt { field, node: *node })?;
    }
    Ok(())
}

// So do they before what leads along the edge to where they lie ahead.
fn add_before(
    found: &mut Numbered<FieldAt>,
    field: u32,
    edge: &Edge,
    args: &ByKey<u32, Node>,
) -> Result<(), NoMemory>
    ensures before { OnOk result (IsBefore found.new.keys args.now field edge.now) }
    ensures longer { OnOk result (IsLonger found.old.keys found.new.keys) }
{
    match edge.kind {
        EdgeKind::Load(loaded) => add_nodes(found, field, args.at(loaded)),
        EdgeKind::Flow | EdgeKind::Call(_) | EdgeKind::Return(_) | EdgeKind::Jump => {
            add_nodes(found, field, &[edge.from])
        }
    }
}

// Along each of the edges.
fn add_all_before(
    found: &mut Numbered<FieldAt>,
    field: u32,
    edges: &[Edge],
    args: &ByKey<u32, Node>,
) -> Result<(), NoMemory>
    ensures before { OnOk result ((e : AnyEdge) → Has edges.now e → IsBefore found.new.keys args.now field e) }
    ensures longer { OnOk result (IsLonger found.old.keys found.new.keys) }
{
    for edge in edges {
        add_before(found, field, edge, args)?;
    }
    Ok(())
}

// How many edges and stores are looked at for these edges.
fn steps_along(edges: &[Edge], args: &ByKey<u32, Node>) -> usize {
    let mut steps: usize = 0;
    for edge in edges {
        steps = steps.saturating_add(1);
        if let EdgeKind::Load(loaded) = edge.kind {
            steps = steps.saturating_add(args.at(loaded).len());
        }
    }
    steps
}

// Goes back from all that was found, and tells whether so many steps were enough.
fn search(
    found: &mut Numbered<FieldAt>,
    back: &ByKey<Node, Edge>,
    args: &ByKey<u32, Node>,
    steps: usize,
) -> Result<bool, NoMemory>
    ensures all { IfOk result (λ all. IsTrue all → (at : AnyFieldAt) → Has found.new.keys at → IsSearched found.new.keys back.now args.now at) }
    ensures longer { OnOk result (IsLonger found.old.keys found.new.keys) }
{
    let mut left = steps;
    let mut at: u32 = 0;
    while (at as usize) < found.len() {
        let next = found.key(at);
        let edges = back.at(next.node);
        let Some(rest) = left.checked_sub(steps_along(edges, args)) else {
            return Ok(false);
        };
        left = rest;
        add_all_before(found, next.field, edges, args)?;
        at += 1;
    }
    Ok(true)
}

/// Where loads lie ahead in a demand whose edges are found by where they lead. Costs look-ups for each edge and each store, and at most sixteen times as many
/// steps: where these aren't enough, they are taken to lie ahead everywhere.
pub(crate) fn ahead_of(
    alloc: Global,
    demand: &Demand,
    back: &ByKey<Node, Edge>,
) -> Result<Ahead, NoMemory>
    requires { (e : AnyEdge) → Has demand.now.edges e → IsBackFiled back.now e }
    ensures { IfOk result (IsAheadIn demand.now) }
{
    let args = file_args(alloc, demand.stores())?;
    let mut fields = Numbered::new(alloc);
    add_loads(&mut fields, demand.edges())?;
    let size = demand.edges().len().saturating_add(demand.stores().len());
    if !search(&mut fields, back, &args, size.saturating_mul(STEPS))? {
        return Ok(Ahead::everywhere(alloc));
    }
    Ok(Ahead {
        everywhere: false,
        fields,
    })
}
