//! The parts of a demand.
ghost use Rattle.std.specs.Prelude.{◌≡◌, ◌↔◌, ◌⊎◌, ◌++◌, List, ℕ, Some, [], length, map, slice_get, IfOk, OnOk};
ghost use Rattle.auto_table.specs.declared.rule.Rule.{Rule as ARule};
ghost use Rattle.demand_set.specs.Demands.{IsDemandOf};
ghost use Rattle.demand_set.specs.declared.numbered.EdgeAt.{EdgeAt as AnEdge};
ghost use Rattle.demand_set.specs.Numbers.{AreEdgesAt};
ghost use Rattle.lists.specs.Lists.{Has, Each};
ghost use Rattle.lists.specs.Filings.{row};
ghost use Rattle.link_rules.specs.WellLinked.{IsWellLinked};
ghost use Rattle.link_sites.specs.declared.site.Site.{Site as ASite};
ghost use Rattle.post_star.specs.Derivations.{IsLed};
ghost use Rattle.post_star.specs.Works.{weight_of};
ghost use Rattle.rule_cells.specs.CellRules.{HaveCells};
ghost use Rattle.spds_rules.specs.declared.store.StoreAt.{StoreAt as AStore};
ghost use Rattle.spds_rules.specs.Demand.{Asked};
ghost use Rattle.spds_tables.specs.declared.numbered.Jump.{Jump as AJump};
ghost use Rattle.spds_tables.specs.declared.numbered.StartAt.{StartAt as AStart};
ghost use Rattle.call_side.specs.Gathered.{AreGathered};
ghost use Rattle.spds_tables.specs.Making.{IsCallRuleOf, IsJumpAt, IsStartAt, IsStartHere, field_rule_of};
ghost use Rattle.spds_tables.specs.Parts.{AreLedIn, open_nodes, start_nodes};
ghost use Rattle.spds_tables.specs.PartsOf.{ArePartsOf, IsStoreOf};
ghost use Rattle.weight_laws.specs.declared.reach.Reach.{Reach as AReach};
ghost use Rattle.weight_laws.specs.Reach.{reach_domain};

use super::numbered::{Jump, StartAt, StoreNodes};
use super::parts::Parts;
use auto_table::Rule;
use call_side::{CallBases, CallCommon, Calls, bases};
use demand_set::{Demand, EdgeAt};
use link_program::Linked;
use lists::NoMemory;
use post_star::Common;
use rule_cells::{CellRules, cell_rules, thin_cell_rules};
use spds_nodes::is_node;
use spds_rules::{EdgeKind, Node, StoreAt};
use std::alloc::{AllocError, Global};
use std::sync::Arc;
use weight_laws::{Reach, Weight};

/// The number of a demanded node.
fn number_in(demand: &Demand, node: Node) -> u32
    requires { Has demand.now.nodes node }
    ensures { slice_get demand.now.nodes result ≡ Some node }
{
    demand.number_of(node).unwrap_or(0)
}

/// The rule of an edge in field systems.
fn field_rule(edge: EdgeAt) -> Rule<Reach>
    ensures { result ≡ field_rule_of edge }
{
    let (from, to, weight) = (edge.from, edge.to, Reach::one());
    match edge.kind {
        EdgeKind::Load(mark) => Rule::Pop {
            from,
            mark,
            to,
            weight,
        },
        _ => Rule::Flow { from, to, weight },
    }
}

/// The rules of the edges in field systems.
fn field_rules(alloc: Global, edges: &[EdgeAt]) -> Result<Vec<Rule<Reach>>, NoMemory>
    ensures { IfOk result (λ rules. rules.items ≡ map field_rule_of edges.now) }
{
    let mut rules = Vec::new(alloc);
    for edge in edges {
        rules.push(field_rule(*edge))?;
    }
    Ok(rules)
}

/// Marks a node to which the edge comes back from a call.
fn mark_returned(returned: &mut [bool], edge: EdgeAt) {
    if let EdgeKind::Return(_) = edge.kind {
        if let Some(mark) = returned.get_mut(edge.to as usize) {
            *mark = true;
        }
    }
}

/// Marks those of so many nodes to which edges come back from calls.
fn all_returned(alloc: Global, count: u32, edges: &[EdgeAt]) -> Result<Vec<bool>, NoMemory> {
    let mut returned = Vec::with_capacity(alloc, count as usize)?;
    for _ in 0..count {
        returned.push(false)?;
    }
    for edge in edges {
        mark_returned(&mut returned, *edge);
    }
    Ok(returned)
}

/// Whether the edge stays in its frame, and leads to a marked node.
fn is_over(returned: &[bool], edge: EdgeAt) -> bool {
    if edge.kind != EdgeKind::Flow {
        return false;
    }
    match returned.get(edge.to as usize) {
        Some(mark) => *mark,
        None => false,
    }
}

/// Marks the edges that go over calls. What is passed into a method and comes back from it goes over the call too, and the edges through the method say
/// that already, where its formal stays as it is.
fn over_calls(alloc: Global, count: u32, edges: &[EdgeAt]) -> Result<Vec<bool>, NoMemory> {
    let returned = all_returned(alloc, count, edges)?;
    let mut over = Vec::with_capacity(alloc, edges.len())?;
    for edge in edges {
        over.push(is_over(&returned, *edge))?;
    }
    Ok(over)
}

/// The rule of an edge in call systems. Static fields have none.
fn call_rule(calls: &Calls, edge: EdgeAt) -> Option<Rule<Reach>>
    ensures { (r : ARule AReach) → (result ≡ Some r) ↔ IsCallRuleOf calls.now edge r }
{
    let (from, to, weight) = (edge.from, edge.to, Reach::one());
    match edge.kind {
        EdgeKind::Flow | EdgeKind::Load(_) => Some(Rule::Flow { from, to, weight }),
        EdgeKind::Call(call) => {
            let mark = calls.mark_of(call)?;
            Some(Rule::Push {
                from,
                to,
                mark,
                weight,
            })
        }
        EdgeKind::Return(call) => {
            let mark = calls.mark_of(call)?;
            Some(Rule::Pop {
                from,
                mark,
                to,
                weight,
            })
        }
        EdgeKind::Jump => None,
    }
}

/// Puts the rule of an edge last, if it has one.
fn add_call_rule(calls: &Calls, edge: EdgeAt, rules: &mut Vec<Rule<Reach>>) -> Result<(), NoMemory>
    ensures { OnOk result ((r : ARule AReach) → Has rules.new.items r ↔ (Has rules.old.items r ⊎ IsCallRuleOf calls.now edge r)) }
{
    if let Some(rule) = call_rule(calls, edge) {
        rules.push(rule)?;
    }
    Ok(())
}

/// The rules of the edges in call systems.
fn call_rules(alloc: Global, calls: &Calls, edges: &[EdgeAt]) -> Result<Vec<Rule<Reach>>, NoMemory>
    ensures { IfOk result (λ rules. AreGathered (IsCallRuleOf calls.now) edges.now rules.items) }
{
    let mut rules = Vec::new(alloc);
    for edge in edges {
        add_call_rule(calls, *edge, &mut rules)?;
    }
    Ok(rules)
}

/// Puts the edge last, if it is one through a static field.
fn add_jump(nodes: &[Node], edge: EdgeAt, jumps: &mut Vec<Jump>) -> Result<(), NoMemory>
    ensures { OnOk result ((j : AJump) → Has jumps.new.items j ↔ (Has jumps.old.items j ⊎ IsJumpAt nodes.now edge j)) }
{
    if edge.kind != EdgeKind::Jump {
        return Ok(());
    }
    if let Some(&node) = nodes.get(edge.to as usize) {
        let to = StartAt {
            node: edge.to,
            method: node.place.method,
        };
        jumps.push(Jump {
            from: edge.from,
            to,
        })?;
    }
    Ok(())
}

/// The edges through static fields.
fn jumps(alloc: Global, nodes: &[Node], edges: &[EdgeAt]) -> Result<Vec<Jump>, NoMemory>
    ensures { IfOk result (λ jumps. AreGathered (IsJumpAt nodes.now) edges.now jumps.items) }
{
    let mut jumps = Vec::new(alloc);
    for edge in edges {
        add_jump(nodes, *edge, &mut jumps)?;
    }
    Ok(jumps)
}

/// Puts the node with the number last, if the program has it: a target of the query may be none.
fn add_start(
    linked: &Linked,
    nodes: &[Node],
    number: u32,
    starts: &mut Vec<StartAt>,
) -> Result<(), NoMemory>
    ensures { OnOk result ((s : AStart) → Has starts.new.items s ↔ (Has starts.old.items s ⊎ IsStartAt linked.now nodes.now number s)) }
{
    if let Some(&node) = nodes.get(number as usize) {
        if is_node(linked, node) {
            starts.push(StartAt {
                node: number,
                method: node.place.method,
            })?;
        }
    }
    Ok(())
}

/// The start nodes among those with these numbers.
fn starts_among(
    alloc: Global,
    linked: &Linked,
    nodes: &[Node],
    numbers: &[u32],
) -> Result<Vec<StartAt>, NoMemory>
    ensures { IfOk result (λ starts. AreGathered (IsStartAt linked.now nodes.now) numbers.now starts.items) }
{
    let mut starts = Vec::new(alloc);
    for number in numbers {
        add_start(linked, nodes, *number, &mut starts)?;
    }
    Ok(starts)
}

/// How many there are. More than 4,294,967,295 find no memory.
pub fn count_of(length: usize) -> Result<u32, NoMemory>
    ensures { IfOk result (λ count. count ≡ length) }
{
    match u32::try_from(length) {
        Ok(count) => Ok(count),
        Err(_) => Err(AllocError),
    }
}

/// The start nodes of all sites.
fn all_starts(
    alloc: Global,
    linked: &Linked,
    demand: &Demand,
    count: u32,
) -> Result<Vec<Vec<StartAt>>, NoMemory>
    requires count { count ≡ length demand.now.sites }
    ensures count { IfOk result (λ starts. length starts.items ≡ length demand.now.sites) }
    ensures each { IfOk result (λ starts. (site : ℕ) (o : ASite) → slice_get demand.now.sites site ≡ Some o
        → (s : AStart) → Has (row (map (λ v. v.items) starts.items) site) s ↔ IsStartHere linked.now demand.now.nodes o s) }
{
    let mut all = Vec::new(alloc);
    for site in 0..count {
        all.push(starts_among(alloc, linked, demand.nodes(), demand.starts(site))?)?;
    }
    Ok(all)
}

/// Puts the numbers of start nodes last.
fn add_numbers(starts: &[StartAt], numbers: &mut Vec<u32>) -> Result<(), NoMemory>
    ensures { OnOk result (numbers.new.items ≡ numbers.old.items ++ map (λ s. s.node) starts.now) }
{
    for start in starts {
        numbers.push(start.node)?;
    }
    Ok(())
}

/// The numbers of the start nodes of all sites.
fn start_numbers(alloc: Global, starts: &[Vec<StartAt>]) -> Result<Vec<u32>, NoMemory>
    ensures { IfOk result (λ numbers. numbers.items ≡ start_nodes (map (λ v. v.items) starts.now)) }
{
    let mut numbers = Vec::new(alloc);
    for row in starts {
        add_numbers(row, &mut numbers)?;
    }
    Ok(numbers)
}

/// Puts the numbers of the nodes that static fields come to last.
fn add_targets(jumps: &[Jump], numbers: &mut Vec<u32>) -> Result<(), NoMemory>
    ensures { OnOk result (numbers.new.items ≡ numbers.old.items ++ map (λ j. j.to.node) jumps.now) }
{
    for jump in jumps {
        numbers.push(jump.to.node)?;
    }
    Ok(())
}

/// The numbers of the start nodes of all sites, and of the nodes that static fields come to.
fn open_numbers(
    alloc: Global,
    starts: &[Vec<StartAt>],
    jumps: &[Jump],
) -> Result<Vec<u32>, NoMemory>
    ensures { IfOk result (λ numbers. numbers.items ≡ open_nodes (map (λ v. v.items) starts.now) jumps.now) }
{
    let mut numbers = start_numbers(alloc, starts)?;
    add_targets(jumps, &mut numbers)?;
    Ok(numbers)
}

/// The cells of nodes in field systems, and what these have in common.
#[derive(Drop)]
struct FieldSide {
    cells: Vec<u32>,
    common: Arc<Common<Reach>>,
}

/// What field systems over these rules have in common. The rules are between nodes; rules and starts that a system has of its own lead to nodes that are
/// kept. Rules that are marked are left out where they follow from the rest.
fn contracted(
    alloc: Global,
    count: u32,
    rules: &[Rule<Reach>],
    over: &[bool],
    kept: &[u32],
) -> Result<FieldSide, NoMemory>
    requires ones { (r : ARule AReach) → Has rules.now r → weight_of r ≡ reach_domain.one }
    ensures cells { IfOk result (λ side. HaveCells reach_domain rules.now kept.now side.cells.items side.common.value.rules) }
    ensures steps { IfOk result (λ side. side.common.value.steps ≡ []) }
    ensures last { IfOk result (λ side. side.common.value.last ≡ 0) }
{
    let CellRules {
        cells,
        rules: between,
    } = thin_cell_rules(alloc, count, rules, over, kept)?;
    let common = Common::new(alloc, between, Vec::new(alloc), 0)?;
    let common = Arc::new(alloc, common)?;
    Ok(FieldSide { cells, common })
}

/// What the field systems have in common.
fn common_fields(
    alloc: Global,
    demand: &Demand,
    starts: &[Vec<StartAt>],
) -> Result<FieldSide, NoMemory>
    ensures cells { IfOk result (λ side. (edges : List AnEdge) × AreEdgesAt demand.now.nodes demand.now.edges edges
        × HaveCells reach_domain (map field_rule_of edges) (start_nodes (map (λ v. v.items) starts.now)) side.cells.items side.common.value.rules) }
    ensures steps { IfOk result (λ side. side.common.value.steps ≡ []) }
    ensures last { IfOk result (λ side. side.common.value.last ≡ 0) }
{
    let count = count_of(demand.nodes().len())?;
    let rules = field_rules(alloc, demand.numbered())?;
    let over = over_calls(alloc, count, demand.numbered())?;
    let kept = start_numbers(alloc, starts)?;
    contracted(alloc, count, &rules, &over, &kept)
}

/// The cells of nodes in call systems, and what these have in common.
#[derive(Drop)]
struct CallSide {
    cells: Vec<u32>,
    common: Arc<CallCommon>,
}

/// What call systems over these rules have in common. The rules are between nodes; starts lead to nodes that are kept.
fn contracted_calls(
    alloc: Global,
    count: u32,
    rules: &[Rule<Reach>],
    kept: &[u32],
    strings: &CallBases,
) -> Result<CallSide, NoMemory>
    requires ones { (r : ARule AReach) → Has rules.now r → weight_of r ≡ reach_domain.one }
    requires led { IsLed {W = AReach} [] strings.now.steps strings.now.last }
    ensures cells { IfOk result (λ side. HaveCells reach_domain rules.now kept.now side.cells.items side.common.value.rules) }
    ensures steps { IfOk result (λ side. side.common.value.steps ≡ strings.now.steps) }
    ensures last { IfOk result (λ side. side.common.value.last ≡ strings.now.last) }
{
    let CellRules {
        cells,
        rules: between,
    } = cell_rules(alloc, count, rules, kept)?;
    let common = CallCommon::new(alloc, between, strings)?;
    let common = Arc::new(alloc, common)?;
    Ok(CallSide { cells, common })
}

/// What the call systems have in common.
fn common_calls(
    alloc: Global,
    demand: &Demand,
    calls: &Calls,
    starts: &[Vec<StartAt>],
    jumps: &[Jump],
    strings: &CallBases,
) -> Result<CallSide, NoMemory>
    requires { IsLed {W = AReach} [] strings.now.steps strings.now.last }
    ensures cells { IfOk result (λ side. (edges : List AnEdge) × (rules : List (ARule AReach)) × AreEdgesAt demand.now.nodes demand.now.edges edges
        × AreGathered (IsCallRuleOf calls.now) edges rules
        × HaveCells reach_domain rules (open_nodes (map (λ v. v.items) starts.now) jumps.now) side.cells.items side.common.value.rules) }
    ensures steps { IfOk result (λ side. side.common.value.steps ≡ strings.now.steps) }
    ensures last { IfOk result (λ side. side.common.value.last ≡ strings.now.last) }
{
    let count = count_of(demand.nodes().len())?;
    let rules = call_rules(alloc, calls, demand.numbered())?;
    let kept = open_numbers(alloc, starts, jumps)?;
    contracted_calls(alloc, count, &rules, &kept, strings)
}

/// A store by the numbers of its nodes.
fn store_nodes(demand: &Demand, store: StoreAt) -> StoreNodes
    requires base { Has demand.now.nodes store.base }
    requires arg { Has demand.now.nodes store.arg }
    ensures { IsStoreOf demand.now.nodes store result }
{
    StoreNodes {
        base: number_in(demand, store.base),
        arg: number_in(demand, store.arg),
        field: store.field,
    }
}

/// The stores by the numbers of their nodes.
fn all_stores(alloc: Global, demand: &Demand) -> Result<Vec<StoreNodes>, NoMemory>
    requires bases { (s : AStore) → Has demand.now.stores s → Has demand.now.nodes s.base }
    requires args { (s : AStore) → Has demand.now.stores s → Has demand.now.nodes s.arg }
    ensures { IfOk result (λ stores. Each (IsStoreOf demand.now.nodes) demand.now.stores stores.items) }
{
    let mut stores = Vec::new(alloc);
    for store in demand.stores() {
        stores.push(store_nodes(demand, *store))?;
    }
    Ok(stores)
}

impl Parts {
    /// The parts of the demand of a query. Want of memory is the only refusal.
    pub fn new(alloc: Global, linked: &Linked, demand: &Demand) -> Result<Self, NoMemory>
        requires well { IsWellLinked linked.now }
        requires demanded { (q : Asked) × IsDemandOf linked.now q demand.now }
        ensures are { IfOk result (λ parts. (q : Asked) → IsDemandOf linked.now q demand.now → ArePartsOf linked.now q demand.now parts) }
        ensures led { IfOk result (λ parts. AreLedIn parts) }
    {
        let places = Calls::new(alloc, linked)?;
        let steps = bases(alloc, linked, &places)?;
        let strings = CallBases::new(alloc, steps, linked.root())?;
        let starts = all_starts(alloc, linked, demand, count_of(demand.sites().len())?)?;
        let jumps = jumps(alloc, demand.nodes(), demand.numbered())?;
        let fields = common_fields(alloc, demand, &starts)?;
        let calls = common_calls(alloc, demand, &places, &starts, &jumps, &strings)?;
        Ok(Parts {
            fields: fields.common,
            field_cells: fields.cells,
            calls: calls.common,
            call_cells: calls.cells,
            bases: strings,
            places,
            jumps,
            starts,
            stores: all_stores(alloc, demand)?,
        })
    }
}
