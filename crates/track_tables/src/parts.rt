//! What the systems of all sites share.
ghost use Rattle.std.specs.Prelude.{◌≡◌, ◌↔◌, ◌⊎◌, ℕ, [], IfOk, IsTrue, OnOk};
ghost use Rattle.call_side.specs.Bases.{AreLed, AreStrings, IsLast};
ghost use Rattle.call_side.specs.Calls.{AreTheCalls};
ghost use Rattle.call_side.specs.Indexed.{IsFiledBy, base_key};
ghost use Rattle.demand_set.specs.declared.numbered.EdgeAt.{EdgeAt as AnEdge};
ghost use Rattle.lists.specs.Lists.{Has};
ghost use Rattle.link_rules.specs.WellLinked.{IsWellLinked};
ghost use Rattle.post_star.specs.declared.key.Key.TheVariants as key;
ghost use Rattle.post_star.specs.declared.bases.BaseStep.{BaseStep as AStep};
ghost use Rattle.post_star.specs.Groups.{found_at};
ghost use Rattle.track_systems.specs.Track.{IsLoaded};
ghost use Rattle.track_tables.specs.Returns.{AreReturns};
ghost use Rattle.track_tables.specs.Making.{AreLoaded, AreOnward, AreTrackParts, IsOnward, IsOnwardFrom};

use super::returns::Returns;
use call_side::{Calls, bases};
use demand_set::{Demand, EdgeAt};
use indexmap::IndexSet;
use link_program::Linked;
use lists::{ByKey, NoMemory};
use post_star::key::Key;
use post_star::{BaseStep, Common};
use spds_rules::EdgeKind;
use std::alloc::Global;
use std::sync::Arc;
use weight_laws::Rel;

/// What the systems of all sites of a demand share: their calls and call strings, the edges by what they are looked for by, and the nodes to which objects
/// come out of the heap or of static fields.
#[derive(Drop)]
pub struct TrackParts {
    /// The calls that marks stand for.
    calls: Calls,
    /// The call strings of methods, and no rules.
    strings: Arc<Common<Rel>>,
    /// The steps of these strings, by their bases.
    steps: ByKey<Key, BaseStep>,
    /// The edges that don't come back from calls, by the numbers of their sources.
    onward: ByKey<Key, EdgeAt>,
    /// Those that do.
    returns: Returns,
    /// The numbers of the nodes that edges load, and of those that static fields come to.
    loaded: IndexSet<u32>,
}

/// Whether an object comes out of the heap or of a static field along an edge of this kind.
fn is_loaded(kind: EdgeKind) -> bool
    ensures { IsTrue result ↔ IsLoaded kind }
{
    match kind {
        EdgeKind::Load(_) | EdgeKind::Jump => true,
        EdgeKind::Flow | EdgeKind::Call(_) | EdgeKind::Return(_) => false,
    }
}

/// Whether an edge of this kind doesn't come back from a call.
fn is_onward(kind: EdgeKind) -> bool
    ensures { IsTrue result ↔ IsOnward kind }
{
    match kind {
        EdgeKind::Return(_) => false,
        EdgeKind::Flow | EdgeKind::Call(_) | EdgeKind::Load(_) | EdgeKind::Jump => true,
    }
}

/// Files the edge under its source, if it doesn't come back from a call.
fn add_onward(edge: EdgeAt, onward: &mut ByKey<Key, EdgeAt>) -> Result<(), NoMemory>
    ensures { OnOk result ((number : ℕ) (e : AnEdge) → Has (found_at onward.new (key.Node number)) e
        ↔ (Has (found_at onward.old (key.Node number)) e ⊎ IsOnwardFrom number edge e)) }
{
    if is_onward(edge.kind) {
        onward.add(Key::Node(edge.from), edge)?;
    }
    Ok(())
}

/// The edges that don't come back from calls, by their sources.
fn all_onward(alloc: Global, edges: &[EdgeAt]) -> Result<ByKey<Key, EdgeAt>, NoMemory>
    ensures { IfOk result (AreOnward edges.now) }
{
    let mut onward = ByKey::new(alloc);
    for edge in edges {
        add_onward(*edge, &mut onward)?;
    }
    Ok(onward)
}

/// The base steps by their bases.
fn by_base(alloc: Global, steps: &[BaseStep]) -> Result<ByKey<Key, BaseStep>, NoMemory>
    ensures { IfOk result (IsFiledBy base_key steps.now) }
{
    let mut filed = ByKey::new(alloc);
    for step in steps {
        filed.add(Key::Node(step.base), *step)?;
    }
    Ok(filed)
}

/// Puts the target of the edge in, if objects come there out of the heap or of a static field.
fn add_loaded(edge: EdgeAt, loaded: &mut IndexSet<u32>) -> Result<(), NoMemory>
    ensures { OnOk result ((number : ℕ) → Has loaded.new.keys number ↔ (Has loaded.old.keys number ⊎ (IsLoaded edge.kind × (edge.to ≡ number)))) }
{
    if is_loaded(edge.kind) {
        loaded.insert(edge.to)?;
    }
    Ok(())
}

/// The numbers of the nodes to which objects come out of the heap or of static fields.
fn all_loaded(alloc: Global, edges: &[EdgeAt]) -> Result<IndexSet<u32>, NoMemory>
    ensures { IfOk result (λ loaded. AreLoaded edges.now loaded.keys) }
{
    let mut loaded = IndexSet::new(alloc);
    for edge in edges {
        add_loaded(*edge, &mut loaded)?;
    }
    Ok(loaded)
}

// Call strings, and their steps by base.
#[derive(Drop)]
struct Strings {
    common: Arc<Common<Rel>>,
    steps: ByKey<Key, BaseStep>,
}

/// The call strings of methods, and no rules.
fn strings_of(alloc: Global, linked: &Linked, calls: &Calls) -> Result<Strings, NoMemory>
    requires well { IsWellLinked linked.now }
    requires calls { AreTheCalls linked.now calls.now }
    ensures none { IfOk result (λ s. s.common.value.rules ≡ []) }
    ensures strings { IfOk result (λ s. AreStrings linked.now calls.now s.common.value.steps) }
    ensures last { IfOk result (λ s. IsLast linked.now s.common.value.last) }
    ensures led { IfOk result (λ s. AreLed linked.now s.common.value.steps) }
    ensures steps { IfOk result (λ s. IsFiledBy base_key s.common.value.steps s.steps) }
{
    let all = bases(alloc, linked, calls)?;
    let steps = by_base(alloc, &all)?;
    let common = Common::new(alloc, Vec::new(alloc), all, linked.root())?;
    Ok(Strings {
        common: Arc::new(alloc, common)?,
        steps,
    })
}

// Edges by what they are looked for by.
#[derive(Drop)]
struct Edges {
    onward: ByKey<Key, EdgeAt>,
    returns: Returns,
    loaded: IndexSet<u32>,
}

/// The edges by what they are looked for by.
fn edges_of(alloc: Global, calls: &Calls, edges: &[EdgeAt]) -> Result<Edges, NoMemory>
    ensures onward { IfOk result (λ e. AreOnward edges.now e.onward) }
    ensures returns { IfOk result (λ e. AreReturns calls.now edges.now e.returns) }
    ensures loaded { IfOk result (λ e. AreLoaded edges.now e.loaded.keys) }
{
    let onward = all_onward(alloc, edges)?;
    let returns = Returns::of(alloc, calls, edges)?;
    let loaded = all_loaded(alloc, edges)?;
    Ok(Edges {
        onward,
        returns,
        loaded,
    })
}

impl TrackParts {
    /// What the systems of the sites of this demand share. Want of memory is the only refusal.
    pub fn new(alloc: Global, linked: &Linked, demand: &Demand) -> Result<Self, NoMemory>
        requires { IsWellLinked linked.now }
        ensures { IfOk result (λ parts. AreTrackParts linked.now demand.now parts) }
    {
        let calls = Calls::new(alloc, linked)?;
        let strings = strings_of(alloc, linked, &calls)?;
        let edges = edges_of(alloc, &calls, demand.numbered())?;
        Ok(TrackParts {
            calls,
            strings: strings.common,
            steps: strings.steps,
            onward: edges.onward,
            returns: edges.returns,
            loaded: edges.loaded,
        })
    }

    /// The calls that marks stand for.
    pub fn calls(&self) -> &Calls
        ensures { result.now ≡ self.now.calls }
    {
        &self.calls
    }

    /// The call strings of methods, and no rules.
    pub fn strings(&self) -> &Arc<Common<Rel>>
        ensures { result.now.value ≡ self.now.strings.value }
    {
        &self.strings
    }

    /// The base steps from the base.
    pub fn steps_from(&self, base: u32) -> &[BaseStep]
        ensures { result.now ≡ found_at self.now.steps (key.Node base) }
    {
        self.steps.at(Key::Node(base))
    }

    /// The edges from the node with the number that don't come back from calls.
    pub fn onward(&self, node: u32) -> &[EdgeAt]
        ensures { result.now ≡ found_at self.now.onward (key.Node node) }
    {
        self.onward.at(Key::Node(node))
    }

    /// The edges back from calls.
    pub fn returns(&self) -> &Returns
        ensures { result.now ≡ self.now.returns }
    {
        &self.returns
    }

    /// The numbers of the nodes to which objects come out of the heap or of static fields.
    pub fn loaded(&self) -> &[u32]
        ensures { result.now ≡ self.now.loaded.keys }
    {
        self.loaded.as_slice()
    }
}
