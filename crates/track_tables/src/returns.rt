//! Edges back from calls.
ghost use Rattle.std.specs.Prelude.{◌≡◌, ◌↔◌, ◌⊎◌, ℕ, [], Some, IfOk, OnOk};
ghost use Rattle.lists.specs.Lists.{Has};
ghost use Rattle.track_tables.specs.declared.returns.Return.{Return as AReturn};
ghost use Rattle.track_tables.specs.Returns.{AreReturns, AreReturnsFiled, IsReturnOf, IsReturnOver};

use call_side::Calls;
use demand_set::EdgeAt;
use lists::{ByKey, NoMemory};
use post_star::key::Key;
use spds_rules::EdgeKind;
use std::alloc::Global;
use std::marker::Model;

/// An edge back from a call, and the mark of the call.
#[derive(Clone, Copy, Debug, PartialEq, Eq)]
pub struct Return {
    pub edge: EdgeAt,
    pub mark: u32,
}

/// Edges back from calls, by the numbers of their sources, by their marks, and by both. Contracts see the list of them.
#[derive(Drop)]
pub struct Returns {
    all: Vec<Return>,
    by_source: ByKey<Key, Return>,
    by_mark: ByKey<Key, Return>,
    by_both: ByKey<Key, Return>,
}

impl Model for Returns {
    ghost use Rattle.std.specs.Prelude.{List};
    ghost use Rattle.track_tables.specs.declared.returns.Return.{Return};

    ghost Value = { List Return };

    ghost use Rattle.track_tables.specs.Returns.{AreReturnsFiled};

    ghost view = { λ r. r.all.items };

    ghost invariant = { λ r. AreReturnsFiled r.all.items r.by_source r.by_mark r.by_both };
}

/// The mark of the call that the edge comes back from, if it does from one.
fn mark_of(calls: &Calls, edge: EdgeAt) -> Option<u32>
    ensures { (mark : ℕ) → (result ≡ Some mark) ↔ IsReturnOver calls.now edge.kind mark }
{
    match edge.kind {
        EdgeKind::Return(call) => calls.mark_of(call),
        EdgeKind::Flow | EdgeKind::Call(_) | EdgeKind::Load(_) | EdgeKind::Jump => None,
    }
}

/// Puts the edge in with its mark, if it comes back from a call.
fn add_return(calls: &Calls, edge: EdgeAt, all: &mut Vec<Return>) -> Result<(), NoMemory>
    ensures { OnOk result ((r : AReturn) → Has all.new.items r ↔ (Has all.old.items r ⊎ IsReturnOf calls.now edge r)) }
{
    if let Some(mark) = mark_of(calls, edge) {
        all.push(Return { edge, mark })?;
    }
    Ok(())
}

/// The edges that come back from calls, with their marks.
fn returns_among(alloc: Global, calls: &Calls, edges: &[EdgeAt]) -> Result<Vec<Return>, NoMemory>
    ensures { IfOk result (λ all. AreReturns calls.now edges.now all.items) }
{
    let mut all = Vec::new(alloc);
    for edge in edges {
        add_return(calls, *edge, &mut all)?;
    }
    Ok(all)
}

/// Files the edges under all three keys.
fn file(
    returns: &[Return],
    by_source: &mut ByKey<Key, Return>,
    by_mark: &mut ByKey<Key, Return>,
    by_both: &mut ByKey<Key, Return>,
) -> Result<(), NoMemory>
    requires { AreReturnsFiled [] by_source.old by_mark.old by_both.old }
    ensures { OnOk result (AreReturnsFiled returns.now by_source.new by_mark.new by_both.new) }
{
    for back in returns {
        let (node, mark) = (back.edge.from, back.mark);
        by_source.add(Key::Node(node), *back)?;
        by_mark.add(Key::Mark(mark), *back)?;
        by_both.add(Key::Marked { node, mark }, *back)?;
    }
    Ok(())
}

impl Returns {
    /// Those of these edges that come back from calls.
    pub fn of(alloc: Global, calls: &Calls, edges: &[EdgeAt]) -> Result<Self, NoMemory>
        ensures { IfOk result (AreReturns calls.now edges.now) }
    {
        let all = returns_among(alloc, calls, edges)?;
        let mut by_source = ByKey::new(alloc);
        let mut by_mark = ByKey::new(alloc);
        let mut by_both = ByKey::new(alloc);
        file(&all, &mut by_source, &mut by_mark, &mut by_both)?;
        Ok(Returns {
            all,
            by_source,
            by_mark,
            by_both,
        })
    }

    /// Those from the node with the number.
    pub fn from_node(&self, node: u32) -> &[Return]
        ensures { (r : AReturn) → Has result.now r ↔ (Has self.now r × (r.edge.from ≡ node)) }
    {
        self.by_source.at(Key::Node(node))
    }

    /// Those over the call with the mark.
    pub fn over(&self, mark: u32) -> &[Return]
        ensures { (r : AReturn) → Has result.now r ↔ (Has self.now r × (r.mark ≡ mark)) }
    {
        self.by_mark.at(Key::Mark(mark))
    }

    /// Those from the node over the call.
    pub fn crossing(&self, node: u32, mark: u32) -> &[Return]
        ensures { (r : AReturn) → Has result.now r ↔ (Has self.now r × (r.edge.from ≡ node) × (r.mark ≡ mark)) }
    {
        self.by_both.at(Key::Marked { node, mark })
    }
}
