//! What a path asks for: its node, and both ends of each store of its fields.
ghost use Rattle.std.specs.Prelude.{◌≡◌, ◌≢◌, ◌↔◌, ◌≤◌, ◌⊎◌, ℕ, Err, IfOk, IsErr, OnOk, length};
ghost use Rattle.lists.specs.Lists.{Has};
ghost use Rattle.spds_rules.specs.declared.node.Node.{Node as ANode};
ghost use Rattle.spds_rules.specs.declared.reach.Reach.TheVariants.{Plain};
ghost use Rattle.spds_rules.specs.Demand.{Asked};
ghost use Rattle.spds_rules.specs.Nodes.{IsNode};
ghost use Rattle.demand_set.specs.Demands.{IsDemandOf};
ghost use Rattle.path_query.specs.Paths.{AsksPath, IsEndOf, IsPathAffordable, IsPathOver};

use demand_set::{Demand, DemandError, Reach};
use link_program::Linked;
use lists::NoMemory;
use program_demand::demand;
use spds_nodes::stores_of;
use spds_rules::Node;
use std::alloc::Global;

// Adds both ends of each store of the field.
fn push_ends(
    alloc: Global,
    targets: &mut Vec<Node>,
    linked: &Linked,
    field: u32,
) -> Result<(), NoMemory>
    ensures { OnOk result ((m : ANode) → Has targets.new.items m ↔ (Has targets.old.items m ⊎ IsEndOf linked.now field m)) }
{
    let stores = stores_of(alloc, linked, field)?;
    for store in stores.as_slice() {
        targets.push(store.base)?;
        targets.push(store.arg)?;
    }
    Ok(())
}

// The node, and both ends of each store of each of the fields.
fn path_targets(
    alloc: Global,
    linked: &Linked,
    node: Node,
    fields: &[u32],
) -> Result<Vec<Node>, NoMemory>
    ensures { IfOk result (λ targets. AsksPath linked.now node fields.now (record { targets = targets.items; reach = Plain })) }
{
    let mut targets = Vec::new(alloc);
    targets.push(node)?;
    for field in fields {
        push_ends(alloc, &mut targets, linked, *field)?;
    }
    Ok(targets)
}

/// The demand of a path from the node. The error is `OverBudget` exactly where more nodes are demanded than `budget`, and else `NoMemory`.
pub(crate) fn path_demand(
    alloc: Global,
    linked: &Linked,
    node: Node,
    fields: &[u32],
    budget: u32,
) -> Result<Demand, DemandError>
    requires { IsNode linked.now node }
    ensures demanded { IfOk result (λ d. (q : Asked) × AsksPath linked.now node fields.now q × IsDemandOf linked.now q d) }
    ensures within { IfOk result (λ d. length d.nodes ≤ budget) }
    ensures over { (spent : ℕ) → result ≡ Err (DemandError.OverBudget spent) → (spent ≡ budget) × IsPathOver linked.now node fields.now budget }
    ensures beyond { IsPathOver linked.now node fields.now budget → IsErr result }
    ensures enough { (spent : ℕ) → IsPathAffordable linked.now node fields.now budget → result ≢ Err (DemandError.OverBudget spent) }
{
    linked.tell_form();
    let targets = path_targets(alloc, linked, node, fields)?;
    demand(alloc, linked, targets.as_slice(), Reach::Plain, budget)
}
