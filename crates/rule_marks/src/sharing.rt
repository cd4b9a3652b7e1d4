//! The joined system of nodes that share rules.
ghost use Rattle.std.specs.Prelude.{◌≡◌, ◌⊎◌, ◌*◌, ◌<◌, ◌^◌, ◌↔◌, ℕ, IsTrue, true, false, length, slice_index_or, IfOk, OnOk};
ghost use Rattle.auto_table.specs.declared.rule.Rule.{Rule as ARule};
ghost use Rattle.lists.specs.Lists.{Has};
ghost use Rattle.rule_marks.specs.Joined.{source as source_in};
ghost use Rattle.rule_marks.specs.Sharing.{IsAdded, IsAddedIf, IsOfJoined, JoinsOne, SharedRulesAreJoined, at_node as rule_at, leader_in};

use super::making::{flag, put, unflagged};
use auto_table::Rule;
use lists::NoMemory;
use std::alloc::Global;
use weight_laws::Weight;

/// The node from which a rule leads.
fn source<W: Weight>(rule: &Rule<W>) -> u32
    ensures { result ≡ source_in rule.now }
{
    match *rule {
        Rule::Flow { from, .. } | Rule::Push { from, .. } | Rule::Pop { from, .. } => from,
    }
}

/// The rule from another node.
fn at_node<W: Weight>(node: u32, rule: &Rule<W>) -> Rule<W>
    ensures { result ≡ rule_at node rule.now }
{
    match *rule {
        Rule::Flow { to, weight, .. } => Rule::Flow {
            from: node,
            to,
            weight,
        },
        Rule::Push {
            to,
            mark,
            weight,
            ..
        } => Rule::Push {
            from: node,
            to,
            mark,
            weight,
        },
        Rule::Pop {
            mark,
            to,
            weight,
            ..
        } => Rule::Pop {
            from: node,
            mark,
            to,
            weight,
        },
    }
}

/// Puts a rule the first time for a node.
fn put_once<W: Weight>(
    rules: &mut Vec<Rule<W>>,
    flags: &mut [bool],
    node: u32,
    rule: Rule<W>,
) -> Result<(), NoMemory>
    ensures rules { OnOk result ((slice_index_or flags.old node false ≡ true → Has rules.old.items rule) → IsAdded rules.old.items rule rules.new.items) }
    ensures flags { (n : ℕ) → slice_index_or flags.new n false ≡ true → (slice_index_or flags.old n false ≡ true) ⊎ (n ≡ node) }
{
    let first = flag(flags, node);
    if first { put(rules, rule) } else { Ok(()) }
}

/// Puts a rule where the test says so.
fn put_if<W: Weight>(rules: &mut Vec<Rule<W>>, test: bool, rule: Rule<W>) -> Result<(), NoMemory>
    ensures { OnOk result (IsAddedIf test rules.old.items rule rules.new.items) }
{
    if test { put(rules, rule) } else { Ok(()) }
}

/// The leader of a node; a node that the list doesn't have leads itself.
fn leader_of(leaders: &[u32], node: u32) -> u32
    ensures { result ≡ leader_in leaders.now node }
{
    match leaders.get(node as usize) {
        Some(leader) => *leader,
        None => node,
    }
}

/// Whether two numbers are the same.
fn is_same(node: u32, other: u32) -> bool
    ensures { IsTrue result ↔ (node ≡ other) }
{
    node == other
}

/// Joins a shared rule: its node flows to the joining node of its leader and, where the node leads itself, the rule leads from there.
fn join_one<W: Weight>(
    leaders: &[u32],
    made: &mut Vec<Rule<W>>,
    flags: &mut [bool],
    rule: &Rule<W>,
) -> Result<(), NoMemory>
    requires fits { 2 * length leaders.now < 2 ^ 32 }
    requires below { source_in rule.now < length leaders.now }
    requires leaders { leader_in leaders.now (source_in rule.now) < length leaders.now }
    ensures { OnOk result (JoinsOne W.domain (length leaders.now) (leader_in leaders.now) rule.now made.old.items flags.old made.new.items flags.new) }
{
    let from = source(rule);
    let leader = leader_of(leaders, from);
    let count = leaders.len() as u32;
    let to = count + leader;
    let flow = Rule::Flow {
        from,
        to,
        weight: W::one(),
    };
    put_once(made, flags, from, flow)?;
    let leads = is_same(leader, from);
    let back = count + from;
    let own = at_node(back, rule);
    put_if(made, leads, own)
}

/// Joins the shared rules, one by one.
fn join_all<W: Weight>(
    leaders: &[u32],
    made: &mut Vec<Rule<W>>,
    flags: &mut [bool],
    shared: &[Rule<W>],
) -> Result<(), NoMemory>
    requires fits { 2 * length leaders.now < 2 ^ 32 }
    requires below { (q : ARule W) → Has shared.now q → source_in q < length leaders.now }
    requires leaders { (q : ARule W) → Has shared.now q → leader_in leaders.now (source_in q) < length leaders.now }
    requires flags { (n : ℕ) → slice_index_or flags.old n false ≡ false }
    ensures { OnOk result ((r : ARule W) → Has made.new.items r ↔ IsOfJoined W.domain (length leaders.now) (leader_in leaders.now) made.old.items shared.now r) }
{
    for i in 0..shared.len() {
        join_one(leaders, made, flags, &shared[i])?;
    }
    Ok(())
}

/// Where each node has a leader, and the rules are shared by the nodes that have one: the joined system of the others and the shared rules. Its joining nodes
/// stand behind so many nodes, one for each leader. Want of memory is the only refusal.
pub fn join<W: Weight>(
    alloc: Global,
    leaders: &[u32],
    others: &[Rule<W>],
    shared: &[Rule<W>],
) -> Result<Vec<Rule<W>>, NoMemory>
    requires fits { 2 * length leaders.now < 2 ^ 32 }
    requires below { (q : ARule W) → Has shared.now q → source_in q < length leaders.now }
    requires leaders { (q : ARule W) → Has shared.now q → leader_in leaders.now (source_in q) < length leaders.now }
    ensures { IfOk result (λ joined. (r : ARule W) → Has joined.items r ↔ IsOfJoined W.domain (length leaders.now) (leader_in leaders.now) others.now shared.now r) }
{
    let mut flags = unflagged(alloc, leaders.len())?;
    let mut made = Vec::from_slice(alloc, others)?;
    join_all(leaders, &mut made, &mut flags, shared)?;
    Ok(made)
}

/// A system of which what is made so is the joined system.
pub fn shared_rules_are_joined<W: Weight>()
    ensures { SharedRulesAreJoined W.domain }
{}
