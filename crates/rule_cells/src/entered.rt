//! How rules lead to nodes.
ghost use Rattle.std.specs.Prelude.{◌≡◌, ◌↔◌, ◌++◌, ◌∷◌, [], ◌<◌, List, ℕ, IsTrue, IfOk};
ghost use Rattle.auto_table.specs.declared.rule.Rule.{Rule as ARule};
ghost use Rattle.auto_table.specs.declared.rule.Rule.TheVariants.{Flow as AFlow};
ghost use Rattle.post_star.specs.Measures.{to_of};
ghost use Rattle.rule_cells.specs.declared.entered.Entered.TheVariants.{Never as NotEntered};
ghost use Rattle.rule_cells.specs.Entered.{AreEntered, IsEntered};

use auto_table::Rule;
use lists::NoMemory;
use std::alloc::Global;
use weight_laws::Weight;

/// How rules lead to a node.
#[derive(Clone, Copy, Debug, PartialEq, Eq)]
pub enum Entered<W> {
    /// None does, and the node isn't kept.
    Never,
    /// One flow alone does, from this node, and the node isn't kept.
    Once { from: u32, weight: W },
    /// They may do otherwise.
    Otherwise,
}

/// The node to which a rule leads.
pub fn target<W: Weight>(rule: &Rule<W>) -> u32
    ensures { result ≡ to_of rule.now }
{
    match *rule {
        Rule::Flow { to, .. } | Rule::Push { to, .. } | Rule::Pop { to, .. } => to,
    }
}

/// Whether a rule is the flow from the node with the weight.
fn is_flow<W: Weight>(rule: &Rule<W>, from: u32, weight: W) -> bool
    ensures { IsTrue result ↔ (rule.now ≡ AFlow from (to_of rule.now) weight) }
{
    match *rule {
        Rule::Flow {
            from: other,
            weight: its,
            ..
        } => {
            weight.told();
            its.told();
            other == from && its.leq(weight) && weight.leq(its)
        }
        Rule::Push { .. } | Rule::Pop { .. } => false,
    }
}

/// How the first rule leads to a node among so many.
fn first<W: Weight>(count: usize, rule: &Rule<W>) -> Entered<W>
    ensures { (rules : List (ARule W)) (kept : List ℕ) → IsEntered count rules kept (to_of rule.now) (NotEntered) → IsEntered count (rules ++ rule.now ∷ []) kept (to_of rule.now) result }
{
    match *rule {
        Rule::Flow { from, weight, .. } => {
            if (from as usize) < count {
                Entered::Once { from, weight }
            } else {
                Entered::Otherwise
            }
        }
        Rule::Push { .. } => Entered::Otherwise,
        Rule::Pop { .. } => Entered::Otherwise,
    }
}

/// How one rule more leads to a node among so many.
fn with<W: Weight>(count: usize, before: Entered<W>, rule: &Rule<W>) -> Entered<W>
    ensures { (rules : List (ARule W)) (kept : List ℕ) → IsEntered count rules kept (to_of rule.now) before → IsEntered count (rules ++ rule.now ∷ []) kept (to_of rule.now) result }
{
    match before {
        Entered::Never => first(count, rule),
        Entered::Once { from, weight } => {
            if is_flow(rule, from, weight) {
                Entered::Once { from, weight }
            } else {
                Entered::Otherwise
            }
        }
        Entered::Otherwise => Entered::Otherwise,
    }
}

/// Lets one rule more lead to its target.
fn enter<W: Weight>(entries: &mut [Entered<W>], rule: &Rule<W>)
    ensures { (count : ℕ) (rules : List (ARule W)) (kept : List ℕ) → AreEntered count rules kept entries.old → AreEntered count (rules ++ rule.now ∷ []) kept entries.new }
{
    let to = target(rule) as usize;
    if to < entries.len() {
        entries[to] = with(entries.len(), entries[to], rule);
    }
}

/// Keeps a node.
fn keep<W: Weight>(entries: &mut [Entered<W>], node: u32)
    ensures { (count : ℕ) (kept : List ℕ) → AreEntered {W = W} count [] kept entries.old → AreEntered {W = W} count [] (kept ++ node ∷ []) entries.new }
{
    let at = node as usize;
    if at < entries.len() {
        entries[at] = Entered::Otherwise;
    }
}

/// No rule leads to any of so many nodes.
fn none_entered<W: Weight>(alloc: Global, count: u32) -> Result<Vec<Entered<W>>, NoMemory>
    ensures { IfOk result (λ entries. AreEntered {W = W} count [] [] entries.items) }
{
    let mut entries = Vec::with_capacity(alloc, count as usize)?;
    for _ in 0..count {
        entries.push(Entered::Never)?;
    }
    Ok(entries)
}

/// Keeps the nodes.
fn keep_all<W: Weight>(entries: &mut [Entered<W>], kept: &[u32])
    ensures { (count : ℕ) → AreEntered {W = W} count [] [] entries.old → AreEntered {W = W} count [] kept.now entries.new }
{
    for i in 0..kept.len() {
        keep(entries, kept[i]);
    }
}

/// Lets the rules lead to their targets.
fn enter_all<W: Weight>(entries: &mut [Entered<W>], rules: &[Rule<W>])
    ensures { (count : ℕ) (kept : List ℕ) → AreEntered {W = W} count [] kept entries.old → AreEntered count rules.now kept entries.new }
{
    for i in 0..rules.len() {
        enter(entries, &rules[i]);
    }
}

/// How the rules lead to so many nodes, of which some are kept. Want of memory is the only refusal.
pub fn entries_of<W: Weight>(
    alloc: Global,
    count: u32,
    rules: &[Rule<W>],
    kept: &[u32],
) -> Result<Vec<Entered<W>>, NoMemory>
    ensures { IfOk result (λ entries. AreEntered count rules.now kept.now entries.items) }
{
    let mut entries = none_entered(alloc, count)?;
    keep_all(&mut entries, kept);
    enter_all(&mut entries, rules);
    Ok(entries)
}
