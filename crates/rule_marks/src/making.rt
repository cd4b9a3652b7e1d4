//! The system with split marks, by lists of numbers.
ghost use Rattle.std.specs.Prelude.{◌≡◌, ◌⊎◌, ◌*◌, ◌+◌, ◌<◌, ◌^◌, ◌++◌, ◌∷◌, [], ℕ, true, false, slice_index_or, IfOk, OnOk};
ghost use Rattle.auto_table.specs.declared.rule.Rule.TheVariants.{Push, Pop};
ghost use Rattle.lists.specs.Lists.{Has};
ghost use Rattle.post_star.specs.declared.bases.BaseStep.{BaseStep as AStep};
ghost use Rattle.rule_marks.specs.Joined.{source, target};
ghost use Rattle.rule_marks.specs.Making.{AreAdded, AreSplitRules, AreStepsOf, WritesOne, WritesStep, splits_by, splitting_of};
ghost use Rattle.rule_marks.specs.Sharing.{AreBelow};

use auto_table::Rule;
use lists::NoMemory;
use post_star::BaseStep;
use std::alloc::Global;
use weight_laws::Weight;

/// Which marks are split, by number, and the common mark. So many nodes and bases are of the system itself: the entry of a node stands behind so many nodes,
/// its exit behind twice as many, and the base below another behind so many bases. The common mark is split too, and no other that the list doesn't have.
#[derive(Clone, Copy)]
pub struct Marks<'a> {
    pub are_split: &'a [bool],
    pub common: u32,
    pub nodes: u32,
    pub bases: u32,
}

impl Marks<'_> {
    /// Whether a mark is split.
    fn splits(&self, mark: u32) -> bool
        ensures { result ≡ splits_by self.now.are_split.now self.now.common mark }
    {
        if mark == self.common {
            return true;
        }
        match self.are_split.get(mark as usize) {
            Some(split) => *split,
            None => false,
        }
    }
}

/// Flags a node, and tells whether it wasn't flagged before. A node beyond the flags never is.
pub fn flag(flags: &mut [bool], node: u32) -> bool
    ensures known { result ≡ false → slice_index_or flags.old node false ≡ true }
    ensures flags { (n : ℕ) → slice_index_or flags.new n false ≡ true → (slice_index_or flags.old n false ≡ true) ⊎ (n ≡ node) }
{
    let at = node as usize;
    if at < flags.len() {
        let was = flags[at];
        flags[at] = true;
        !was
    } else {
        true
    }
}

/// Puts a rule at the end.
pub fn put<W: Weight>(rules: &mut Vec<Rule<W>>, rule: Rule<W>) -> Result<(), NoMemory>
    ensures { OnOk result (rules.new.items ≡ rules.old.items ++ rule ∷ []) }
{
    rules.push(rule)?;
    Ok(())
}

/// Puts a rule of a node, and the first time for this node one that it has in common with others.
fn put_both<W: Weight>(
    rules: &mut Vec<Rule<W>>,
    flags: &mut [bool],
    node: u32,
    own: Rule<W>,
    common: Rule<W>,
) -> Result<(), NoMemory>
    ensures rules { OnOk result ((slice_index_or flags.old node false ≡ true → Has rules.old.items common) → AreAdded rules.old.items own common rules.new.items) }
    ensures flags { (n : ℕ) → slice_index_or flags.new n false ≡ true → (slice_index_or flags.old n false ≡ true) ⊎ (n ≡ node) }
{
    let first = flag(flags, node);
    put(rules, own)?;
    if first { put(rules, common) } else { Ok(()) }
}

/// The push of the common mark, from the entry of a node to the node.
fn push_common<W: Weight>(common: u32, entry: u32, node: u32) -> Rule<W>
    ensures { result ≡ Push entry node common W.domain.one }
{
    Rule::Push {
        from: entry,
        to: node,
        mark: common,
        weight: W::one(),
    }
}

/// The pop of the common mark, from a node to the exit of the node.
fn pop_common<W: Weight>(common: u32, node: u32, exit: u32) -> Rule<W>
    ensures { result ≡ Pop node common exit W.domain.one }
{
    Rule::Pop {
        from: node,
        mark: common,
        to: exit,
        weight: W::one(),
    }
}

/// Writes what stands for a rule in the split system. A push of a split mark pushes it at the entry of its node, and the first time the common mark from
/// there; a pop of one pops it at the exit of its node, and the first time the common mark to there.
fn write<W: Weight>(
    marks: &Marks<'_>,
    rules: &mut Vec<Rule<W>>,
    entries: &mut [bool],
    exits: &mut [bool],
    rule: &Rule<W>,
) -> Result<(), NoMemory>
    requires fits { 3 * marks.now.nodes < 2 ^ 32 }
    requires below { (source rule.now < marks.now.nodes) × (target rule.now < marks.now.nodes) }
    ensures { OnOk result (WritesOne W.domain (splitting_of (splits_by marks.now.are_split.now marks.now.common) marks.now.common marks.now.nodes marks.now.bases) rule.now rules.old.items entries.old exits.old rules.new.items entries.new exits.new) }
{
    match *rule {
        Rule::Flow { .. } => put(rules, *rule),
        Rule::Push {
            from,
            to,
            mark,
            weight,
        } => {
            let enters = marks.splits(mark);
            if enters {
                let entry = marks.nodes + to;
                let own = Rule::Push {
                    from,
                    to: entry,
                    mark,
                    weight,
                };
                let common = push_common(marks.common, entry, to);
                put_both(rules, entries, to, own, common)
            } else {
                put(rules, *rule)
            }
        }
        Rule::Pop {
            from,
            mark,
            to,
            weight,
        } => {
            let leaves = marks.splits(mark);
            if leaves {
                let exit = marks.nodes + (marks.nodes + from);
                let own = Rule::Pop {
                    from: exit,
                    mark,
                    to,
                    weight,
                };
                let common = pop_common(marks.common, from, exit);
                put_both(rules, exits, from, own, common)
            } else {
                put(rules, *rule)
            }
        }
    }
}

/// No flag for any of so many nodes.
pub fn unflagged(alloc: Global, count: usize) -> Result<Vec<bool>, NoMemory>
    ensures { IfOk result (λ flags. (n : ℕ) → slice_index_or flags.items n false ≡ false) }
{
    let mut flags = Vec::with_capacity(alloc, count)?;
    for _ in 0..count {
        flags.push(false)?;
    }
    Ok(flags)
}

/// The rules with split marks, where no node is flagged.
fn write_all<W: Weight>(
    alloc: Global,
    marks: &Marks<'_>,
    entries: &mut [bool],
    exits: &mut [bool],
    rules: &[Rule<W>],
) -> Result<Vec<Rule<W>>, NoMemory>
    requires fits { 3 * marks.now.nodes < 2 ^ 32 }
    requires below { AreBelow marks.now.nodes rules.now }
    requires entries { (n : ℕ) → slice_index_or entries.old n false ≡ false }
    requires exits { (n : ℕ) → slice_index_or exits.old n false ≡ false }
    ensures { IfOk result (λ made. AreSplitRules W.domain (splitting_of (splits_by marks.now.are_split.now marks.now.common) marks.now.common marks.now.nodes marks.now.bases) rules.now made.items) }
{
    let mut made = Vec::with_capacity(alloc, rules.len())?;
    for i in 0..rules.len() {
        write(marks, &mut made, entries, exits, &rules[i])?;
    }
    Ok(made)
}

/// The rules with split marks. Nodes below the count have the common push and the common pop once. Want of memory is the only refusal.
pub fn split_rules<W: Weight>(
    alloc: Global,
    marks: &Marks<'_>,
    count: usize,
    rules: &[Rule<W>],
) -> Result<Vec<Rule<W>>, NoMemory>
    requires fits { 3 * marks.now.nodes < 2 ^ 32 }
    requires below { AreBelow marks.now.nodes rules.now }
    ensures { IfOk result (λ made. AreSplitRules W.domain (splitting_of (splits_by marks.now.are_split.now marks.now.common) marks.now.common marks.now.nodes marks.now.bases) rules.now made.items) }
{
    let mut entries = unflagged(alloc, count)?;
    let mut exits = unflagged(alloc, count)?;
    write_all(alloc, marks, &mut entries, &mut exits, rules)
}

/// Writes what stands for a step between bases in the split system.
fn write_step(marks: &Marks<'_>, made: &mut Vec<BaseStep>, step: BaseStep) -> Result<(), NoMemory>
    requires fits { marks.now.bases + step.base < 2 ^ 32 }
    ensures { OnOk result (WritesStep (splitting_of (splits_by marks.now.are_split.now marks.now.common) marks.now.common marks.now.nodes marks.now.bases) step made.old.items made.new.items) }
{
    let splits = marks.splits(step.mark);
    if splits {
        let below = marks.bases + step.base;
        made.push(BaseStep {
            base: step.base,
            mark: marks.common,
            below,
        })?;
        made.push(BaseStep {
            base: below,
            mark: step.mark,
            below: step.below,
        })?;
        Ok(())
    } else {
        made.push(step)?;
        Ok(())
    }
}

/// The steps between bases with split marks. Want of memory is the only refusal.
pub fn split_steps(
    alloc: Global,
    marks: &Marks<'_>,
    steps: &[BaseStep],
) -> Result<Vec<BaseStep>, NoMemory>
    requires fits { (step : AStep) → Has steps.now step → marks.now.bases + step.base < 2 ^ 32 }
    ensures { IfOk result (λ made. AreStepsOf (splitting_of (splits_by marks.now.are_split.now marks.now.common) marks.now.common marks.now.nodes marks.now.bases) steps.now made.items) }
{
    let mut made = Vec::new(alloc);
    for i in 0..steps.len() {
        write_step(marks, &mut made, steps[i])?;
    }
    Ok(made)
}
