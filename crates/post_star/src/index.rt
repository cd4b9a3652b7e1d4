ghost use Rattle.std.specs.Prelude.{◌≡◌, ℕ, List, ◌++◌, ◌∷◌, [], take, OnOk};
ghost use Rattle.auto_table.specs.declared.rule.Rule.{Rule as ARule};
ghost use Rattle.post_star.specs.declared.bases.BaseStep.{BaseStep as AStep};
ghost use Rattle.auto_table.specs.declared.entry.Entry.TheVariants.{Base, Pushed};
ghost use Rattle.post_star.specs.Groups.{found_at};
ghost use Rattle.post_star.specs.declared.key.Key.TheVariants.{Node, Marked};
ghost use Rattle.post_star.specs.Index.{from_of, IsIndex};

use super::bases::BaseStep;
use super::key::Key;
use auto_table::{Entry, Rule};
use lists::{ByKey, NoMemory};
use std::alloc::Global;

/// The node from which a rule leads.
pub fn from_node<W: Copy>(rule: &Rule<W>) -> u32
    ensures { result ≡ from_of rule.now }
{
    match *rule {
        Rule::Flow { from, .. } => from,
        Rule::Push { from, .. } => from,
        Rule::Pop { from, .. } => from,
    }
}

/// Where the rules and the base steps that apply at a place are found, so that no other is looked at.
#[derive(Drop)]
pub struct Index<W: Copy> {
    /// Flows and pushes by their node.
    pub stays: ByKey<Key, Rule<W>>,
    /// Pops by their node.
    pub pops: ByKey<Key, Rule<W>>,
    /// Pops by their node and their mark.
    pub marked: ByKey<Key, Rule<W>>,
    /// Pops by their mark.
    pub by_mark: ByKey<Key, Rule<W>>,
    /// Base steps by their base and their mark.
    pub below: ByKey<Key, BaseStep>,
}

impl<W: Copy> Index<W> {
    /// An index of nothing. It takes no memory.
    pub fn new(alloc: Global) -> Self
        ensures { IsIndex {W = W} [] [] result }
    {
        Index {
            stays: ByKey::new(alloc),
            pops: ByKey::new(alloc),
            marked: ByKey::new(alloc),
            by_mark: ByKey::new(alloc),
            below: ByKey::new(alloc),
        }
    }

    /// The pops that may apply at the entry and the node: at a pushed entry those of its mark alone.
    pub fn pops_at(&self, entry: Entry, node: u32) -> &[Rule<W>]
        ensures base { (b : ℕ) → entry ≡ Base b → result.now ≡ found_at self.now.pops (Node node) }
        ensures pushed { (n mark : ℕ) → entry ≡ Pushed n mark → result.now ≡ found_at self.now.marked (Marked node mark) }
    {
        match entry {
            Entry::Base(_) => self.pops.at(Key::Node(node)),
            Entry::Pushed { node: _, mark } => self.marked.at(Key::Marked { node, mark }),
        }
    }

    /// Puts the base step where it is looked for.
    fn add_step(&mut self, step: BaseStep) -> Result<(), NoMemory>
        ensures { OnOk result ((rules : List (ARule W)) (steps : List AStep) → IsIndex rules steps self.old → IsIndex rules (steps ++ step ∷ []) self.new) }
    {
        let key = Key::Marked {
            node: step.base,
            mark: step.mark,
        };
        self.below.add(key, step)?;
        Ok(())
    }

    /// Puts the rule where it is looked for.
    fn add_rule(&mut self, rule: Rule<W>) -> Result<(), NoMemory>
        ensures { OnOk result ((rules : List (ARule W)) (steps : List AStep) → IsIndex rules steps self.old → IsIndex (rules ++ rule ∷ []) steps self.new) }
    {
        match rule {
            Rule::Flow { from, .. } => self.stays.add(Key::Node(from), rule)?,
            Rule::Push { from, .. } => self.stays.add(Key::Node(from), rule)?,
            Rule::Pop { from, mark, .. } => {
                self.pops.add(Key::Node(from), rule)?;
                self.marked.add(Key::Marked { node: from, mark }, rule)?;
                self.by_mark.add(Key::Mark(mark), rule)?;
            }
        }
        Ok(())
    }

    /// Puts the steps from a number on in.
    pub fn add_steps(&mut self, steps: &[BaseStep], filed: usize) -> Result<(), NoMemory>
        ensures { OnOk result ((rules : List (ARule W)) → IsIndex rules (take filed steps.now) self.old → IsIndex rules steps.now self.new) }
    {
        for i in filed..steps.len() {
            self.add_step(steps[i])?;
        }
        Ok(())
    }

    /// Puts the rules from a number on in.
    pub fn add_rules(&mut self, rules: &[Rule<W>], taken: usize) -> Result<(), NoMemory>
        ensures { OnOk result ((steps : List AStep) → IsIndex (take taken rules.now) steps self.old → IsIndex rules.now steps self.new) }
    {
        for i in taken..rules.len() {
            self.add_rule(rules[i])?;
        }
        Ok(())
    }
}
