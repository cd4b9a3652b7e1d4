ghost use Rattle.std.specs.Prelude.{◌≡◌, ◌≤◌, ◌++◌, ◌∷◌, [], List, OnOk};
ghost use Rattle.post_star.specs.declared.bases.BaseStep.{BaseStep as AStep};
ghost use Rattle.auto_table.specs.declared.rule.Rule.{Rule as ARule};
ghost use Rattle.auto_table.specs.declared.entry.Entry.TheVariants.{Pushed};
ghost use Rattle.lists.specs.Lists.{Has};
ghost use Rattle.post_star.specs.Index.{from_of, IsIndex};
ghost use Rattle.post_star.specs.Systems.{IsIndexed, rules_of};
ghost use Rattle.post_star.specs.Measures.{Scope, IsScope, IsWithin, work_left};
ghost use Rattle.post_star.specs.Works.{IsTold, IsSound, IsProgress, IsApplied, IsAppliedBetween, IsSettling, IsClosed};

use super::copies::copied;
use super::key::Key;
use super::rise::{Item, Rising};
use super::system::{Part, System};
use auto_table::{Entry, Rule};
use lists::NoMemory;
use weight_laws::Weight;

impl<W: Weight> Rising<W> {
    /// Does all rules of the group at the entry.
    fn work_group(
        &mut self,
        system: &System<'_, W>,
        group: &[Rule<W>],
        entry: Entry,
    ) -> Result<(), NoMemory>
        requires told { IsTold W.domain (rules_of system.now) system.now.starts.now }
        requires index { IsIndexed system.now }
        requires sound { IsSound W.domain (rules_of system.now) system.now.starts.now system.now.steps.now self.old.table }
        requires listed { (rule : ARule W) → Has group.now rule → Has (rules_of system.now) rule }
        ensures progress { OnOk result (IsProgress W.domain (rules_of system.now) system.now.starts.now system.now.steps.now self.old.table self.new.table self.old.items.items self.new.items.items entry) }
        ensures applied { OnOk result ((rule : ARule W) → Has group.now rule → IsApplied W.domain system.now.steps.now self.new.table self.new.items.items rule entry) }
    {
        for rule in group {
            self.apply_at(system, rule, entry)?;
        }
        Ok(())
    }

    /// Does the rules of a part that lead from the node at the entry. Of the pops a pushed entry needs those of its mark alone.
    fn work_part(
        &mut self,
        system: &System<'_, W>,
        part: &Part<'_, W>,
        entry: Entry,
        node: u32,
    ) -> Result<(), NoMemory>
        requires told { IsTold W.domain (rules_of system.now) system.now.starts.now }
        requires index { IsIndexed system.now }
        requires sound { IsSound W.domain (rules_of system.now) system.now.starts.now system.now.steps.now self.old.table }
        requires own { (steps : List AStep) × IsIndex part.now.rules.now steps part.now.index.now }
        requires listed { (rule : ARule W) → Has part.now.rules.now rule → Has (rules_of system.now) rule }
        ensures progress { OnOk result (IsProgress W.domain (rules_of system.now) system.now.starts.now system.now.steps.now self.old.table self.new.table self.old.items.items self.new.items.items entry) }
        ensures applied { OnOk result ((rule : ARule W) → Has part.now.rules.now rule → from_of rule ≡ node → IsApplied W.domain system.now.steps.now self.new.table self.new.items.items rule entry) }
    {
        let stays = part.index.stays.at(Key::Node(node));
        self.work_group(system, stays, entry)?;
        let pops = part.index.pops_at(entry, node);
        self.work_group(system, pops, entry)?;
        Ok(())
    }

    /// Does all rules that lead from the node at the entry.
    fn work_at(&mut self, system: &System<'_, W>, entry: Entry, node: u32) -> Result<(), NoMemory>
        requires told { IsTold W.domain (rules_of system.now) system.now.starts.now }
        requires index { IsIndexed system.now }
        requires sound { IsSound W.domain (rules_of system.now) system.now.starts.now system.now.steps.now self.old.table }
        ensures progress { OnOk result (IsProgress W.domain (rules_of system.now) system.now.starts.now system.now.steps.now self.old.table self.new.table self.old.items.items self.new.items.items entry) }
        ensures applied { OnOk result ((rule : ARule W) → Has (rules_of system.now) rule → from_of rule ≡ node → IsApplied W.domain system.now.steps.now self.new.table self.new.items.items rule entry) }
    {
        self.work_part(system, &system.common, entry, node)?;
        self.work_part(system, &system.own, entry, node)?;
        Ok(())
    }

    /// Does the pops of a group at the link of a pushed entry.
    fn work_pops(
        &mut self,
        system: &System<'_, W>,
        group: &[Rule<W>],
        child: Entry,
        parent: Entry,
    ) -> Result<(), NoMemory>
        requires told { IsTold W.domain (rules_of system.now) system.now.starts.now }
        requires sound { IsSound W.domain (rules_of system.now) system.now.starts.now system.now.steps.now self.old.table }
        requires listed { (rule : ARule W) → Has group.now rule → Has (rules_of system.now) rule }
        ensures progress { OnOk result (IsProgress W.domain (rules_of system.now) system.now.starts.now system.now.steps.now self.old.table self.new.table self.old.items.items self.new.items.items parent) }
        ensures applied { OnOk result ((rule : ARule W) → Has group.now rule → IsAppliedBetween W.domain system.now.steps.now self.new.table self.new.items.items rule child parent) }
    {
        for rule in group {
            self.apply_between(system, rule, child, parent)?;
        }
        Ok(())
    }

    /// Does the pops of a part at the link of a pushed entry, over the nodes of the entry.
    fn work_row(
        &mut self,
        system: &System<'_, W>,
        part: &Part<'_, W>,
        pushed: u32,
        mark: u32,
        parent: Entry,
    ) -> Result<(), NoMemory>
        requires told { IsTold W.domain (rules_of system.now) system.now.starts.now }
        requires sound { IsSound W.domain (rules_of system.now) system.now.starts.now system.now.steps.now self.old.table }
        requires own { (steps : List AStep) × IsIndex part.now.rules.now steps part.now.index.now }
        requires listed { (rule : ARule W) → Has part.now.rules.now rule → Has (rules_of system.now) rule }
        ensures progress { OnOk result (IsProgress W.domain (rules_of system.now) system.now.starts.now system.now.steps.now self.old.table self.new.table self.old.items.items self.new.items.items parent) }
        ensures applied { OnOk result ((rule : ARule W) → Has part.now.rules.now rule → IsAppliedBetween W.domain system.now.steps.now self.new.table self.new.items.items rule (Pushed pushed mark) parent) }
    {
        let child = Entry::Pushed { node: pushed, mark };
        // A node that the child reaches later waits as an item of its own.
        let row = copied(self.alloc, self.table.row(child))?;
        for reached in &row {
            let pops = part.index.marked.at(Key::Marked {
                node: reached.node,
                mark,
            });
            self.work_pops(system, pops, child, parent)?;
        }
        Ok(())
    }

    /// Does the pops of a part at the link of a pushed entry: over all pops of the mark, or over the nodes of the entry where
    /// these are fewer. Where methods all call each other there are many nodes and few pops; where many statements load one
    /// field it may be the other way round.
    fn work_part_between(
        &mut self,
        system: &System<'_, W>,
        part: &Part<'_, W>,
        pushed: u32,
        mark: u32,
        parent: Entry,
    ) -> Result<(), NoMemory>
        requires told { IsTold W.domain (rules_of system.now) system.now.starts.now }
        requires sound { IsSound W.domain (rules_of system.now) system.now.starts.now system.now.steps.now self.old.table }
        requires own { (steps : List AStep) × IsIndex part.now.rules.now steps part.now.index.now }
        requires listed { (rule : ARule W) → Has part.now.rules.now rule → Has (rules_of system.now) rule }
        ensures progress { OnOk result (IsProgress W.domain (rules_of system.now) system.now.starts.now system.now.steps.now self.old.table self.new.table self.old.items.items self.new.items.items parent) }
        ensures applied { OnOk result ((rule : ARule W) → Has part.now.rules.now rule → IsAppliedBetween W.domain system.now.steps.now self.new.table self.new.items.items rule (Pushed pushed mark) parent) }
    {
        let child = Entry::Pushed { node: pushed, mark };
        let pops = part.index.by_mark.at(Key::Mark(mark));
        if pops.len() <= self.table.row(child).len() {
            return self.work_pops(system, pops, child, parent);
        }
        self.work_row(system, part, pushed, mark, parent)
    }

    /// Does the pops at the link of a pushed entry.
    fn work_between(
        &mut self,
        system: &System<'_, W>,
        pushed: u32,
        mark: u32,
        parent: Entry,
    ) -> Result<(), NoMemory>
        requires told { IsTold W.domain (rules_of system.now) system.now.starts.now }
        requires index { IsIndexed system.now }
        requires sound { IsSound W.domain (rules_of system.now) system.now.starts.now system.now.steps.now self.old.table }
        ensures progress { OnOk result (IsProgress W.domain (rules_of system.now) system.now.starts.now system.now.steps.now self.old.table self.new.table self.old.items.items self.new.items.items parent) }
        ensures applied { OnOk result ((rule : ARule W) → Has (rules_of system.now) rule → IsAppliedBetween W.domain system.now.steps.now self.new.table self.new.items.items rule (Pushed pushed mark) parent) }
    {
        self.work_part_between(system, &system.common, pushed, mark, parent)?;
        self.work_part_between(system, &system.own, pushed, mark, parent)?;
        Ok(())
    }

    /// Works on one item, which has left the list before.
    fn turn(&mut self, system: &System<'_, W>, item: Item) -> Result<(), NoMemory>
        requires told { IsTold W.domain (rules_of system.now) system.now.starts.now }
        requires index { IsIndexed system.now }
        requires settling { IsSettling W.domain (rules_of system.now) system.now.starts.now system.now.steps.now self.old.table (self.old.items.items ++ item ∷ []) }
        ensures settling { OnOk result (IsSettling W.domain (rules_of system.now) system.now.starts.now system.now.steps.now self.new.table self.new.items.items) }
        ensures spent { OnOk result ((u : Scope) → IsScope (rules_of system.now) system.now.steps.now u → IsWithin W.domain u self.old.table (self.old.items.items ++ item ∷ []) → IsWithin W.domain u self.new.table self.new.items.items × (work_left W.domain u self.new.table self.new.items.items ≤ work_left W.domain u self.old.table self.old.items.items)) }
    {
        match item {
            Item::At { entry, node } => self.work_at(system, entry, node)?,
            Item::Between { child, parent } => match child {
                // Nothing is popped over a link of a base.
                Entry::Base(_) => {}
                Entry::Pushed { node, mark } => self.work_between(system, node, mark, parent)?,
            },
        }
        Ok(())
    }

    /// Works on all that waits, and tells how many items that were. It ends, since each turn takes an item, and each item comes with a rise of a weight.
    pub fn run(&mut self, system: &System<'_, W>) -> Result<u64, NoMemory>
        requires told { IsTold W.domain (rules_of system.now) system.now.starts.now }
        requires index { IsIndexed system.now }
        requires settling { IsSettling W.domain (rules_of system.now) system.now.starts.now system.now.steps.now self.old.table self.old.items.items }
        ensures sound { OnOk result (IsSound W.domain (rules_of system.now) system.now.starts.now system.now.steps.now self.new.table) }
        ensures closed { OnOk result (IsClosed W.domain (rules_of system.now) system.now.starts.now system.now.steps.now self.new.table) }
    {
        let mut count: u64 = 0;
        while let Some(item) = self.items.pop_front() {
            count = count.saturating_add(1);
            self.turn(system, item)?;
        }
        Ok(count)
    }
}
