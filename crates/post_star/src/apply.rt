ghost use Rattle.std.specs.Prelude.{◌≡◌, IfOk, OnOk};
ghost use Rattle.auto_table.specs.declared.rule.Rule.TheVariants.{Pop};
ghost use Rattle.auto_table.specs.declared.entry.Entry.TheVariants.{Base, Pushed};
ghost use Rattle.auto_table.specs.Cells.{AreParents, weight_at};
ghost use Rattle.lists.specs.Lists.{Has};
ghost use Rattle.post_star.specs.Systems.{IsIndexed, rules_of};
ghost use Rattle.post_star.specs.Works.{IsTold, IsSound, IsProgress, IsApplied, IsAppliedBetween};

use super::copies::copied;
use super::key::Key;
use super::rise::Rising;
use super::system::System;
use auto_table::{Entry, Linked, Rule};
use lists::NoMemory;
use weight_laws::Weight;

/// What a pop says.
#[derive(Clone, Copy)]
pub struct Popping<W> {
    pub from: u32,
    pub mark: u32,
    pub to: u32,
    pub weight: W,
}

impl<W: Weight> Rising<W> {
    /// The parents of an entry, with the weights of the links, as they are.
    fn parents_of(&self, entry: Entry) -> Result<Vec<Linked<W>>, NoMemory>
        ensures { IfOk result (λ parents. AreParents W.domain self.now.table entry parents.items) }
    {
        copied(self.alloc, self.table.parents(entry))
    }

    /// Takes the mark off below a base: each base step with the mark leads on.
    fn pop_below(
        &mut self,
        system: &System<'_, W>,
        base: u32,
        pop: Popping<W>,
    ) -> Result<(), NoMemory>
        requires told { IsTold W.domain (rules_of system.now) system.now.starts.now }
        requires index { IsIndexed system.now }
        requires sound { IsSound W.domain (rules_of system.now) system.now.starts.now system.now.steps.now self.old.table }
        requires listed { Has (rules_of system.now) (Pop pop.from pop.mark pop.to pop.weight) }
        ensures progress { OnOk result (IsProgress W.domain (rules_of system.now) system.now.starts.now system.now.steps.now self.old.table self.new.table self.old.items.items self.new.items.items (Base base)) }
        ensures applied { OnOk result (IsApplied W.domain system.now.steps.now self.new.table self.new.items.items (Pop pop.from pop.mark pop.to pop.weight) (Base base)) }
    {
        let reached = self
            .table
            .at(Entry::Base(base), pop.from)
            .extend(pop.weight);
        let mark = pop.mark;
        let below = system
            .common
            .index
            .below
            .at(Key::Marked { node: base, mark });
        for step in below {
            if step.leads_from(base, mark) {
                self.rise(Entry::Base(step.below), pop.to, reached)?;
            }
        }
        Ok(())
    }

    /// Takes the mark off an entry that begins with it, over its parents: each goes on.
    fn pop_over(
        &mut self,
        system: &System<'_, W>,
        node: u32,
        pop: Popping<W>,
        first: W,
        parents: &[Linked<W>],
    ) -> Result<(), NoMemory>
        requires told { IsTold W.domain (rules_of system.now) system.now.starts.now }
        requires sound { IsSound W.domain (rules_of system.now) system.now.starts.now system.now.steps.now self.old.table }
        requires listed { Has (rules_of system.now) (Pop pop.from pop.mark pop.to pop.weight) }
        requires first { first ≡ weight_at W.domain self.old.table (Pushed node pop.mark) pop.from }
        requires parents { AreParents W.domain self.old.table (Pushed node pop.mark) parents.now }
        ensures progress { OnOk result (IsProgress W.domain (rules_of system.now) system.now.starts.now system.now.steps.now self.old.table self.new.table self.old.items.items self.new.items.items (Pushed node pop.mark)) }
        ensures applied { OnOk result (IsApplied W.domain system.now.steps.now self.new.table self.new.items.items (Pop pop.from pop.mark pop.to pop.weight) (Pushed node pop.mark)) }
    {
        let Popping { to, weight, .. } = pop;
        // A rise moves no link, so the parents stay these.
        for linked in parents {
            let reached = linked.weight.extend(first).extend(weight);
            self.rise(linked.parent, to, reached)?;
        }
        Ok(())
    }

    /// Takes the mark off an entry that begins with it.
    fn pop_above(
        &mut self,
        system: &System<'_, W>,
        node: u32,
        pop: Popping<W>,
    ) -> Result<(), NoMemory>
        requires told { IsTold W.domain (rules_of system.now) system.now.starts.now }
        requires sound { IsSound W.domain (rules_of system.now) system.now.starts.now system.now.steps.now self.old.table }
        requires listed { Has (rules_of system.now) (Pop pop.from pop.mark pop.to pop.weight) }
        ensures progress { OnOk result (IsProgress W.domain (rules_of system.now) system.now.starts.now system.now.steps.now self.old.table self.new.table self.old.items.items self.new.items.items (Pushed node pop.mark)) }
        ensures applied { OnOk result (IsApplied W.domain system.now.steps.now self.new.table self.new.items.items (Pop pop.from pop.mark pop.to pop.weight) (Pushed node pop.mark)) }
    {
        let mark = pop.mark;
        let entry = Entry::Pushed { node, mark };
        let first = self.table.at(entry, pop.from);
        let parents = self.parents_of(entry)?;
        self.pop_over(system, node, pop, first, &parents)
    }

    /// Takes the mark off the entry, if it begins with it.
    fn pop(&mut self, system: &System<'_, W>, entry: Entry, pop: Popping<W>) -> Result<(), NoMemory>
        requires told { IsTold W.domain (rules_of system.now) system.now.starts.now }
        requires index { IsIndexed system.now }
        requires sound { IsSound W.domain (rules_of system.now) system.now.starts.now system.now.steps.now self.old.table }
        requires listed { Has (rules_of system.now) (Pop pop.from pop.mark pop.to pop.weight) }
        ensures progress { OnOk result (IsProgress W.domain (rules_of system.now) system.now.starts.now system.now.steps.now self.old.table self.new.table self.old.items.items self.new.items.items entry) }
        ensures applied { OnOk result (IsApplied W.domain system.now.steps.now self.new.table self.new.items.items (Pop pop.from pop.mark pop.to pop.weight) entry) }
    {
        match entry {
            Entry::Base(base) => self.pop_below(system, base, pop),
            Entry::Pushed { node, mark } => {
                if mark == pop.mark {
                    self.pop_above(system, node, pop)
                } else {
                    Ok(())
                }
            }
        }
    }

    /// Does all that the rule says at the entry. A push begins the entry of its node and mark, and leads from there to the old one.
    pub fn apply_at(
        &mut self,
        system: &System<'_, W>,
        rule: &Rule<W>,
        entry: Entry,
    ) -> Result<(), NoMemory>
        requires told { IsTold W.domain (rules_of system.now) system.now.starts.now }
        requires index { IsIndexed system.now }
        requires sound { IsSound W.domain (rules_of system.now) system.now.starts.now system.now.steps.now self.old.table }
        requires listed { Has (rules_of system.now) rule.now }
        ensures progress { OnOk result (IsProgress W.domain (rules_of system.now) system.now.starts.now system.now.steps.now self.old.table self.new.table self.old.items.items self.new.items.items entry) }
        ensures applied { OnOk result (IsApplied W.domain system.now.steps.now self.new.table self.new.items.items rule.now entry) }
    {
        match *rule {
            Rule::Flow { from, to, weight } => {
                let reached = self.table.at(entry, from).extend(weight);
                self.rise(entry, to, reached)
            }
            Rule::Push {
                from,
                to,
                mark,
                weight,
            } => {
                let reached = self.table.at(entry, from).extend(weight);
                let pushed = Entry::Pushed { node: to, mark };
                self.rise(pushed, to, W::one())?;
                self.rise_link(pushed, entry, reached)
            }
            Rule::Pop {
                from,
                mark,
                to,
                weight,
            } => {
                let pop = Popping {
                    from,
                    mark,
                    to,
                    weight,
                };
                self.pop(system, entry, pop)
            }
        }
    }

    /// Does all that the rule says of a link: nothing where the child has no weight at the rule's node.
    pub fn apply_between(
        &mut self,
        system: &System<'_, W>,
        rule: &Rule<W>,
        child: Entry,
        parent: Entry,
    ) -> Result<(), NoMemory>
        requires told { IsTold W.domain (rules_of system.now) system.now.starts.now }
        requires sound { IsSound W.domain (rules_of system.now) system.now.starts.now system.now.steps.now self.old.table }
        requires listed { Has (rules_of system.now) rule.now }
        ensures progress { OnOk result (IsProgress W.domain (rules_of system.now) system.now.starts.now system.now.steps.now self.old.table self.new.table self.old.items.items self.new.items.items parent) }
        ensures applied { OnOk result (IsAppliedBetween W.domain system.now.steps.now self.new.table self.new.items.items rule.now child parent) }
    {
        if let Rule::Pop {
            from,
            mark,
            to,
            weight,
        } = *rule
        {
            if let Entry::Pushed { node: _, mark: top } = child {
                if top == mark {
                    let first = self.table.at(child, from);
                    if first == W::zero() {
                        return Ok(());
                    }
                    let reached = self
                        .table
                        .link_at(child, parent)
                        .extend(first)
                        .extend(weight);
                    self.rise(parent, to, reached)?;
                }
            }
        }
        Ok(())
    }
}
