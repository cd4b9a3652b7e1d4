ghost use Rattle.std.specs.Prelude.{◌≡◌, ◌≢◌, ℕ, ◌≤◌, length, slice_get, Some, OnOk, IfOk};
ghost use Rattle.auto_table.specs.declared.rule.Rule.{Rule as ARule};
ghost use Rattle.lists.specs.Lists.{Has};
ghost use Rattle.auto_table.specs.Cells.{weight_at};
ghost use Rattle.post_star.specs.declared.rise.Item.{Item as AnItem};
ghost use Rattle.post_star.specs.declared.rise.Item.TheVariants.{At};
ghost use Rattle.post_star.specs.Index.{from_of};
ghost use Rattle.post_star.specs.Systems.{rules_of};
ghost use Rattle.post_star.specs.Works.{IsTold, IsBegun, IsSettling, AreTaken};

use super::index::from_node;
use super::rise::{Item, Rising};
use super::system::System;
use auto_table::{Entry, Rule, Table};
use indexmap::IndexSet;
use lists::NoMemory;
use std::alloc::Global;
use std::collections::VecDeque;
use weight_laws::Weight;

/// The nodes from which the rules from a number on lead.
fn fresh_nodes<W: Weight>(
    alloc: Global,
    rules: &[Rule<W>],
    taken: usize,
) -> Result<IndexSet<u32>, NoMemory>
    ensures { IfOk result (λ nodes. (i : ℕ) (rule : ARule W) → taken ≤ i → slice_get rules.now i ≡ Some rule → Has nodes.keys (from_of rule)) }
{
    let mut nodes = IndexSet::new(alloc);
    for i in taken..rules.len() {
        let rule = rules[i];
        nodes.insert(from_node(&rule))?;
    }
    Ok(nodes)
}

/// Puts the entry's weights at the nodes on the list.
fn take_row<W: Weight>(
    table: &Table<W>,
    entry: Entry,
    nodes: &IndexSet<u32>,
    items: &mut VecDeque<Item>,
) -> Result<(), NoMemory>
    ensures stays { OnOk result ((i : AnItem) → Has items.old.items i → Has items.new.items i) }
    ensures taken { OnOk result ((node : ℕ) → Has nodes.now.keys node → weight_at W.domain table.now entry node ≢ W.domain.zero → Has items.new.items (At entry node)) }
{
    let row = table.row(entry);
    for reached in row {
        if nodes.contains(&reached.node) {
            items.push_back(Item::At {
                entry,
                node: reached.node,
            })?;
        }
    }
    Ok(())
}

/// Items for the rules from a number on: where the table has a weight at a node from which one of them leads.
pub fn take_rules<W: Weight>(
    alloc: Global,
    rules: &[Rule<W>],
    table: &Table<W>,
    taken: usize,
) -> Result<VecDeque<Item>, NoMemory>
    ensures { IfOk result (λ items. AreTaken W.domain rules.now taken table.now items.items) }
{
    let mut items = VecDeque::new(alloc);
    if rules.len() <= taken {
        return Ok(items);
    }
    let nodes = fresh_nodes(alloc, rules, taken)?;
    let entries = table.entries();
    for entry in entries {
        take_row(table, *entry, &nodes, &mut items)?;
    }
    Ok(items)
}

impl<W: Weight> Rising<W> {
    /// Takes the starts from a number on in.
    pub fn take_starts(&mut self, system: &System<'_, W>, begun: usize) -> Result<(), NoMemory>
        requires told { IsTold W.domain (rules_of system.now) system.now.starts.now }
        requires begun { IsBegun W.domain (rules_of system.now) system.now.starts.now system.now.steps.now self.old.table self.old.items.items begun }
        ensures { OnOk result (IsSettling W.domain (rules_of system.now) system.now.starts.now system.now.steps.now self.new.table self.new.items.items) }
    {
        let starts = system.starts;
        for i in begun..starts.len() {
            let start = starts[i];
            self.rise(Entry::Base(start.base), start.node, start.weight)?;
        }
        Ok(())
    }
}
