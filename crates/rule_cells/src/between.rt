//! The rules between cells, by numbers of these.
ghost use Rattle.std.specs.Prelude.{◌≡◌, length, IfOk};
ghost use Rattle.auto_table.specs.declared.rule.Rule.{Rule as ARule};
ghost use Rattle.lists.specs.Lists.{Has};
ghost use Rattle.post_star.specs.Works.{weight_of};
ghost use Rattle.rule_cells.specs.CellRules.{HaveCells};

use super::cells::cells_of;
use super::contraction::contract;
use super::distinct::distinct;
use super::followed::thinned;
use super::numbers::{number_heads, renumber};
use auto_table::Rule;
use lists::NoMemory;
use std::alloc::Global;
use weight_laws::Weight;

/// Of each node the number of its cell, and the rules between cells.
#[derive(Drop)]
pub struct CellRules<W: Weight> {
    pub cells: Vec<u32>,
    pub rules: Vec<Rule<W>>,
}

/// The cells of so many nodes, by numbers without gaps, and the rules between them. A system over the rules that are given, with starts and rules of its own
/// that lead to kept nodes, derives at a node what the system between cells derives at the cell of the node. Many rules become one between cells, and it
/// stands once. Want of memory is the only refusal.
pub fn cell_rules<W: Weight>(
    alloc: Global,
    count: u32,
    rules: &[Rule<W>],
    kept: &[u32],
) -> Result<CellRules<W>, NoMemory>
    requires ones { (r : ARule W) → Has rules.now r → weight_of r ≡ W.domain.one }
    ensures count { IfOk result (λ c. length c.cells.items ≡ count) }
    ensures same { IfOk result (λ c. HaveCells W.domain rules.now kept.now c.cells.items c.rules.items) }
{
    let made = cells_of(alloc, count, rules, kept)?;
    let few = contract(alloc, &made.cells, rules)?;
    let numbers = number_heads(alloc, &made.cells, count)?;
    let between = renumber(alloc, &few.rules, &numbers.numbers)?;
    Ok(CellRules {
        cells: numbers.numbers,
        rules: distinct(alloc, &between)?,
    })
}

/// The same, where the rules that are marked are looked at first: flows among them that follow from the rest are left out, since they give nothing, and so
/// the nodes to which they lead may have cells that they hadn't. A rule without a mark isn't looked at. Want of memory is the only refusal.
pub fn thin_cell_rules<W: Weight>(
    alloc: Global,
    count: u32,
    rules: &[Rule<W>],
    marked: &[bool],
    kept: &[u32],
) -> Result<CellRules<W>, NoMemory>
    requires ones { (r : ARule W) → Has rules.now r → weight_of r ≡ W.domain.one }
    ensures count { IfOk result (λ c. length c.cells.items ≡ count) }
    ensures same { IfOk result (λ c. HaveCells W.domain rules.now kept.now c.cells.items c.rules.items) }
{
    let few = thinned(alloc, count, rules, marked, kept)?;
    cell_rules(alloc, count, &few, kept)
}
