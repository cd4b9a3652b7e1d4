//! Numbers of heads without gaps, so that lists by number are short.
ghost use Rattle.std.specs.Prelude.{◌≡◌, ◌<◌, ℕ, length, map, IfOk, OnOk};
ghost use Rattle.rule_cells.specs.Made.{head_at};
ghost use Rattle.rule_cells.specs.Renamed.{AreHeadsTo, AreNumbered, HaveNumbersTo, number_in, renamed as renamed_rule, with_head};

use super::cells::{Cell, cell_of};
use auto_table::Rule;
use lists::NoMemory;
use std::alloc::Global;
use weight_laws::Weight;

/// The heads of nodes by their numbers, and of each node the number of its head.
#[derive(Drop)]
pub struct Numbers {
    pub heads: Vec<u32>,
    pub numbers: Vec<u32>,
}

/// The head of a node.
fn head_of<W: Weight>(cells: &[Cell<W>], node: u32) -> u32
    ensures { result ≡ head_at W.domain cells.now node }
{
    cell_of(cells, node).head
}

/// Lists a node that is its own head.
fn list_head<W: Weight>(cells: &[Cell<W>], heads: &mut Vec<u32>, node: u32) -> Result<(), NoMemory>
    ensures { OnOk result (heads.new.items ≡ with_head W.domain cells.now heads.old.items node) }
{
    let head = head_of(cells, node);
    if head == node {
        heads.push(node)?;
        Ok(())
    } else {
        Ok(())
    }
}

/// The heads among so many nodes, and for each node how many are before it: of a head, its number.
fn list_heads<W: Weight>(alloc: Global, cells: &[Cell<W>], count: u32) -> Result<Numbers, NoMemory>
    ensures { IfOk result (λ r. AreHeadsTo W.domain cells.now count r.heads.items r.numbers.items) }
{
    let mut heads = Vec::new(alloc);
    let mut numbers = Vec::with_capacity(alloc, count as usize)?;
    for node in 0..count {
        let number = heads.len() as u32;
        numbers.push(number)?;
        list_head(cells, &mut heads, node)?;
    }
    Ok(Numbers { heads, numbers })
}

/// Of each of so many nodes the number of its head, by those of the heads.
fn numbers_of<W: Weight>(
    alloc: Global,
    cells: &[Cell<W>],
    own: &[u32],
    count: u32,
) -> Result<Vec<u32>, NoMemory>
    requires own { length own.now ≡ count }
    requires within { (n : ℕ) → n < count → head_at W.domain cells.now n < count }
    ensures { IfOk result (λ numbers. HaveNumbersTo W.domain cells.now own.now count numbers.items) }
{
    let mut numbers = Vec::with_capacity(alloc, count as usize)?;
    for node in 0..count {
        let head = head_of(cells, node);
        let number = own[head as usize];
        numbers.push(number)?;
    }
    Ok(numbers)
}

/// Numbers the heads of so many nodes in the order of the nodes, and tells of each node the number of its head. Want of memory is the only refusal.
pub fn number_heads<W: Weight>(
    alloc: Global,
    cells: &[Cell<W>],
    count: u32,
) -> Result<Numbers, NoMemory>
    requires count { length cells.now ≡ count }
    requires within { (n : ℕ) → n < count → head_at W.domain cells.now n < count }
    requires own { (n : ℕ) → head_at W.domain cells.now (head_at W.domain cells.now n) ≡ head_at W.domain cells.now n }
    ensures { IfOk result (λ r. AreNumbered W.domain cells.now r.heads.items r.numbers.items) }
{
    let listed = list_heads(alloc, cells, count)?;
    let numbers = numbers_of(alloc, cells, &listed.numbers, count)?;
    Ok(Numbers {
        heads: listed.heads,
        numbers,
    })
}

/// The number of a node; one that the list doesn't have keeps its own.
pub fn number_of(numbers: &[u32], node: u32) -> u32
    ensures { result ≡ number_in numbers.now node }
{
    match numbers.get(node as usize) {
        Some(number) => *number,
        None => node,
    }
}

/// The rule between the numbers of its nodes.
fn renamed<W: Weight>(rule: &Rule<W>, numbers: &[u32]) -> Rule<W>
    ensures { result ≡ renamed_rule (number_in numbers.now) rule.now }
{
    match *rule {
        Rule::Flow { from, to, weight } => Rule::Flow {
            from: number_of(numbers, from),
            to: number_of(numbers, to),
            weight,
        },
        Rule::Push {
            from,
            to,
            mark,
            weight,
        } => Rule::Push {
            from: number_of(numbers, from),
            to: number_of(numbers, to),
            mark,
            weight,
        },
        Rule::Pop {
            from,
            mark,
            to,
            weight,
        } => Rule::Pop {
            from: number_of(numbers, from),
            mark,
            to: number_of(numbers, to),
            weight,
        },
    }
}

/// The rules between the numbers of their nodes, in their order. Want of memory is the only refusal.
pub fn renumber<W: Weight>(
    alloc: Global,
    rules: &[Rule<W>],
    numbers: &[u32],
) -> Result<Vec<Rule<W>>, NoMemory>
    ensures { IfOk result (λ few. few.items ≡ map (renamed_rule (number_in numbers.now)) rules.now) }
{
    let mut few = Vec::with_capacity(alloc, rules.len())?;
    for i in 0..rules.len() {
        let rule = renamed(&rules[i], numbers);
        few.push(rule)?;
    }
    Ok(few)
}
