//! The cells of nodes: heads, and the products of the weights from these.
ghost use Rattle.std.specs.Prelude.{◌≡◌, ◌↔◌, ◌+◌, ◌<◌, List, ℕ, IsTrue, Some, length, slice_get, slice_set, IfOk};
ghost use Rattle.auto_table.specs.declared.rule.Rule.{Rule as ARule};
ghost use Rattle.post_star.specs.Works.{AreTold, weight_of};
ghost use Rattle.rule_cells.specs.declared.cells.Cell.{Cell as ACell};
ghost use Rattle.rule_cells.specs.Cells.{AreCells};
ghost use Rattle.rule_cells.specs.Entered.{AreEntered, HaveNodesBefore};
ghost use Rattle.rule_cells.specs.Forests.{AreFlat, AreRooted, IsConverged, IsForest, IsRootOf, KeepsRoots, joined_cell, shorter};
ghost use Rattle.rule_cells.specs.Made.{AreConverged, cell_at, head_at, offset_at, own_cell};

use super::entered::{Entered, entries_of};
use auto_table::Rule;
use lists::NoMemory;
use std::alloc::Global;
use weight_laws::Weight;

/// The head of a node, from which all comes to it, and the product of the weights between.
#[derive(Clone, Copy, Debug, PartialEq, Eq)]
pub struct Cell<W> {
    pub head: u32,
    pub offset: W,
}

/// The cells of so many nodes, and how rules lead to each.
#[derive(Drop)]
pub struct Cells<W: Weight> {
    pub cells: Vec<Cell<W>>,
    pub entries: Vec<Entered<W>>,
}

/// The weight of a rule in hand is meant.
fn tell<W: Weight>(rule: &Rule<W>)
    ensures { W.domain.IsMeant (weight_of rule.now) }
{
    match *rule {
        Rule::Flow { weight, .. } => weight.told(),
        Rule::Push { weight, .. } => weight.told(),
        Rule::Pop { weight, .. } => weight.told(),
    }
}

/// The weights of rules in hand are meant.
fn tell_all<W: Weight>(rules: &[Rule<W>])
    ensures { AreTold W.domain rules.now }
{
    for i in 0..rules.len() {
        tell(&rules[i]);
    }
}

/// Each node by itself.
fn own_cells<W: Weight>(alloc: Global, count: u32) -> Result<Vec<Cell<W>>, NoMemory>
    ensures count { IfOk result (λ cells. length cells.items ≡ count) }
    ensures own { IfOk result (λ cells. (n : ℕ) (c : ACell W) → slice_get cells.items n ≡ Some c → c ≡ own_cell W.domain n) }
{
    let mut cells = Vec::with_capacity(alloc, count as usize)?;
    for head in 0..count {
        cells.push(Cell {
            head,
            offset: W::one(),
        })?;
    }
    Ok(cells)
}

/// The cell of a node. One that isn't there is its own head.
pub fn cell_of<W: Weight>(cells: &[Cell<W>], node: u32) -> Cell<W>
    ensures { result ≡ cell_at W.domain cells.now node }
{
    match cells.get(node as usize) {
        Some(cell) => *cell,
        None => Cell {
            head: node,
            offset: W::one(),
        },
    }
}

/// A cell whose head has the first cell, by that.
fn joined<W: Weight>(before: Cell<W>, cell: Cell<W>) -> Cell<W>
    ensures { result ≡ joined_cell W.domain before cell }
{
    Cell {
        head: before.head,
        offset: before.offset.extend(cell.offset),
    }
}

/// Gives a node the cell that it has by its head, and tells the one that it had.
fn shorten<W: Weight>(cells: &mut [Cell<W>], node: u32) -> Cell<W>
    requires { node < length cells.old }
    ensures had { result ≡ cell_at W.domain cells.old node }
    ensures new { cells.new ≡ slice_set cells.old node (shorter W.domain cells.old node) }
{
    let cell = cell_of(cells, node);
    let before = cell_of(cells, cell.head);
    cells[node as usize] = joined(before, cell);
    cell
}

/// Whether the head of a node has a smaller number.
fn leads_down<W: Weight>(cells: &[Cell<W>], node: u32) -> bool
    ensures { IsTrue result ↔ (head_at W.domain cells.now node < node) }
{
    cell_of(cells, node).head < node
}

/// The root to which cells lead from a node. On the way each node is given the cell that it has by its head, so that no way is gone often.
fn root_of<W: Weight>(cells: &mut [Cell<W>], node: u32) -> Cell<W>
    ensures kept { (rules : List (ARule W)) (kept : List ℕ) (root : ℕ → ℕ) → AreTold W.domain rules → IsForest W.domain rules kept root cells.old → IsForest W.domain rules kept root cells.new × IsRootOf W.domain rules kept root cells.new node result }
    ensures roots { (rules : List (ARule W)) (kept : List ℕ) (root : ℕ → ℕ) → AreTold W.domain rules → IsForest W.domain rules kept root cells.old → KeepsRoots W.domain cells.old cells.new }
{
    let mut cell = Cell {
        head: node,
        offset: W::one(),
    };
    'up: while leads_down(cells, cell.head) {
        let before = shorten(cells, cell.head);
        cell = joined(before, cell);
    }
    joined(cell_of(cells, cell.head), cell)
}

/// Lets a node that one flow leads to take the root of the node before it. On a circle of such flows the node that comes last is the root of all.
fn follow<W: Weight>(entries: &[Entered<W>], cells: &mut [Cell<W>], number: usize)
    requires number { number < length entries.now }
    requires many { length cells.old ≡ length entries.now }
    ensures { (rules : List (ARule W)) (kept : List ℕ) → AreTold W.domain rules → AreEntered (length entries.now) rules kept entries.now → AreRooted W.domain rules kept entries.now (number + 1) cells.old → AreRooted W.domain rules kept entries.now number cells.new }
{
    match entries[number] {
        Entered::Once { from, weight } => {
            let root = root_of(cells, from);
            let at = root.head as usize;
            if at != number {
                cells[number] = Cell {
                    head: root.head,
                    offset: root.offset.extend(weight),
                };
            }
        }
        Entered::Never => {}
        Entered::Otherwise => {}
    }
}

/// Lets each node take the root of the node before it, the last number first.
fn follow_all<W: Weight>(entries: &[Entered<W>], cells: &mut [Cell<W>])
    requires many { length cells.old ≡ length entries.now }
    ensures { (rules : List (ARule W)) (kept : List ℕ) → AreTold W.domain rules → AreEntered (length entries.now) rules kept entries.now → AreRooted W.domain rules kept entries.now (length entries.now) cells.old → AreRooted W.domain rules kept entries.now 0 cells.new }
{
    for done in 0..entries.len() {
        follow(entries, cells, entries.len() - 1 - done);
    }
}

/// Gives each node its root for head. A head with a smaller number has its root by then, and one with a greater number is a root.
fn flatten<W: Weight>(cells: &mut [Cell<W>], count: u32)
    requires { length cells.old ≡ count }
    ensures { (rules : List (ARule W)) (kept : List ℕ) (root : ℕ → ℕ) → AreTold W.domain rules → IsForest W.domain rules kept root cells.old → IsForest W.domain rules kept root cells.new × AreFlat W.domain count cells.new }
{
    for node in 0..count {
        shorten(cells, node);
    }
}

/// Makes cells of nodes that are all their own heads.
fn converge<W: Weight>(entries: &[Entered<W>], cells: &mut [Cell<W>], count: u32)
    requires entries { length entries.now ≡ count }
    requires cells { length cells.old ≡ count }
    ensures { (rules : List (ARule W)) (kept : List ℕ) → AreTold W.domain rules → AreEntered count rules kept entries.now → ((n : ℕ) → cell_at W.domain cells.old n ≡ own_cell W.domain n) → IsConverged W.domain count rules kept cells.new }
{
    follow_all(entries, cells);
    flatten(cells, count);
}

/// The cells of so many nodes, by how rules lead to these.
fn made<W: Weight>(
    alloc: Global,
    entries: &[Entered<W>],
    count: u32,
) -> Result<Vec<Cell<W>>, NoMemory>
    requires { length entries.now ≡ count }
    ensures { IfOk result (λ cells. (rules : List (ARule W)) (kept : List ℕ) → AreTold W.domain rules → AreEntered count rules kept entries.now → IsConverged W.domain count rules kept cells.items) }
{
    let mut cells = own_cells(alloc, count)?;
    converge(entries, &mut cells, count);
    Ok(cells)
}

/// The cells of so many nodes by the rules between them, and how the rules lead to each.
///
/// A node that one flow alone leads to has the head of the node before it, so that nodes which hang together by such flows have one head. It is the node
/// that none of them leads to, or, on a circle, one of those on the circle. A node that is kept is its own head: starts, and rules that aren't here, may
/// lead to it. Want of memory is the only refusal.
pub fn cells_of<W: Weight>(
    alloc: Global,
    count: u32,
    rules: &[Rule<W>],
    kept: &[u32],
) -> Result<Cells<W>, NoMemory>
    ensures count { IfOk result (λ c. length c.cells.items ≡ count) }
    ensures cells { IfOk result (λ c. AreCells W.domain rules.now kept.now (head_at W.domain c.cells.items) (offset_at W.domain c.cells.items)) }
    ensures converged { IfOk result (λ c. AreConverged W.domain count rules.now kept.now c.cells.items) }
    ensures within { IfOk result (λ c. (n : ℕ) → n < count → head_at W.domain c.cells.items n < count) }
    ensures before { IfOk result (λ c. HaveNodesBefore count rules.now kept.now c.entries.items) }
{
    tell_all(rules);
    let entries = entries_of(alloc, count, rules, kept)?;
    let cells = made(alloc, &entries, count)?;
    Ok(Cells { cells, entries })
}
