//! Flows that follow from others.
ghost use Rattle.std.specs.Prelude.{◌≡◌, ◌↔◌, ◌⊎◌, ◌∷◌, [], ℕ, List, IsTrue, IfOk, OnOk};
ghost use Rattle.auto_table.specs.declared.rule.Rule.{Rule as ARule};
ghost use Rattle.lists.specs.Lists.{Has};
ghost use Rattle.post_star.specs.Works.{weight_of};
ghost use Rattle.rule_cells.specs.declared.distinct.Shape.{Shape as AShape};
ghost use Rattle.rule_cells.specs.Distinct.{rule_of, shape_of};
ghost use Rattle.rule_cells.specs.Followed.{AreAdded, AreSights, AreThinned, Follows};
ghost use Rattle.rule_cells.specs.Made.{head_at, offset_at};

use super::cells::{Cell, cell_of, cells_of};
use super::distinct::{Shape, shape_of};
use auto_table::Rule;
use lists::{NoMemory, Numbered};
use std::alloc::Global;
use weight_laws::Weight;

/// Rules in two parts: those that stay, and those that are left out where they follow.
#[derive(Drop)]
struct Halves<W: Weight> {
    stay: Vec<Rule<W>>,
    over: Vec<Rule<W>>,
}

/// Whether a number is marked. One without a mark isn't.
fn is_marked(marks: &[bool], number: usize) -> bool {
    match marks.get(number) {
        Some(mark) => *mark,
        None => false,
    }
}

/// Puts the rule last in one of two lists.
fn put_in<W: Weight>(
    rule: &Rule<W>,
    is_over: bool,
    stay: &mut Vec<Rule<W>>,
    over: &mut Vec<Rule<W>>,
) -> Result<(), NoMemory>
    ensures { OnOk result ((r : ARule W) → (Has stay.new.items r ⊎ Has over.new.items r) ↔ ((Has stay.old.items r ⊎ Has over.old.items r) ⊎ (r ≡ rule.now))) }
{
    if is_over {
        over.push(*rule)?;
    } else {
        stay.push(*rule)?;
    }
    Ok(())
}

/// Parts the rules by their marks.
fn parted<W: Weight>(
    alloc: Global,
    rules: &[Rule<W>],
    marks: &[bool],
) -> Result<Halves<W>, NoMemory>
    ensures { IfOk result (λ p. (r : ARule W) → (Has p.stay.items r ⊎ Has p.over.items r) ↔ Has rules.now r) }
{
    let mut stay = Vec::new(alloc);
    let mut over = Vec::new(alloc);
    for i in 0..rules.len() {
        put_in(&rules[i], is_marked(marks, i), &mut stay, &mut over)?;
    }
    Ok(Halves { stay, over })
}

/// Marks those of so many nodes from which flows lead.
fn sources<W: Weight>(alloc: Global, count: u32, rules: &[Rule<W>]) -> Result<Vec<bool>, NoMemory> {
    let mut marks = Vec::with_capacity(alloc, count as usize)?;
    for _ in 0..count {
        marks.push(false)?;
    }
    for rule in rules {
        if let Rule::Flow { from, .. } = *rule {
            if let Some(mark) = marks.get_mut(from as usize) {
                *mark = true;
            }
        }
    }
    Ok(marks)
}

/// Puts the shape of the rule in.
fn add_shape<W: Weight>(rule: &Rule<W>, shapes: &mut Numbered<Shape>) -> Result<(), NoMemory>
    ensures { OnOk result ((s : AShape) → Has shapes.new.keys s → Has shapes.old.keys s ⊎ (s ≡ shape_of rule.now)) }
{
    let _ = shapes.add(shape_of(rule))?;
    Ok(())
}

/// Puts the shape of the rule in, if it is a flow from a marked node.
fn add_from<W: Weight>(
    rule: &Rule<W>,
    marks: &[bool],
    shapes: &mut Numbered<Shape>,
) -> Result<(), NoMemory>
    ensures { OnOk result ((s : AShape) → Has shapes.new.keys s → Has shapes.old.keys s ⊎ (s ≡ shape_of rule.now)) }
{
    match *rule {
        Rule::Flow { from, .. } => {
            if is_marked(marks, from as usize) {
                return add_shape(rule, shapes);
            }
            Ok(())
        }
        Rule::Push { .. } => Ok(()),
        Rule::Pop { .. } => Ok(()),
    }
}

/// The flows from marked nodes.
fn flows_from<W: Weight>(
    alloc: Global,
    rules: &[Rule<W>],
    marks: &[bool],
) -> Result<Numbered<Shape>, NoMemory>
    requires ones { (r : ARule W) → Has rules.now r → weight_of r ≡ W.domain.one }
    ensures { IfOk result (λ shapes. (s : AShape) → Has shapes.keys s → Has rules.now (rule_of W.domain s)) }
{
    let mut shapes = Numbered::new(alloc);
    for i in 0..rules.len() {
        add_from(&rules[i], marks, &mut shapes)?;
    }
    Ok(shapes)
}

/// Whether a rule is seen to follow: it is a flow, and another leads from its source to the head from which all comes to its target.
fn follows<W: Weight>(shapes: &Numbered<Shape>, cells: &[Cell<W>], rule: &Rule<W>) -> bool
    ensures { IsTrue result → (rules : List (ARule W)) (kept : List ℕ) → AreSights W.domain rules kept shapes.now.keys (head_at W.domain cells.now) (offset_at W.domain cells.now)
        → weight_of rule.now ≡ W.domain.one → Follows W.domain rules rule.now }
{
    match *rule {
        Rule::Flow { from, to, .. } => {
            let to = cell_of(cells, to).head;
            shapes.find(Shape::Flow { from, to }).is_some()
        }
        Rule::Push { .. } => false,
        Rule::Pop { .. } => false,
    }
}

/// Puts the rule last, if it isn't seen to follow.
fn keep_other<W: Weight>(
    shapes: &Numbered<Shape>,
    cells: &[Cell<W>],
    rule: &Rule<W>,
    few: &mut Vec<Rule<W>>,
) -> Result<(), NoMemory>
    requires one { weight_of rule.now ≡ W.domain.one }
    ensures { OnOk result ((rules : List (ARule W)) (kept : List ℕ) → AreSights W.domain rules kept shapes.now.keys (head_at W.domain cells.now) (offset_at W.domain cells.now)
        → AreAdded W.domain rules few.old.items few.new.items (rule.now ∷ [])) }
{
    if follows(shapes, cells, rule) {
        return Ok(());
    }
    few.push(*rule)?;
    Ok(())
}

/// Puts those of the rules last that aren't seen to follow.
fn keep_others<W: Weight>(
    shapes: &Numbered<Shape>,
    cells: &[Cell<W>],
    more: &[Rule<W>],
    few: &mut Vec<Rule<W>>,
) -> Result<(), NoMemory>
    requires ones { (r : ARule W) → Has more.now r → weight_of r ≡ W.domain.one }
    ensures { OnOk result ((rules : List (ARule W)) (kept : List ℕ) → AreSights W.domain rules kept shapes.now.keys (head_at W.domain cells.now) (offset_at W.domain cells.now)
        → AreAdded W.domain rules few.old.items few.new.items more.now) }
{
    for i in 0..more.len() {
        keep_other(shapes, cells, &more[i], few)?;
    }
    Ok(())
}

/// By what flows are seen to follow from rules: flows among these, and the cells that they have.
#[derive(Drop)]
struct Seen<W: Weight> {
    shapes: Numbered<Shape>,
    cells: Vec<Cell<W>>,
}

/// By what some flows are seen to follow from the rules that stay. Of the flows among these those alone are at hand that lead from where those lead from.
fn sights<W: Weight>(
    alloc: Global,
    count: u32,
    stay: &[Rule<W>],
    over: &[Rule<W>],
    kept: &[u32],
) -> Result<Seen<W>, NoMemory>
    requires ones { (r : ARule W) → Has stay.now r → weight_of r ≡ W.domain.one }
    ensures { IfOk result (λ s. AreSights W.domain stay.now kept.now s.shapes.keys (head_at W.domain s.cells.items) (offset_at W.domain s.cells.items)) }
{
    let marks = sources(alloc, count, over)?;
    let shapes = flows_from(alloc, stay, &marks)?;
    let made = cells_of(alloc, count, stay, kept)?;
    Ok(Seen {
        shapes,
        cells: made.cells,
    })
}

/// The rules without some of those that are marked: flows that follow from the rest. What is marked is a guess at which may follow, and a flow is left out
/// only where it does: where another leads from its source to a node, from which all that the others bring comes to its target. Want of memory is the only
/// refusal.
pub fn thinned<W: Weight>(
    alloc: Global,
    count: u32,
    rules: &[Rule<W>],
    marked: &[bool],
    kept: &[u32],
) -> Result<Vec<Rule<W>>, NoMemory>
    requires ones { (r : ARule W) → Has rules.now r → weight_of r ≡ W.domain.one }
    ensures { IfOk result (λ few. AreThinned W.domain rules.now few.items) }
{
    let Halves { mut stay, over } = parted(alloc, rules, marked)?;
    if over.as_slice().is_empty() {
        return Ok(stay);
    }
    let seen = sights(alloc, count, &stay, &over, kept)?;
    keep_others(&seen.shapes, &seen.cells, &over, &mut stay)?;
    Ok(stay)
}
