//! Rules that weigh one, each once.
ghost use Rattle.std.specs.Prelude.{◌≡◌, ◌↔◌, ◌⊎◌, IfOk, OnOk};
ghost use Rattle.auto_table.specs.declared.rule.Rule.{Rule as ARule};
ghost use Rattle.lists.specs.Lists.{Has};
ghost use Rattle.post_star.specs.Works.{weight_of};
ghost use Rattle.rule_cells.specs.Distinct.{AreShapes, shape_of};

use auto_table::Rule;
use lists::{Key, NoMemory, Numbered};
use std::alloc::Global;
use weight_laws::Weight;

/// What a rule says but for its weight.
#[derive(Clone, Copy, Debug, PartialEq, Eq)]
pub enum Shape {
    Flow { from: u32, to: u32 },
    Push { from: u32, to: u32, mark: u32 },
    Pop { from: u32, mark: u32, to: u32 },
}

impl Key for Shape {
    ghost use Rattle.std.proofs.Common.{rules};
    ghost use Rattle.rule_cells.specs.Distinct.{shape_spread};

    ghost spread = { shape_spread };

    fn spread(self) -> u64 {
        match self {
            Shape::Flow { from, to } => from as u64 * 4_294_967_296 + to as u64,
            Shape::Push { from, to, .. } => from as u64 * 4_294_967_296 + to as u64,
            Shape::Pop { from, to, .. } => from as u64 * 4_294_967_296 + to as u64,
        }
    }

    ghost same = { Prim.search rules };
}

/// The shape of a rule.
pub fn shape_of<W: Weight>(rule: &Rule<W>) -> Shape
    ensures { result ≡ shape_of rule.now }
{
    match *rule {
        Rule::Flow { from, to, .. } => Shape::Flow { from, to },
        Rule::Push { from, to, mark, .. } => Shape::Push { from, to, mark },
        Rule::Pop { from, mark, to, .. } => Shape::Pop { from, mark, to },
    }
}

/// Puts the rule last, if none of its shape is there.
pub fn add_new<W: Weight>(
    rule: &Rule<W>,
    shapes: &mut Numbered<Shape>,
    few: &mut Vec<Rule<W>>,
) -> Result<(), NoMemory>
    requires one { weight_of rule.now ≡ W.domain.one }
    requires shapes { AreShapes W.domain shapes.old.keys few.old.items }
    ensures shapes { OnOk result (AreShapes W.domain shapes.new.keys few.new.items) }
    ensures rules { OnOk result ((r : ARule W) → Has few.new.items r ↔ (Has few.old.items r ⊎ (r ≡ rule.now))) }
{
    let (_, is_new) = shapes.add(shape_of(rule))?;
    if is_new {
        few.push(*rule)?;
    }
    Ok(())
}

/// The same rules, each once: in a system one that stands twice says nothing more. Want of memory is the only refusal.
pub fn distinct<W: Weight>(alloc: Global, rules: &[Rule<W>]) -> Result<Vec<Rule<W>>, NoMemory>
    requires ones { (r : ARule W) → Has rules.now r → weight_of r ≡ W.domain.one }
    ensures { IfOk result (λ few. (r : ARule W) → Has few.items r ↔ Has rules.now r) }
{
    let mut shapes = Numbered::new(alloc);
    let mut few = Vec::new(alloc);
    for i in 0..rules.len() {
        add_new(&rules[i], &mut shapes, &mut few)?;
    }
    Ok(few)
}
