//! The rules between heads.
ghost use Rattle.std.specs.Prelude.{◌≡◌, ◌↔◌, IsTrue, IfOk};
ghost use Rattle.post_star.specs.Measures.{to_of};
ghost use Rattle.rule_cells.specs.Cells.{AreContracted, moved as moved_rule};
ghost use Rattle.rule_cells.specs.Made.{AreSources, head_at, offset_at};

use super::cells::{Cell, cell_of};
use super::entered::target;
use auto_table::Rule;
use lists::NoMemory;
use std::alloc::Global;
use weight_laws::Weight;

/// The rules of a contracted system, and of each its number among the rules that were contracted.
#[derive(Drop)]
pub struct Contracted<W: Weight> {
    pub rules: Vec<Rule<W>>,
    pub sources: Vec<usize>,
}

/// Whether a rule leads to a head.
fn leads_to_head<W: Weight>(cells: &[Cell<W>], rule: &Rule<W>) -> bool
    ensures { IsTrue result ↔ (head_at W.domain cells.now (to_of rule.now) ≡ to_of rule.now) }
{
    let to = target(rule);
    cell_of(cells, to).head == to
}

/// The rule from the head of its source, with the offset of the source before its weight.
fn moved<W: Weight>(cells: &[Cell<W>], rule: &Rule<W>) -> Rule<W>
    ensures { result ≡ moved_rule W.domain (head_at W.domain cells.now) (offset_at W.domain cells.now) rule.now }
{
    match *rule {
        Rule::Flow { from, to, weight } => {
            let cell = cell_of(cells, from);
            Rule::Flow {
                from: cell.head,
                to,
                weight: cell.offset.extend(weight),
            }
        }
        Rule::Push {
            from,
            to,
            mark,
            weight,
        } => {
            let cell = cell_of(cells, from);
            Rule::Push {
                from: cell.head,
                to,
                mark,
                weight: cell.offset.extend(weight),
            }
        }
        Rule::Pop {
            from,
            mark,
            to,
            weight,
        } => {
            let cell = cell_of(cells, from);
            Rule::Pop {
                from: cell.head,
                mark,
                to,
                weight: cell.offset.extend(weight),
            }
        }
    }
}

/// The rules that lead to heads, moved to the heads of their sources, in their order. Want of memory is the only refusal.
pub fn contract<W: Weight>(
    alloc: Global,
    cells: &[Cell<W>],
    rules: &[Rule<W>],
) -> Result<Contracted<W>, NoMemory>
    ensures rules { IfOk result (λ c. AreContracted W.domain (head_at W.domain cells.now) (offset_at W.domain cells.now) rules.now c.rules.items) }
    ensures sources { IfOk result (λ c. AreSources W.domain cells.now rules.now c.rules.items c.sources.items) }
{
    let mut few = Vec::new(alloc);
    let mut sources = Vec::new(alloc);
    for number in 0..rules.len() {
        let rule = rules[number];
        if leads_to_head(cells, &rule) {
            few.push(moved(cells, &rule))?;
            sources.push(number)?;
        }
    }
    Ok(Contracted {
        rules: few,
        sources,
    })
}
