//! A small graph: arcs with labels, and one number that is a goal.
ghost use Rattle.std.specs.Prelude.{◌≡◌, ◌↔◌, ◌⊎◌, ℕ, OnOk};
ghost use Rattle.lists.specs.Lists.{Has};
ghost use Rattle.cert_rows.specs.declared.graph.Arc.{Arc as AnArc};

use lists::NoMemory;
use std::alloc::Global;
use way_find::{Step, Ways};

/// An arc with its label.
#[derive(Clone, Copy, Debug, PartialEq, Eq)]
pub struct Arc {
    pub from: u32,
    pub label: u32,
    pub to: u32,
}

/// Arcs, and the one number that is a goal.
#[derive(Drop)]
pub struct Arcs<'a> {
    pub arcs: &'a [Arc],
    pub goal: u32,
}

// The step along an arc, where it begins there.
fn push_step(steps: &mut Vec<Step<u32>>, from: u32, arc: Arc) -> Result<(), NoMemory>
    ensures { OnOk result ((label to : ℕ) → Has steps.new.items (record { label = label; to = to })
        ↔ (Has steps.old.items (record { label = label; to = to }) ⊎ (arc ≡ record { from = from; label = label; to = to }))) }
{
    if arc.from == from {
        steps.push(Step {
            label: arc.label,
            to: arc.to,
        })?;
    }
    Ok(())
}

impl<'a> Ways<u32> for Arcs<'a> {
    ghost use Rattle.std.specs.Prelude.{◌≡◌};
    ghost use Rattle.lists.specs.Lists.{Has};

    ghost goes = { λ g from label to. Has g.arcs.now (record { from = from; label = label; to = to }) };

    ghost is_goal = { λ g at. at ≡ g.goal };

    ghost is_ready = { λ g. Unit {0} };

    fn steps(&self, alloc: Global, from: u32) -> Result<Vec<Step<u32>>, NoMemory> {
        let mut steps = Vec::new(alloc);
        for arc in self.arcs {
            push_step(&mut steps, from, *arc)?;
        }
        Ok(steps)
    }

    fn is_goal(&self, at: u32) -> bool {
        at == self.goal
    }
}
