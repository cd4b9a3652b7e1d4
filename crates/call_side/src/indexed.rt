//! Base steps with an index.
ghost use Rattle.std.specs.Prelude.{◌≡◌, ◌↔◌, ℕ, List, [], IfNone, IfOk, IfSome, OnOk};
ghost use Rattle.lists.specs.Lists.{Has};
ghost use Rattle.post_star.specs.declared.bases.BaseStep.{BaseStep as AStep};
ghost use Rattle.post_star.specs.Derivations.{Leads, step_of};
ghost use Rattle.call_side.specs.Indexed.{AreFiled};

use super::homes::{Homes, find_homes};
use lists::{ByKey, NoMemory};
use post_star::key::Key;
use post_star::{BaseStep, Bases};
use std::alloc::Global;
use std::marker::Model;

/// Base steps and the last base, with an index of the steps by their base and by their mark, so that a search looks at no other.
#[derive(Drop)]
pub struct IndexedBases {
    steps: Vec<BaseStep>,
    last: u32,
    /// By their base.
    by_base: ByKey<Key, BaseStep>,
    /// By their base and their mark.
    by_mark: ByKey<Key, BaseStep>,
    homes: Homes,
}

impl Model for IndexedBases {
    ghost use Rattle.call_side.specs.Indexed.{BaseList, AreIndexed};

    ghost Value = { BaseList };

    ghost view = { λ b. record { steps = b.steps.items; last = b.last } };

    ghost invariant = { λ b. AreIndexed b.steps.items b.last b.by_base b.by_mark b.homes };
}

// Indexes the steps by their base and by their mark.
fn add_steps(
    by_base: &mut ByKey<Key, BaseStep>,
    by_mark: &mut ByKey<Key, BaseStep>,
    steps: &[BaseStep],
) -> Result<(), NoMemory>
    requires { AreFiled [] by_base.old by_mark.old }
    ensures { OnOk result (AreFiled steps.now by_base.new by_mark.new) }
{
    for step in steps {
        by_base.add(Key::Node(step.base), *step)?;
        by_mark.add(
            Key::Marked {
                node: step.base,
                mark: step.mark,
            },
            *step,
        )?;
    }
    Ok(())
}

impl IndexedBases {
    /// The base steps and the last base, with their index.
    pub fn new(alloc: Global, steps: Vec<BaseStep>, last: u32) -> Result<Self, NoMemory>
        ensures { IfOk result (λ bases. bases ≡ record { steps = steps.items; last = last }) }
    {
        let mut by_base = ByKey::new(alloc);
        let mut by_mark = ByKey::new(alloc);
        add_steps(&mut by_base, &mut by_mark, &steps)?;
        let homes = find_homes(alloc, &steps, last)?;
        Ok(IndexedBases {
            steps,
            last,
            by_base,
            by_mark,
            homes,
        })
    }

    /// The base steps and the last base. Takes no memory.
    pub fn bases(&self) -> Bases<'_>
        ensures steps { result.steps.now ≡ self.now.steps }
        ensures last { result.last ≡ self.now.last }
    {
        Bases {
            steps: &self.steps,
            last: self.last,
        }
    }

    /// A word that leads from a base to the last one; none where no word does.
    pub fn way(&self, alloc: Global, base: u32) -> Result<Option<Vec<u32>>, NoMemory>
        ensures some { IfOk result (λ r. IfSome r (λ way. Leads self.now.steps base way.items self.now.last)) }
        ensures none { IfOk result (λ r. IfNone r ((word : List ℕ) → Leads self.now.steps base word self.now.last → ⊥)) }
    {
        self.homes.way(alloc, base)
    }

    /// The steps that lead from a base. Takes no memory.
    pub fn steps_from(&self, base: u32) -> &[BaseStep]
        ensures { (step : AStep) → Has result.now step ↔ (Has self.now.steps step × (step.base ≡ base)) }
    {
        self.by_base.at(Key::Node(base))
    }

    /// The steps that lead from a base by a mark. Takes no memory.
    pub fn steps_by(&self, base: u32, mark: u32) -> &[BaseStep]
        ensures each { (below : ℕ) → Has result.now (step_of base mark below) ↔ Has self.now.steps (step_of base mark below) }
        ensures only { (step : AStep) → Has result.now step → step ≡ step_of base mark step.below }
    {
        self.by_mark.at(Key::Marked { node: base, mark })
    }
}
