//! What call works have in common.
ghost use Rattle.std.specs.Prelude.{◌≡◌, [], IfOk};
ghost use Rattle.call_side.specs.Coded.{IsCoded};
ghost use Rattle.post_star.specs.Derivations.{IsLed};
ghost use Rattle.weight_laws.specs.declared.reach.Reach.{Reach as AReach};

use super::numbers::rules_fit;
use super::split_bases::CallBases;
use auto_table::Rule;
use lists::NoMemory;
use post_star::copies::copied;
use post_star::{BaseStep, Common};
use std::alloc::{AllocError, Global};
use std::marker::Model;
use std::sync::Arc;
use weight_laws::Reach;

/// What call works have in common: rules, base steps and the last base. It doesn't change. What is saturated has split marks.
#[derive(Drop)]
pub struct CallCommon {
    rules: Vec<Rule<Reach>>,
    steps: Vec<BaseStep>,
    split: Arc<Common<Reach>>,
}

impl Model for CallCommon {
    ghost use Rattle.post_star.specs.Jobs.{Stock};
    ghost use Rattle.weight_laws.specs.declared.reach.Reach.{Reach};

    ghost Value = { Stock Reach };

    ghost use Rattle.call_side.specs.Coded.{IsCoded};

    ghost view = { λ c. record { rules = c.rules.items; steps = c.steps.items; last = c.split.value.last } };

    ghost invariant = { λ c. IsCoded c.rules.items c.steps.items c.split.value.last c.split.value.rules c.split.value.steps };
}

impl CallCommon {
    /// These rules, over base steps. Want of memory is the only refusal.
    ///
    /// Each base that a step names leads to the last one by some word.
    pub fn new(alloc: Global, rules: Vec<Rule<Reach>>, bases: &CallBases) -> Result<Self, NoMemory>
        requires led { IsLed {W = AReach} [] bases.now.steps bases.now.last }
        ensures { IfOk result (λ common. common ≡ record { rules = rules.items; steps = bases.now.steps; last = bases.now.last }) }
    {
        if !rules_fit(&rules) {
            return Err(AllocError);
        }
        let steps = copied(alloc, bases.steps())?;
        let split_bases = bases.split().bases();
        let split_steps = copied(alloc, split_bases.steps)?;
        let split_rules = bases.split_rules(alloc, &rules)?;
        let common = Common::new(alloc, split_rules, split_steps, split_bases.last)?;
        let split = Arc::new(alloc, common)?;
        Ok(CallCommon {
            rules,
            steps,
            split,
        })
    }

    /// What is saturated.
    pub fn split(&self) -> Result<Arc<Common<Reach>>, NoMemory>
        ensures coded { IfOk result (λ split. IsCoded self.now.rules self.now.steps self.now.last split.value.rules split.value.steps) }
        ensures last { IfOk result (λ split. split.value.last ≡ self.now.last) }
    {
        Ok(self.split.clone()?)
    }
}
