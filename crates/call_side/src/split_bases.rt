//! Base steps with split marks.
ghost use Rattle.std.specs.Prelude.{◌≡◌, [], IfOk};
ghost use Rattle.call_side.specs.Coded.{IsCoded, node_count, splitting};
ghost use Rattle.rule_marks.specs.Making.{AreSplitRules};
ghost use Rattle.rule_marks.specs.Sharing.{AreBelow};
ghost use Rattle.weight_laws.specs.Reach.{reach_domain};

use super::crowd::crowded;
use super::indexed::IndexedBases;
use super::numbers::{BASES, COMMON, NODES, count_nodes, steps_fit};
use auto_table::Rule;
use lists::NoMemory;
use post_star::BaseStep;
use rule_marks::{Marks, split_rules, split_steps};
use std::alloc::{AllocError, Global};
use std::marker::Model;
use weight_laws::Reach;

/// Base steps and the last base of call systems. The steps tell which marks are split.
#[derive(Drop)]
pub struct CallBases {
    steps: Vec<BaseStep>,
    /// Whether a mark is one of a crowd, by number.
    crowds: Vec<bool>,
    /// The steps with split marks.
    split: IndexedBases,
}

impl Model for CallBases {
    ghost use Rattle.call_side.specs.Indexed.{BaseList};

    ghost Value = { BaseList };

    ghost use Rattle.call_side.specs.Coded.{AreCodedBases};

    ghost view = { λ b. record { steps = b.steps.items; last = b.split.last } };

    ghost invariant = { λ b. AreCodedBases b.steps.items b.crowds.items b.split };
}

/// The marks that are split.
fn marks_of(crowds: &[bool]) -> Marks<'_>
    ensures crowds { result.are_split.now ≡ crowds.now }
    ensures common { result.common ≡ 4294967295 }
    ensures nodes { result.nodes ≡ 1431655765 }
    ensures bases { result.bases ≡ 2147483648 }
{
    Marks {
        are_split: crowds,
        common: COMMON,
        nodes: NODES,
        bases: BASES,
    }
}

impl CallBases {
    /// These base steps and this last base. Want of memory is the only refusal.
    pub fn new(alloc: Global, steps: Vec<BaseStep>, last: u32) -> Result<Self, NoMemory>
        ensures { IfOk result (λ bases. bases ≡ record { steps = steps.items; last = last }) }
    {
        if last >= BASES || !steps_fit(&steps) {
            return Err(AllocError);
        }
        let crowds = crowded(alloc, &steps)?;
        let marks = marks_of(&crowds);
        let split = split_steps(alloc, &marks, &steps)?;
        let split = IndexedBases::new(alloc, split, last)?;
        Ok(CallBases {
            steps,
            crowds,
            split,
        })
    }

    /// The steps.
    pub fn steps(&self) -> &[BaseStep]
        ensures { result.now ≡ self.now.steps }
    {
        &self.steps
    }

    /// The steps with split marks.
    pub fn split(&self) -> &IndexedBases
        ensures coded { IsCoded [] self.now.steps self.now.last [] result.now.steps }
        ensures last { result.now.last ≡ self.now.last }
    {
        &self.split
    }

    /// Rules with split marks.
    pub fn split_rules(
        &self,
        alloc: Global,
        rules: &[Rule<Reach>],
    ) -> Result<Vec<Rule<Reach>>, NoMemory>
        requires { AreBelow node_count rules.now }
        ensures { IfOk result (λ made. AreSplitRules reach_domain (splitting self.now.steps) rules.now made.items) }
    {
        let marks = marks_of(&self.crowds);
        let count = if self.crowds.is_empty() {
            0
        } else {
            count_nodes(rules)
        };
        split_rules(alloc, &marks, count, rules)
    }
}
