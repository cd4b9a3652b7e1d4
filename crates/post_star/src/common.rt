ghost use Rattle.std.specs.Prelude.{◌≡◌, [], IfOk};
ghost use Rattle.post_star.specs.Derivations.{IsLed};
ghost use Rattle.post_star.specs.Index.{IsIndex};
ghost use Rattle.post_star.specs.Works.{AreTold, weight_of};

use super::bases::{BaseStep, Bases};
use super::index::Index;
use auto_table::Rule;
use lists::NoMemory;
use std::alloc::Global;
use std::marker::Model;
use weight_laws::Weight;

/// The weight of a rule in hand is meant.
pub fn tell_rule<W: Weight>(rule: &Rule<W>)
    ensures { W.domain.IsMeant (weight_of rule.now) }
{
    match *rule {
        Rule::Flow { weight, .. } => weight.told(),
        Rule::Push { weight, .. } => weight.told(),
        Rule::Pop { weight, .. } => weight.told(),
    }
}

/// The weights of rules in hand are meant.
fn tell_rules<W: Weight>(rules: &[Rule<W>])
    ensures { AreTold W.domain rules.now }
{
    for rule in rules {
        tell_rule(rule);
    }
}

/// What many works have in common: rules and base steps, with their index, and the last base. It doesn't change.
#[derive(Drop)]
pub struct Common<W: Weight> {
    rules: Vec<Rule<W>>,
    steps: Vec<BaseStep>,
    last: u32,
    index: Index<W>,
}

impl<W: Weight> Model for Common<W> {
    ghost use Rattle.post_star.specs.Jobs.{Stock};

    ghost Value = { Stock W };

    ghost use Rattle.post_star.specs.Jobs.{IsStock};

    ghost view = { λ c. record { rules = c.rules.items; steps = c.steps.items; last = c.last } };

    ghost invariant = { λ c. IsStock W.domain c.rules.items c.steps.items c.last c.index };
}

impl<W: Weight> Common<W> {
    /// These rules and base steps, and this last base. Want of memory is the only refusal.
    ///
    /// Each base that a step names leads to the last one by some word.
    pub fn new(
        alloc: Global,
        rules: Vec<Rule<W>>,
        steps: Vec<BaseStep>,
        last: u32,
    ) -> Result<Self, NoMemory>
        requires led { IsLed {W = W} [] steps.items last }
        ensures { IfOk result (λ c. c ≡ record { rules = rules.items; steps = steps.items; last = last }) }
    {
        tell_rules(&rules);
        let mut index = Index::new(alloc);
        index.add_steps(&steps, 0)?;
        index.add_rules(&rules, 0)?;
        Ok(Common {
            rules,
            steps,
            last,
            index,
        })
    }

    /// The rules.
    pub fn rules(&self) -> &[Rule<W>]
        ensures value { result.now ≡ self.now.rules }
        ensures told { AreTold W.domain self.now.rules }
    {
        &self.rules
    }

    /// The base steps and the last base.
    pub fn bases(&self) -> Bases<'_>
        ensures steps { result.steps.now ≡ self.now.steps }
        ensures last { result.last ≡ self.now.last }
        ensures led { IsLed {W = W} [] self.now.steps self.now.last }
    {
        Bases {
            steps: &self.steps,
            last: self.last,
        }
    }

    /// Where the rules and the base steps are looked for.
    pub fn index(&self) -> &Index<W>
        ensures { IsIndex self.now.rules self.now.steps result.now }
    {
        &self.index
    }
}
