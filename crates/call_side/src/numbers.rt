//! The numbers of nodes and bases: those that split marks bring stand behind all others.
ghost use Rattle.std.specs.Prelude.{◌≡◌, ◌<◌, ◌↔◌, All, IsTrue};
ghost use Rattle.call_side.specs.Coded.{base_count, node_count};
ghost use Rattle.rule_marks.specs.Joined.{source, target};
ghost use Rattle.rule_marks.specs.Sharing.{AreBelow};

use auto_table::Rule;
use post_star::BaseStep;
use weight_laws::Reach;

/// The common mark.
pub const COMMON: u32 = 4_294_967_295;

/// So many nodes there may be. Behind them stand their entries, and then their exits.
pub const NODES: u32 = 1_431_655_765;

/// So many bases there may be.
pub const BASES: u32 = 2_147_483_648;

/// The nodes of a rule.
#[derive(Clone, Copy)]
struct Ends {
    from: u32,
    to: u32,
}

/// The nodes from which and to which a rule leads.
fn ends_of(rule: &Rule<Reach>) -> Ends
    ensures from { result.from ≡ source rule.now }
    ensures to { result.to ≡ target rule.now }
{
    match *rule {
        Rule::Flow { from, to, .. } | Rule::Push { from, to, .. } | Rule::Pop { from, to, .. } =>
            Ends { from, to },
    }
}

/// Whether a rule leads between nodes that there may be.
fn leads_within(rule: &Rule<Reach>) -> bool
    ensures { IsTrue result ↔ ((source rule.now < node_count) × (target rule.now < node_count)) }
{
    let ends = ends_of(rule);
    ends.from < NODES && ends.to < NODES
}

/// Whether the nodes of all rules are among those that there may be.
pub fn rules_fit(rules: &[Rule<Reach>]) -> bool
    ensures { IsTrue result ↔ AreBelow node_count rules.now }
{
    rules.iter().all(|rule| leads_within(rule))
}

/// Whether the bases of a step are among those that there may be.
fn stands_within(step: &BaseStep) -> bool
    ensures { IsTrue result ↔ ((step.now.base < base_count) × (step.now.below < base_count)) }
{
    step.base < BASES && step.below < BASES
}

/// Whether the bases of all steps are.
pub fn steps_fit(steps: &[BaseStep]) -> bool
    ensures { IsTrue result ↔ All (λ s. (s.base < base_count) × (s.below < base_count)) steps.now }
{
    steps.iter().all(|step| stands_within(step))
}

/// As many nodes as the numbers in the rules stand below. It only tells how much room is worth having.
pub fn count_nodes(rules: &[Rule<Reach>]) -> usize {
    let mut count: usize = 0;
    for rule in rules {
        let ends = ends_of(rule);
        count = count.max(ends.from as usize + 1).max(ends.to as usize + 1);
    }
    count
}
