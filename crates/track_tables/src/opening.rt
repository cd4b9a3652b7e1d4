//! The marks of the call strings with which objects begin.
ghost use Rattle.std.specs.Prelude.{◌≡◌, ◌<◌, ◌^◌, ℕ, Some, length, slice_get, IfOk, OnOk};
ghost use Rattle.call_side.specs.Indexed.{IsFiledBy, base_key};
ghost use Rattle.call_side.specs.Trails.{AreKept};
ghost use Rattle.lists.specs.Lists.{Has};
ghost use Rattle.post_star.specs.declared.bases.BaseStep.{BaseStep as AStep};
ghost use Rattle.spds_rules.specs.declared.node.Node.{Node as ANode};
ghost use Rattle.track_tables.specs.Making.{AreOpenFrom, AreTrackParts, IsOpenAbove};

use super::given::{SolvedDemand, node_at};
use super::growth::Growth;
use super::parts::TrackParts;
use lists::{NoMemory, Numbered};
use post_star::BaseStep;
use spds_rules::Node;
use std::alloc::Global;

/// Puts in the method of the node with the number.
fn add_base(nodes: &[Node], number: u32, bases: &mut Numbered<u32>) -> Result<(), NoMemory>
    ensures kept { OnOk result (AreKept bases.old.keys bases.new.keys) }
    ensures has { OnOk result ((n : ANode) → slice_get nodes.now number ≡ Some n → Has bases.new.keys n.place.method) }
{
    if let Some(node) = node_at(nodes, number) {
        bases.add(node.place.method)?;
    }
    Ok(())
}

/// The methods of the nodes with these numbers: the bases from which words begin there.
fn bases_of(alloc: Global, nodes: &[Node], numbers: &[u32]) -> Result<Numbered<u32>, NoMemory>
    ensures { IfOk result (λ bases. (number : ℕ) (n : ANode) → Has numbers.now number → slice_get nodes.now number ≡ Some n → Has bases.keys n.place.method) }
{
    let mut bases = Numbered::new(alloc);
    for number in numbers {
        add_base(nodes, *number, &mut bases)?;
    }
    Ok(bases)
}

/// Opens the marks of these steps, and puts in the bases that they lead to.
fn open_steps(
    steps: &[BaseStep],
    bases: &mut Numbered<u32>,
    marks: &mut Numbered<u32>,
) -> Result<(), NoMemory>
    ensures bases { OnOk result (AreKept bases.old.keys bases.new.keys) }
    ensures marks { OnOk result (AreKept marks.old.keys marks.new.keys) }
    ensures steps { OnOk result ((step : AStep) → Has steps.now step → Has marks.new.keys step.mark × Has bases.new.keys step.below) }
{
    for step in steps {
        marks.add(step.mark)?;
        bases.add(step.below)?;
    }
    Ok(())
}

/// The base that was put in as the one with the number, from 0.
fn base_at(bases: &Numbered<u32>, number: usize) -> Option<u32>
    ensures value { result ≡ slice_get bases.now.keys number }
    ensures few { length bases.now.keys < 2 ^ 63 }
{
    bases.keys().get(number).copied()
}

/// Opens the marks of all words that lead from the bases, and puts in the bases that they come to.
fn open_above(
    parts: &TrackParts,
    bases: &mut Numbered<u32>,
    marks: &mut Numbered<u32>,
) -> Result<(), NoMemory>
    requires { IsFiledBy base_key parts.now.strings.value.steps parts.now.steps }
    ensures bases { OnOk result (AreKept bases.old.keys bases.new.keys) }
    ensures above { OnOk result (IsOpenAbove parts.now.strings.value.steps bases.new.keys marks.new.keys) }
{
    let mut at = 0;
    while let Some(base) = base_at(bases, at) {
        open_steps(parts.steps_from(base), bases, marks)?;
        at += 1;
    }
    Ok(())
}

/// Opens the marks of all words with which objects begin at the nodes that are reached.
pub fn open_strings(
    alloc: Global,
    given: &SolvedDemand<'_>,
    growth: &mut Growth,
) -> Result<(), NoMemory>
    requires { AreTrackParts given.now.linked.now given.now.demand.now given.now.parts.now }
    ensures work { OnOk result (growth.new.work ≡ growth.old.work) }
    ensures reached { OnOk result (growth.new.reached.keys ≡ growth.old.reached.keys) }
    ensures marks { OnOk result ((number : ℕ) (n : ANode) (last : ℕ) → Has growth.old.reached.keys number → slice_get given.now.demand.now.nodes number ≡ Some n
        → AreOpenFrom given.now.parts.now.strings.value.steps n.place.method last growth.new.marks.keys) }
{
    let mut bases = bases_of(alloc, given.demand.nodes(), growth.reached.keys())?;
    open_above(given.parts, &mut bases, &mut growth.marks)?;
    Ok(())
}
