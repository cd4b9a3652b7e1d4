//! Call strings as base steps.
ghost use Rattle.std.specs.Prelude.{◌+◌, [], IfOk, OnOk};
ghost use Rattle.link_rules.specs.WellLinked.{IsWellLinked};
ghost use Rattle.call_side.specs.Bases.{AreCallSteps, AreLed, AreStepsUpTo, AreStrings};
ghost use Rattle.call_side.specs.Calls.{AreTheCalls};

use super::calls::Calls;
use link_program::Linked;
use link_sites::Place;
use lists::NoMemory;
use post_star::BaseStep;
use std::alloc::Global;

// Puts the steps of the calls that have the method as a target last.
fn add_steps(
    steps: &mut Vec<BaseStep>,
    linked: &Linked,
    calls: &Calls,
    target: u32,
) -> Result<(), NoMemory>
    requires counted { AreTheCalls linked.now calls.now }
    requires before { AreStepsUpTo linked.now calls.now target [] steps.old.items }
    ensures { OnOk result (AreStepsUpTo linked.now calls.now (target + 1) [] steps.new.items) }
{
    let callers = linked.callers(target);
    for caller in callers {
        let call = Place {
            method: caller.method,
            index: caller.index,
            raised: false,
        };
        if let Some(mark) = calls.mark_of(call) {
            steps.push(BaseStep {
                base: target,
                mark,
                below: caller.method,
            })?;
        }
    }
    Ok(())
}

/// One base step for each call and each of its targets: from the target, by the number of the call, to the method in which the call stands. Each
/// stands once, in the order of targets and of calls. With the root as the last base, a method stands for its call strings.
///
/// In a well linked program each method with statements, and so each that a step names, leads to the root.
pub fn bases(alloc: Global, linked: &Linked, calls: &Calls) -> Result<Vec<BaseStep>, NoMemory>
    requires counted { AreTheCalls linked.now calls.now }
    ensures steps { IfOk result (λ steps. AreCallSteps linked.now calls.now steps.items) }
    ensures strings { IfOk result (λ steps. AreStrings linked.now calls.now steps.items) }
    ensures led { IfOk result (λ steps. IsWellLinked linked.now → AreLed linked.now steps.items) }
{
    linked.tell_form();
    let mut steps = Vec::new(alloc);
    for target in 0..linked.methods() {
        add_steps(&mut steps, linked, calls, target)?;
    }
    Ok(steps)
}
