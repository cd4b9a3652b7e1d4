ghost use Rattle.std.specs.Prelude.{◌≡◌};
ghost use Rattle.auto_table.specs.declared.rule.Rule.TheVariants.{Pop, Push};
ghost use Rattle.post_star.specs.Derivations.{step_of};
ghost use Rattle.rule_marks.specs.Sharing.{AreBelow};

use auto_table::Rule;
use lists::NoMemory;
use post_star::BaseStep;
use rule_marks::{Marks, split_rules, split_steps};
use std::alloc::Global;
use std::test::Fail;
use weight_laws::Least;

fn push(from: u32, to: u32, mark: u32, weight: u32) -> Rule<Least>
    ensures { result ≡ Push from to mark (record { 0 = weight }) }
{
    Rule::Push {
        from,
        to,
        mark,
        weight: Least(weight),
    }
}

fn pop(from: u32, mark: u32, to: u32, weight: u32) -> Rule<Least>
    ensures { result ≡ Pop from mark to (record { 0 = weight }) }
{
    Rule::Pop {
        from,
        mark,
        to,
        weight: Least(weight),
    }
}

/// Two calls, 7 and 8, whose marks are split, into node 2, and back from node 3; and one whose mark isn't.
fn two_calls() -> [Rule<Least>; 6]
    ensures { AreBelow 4 result }
{
    [
        push(0, 2, 7, 1),
        push(1, 2, 8, 2),
        Rule::Flow {
            from: 2,
            to: 3,
            weight: Least(3),
        },
        pop(3, 7, 0, 4),
        pop(3, 8, 1, 5),
        push(2, 0, 6, 6),
    ]
}

const SPLIT: &[bool] = &[false, false, false, false, false, false, false, true, true];

/// Entries are 4 to 7, exits 8 to 11; bases below are 2 and 3.
fn marks() -> Marks<'static>
    ensures nodes { result.nodes ≡ 4 }
    ensures bases { result.bases ≡ 2 }
{
    Marks {
        are_split: SPLIT,
        common: 9,
        nodes: 4,
        bases: 2,
    }
}

fn rules_hold(alloc: Global) -> Result<bool, NoMemory> {
    let made = split_rules(alloc, &marks(), 4, &two_calls())?;
    let wanted = [
        push(0, 6, 7, 1),
        push(6, 2, 9, 0),
        push(1, 6, 8, 2),
        Rule::Flow {
            from: 2,
            to: 3,
            weight: Least(3),
        },
        pop(11, 7, 0, 4),
        pop(3, 9, 11, 0),
        pop(11, 8, 1, 5),
        push(2, 0, 6, 6),
    ];
    Ok(made.as_slice() == wanted.as_slice())
}

fn step(base: u32, mark: u32, below: u32) -> BaseStep
    ensures { result ≡ step_of base mark below }
{
    BaseStep { base, mark, below }
}

fn steps_hold(alloc: Global) -> Result<bool, NoMemory> {
    let made = split_steps(alloc, &marks(), &[step(1, 7, 0), step(0, 6, 1)])?;
    let wanted = [step(1, 9, 3), step(3, 7, 0), step(0, 6, 1)];
    Ok(made.as_slice() == wanted.as_slice())
}

#[test]
fn marks_are_split(rt: HostRuntime) -> Result<(), Fail> {
    assert!(rt; rules_hold(rt.alloc())?);
    assert!(rt; steps_hold(rt.alloc())?);
    Ok(())
}
