//! The run that digits name.
ghost use Rattle.std.specs.Prelude.{◌≡◌, All, IfOk, drop, get_or};
ghost use Rattle.std.specs.Char.{IsAsciiDigit};
ghost use Rattle.link_rules.specs.WellLinked.{IsInForm};
ghost use Rattle.run_report.specs.Named.{IsRunTo, NamedStep, digits_of};
ghost use Rattle.step_rules.specs.Runs.{IsFirstState};
ghost use Rattle.step_rules.specs.States.{running};
ghost use Rattle.step_rules.specs.Steps.{told};

use jim_step::Machine;
use lists::NoMemory;
use std::alloc::Global;
use step_rules::Moved;

/// Where a step leads, and how many digits are used then.
#[derive(Clone, Copy)]
struct Advanced {
    moved: Moved,
    used: usize,
}

/// How many steps were made, and where the last one led.
#[derive(Clone, Copy)]
pub(crate) struct Ran {
    pub made: u32,
    pub moved: Moved,
}

// The choice that the next digit names: the first one where no digit is left.
fn wanted(digits: &[u8], used: usize) -> u32
    requires { All IsAsciiDigit digits.now }
    ensures { result ≡ get_or (drop used (digits_of digits.now)) 0 0 }
{
    match digits.get(used) {
        Some(digit) => u32::from(*digit - b'0'),
        None => 0,
    }
}

// Makes a step of the run that digits name, of which so many are used. A digit too large counts as the last choice, and where there is one choice alone
// none is used.
fn advance(
    alloc: Global,
    machine: &mut Machine<'_>,
    digits: &[u8],
    used: usize,
) -> Result<Advanced, NoMemory>
    requires form { IsInForm machine.old.program }
    requires digits { All IsAsciiDigit digits.now }
    requires running { machine.old.state.ending ≡ running }
    ensures program { machine.new.program ≡ machine.old.program }
    ensures step { IfOk result (λ a. NamedStep machine.old.program (digits_of digits.now) used machine.old.state a.used machine.new.state) }
    ensures moved { IfOk result (λ a. a.moved ≡ told machine.new.state.ending) }
{
    let turned = machine.turn(alloc, wanted(digits, used))?;
    let moved = turned.moved;
    if turned.choices < 2 || used >= digits.len() {
        return Ok(Advanced { moved, used });
    }
    Ok(Advanced {
        moved,
        used: used + 1,
    })
}

/// Makes at most so many steps of the run that digits name, from its first state on.
pub(crate) fn run_to(
    alloc: Global,
    machine: &mut Machine<'_>,
    steps: u32,
    digits: &[u8],
) -> Result<Ran, NoMemory>
    requires form { IsInForm machine.old.program }
    requires digits { All IsAsciiDigit digits.now }
    requires first { IsFirstState machine.old.program machine.old.state }
    ensures program { machine.new.program ≡ machine.old.program }
    ensures run { IfOk result (λ ran. IsRunTo machine.old.program (digits_of digits.now) steps ran.made machine.new.state) }
    ensures moved { IfOk result (λ ran. ran.moved ≡ told machine.new.state.ending) }
{
    let mut made = 0;
    let mut moved = Moved::Went;
    let mut used = 0;
    while made < steps && moved == Moved::Went {
        let advanced = advance(alloc, machine, digits, used)?;
        moved = advanced.moved;
        used = advanced.used;
        made += 1;
    }
    Ok(Ran { made, moved })
}
