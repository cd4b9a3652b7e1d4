//! Steps of the machine.
use jim_step::{Machine, start};
use link_program::Linked;
use link_sites::Place;
use linked_text::linked_of;
use lists::NoMemory;
use std::alloc::Global;
use std::test::Fail;

// A list that gets longer in a loop, each cell by a call.
const TEXT: &str = "class Cell { Cell next; }
class Main { static Cell more(Cell) { Cell c, d; c := @parameter0: Cell; d = new Cell; d.<Cell: Cell next> = c; return d; }
static void main(java.lang.String[]) { Cell c; c = null; again: c = staticinvoke <Main: Cell more(Cell)>(c); goto again; } }";

// The program, looked at once more where there was no memory.
fn linked(alloc: Global) -> Option<Linked> {
    match linked_of(alloc, TEXT) {
        Some(Ok(linked)) => Some(linked),
        _ => linked_of(alloc, TEXT)?.ok(),
    }
}

// How many frames there are, and where the top one stands.
fn top(machine: &Machine<'_>) -> Option<(u32, Place)> {
    let frames = machine.frames();
    if frames == 0 {
        return None;
    }
    Some((frames, machine.place(frames - 1)))
}

// Makes a step, once more where there was no memory; whether all was as before then. None where the run has ended.
fn stepped(alloc: Global, machine: &mut Machine<'_>) -> Result<Option<bool>, NoMemory> {
    if machine.choices() == 0 {
        return Ok(None);
    }
    let before = top(machine);
    if machine.step(alloc, 0).is_ok() {
        return Ok(Some(true));
    }
    let kept = top(machine) == before && machine.choices() > 0;
    if machine.choices() == 0 {
        return Ok(None);
    }
    machine.step(alloc, 0)?;
    Ok(Some(kept))
}

// Makes so many steps; whether all went on.
fn goes_on(alloc: Global, machine: &mut Machine<'_>, steps: u32) -> Result<bool, NoMemory> {
    for _ in 0..steps {
        if stepped(alloc, machine)? != Some(true) {
            return Ok(false);
        }
    }
    Ok(true)
}

// So many steps of the program, and where they lead.
fn place_behind(
    alloc: Global,
    linked: &Linked,
    steps: u32,
) -> Result<Option<(u32, Place)>, NoMemory> {
    let mut machine = match start(alloc, linked) {
        Ok(machine) => machine,
        Err(_) => start(alloc, linked)?,
    };
    if goes_on(alloc, &mut machine, steps)? {
        Ok(top(&machine))
    } else {
        Ok(None)
    }
}

// A statement of the method with this number.
fn place(method: u32, index: u32) -> Place {
    Place {
        method,
        index,
        raised: false,
    }
}

// Steps, how many frames there are behind them, and where the top one stands. The root's four and one of `main` lead to the loop, each turn of which makes
// six: the call, four in the method, whose number is 0, and the jump back. So 40 steps end five behind the beginning of a turn, before the jump, and 200 end
// three behind one, before the store.
fn ends() -> [(u32, u32, Place); 2] {
    [(40, 2, place(1, 2)), (200, 3, place(0, 2))]
}

#[test]
fn machines_go_on(rt: HostRuntime) -> Result<(), Fail> {
    let linked = linked(rt.alloc());
    assert!(rt; linked.is_some());
    if let Some(linked) = &linked {
        for (steps, frames, at) in ends() {
            let found = place_behind(rt.alloc(), linked, steps)?;
            assert!(rt; found == Some((frames, at)));
        }
    }
    Ok(())
}
