//! The start nodes that the call system of a site asks for.
ghost use Rattle.std.specs.Prelude.{◌≡◌, ◌↔◌, ◌⊎◌, [], ◌∷◌, true, IfOk, IsTrue, OnOk};
ghost use Rattle.lists.specs.Lists.{Has};
ghost use Rattle.spds_tables.specs.declared.numbered.Jump.{Jump as AJump};
ghost use Rattle.spds_tables.specs.declared.numbered.StartAt.{StartAt as AStart};
ghost use Rattle.spds_tables.specs.Tables.{AreArrivals, IsJumpedTo};

use super::numbered::{Jump, StartAt};
use super::parts::Parts;
use super::tables::SiteTables;
use indexmap::IndexSet;
use lists::NoMemory;
use rule_cells::number_of;
use std::alloc::Global;

/// Whether the call system begins already at each node that a static field comes to.
fn all_begun(tables: &SiteTables, jumps: &[Jump]) -> bool
    ensures { IsTrue result ↔ ((jump : AJump) → Has jumps.now jump → Has tables.now.begun jump.to) }
{
    for jump in jumps {
        if !tables.begun.contains(jump.to) {
            return false;
        }
    }
    true
}

/// Asks for the node that a static field comes to, if it is new and the call system arrives.
fn ask_jump(
    tables: &SiteTables,
    arrivals: &IndexSet<u32>,
    cells: &[u32],
    jump: Jump,
    asked: &mut Vec<StartAt>,
) -> Result<(), NoMemory>
    requires { AreArrivals tables.now.calls arrivals.now.keys }
    ensures { OnOk result ((s : AStart) → Has asked.new.items s
        ↔ (Has asked.old.items s ⊎ (IsJumpedTo cells.now (jump ∷ []) tables.now.calls s × (Has tables.now.begun s → ⊥)))) }
{
    if tables.begun.contains(jump.to) {
        return Ok(());
    }
    if arrivals.contains(&number_of(cells, jump.from)) {
        asked.push(jump.to)?;
    }
    Ok(())
}

/// Asks for what static fields come to.
fn ask_jumps(
    tables: &SiteTables,
    arrivals: &IndexSet<u32>,
    cells: &[u32],
    jumps: &[Jump],
    asked: &mut Vec<StartAt>,
) -> Result<(), NoMemory>
    requires { AreArrivals tables.now.calls arrivals.now.keys }
    ensures { OnOk result ((s : AStart) → Has asked.new.items s
        ↔ (Has asked.old.items s ⊎ (IsJumpedTo cells.now jumps.now tables.now.calls s × (Has tables.now.begun s → ⊥)))) }
{
    for jump in jumps {
        ask_jump(tables, arrivals, cells, *jump, asked)?;
    }
    Ok(())
}

/// The nodes that static fields come to, and at which the call system doesn't begin yet. Where it begins at all that there may be, nothing is gathered.
pub fn asked(alloc: Global, parts: &Parts, tables: &SiteTables) -> Result<Vec<StartAt>, NoMemory>
    requires { tables.now.calls.settled ≡ true }
    ensures { IfOk result (λ asked. (s : AStart) → Has asked.items s
        ↔ (IsJumpedTo parts.now.call_cells.items parts.now.jumps.items tables.now.calls s × (Has tables.now.begun s → ⊥))) }
{
    let mut asked = Vec::new(alloc);
    if all_begun(tables, &parts.jumps) {
        return Ok(asked);
    }
    let arrivals = tables.arrivals(alloc)?;
    ask_jumps(
        tables,
        &arrivals,
        &parts.call_cells,
        &parts.jumps,
        &mut asked,
    )?;
    Ok(asked)
}
