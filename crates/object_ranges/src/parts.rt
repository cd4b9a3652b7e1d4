//! The places between which objects select the same.
ghost use Rattle.std.specs.Prelude.{◌≡◌, ◌<◌, ◌≤◌, ◌^◌, ℕ, IfOk, None, OnOk, length};
ghost use Rattle.std.specs.List.Sorted.{IsNonDecreasingBy};
ghost use Rattle.class_tree.specs.Turns.{turned};
ghost use Rattle.default_turns.specs.Turns.{defaults_at};
ghost use Rattle.object_ranges.specs.Parts.{AreInOrder, ArePartsTo, TellParts, SelectAlike};
ghost use Rattle.object_ranges.specs.Selections.{IsSteady, selected_at};
ghost use Rattle.object_ranges.specs.declared.selection.Selection.{Selection as ASelection};

use super::minima::Minima;
use super::selection::{Selection, selection_of};
use class_tree::{Defaults, Turn};
use default_turns::DefaultTurn;
use std::alloc::{AllocError, Global};

/// From the classes that may have objects, at the places from `start` up to `end`, without `end`, this is selected.
#[derive(Clone, Copy)]
pub struct Part {
    pub start: u32,
    pub end: u32,
    pub selection: Selection,
}

// One part more, behind the others: nothing where no class in it may have objects, and the last part goes on where the same is selected.
fn add(parts: &mut Vec<Part>, objects: &Minima, part: Part) -> Result<(), AllocError>
    ensures { (select : ℕ → ASelection) → part.start ≤ part.end → SelectAlike objects.now select part → ArePartsTo objects.now select part.start parts.old.items
        → OnOk result (ArePartsTo objects.now select part.end parts.new.items) }
{
    if objects
        .least(part.start as usize, part.end as usize)
        .is_none()
    {
        return Ok(());
    }
    if let Some(last) = parts.pop() {
        if last.selection == part.selection {
            parts.push(Part {
                end: part.end,
                ..last
            })?;
            return Ok(());
        }
        parts.push(last)?;
    }
    parts.push(part)?;
    Ok(())
}

// The row of the look-up along the parents at a place, and up to where it stays the same.
fn row_from(turns: &[Turn], place: u32, end: u32) -> (Option<u32>, u32)
    requires rising { IsNonDecreasingBy (λ t. t.at) turns.now }
    requires before { place < end }
    ensures row { result.0 ≡ turned None turns.now place }
    ensures steady { IsSteady (turned None turns.now) place end result.1 }
{
    let after = turns.partition_point(|turn| turn.at <= place);
    let row = if after > 0 {
        turns[after - 1].row
    } else {
        None
    };
    let until = if after < turns.len() {
        end.min(turns[after].at)
    } else {
        end
    };
    (row, until)
}

// The default methods that are reached from a place, and up to where they stay the same.
fn defaults_from(turns: &[DefaultTurn], place: u32, end: u32) -> (Defaults, u32)
    requires rising { IsNonDecreasingBy (λ t. t.at) turns.now }
    requires before { place < end }
    ensures defaults { result.0 ≡ defaults_at turns.now place }
    ensures steady { IsSteady (defaults_at turns.now) place end result.1 }
{
    let after = turns.partition_point(|turn| turn.at <= place);
    let defaults = if after > 0 {
        turns[after - 1].defaults
    } else {
        Defaults::Nothing
    };
    let until = if after < turns.len() {
        end.min(turns[after].at)
    } else {
        end
    };
    (defaults, until)
}

/// The parts of the turns of a key: of look-ups along the parents, and of default methods. Each part has a class that may have objects, and neighbours have
/// different selections.
pub fn parts_of(
    alloc: Global,
    turns: &[Turn],
    defaults: &[DefaultTurn],
    objects: &Minima,
) -> Result<Vec<Part>, AllocError>
    requires turns { IsNonDecreasingBy (λ t. t.at) turns.now }
    requires defaults { IsNonDecreasingBy (λ t. t.at) defaults.now }
    requires few { length objects.now < 2 ^ 32 }
    ensures in_order { IfOk result (λ parts. AreInOrder parts.items) }
    ensures told { IfOk result (λ parts. TellParts objects.now (selected_at turns.now defaults.now) parts.items) }
{
    let mut parts = Vec::new(alloc);
    let count = objects.len() as u32;
    let mut start = 0;
    while start < count {
        let (row, until) = row_from(turns, start, count);
        let (found, end) = defaults_from(defaults, start, until);
        let selection = selection_of(row, found);
        let part = Part {
            start,
            end,
            selection,
        };
        add(&mut parts, objects, part)?;
        start = end;
    }
    Ok(parts)
}
