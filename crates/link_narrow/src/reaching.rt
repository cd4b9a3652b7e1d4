//! Which methods are still reached.
ghost use Rattle.std.specs.Prelude.{◌≡◌, ◌<◌, ◌+◌, ℕ, Some, IfOk, OnOk, length, slice_get};
ghost use Rattle.lists.specs.Grown.{IsGrownBy};
ghost use Rattle.lists.specs.Lists.{Has};
ghost use Rattle.link_rules.specs.Linked.{LinkedMethod};
ghost use Rattle.link_narrow.specs.Reaching.{AreReached, StaysAmong, StaysBefore, StaysFrom};

use super::names::{Named, Spot};
use jim_ast::Mode;
use link_indexes::Place;
use link_program::Linked;
use link_rules::Code;
use lists::Numbered;
use std::alloc::{AllocError, Global};

// Finds those targets of the call at a place that stay.
fn find_targets(
    found: &mut Numbered<u32>,
    named: &Named<'_>,
    place: Place,
    mode: Mode,
    targets: &[u32],
) -> Result<(), AllocError>
    ensures { OnOk result (IsGrownBy (StaysAmong named.now place.method place.index mode targets.now (length targets.now)) found.old.keys found.new.keys) }
{
    for target in targets {
        let spot = Spot {
            method: place.method,
            index: place.index,
            target: *target,
        };
        if named.stays(mode, spot) {
            found.add(*target)?;
        }
    }
    Ok(())
}

// Finds the targets of the statement at a place that stay.
fn find_at(
    found: &mut Numbered<u32>,
    named: &Named<'_>,
    place: Place,
    code: &Code,
) -> Result<(), AllocError>
    ensures { OnOk result (IsGrownBy (StaysFrom named.now place.method place.index code.now) found.old.keys found.new.keys) }
{
    match code {
        Code::Call { mode, targets, .. } => {
            find_targets(found, named, place, *mode, targets.as_slice())
        }
        _ => Ok(()),
    }
}

// Finds the targets of a method's statements that stay.
fn find_in(
    found: &mut Numbered<u32>,
    named: &Named<'_>,
    method: u32,
    codes: &[Code],
) -> Result<(), AllocError>
    ensures { OnOk result (IsGrownBy (StaysBefore named.now method codes.now (length codes.now)) found.old.keys found.new.keys) }
{
    for (at, code) in codes.iter().enumerate() {
        let Ok(index) = u32::try_from(at) else {
            return Err(AllocError);
        };
        find_at(found, named, Place { method, index }, code)?;
    }
    Ok(())
}

/// The methods that the root reaches by targets that stay. Each is looked at once.
pub fn reached(
    alloc: Global,
    linked: &Linked,
    named: &Named<'_>,
) -> Result<Numbered<u32>, AllocError>
    ensures { IfOk result (λ found. AreReached linked.now named.now found.keys) }
{
    linked.tell_form();
    let mut found = Numbered::new(alloc);
    found.add(linked.root())?;
    let mut at = 0;
    while (at as usize) < found.len() {
        let number = found.key(at);
        find_in(&mut found, named, number, linked.code(number))?;
        at += 1;
    }
    Ok(found)
}
