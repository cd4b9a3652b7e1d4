//! From which places default methods of a key are reached.
ghost use Rattle.std.specs.Prelude.{◌<◌, IfOk, OnOk, length};
ghost use Rattle.std.specs.List.Sorted.{IsNonDecreasingBy};
ghost use Rattle.class_order.specs.Spans.{AreApart};
ghost use Rattle.class_tree.specs.Layouts.{LaysOut};
ghost use Rattle.default_turns.specs.Blocks.{AreKnown};
ghost use Rattle.default_turns.specs.Holders.{AreHoldersOf};
ghost use Rattle.default_turns.specs.Hops.{IsLine};
ghost use Rattle.default_turns.specs.Stays.{AddsBare, AddsStay, AddsStaysOf, AreStays};

use super::blocks::Blocks;
use super::hiding::hidden_from;
use super::holders::{PlacedTree, holders_of};
use super::hops::{Line, hops_of};
use class_order::Span;
use std::alloc::{AllocError, Global};

/// The classes at the places from `start` up to `end`, without `end`, reach the default method of this row.
#[derive(Clone, Copy)]
pub(crate) struct Stay {
    pub row: u32,
    pub start: u32,
    pub end: u32,
}

// One stay, if there are such places. At its end stands one more that is empty, so that there too a stay begins.
fn add_stay(stays: &mut Vec<Stay>, row: u32, start: u32, end: u32) -> Result<(), AllocError>
    ensures { OnOk result (AddsStay row start end stays.old.items stays.new.items) }
{
    if start < end {
        stays.push(Stay { row, start, end })?;
        stays.push(Stay {
            row,
            start: end,
            end,
        })?;
    }
    Ok(())
}

// Stays at the places of a span that aren't hidden.
fn add_bare(stays: &mut Vec<Stay>, row: u32, span: Span, hidden: &[Span]) -> Result<(), AllocError>
    requires { AreApart hidden.now }
    ensures { OnOk result (AddsBare row span hidden.now stays.old.items stays.new.items) }
{
    let mut start = span.start;
    let mut at = hidden.partition_point(|other| other.end <= span.start);
    while at < hidden.len() && hidden[at].start < span.end {
        add_stay(stays, row, start, hidden[at].start)?;
        start = hidden[at].end;
        at += 1;
    }
    add_stay(stays, row, start, span.end)
}

// The stays of the default method of one of the holders: at the places from which it is reached and not hidden.
fn add_stays(
    line: Line<'_>,
    interface: u32,
    row: u32,
    blocks: &mut Blocks,
    stays: &mut Vec<Stay>,
) -> Result<(), AllocError>
    requires line { IsLine line }
    requires interface { interface < length line.placed.tree.now.classes }
    requires known { AreKnown line blocks.old }
    ensures added { OnOk result (AddsStaysOf line.entry.placed.tree.now line.entry.placed.layout.places.now line.entry.holders.now interface row
        stays.old.items stays.new.items) }
    ensures known { AreKnown line.entry blocks.new }
{
    let hidden = hidden_from(line, interface, blocks)?;
    for span in line.placed.layout.reach.get(interface as usize) {
        add_bare(stays, row, *span, hidden.as_slice())?;
    }
    Ok(())
}

// The stays of all default methods of the key.
fn all_stays(alloc: Global, line: Line<'_>, key: u32) -> Result<Vec<Stay>, AllocError>
    requires line { IsLine line }
    requires holders { AreHoldersOf line.placed.tree.now key line.holders.now }
    ensures { IfOk result (λ stays. AreStays line.entry.placed.tree.now line.entry.placed.layout.places.now key stays.items) }
{
    let mut blocks = Blocks::new(alloc);
    let mut stays = Vec::new(alloc);
    for holder in line.holders {
        if let Some(row) = line.placed.tree.own_default(holder.interface, key) {
            add_stays(line, holder.interface, row, &mut blocks, &mut stays)?;
        }
    }
    Ok(stays)
}

/// The stays of the default methods of the key, in the order of the places where they begin.
pub(crate) fn stays_of(
    alloc: Global,
    placed: PlacedTree<'_>,
    key: u32,
) -> Result<Vec<Stay>, AllocError>
    requires { LaysOut placed.tree.now placed.layout }
    ensures stays { IfOk result (λ stays. AreStays placed.entry.tree.now placed.entry.layout.places.now key stays.items) }
    ensures sorted { IfOk result (λ stays. IsNonDecreasingBy (λ s. s.start) stays.items) }
{
    let holders = holders_of(alloc, placed, key)?;
    let hops = hops_of(alloc, placed, holders.as_slice())?;
    let line = Line {
        placed,
        holders: holders.as_slice(),
        hops: hops.as_slice(),
    };
    let mut stays = all_stays(alloc, line, key)?;
    stays.sort_unstable_by_key(|stay| stay.start);
    Ok(stays)
}
