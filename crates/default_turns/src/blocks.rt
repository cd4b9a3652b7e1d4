//! What holders hide that stand side by side, worked out once for each block of them.
//!
//! A block has the holders from one on, up to where the jump from it leads. A stretch of holders falls into blocks and single hops, whose number grows with
//! the logarithm of how many holders there are: so what stretches hide that have most of their holders in common is read from the same blocks.
ghost use Rattle.std.specs.Prelude.{◌<◌, ◌≤◌, IfSome, OnOk, length};
ghost use Rattle.default_turns.specs.declared.hops.Line.{Line as ALine};
ghost use Rattle.default_turns.specs.Blocks.{AddsBlock, AreKnown, IsBlock};
ghost use Rattle.default_turns.specs.Hops.{IsLine};
ghost use Rattle.default_turns.specs.Stretches.{AddsReached};

use super::hops::Line;
use super::stretches::Stretch;
use class_order::{Span, united};
use std::alloc::{AllocError, Global};
use std::collections::BTreeMap;

/// From which places one of the holders is reached, by the first indexes of the blocks that have been asked for. A look-up takes the logarithm of how many
/// they are.
#[derive(Drop)]
pub(crate) struct Blocks {
    pub alloc: Global,
    known: BTreeMap<usize, Vec<Span>>,
}

impl Blocks {
    /// None has been asked for.
    pub(crate) fn new(alloc: Global) -> Self
        ensures { (line : ALine) → AreKnown line result }
    {
        Blocks {
            alloc,
            known: BTreeMap::new(alloc),
        }
    }

    // What is known of the block at an index.
    fn get(&self, at: usize) -> Option<&[Span]>
        ensures { (line : ALine) → AreKnown line self.now → IfSome result (λ reached. IsBlock line at reached.now) }
    {
        match self.known.get(&at) {
            Some(reached) => Some(reached.as_slice()),
            None => None,
        }
    }

    // Keeps what is known of the block at an index.
    fn put(&mut self, at: usize, reached: Vec<Span>) -> Result<(), AllocError>
        ensures { (line : ALine) → AreKnown line self.old → IsBlock line at reached.items → AreKnown line self.new }
    {
        self.known.insert(at, reached)?;
        Ok(())
    }
}

// Adds the places from which one of the holders of the block at an index is reached. They are worked out where they aren't known.
#[cycle(blocks)]
fn add_block(
    line: Line<'_>,
    at: usize,
    blocks: &mut Blocks,
    reached: &mut Vec<Span>,
) -> Result<(), AllocError>
    requires line { IsLine line }
    requires at { at < length line.holders.now }
    requires known { AreKnown line blocks.old }
    ensures added { OnOk result (AddsBlock line.entry at reached.old.items reached.new.items) }
    ensures known { AreKnown line.entry blocks.new }
{
    if let Some(known) = blocks.get(at) {
        reached.extend_from_slice(known)?;
        return Ok(());
    }
    let hop = line.hops[at];
    let rest = Stretch {
        from: hop.next,
        to: hop.jump,
    };
    let mut made = Vec::from_slice(blocks.alloc, line.spans(at))?;
    add_stretch(line, rest, blocks, &mut made)?;
    let made = united(blocks.alloc, made)?;
    reached.extend_from_slice(made.as_slice())?;
    blocks.put(at, made)?;
    Ok(())
}

/// Adds the places from which one of the holders of a stretch is reached, by blocks of them and hop by hop.
#[cycle(blocks)]
pub(crate) fn add_stretch(
    line: Line<'_>,
    stretch: Stretch,
    blocks: &mut Blocks,
    reached: &mut Vec<Span>,
) -> Result<(), AllocError>
    requires line { IsLine line }
    requires stretch { stretch.to ≤ length line.holders.now }
    requires known { AreKnown line blocks.old }
    ensures added { OnOk result (AddsReached line.entry.placed.tree.now line.entry.placed.layout.places.now line.entry.holders.now stretch.from stretch.to
        reached.old.items reached.new.items) }
    ensures known { AreKnown line.entry blocks.new }
{
    let mut at = stretch.from;
    while at < stretch.to {
        let hop = line.hops[at];
        if hop.next < hop.jump && hop.jump <= stretch.to {
            add_block(line, at, blocks, reached)?;
            at = hop.jump;
        } else {
            reached.extend_from_slice(line.spans(at))?;
            at = hop.next.min(stretch.to);
        }
    }
    Ok(())
}
