//! From which places the methods of an interface are hidden.
ghost use Rattle.std.specs.Prelude.{◌<◌, ◌↔◌, ℕ, IfOk, OnOk, length, slice_index};
ghost use Rattle.class_order.specs.Spans.{AreApart, Holds};
ghost use Rattle.default_turns.specs.Blocks.{AreKnown};
ghost use Rattle.default_turns.specs.Hiding.{AddsHidden, IsHidden};
ghost use Rattle.default_turns.specs.Hops.{IsLine};

use super::blocks::{Blocks, add_stretch};
use super::hops::Line;
use super::stretches::{Stretch, first_behind, first_from};
use class_order::{Span, united};
use std::alloc::AllocError;

// Adds the places from which one of the holders is reached that stands in this span of the interface, and is another one.
fn add_hidden(
    line: Line<'_>,
    interface: u32,
    span: Span,
    blocks: &mut Blocks,
    hidden: &mut Vec<Span>,
) -> Result<(), AllocError>
    requires line { IsLine line }
    requires interface { interface < length line.placed.tree.now.classes }
    requires known { AreKnown line blocks.old }
    ensures added { OnOk result (AddsHidden line.entry.placed.tree.now line.entry.placed.layout.places.now line.entry.holders.now interface span
        hidden.old.items hidden.new.items) }
    ensures known { AreKnown line.entry blocks.new }
{
    let place = line.placed.layout.places[interface as usize];
    let from = first_from(line.holders, span.start);
    let to = first_from(line.holders, span.end);
    let before = Stretch {
        from,
        to: first_from(line.holders, place).min(to),
    };
    let behind = Stretch {
        from: first_behind(line.holders, place).max(from),
        to,
    };
    add_stretch(line, before, blocks, hidden)?;
    add_stretch(line, behind, blocks, hidden)
}

/// The places of the classes that reach one of the holders below the interface, other than itself.
pub(crate) fn hidden_from(
    line: Line<'_>,
    interface: u32,
    blocks: &mut Blocks,
) -> Result<Vec<Span>, AllocError>
    requires line { IsLine line }
    requires interface { interface < length line.placed.tree.now.classes }
    requires known { AreKnown line blocks.old }
    ensures apart { IfOk result (λ hidden. AreApart hidden.items) }
    ensures exact { IfOk result (λ hidden. (class : ℕ) → class < length line.entry.placed.tree.now.classes
        → Holds hidden.items (slice_index line.entry.placed.layout.places.now class) ↔ IsHidden line.entry.placed.tree.now line.entry.holders.now interface class) }
    ensures known { AreKnown line.entry blocks.new }
{
    let mut hidden = Vec::new(blocks.alloc);
    for span in line.placed.layout.reach.get(interface as usize) {
        add_hidden(line, interface, *span, blocks, &mut hidden)?;
    }
    united(blocks.alloc, hidden)
}
