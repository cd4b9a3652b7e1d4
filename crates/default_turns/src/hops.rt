//! From a holder to those behind it that hide more than it does.
//!
//! A holder that stands in the run of places from which another one is reached is below that one, and hides nothing that the other doesn't hide. So who goes
//! through holders in the order of their places hops from each to the first one behind its run. A jump goes over several hops at once: over the first one
//! alone, or over that one and two jumps of one rank that follow it (E. W. Myers, An applicative random-access stack, 1983). So jumps and hops lead from a
//! holder to any one farther on its way in a number of steps that grows with the logarithm of how many hops it is away.
ghost use Rattle.std.specs.Prelude.{◌<◌, ◌≤◌, ℕ, IfOk, List, length};
ghost use Rattle.class_order.specs.Spans.{AreApart, Holds};
ghost use Rattle.class_rules.specs.Rows.{Rows};
ghost use Rattle.class_tree.specs.Layouts.{LaysOut};
ghost use Rattle.default_turns.specs.declared.holders.Holder.{Holder as AHolder};
ghost use Rattle.default_turns.specs.Holders.{ArePlaced};
ghost use Rattle.default_turns.specs.Hops.{AreBelow, AreHops, IsEndOf, IsHop, IsLine, hop_at};
ghost use Rattle.default_turns.specs.Stretches.{AreReached};

use super::holders::{Holder, PlacedTree};
use super::stretches::first_from;
use class_order::Span;
use std::alloc::{AllocError, Global};

/// Where to go on from a holder: by one hop, or by a jump. A jump of rank `r` goes over 2^(r + 1) - 1 hops.
#[derive(Clone, Copy)]
pub(crate) struct Hop {
    pub next: usize,
    pub jump: usize,
    rank: u32,
}

/// The holders of a key in the order of their places, with a hop from each.
#[derive(Clone, Copy)]
pub(crate) struct Line<'a> {
    pub placed: PlacedTree<'a>,
    pub holders: &'a [Holder],
    pub hops: &'a [Hop],
}

impl<'a> Line<'a> {
    /// The places from which the holder at an index is reached, and so those from which one is that stands behind it, before the next hop.
    pub(crate) fn spans(self, at: usize) -> &'a [Span]
        requires line { IsLine self }
        requires at { at < length self.holders.now }
        ensures { (to : ℕ) → at < to → to ≤ (hop_at self.entry.hops.now at).next
            → AreReached self.entry.placed.tree.now self.entry.placed.layout.places.now self.entry.holders.now at to result.now }
    {
        let interface = self.holders[at].interface;
        self.placed.layout.reach.get(interface as usize)
    }
}

// The end of the span in which a place lies.
fn end_of(spans: &[Span], place: u32) -> u32
    requires apart { AreApart spans.now }
    requires held { Holds spans.now place }
    ensures { IsEndOf spans.now place result }
{
    let after = spans.partition_point(|span| span.start <= place);
    spans[after - 1].end
}

// The first holder behind the run of places from which the one at an index is reached.
fn next_of(placed: PlacedTree<'_>, holders: &[Holder], at: usize) -> usize
    requires laid { LaysOut placed.tree.now placed.layout }
    requires holders { ArePlaced placed.tree.now placed.layout.places.now holders.now }
    requires at { at < length holders.now }
    ensures forth { at < result }
    ensures within { result ≤ length holders.now }
    ensures below { AreBelow placed.entry.tree.now holders.now at result }
{
    let holder = holders[at];
    let spans = placed.layout.reach.get(holder.interface as usize);
    let end = end_of(spans, holder.place);
    first_from(holders, end)
}

// The hop from an index, with the jump that those behind it allow.
fn with_jump(hops: &[Hop], at: usize) -> Hop
    requires { at < length hops.now }
    ensures { (rows : Rows) (holders : List AHolder) → AreHops rows holders hops.now → IsHop rows holders at result }
{
    let hop = hops[at];
    let Some(one) = hops.get(hop.next) else {
        return hop;
    };
    let Some(two) = hops.get(one.jump) else {
        return hop;
    };
    if one.rank == two.rank {
        Hop {
            next: hop.next,
            jump: two.jump,
            rank: one.rank.saturating_add(1),
        }
    } else {
        hop
    }
}

/// The hops from the holders. It takes as much time as there are holders, times a logarithm.
pub(crate) fn hops_of(
    alloc: Global,
    placed: PlacedTree<'_>,
    holders: &[Holder],
) -> Result<Vec<Hop>, AllocError>
    requires laid { LaysOut placed.tree.now placed.layout }
    requires holders { ArePlaced placed.tree.now placed.layout.places.now holders.now }
    ensures { IfOk result (λ hops. AreHops placed.entry.tree.now holders.now hops.items) }
{
    let mut hops = Vec::with_capacity(alloc, holders.len())?;
    for at in 0..holders.len() {
        let next = next_of(placed, holders, at);
        hops.push(Hop {
            next,
            jump: next,
            rank: 0,
        })?;
    }
    for at in (0..holders.len()).rev() {
        hops[at] = with_jump(hops.as_slice(), at);
    }
    Ok(hops)
}
