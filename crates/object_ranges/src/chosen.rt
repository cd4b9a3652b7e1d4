//! The classes that select what a call runs.
ghost use Rattle.std.specs.Prelude.{◌≡◌, ◌<◌, ◌≤◌, ℕ, Contains, IfOk, Some, slice_get};
ghost use Rattle.class_order.specs.Spans.{AreApart, Holds};
ghost use Rattle.class_order.specs.declared.spans.Span.{Span as ASpan};
ghost use Rattle.object_ranges.specs.Chosen.{AreChoicesOf, AreLeasts, IsChoiceOf, StandsInBoth, StandsInClip};
ghost use Rattle.object_ranges.specs.Marks.{IsLeastOf};
ghost use Rattle.object_ranges.specs.Parts.{AreInOrder, IsIn};
ghost use Rattle.object_ranges.specs.declared.parts.Part.{Part as APart};

use super::minima::{Minima, earlier};
use super::parts::Part;
use super::selection::Selection;
use class_order::Span;
use std::alloc::{AllocError, Global};

/// A class that may have objects, and what is selected from it.
#[derive(Clone, Copy)]
pub struct Choice {
    pub class: u32,
    pub selection: Selection,
}

/// For each of some spans the least class that may have objects at its places.
pub fn leasts_in(alloc: Global, objects: &Minima, spans: &[Span]) -> Result<Minima, AllocError>
    ensures { IfOk result (λ leasts. AreLeasts objects.now spans.now leasts) }
{
    let mut leasts = Vec::new(alloc);
    for span in spans {
        leasts.push(objects.least(span.start as usize, span.end as usize))?;
    }
    let minima = Minima::new(alloc, leasts.as_slice())?;
    Ok(minima)
}

// The least class that may have objects at the places of a part and of a span.
fn least_in_span(objects: &Minima, part: Part, span: Span) -> Option<u32>
    ensures { IsLeastOf (StandsInClip objects.now part span) result }
{
    objects.least(
        part.start.max(span.start) as usize,
        part.end.min(span.end) as usize,
    )
}

// The least class that may have objects at the places of a part and of some spans.
fn least_in(objects: &Minima, spans: &[Span], leasts: &Minima, part: Part) -> Option<u32>
    requires spans { AreApart spans.now }
    requires leasts { AreLeasts objects.now spans.now leasts.now }
    ensures { IsLeastOf (StandsInBoth objects.now spans.now part) result }
{
    let from = spans.partition_point(|span| span.end <= part.start);
    let to = spans.partition_point(|span| span.start < part.end);
    if to <= from {
        return None;
    }
    // Those between the first and the last of these spans lie in the part.
    let between = leasts.least(from + 1, to - 1);
    let first = least_in_span(objects, part, spans[from]);
    let last = least_in_span(objects, part, spans[to - 1]);
    earlier(between, earlier(first, last))
}

// The choice of a part: none where nothing is selected, or no class may have objects at its places and those of the spans.
fn choice_of(objects: &Minima, spans: &[Span], leasts: &Minima, part: Part) -> Option<Choice>
    requires spans { AreApart spans.now }
    requires leasts { AreLeasts objects.now spans.now leasts.now }
    ensures { IsChoiceOf objects.now spans.now part result }
{
    let selection = part.selection;
    if selection == Selection::Nothing {
        return None;
    }
    let class = least_in(objects, spans, leasts, part)?;
    Some(Choice { class, selection })
}

// The first part from an index on that ends behind the start of the next span: those before it meet no span.
fn next_part(parts: &[Part], spans: &[Span], from: usize) -> usize
    requires parts { AreInOrder parts.now }
    requires spans { AreApart spans.now }
    ensures passed { (k place : ℕ) (part : APart) → from ≤ k → k < result → slice_get parts.now k ≡ Some part → IsIn part place → Holds spans.now place → ⊥ }
    ensures met { (first next : APart) → slice_get parts.now from ≡ Some first → slice_get parts.now result ≡ Some next
        → (span : ASpan) × Contains spans.now span × (first.start < span.end) × (span.start < next.end) }
    ensures on { from ≤ result }
{
    if from >= parts.len() {
        return from;
    }
    let begin = parts[from].start;
    let passed = spans.partition_point(|span| span.end <= begin);
    if passed >= spans.len() {
        return parts.len();
    }
    let start = spans[passed].start;
    from.max(parts.partition_point(|part| part.end <= start))
}

/// The choices of the parts, in their order: of each part that selects something, the least class that may have objects at the places of the part and of one
/// of the spans, with what the part selects. Where there is no such class, or nothing is selected, the part gives nothing. `leasts` has the least class of each
/// span. It takes time with what is found, and with the number of the parts or of the spans, whichever is less: parts that meet no span are passed by searches.
pub fn choices_in(
    alloc: Global,
    objects: &Minima,
    parts: &[Part],
    spans: &[Span],
    leasts: &Minima,
) -> Result<Vec<Choice>, AllocError>
    requires parts { AreInOrder parts.now }
    requires spans { AreApart spans.now }
    requires leasts { AreLeasts objects.now spans.now leasts.now }
    ensures { IfOk result (λ choices. AreChoicesOf objects.now spans.now parts.now choices.items) }
{
    let mut choices = Vec::new(alloc);
    let mut at = 0;
    while at < parts.len() {
        match choice_of(objects, spans, leasts, parts[at]) {
            Some(choice) => {
                choices.push(choice)?;
                at += 1;
            }
            None => at = next_part(parts, spans, at + 1),
        }
    }
    Ok(choices)
}
