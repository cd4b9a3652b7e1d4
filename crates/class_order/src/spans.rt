ghost use Rattle.std.specs.Prelude.{◌≡◌, ℕ, ◌≤◌, ◌↔◌, length, IfOk, IsTrue};
ghost use Rattle.std.specs.List.Sorted.{IsNonDecreasingBy};
ghost use Rattle.class_order.specs.Spans.{AreApart, AreFilled, Holds};

use std::alloc::{AllocError, Global};

/// The places from `start` up to `end`, without `end`.
#[derive(Clone, Copy)]
pub struct Span {
    pub start: u32,
    pub end: u32,
}

/// Whether a place lies in one of the spans.
pub fn holds(spans: &[Span], place: u32) -> bool
    requires { AreApart spans.now }
    ensures { IsTrue result ↔ Holds spans.now place }
{
    let after = spans.partition_point(|span| span.start <= place);
    after > 0 && place < spans[after - 1].end
}

// Spans that overlap or touch become one.
fn joined(alloc: Global, sorted: &[Span]) -> Result<Vec<Span>, AllocError>
    requires filled { AreFilled sorted.now }
    requires sorted { IsNonDecreasingBy (λ s. s.start) sorted.now }
    ensures apart { IfOk result (λ spans. AreApart spans.items) }
    ensures same { IfOk result (λ spans. (p : ℕ) → Holds spans.items p ↔ Holds sorted.now p) }
{
    let mut joined = Vec::new(alloc);
    let Some(first) = sorted.first() else {
        return Ok(joined);
    };
    let mut last = *first;
    for span in sorted {
        if span.start <= last.end {
            last.end = last.end.max(span.end);
        } else {
            joined.push(last)?;
            last = *span;
        }
    }
    joined.push(last)?;
    Ok(joined)
}

/// The same places in as few spans as possible, in order.
pub fn united(alloc: Global, spans: Vec<Span>) -> Result<Vec<Span>, AllocError>
    requires { AreFilled spans.items }
    ensures apart { IfOk result (λ united. AreApart united.items) }
    ensures same { IfOk result (λ united. (p : ℕ) → Holds united.items p ↔ Holds spans.items p) }
{
    let mut sorted = spans;
    sorted.sort_unstable_by_key(|span| span.start);
    joined(alloc, sorted.as_slice())
}
