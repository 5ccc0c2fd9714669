// What of the spans of an edge is within a part of it.
ghost use Rattle.std.specs.Prelude.{IfOk, OnOk};
ghost use Rattle.geometry.specs.Places.{IsPlace};
ghost use Rattle.cut_plane.specs.Beyond.{IsStretch};
ghost use Rattle.geometry.specs.Spans.{CoverEdge};
ghost use Rattle.span_slow.specs.Spans.{Alternate};
ghost use Rattle.span_slow.specs.inner.Steps.{AreClipped, IsLaterOf, IsEarlierOf, IsClippedAdded};

use crate::alternating::add_span;
use crate::interval::is_earlier;
use exact_frac::{Frac, OutOfMemory};
use intervals::Interval;
use lattice::Span;
use std::alloc::Global;

/// What of the spans is within the part: they follow one another from its first place to its last, by these very numbers.
/// Goes once over the spans.
pub(crate) fn clipped(
    alloc: Global,
    spans: &[Span],
    part: &Interval<Frac>,
) -> Result<Vec<Span>, OutOfMemory>
    requires cover { CoverEdge spans.now }
    requires alternate { Alternate spans.now }
    requires stretch { IsStretch part.now }
    ensures { IfOk result (λ clipped. AreClipped part.now spans.now clipped.items) }
{
    let mut clipped = Vec::new(alloc);
    for span in spans {
        add_clipped(&mut clipped, span, part)?;
    }
    Ok(clipped)
}

/// Adds what of the span is within the part, if that has an inside.
fn add_clipped(
    clipped: &mut Vec<Span>,
    span: &Span,
    part: &Interval<Frac>,
) -> Result<(), OutOfMemory>
    requires { IsStretch part.now }
    ensures { OnOk result (IsClippedAdded part.now span.now clipped.old.items clipped.new.items) }
{
    let from = later(part.from, span.from);
    let to = earlier(part.to, span.to);
    add_span(clipped, from, to, span.hidden)
}

/// The later of two places; the first where they are equal.
fn later(a: Frac, b: Frac) -> Frac
    requires first { IsPlace a }
    requires second { IsPlace b }
    ensures place { IsPlace result }
    ensures which { IsLaterOf a b result }
{
    if is_earlier(a, b) { b } else { a }
}

/// The earlier of two places; the first where they are equal.
fn earlier(a: Frac, b: Frac) -> Frac
    requires first { IsPlace a }
    requires second { IsPlace b }
    ensures place { IsPlace result }
    ensures which { IsEarlierOf a b result }
{
    if is_earlier(b, a) { b } else { a }
}
