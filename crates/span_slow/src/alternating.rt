// From intervals, which may overlap, to the spans of an edge.
ghost use Rattle.std.specs.Prelude.{All, IfOk, OnOk};
ghost use Rattle.exact_frac.specs.Frac.{order_of};
ghost use Rattle.geometry.specs.Places.{IsPlace};
ghost use Rattle.intervals.specs.Cuts.{AreApart};
ghost use Rattle.cut_plane.specs.Beyond.{IsStretch};
ghost use Rattle.span_slow.specs.inner.Hidden.{AreSpansOf};
ghost use Rattle.span_slow.specs.inner.Steps.{IsSpanAdded};

use crate::interval::{finish, is_earlier, start};
use exact_frac::{Frac, OutOfMemory};
use intervals::{Interval, united};
use lattice::Span;
use std::alloc::Global;

/// The spans of the edge: hidden within the intervals, visible elsewhere, in order and as long as can be.
pub(crate) fn spans_of(alloc: Global, hidden: Vec<Interval<Frac>>) -> Result<Vec<Span>, OutOfMemory>
    requires { All IsStretch hidden.items }
    ensures { IfOk result (λ spans. AreSpansOf hidden.items spans.items) }
{
    let united = united(alloc, hidden)?;
    alternating(alloc, &united)
}

/// The spans within and between intervals that neither overlap nor touch.
fn alternating(alloc: Global, united: &[Interval<Frac>]) -> Result<Vec<Span>, OutOfMemory>
    requires stretches { All IsStretch united.now }
    requires apart { AreApart order_of united.now }
    ensures { IfOk result (λ spans. AreSpansOf united.now spans.items) }
{
    let mut spans = Vec::new(alloc);
    let mut from = start();
    for x in united {
        add_span(&mut spans, from, x.from, false)?;
        spans.push(Span {
            from: x.from,
            to: x.to,
            hidden: true,
        })?;
        from = x.to;
    }
    add_span(&mut spans, from, finish(), false)?;
    Ok(spans)
}

/// Adds the span, if it has an inside.
pub(crate) fn add_span(
    spans: &mut Vec<Span>,
    from: Frac,
    to: Frac,
    hidden: bool,
) -> Result<(), OutOfMemory>
    requires from { IsPlace from }
    requires to { IsPlace to }
    ensures { OnOk result (IsSpanAdded from to hidden spans.old.items spans.new.items) }
{
    if is_earlier(from, to) {
        spans.push(Span { from, to, hidden })?;
    }
    Ok(())
}
