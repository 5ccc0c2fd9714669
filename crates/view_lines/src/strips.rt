// The spans of the drawn edges by their counts, as strips of lines: a span is hidden where its counts are not both 0, and neighbours that
// are all hidden or all visible are one strip.
ghost use Rattle.std.specs.Prelude.{◌≡◌, ◌≢◌, ◌↔◌, ℕ, ◌+◌, ◌<◌, List, [], ◌∷◌, ◌++◌, length, All, IfOk, IsTrue};
ghost use Rattle.lattice.specs.Points.{of_dir};
ghost use Rattle.geometry.specs.Views.{IsEndOn};
ghost use Rattle.edge_pick.specs.Edges.{OfEdge};
ghost use Rattle.solid_mesh.specs.Solids.{edge_halves};
ghost use Rattle.geometry.specs.Places.{IsSame};
ghost use Rattle.view_lines.specs.inner.Told.{IsToldBy, AreJoined, AreToldBy};
ghost use Rattle.view_lines.specs.inner.Chained.{AreChained};
ghost use Rattle.view_lines.specs.inner.Sources.{AreEntryStrips};

use drawn_strips::add_strips;
use exact_frac::OutOfMemory;
use lattice::{Dir, Span, Strip};
use solid_mesh::Solid;
use span_count::{CountSpan, EdgeSpans};
use std::alloc::Global;

/// Some face is counted to the left or to the right.
fn is_hidden(span: &CountSpan) -> bool
    ensures { IsTrue result ↔ (span.now.left + span.now.right ≢ 0) }
{
    span.left != 0 || span.right != 0
}

/// The span without its counts.
fn span_of(span: &CountSpan) -> Span
    ensures { IsToldBy span.now result }
{
    Span {
        from: span.from,
        to: span.to,
        hidden: is_hidden(span),
    }
}

/// The span from where the first begins to where the next ends.
fn over_both(first: &Span, next: &Span) -> Span
    ensures from { IsSame result.from first.now.from }
    ensures to { IsSame result.to next.now.to }
    ensures hidden { result.hidden ≡ first.now.hidden }
{
    Span {
        from: first.from,
        to: next.to,
        hidden: first.hidden,
    }
}

/// Takes the next span. Where both are hidden or both visible, the last one is lengthened to its end; else the last one is added, and
/// the next one is the last. The answer is the last span, which isn't added yet.
fn go_on(spans: &mut Vec<Span>, last: Span, next: Span) -> Result<Span, OutOfMemory>
    ensures { IfOk result (λ longer. (singles : List Span) → AreJoined singles (spans.old.items ++ last ∷ []) →
        AreJoined (singles ++ next ∷ []) (spans.new.items ++ longer ∷ [])) }
{
    if last.hidden == next.hidden {
        return Ok(over_both(&last, &next));
    }
    spans.push(last)?;
    Ok(next)
}

/// The spans without their counts, neighbours that are all hidden or all visible as one: more spans would be more strips to sort.
fn spans_of(alloc: Global, counts: &[CountSpan]) -> Result<Vec<Span>, OutOfMemory>
    ensures { IfOk result (λ spans. AreToldBy counts.now spans.items) }
{
    let mut spans = Vec::new(alloc);
    let Some((first, others)) = counts.split_first() else {
        return Ok(spans);
    };
    let mut last = span_of(first);
    for span in others {
        last = go_on(&mut spans, last, span_of(span))?;
    }
    spans.push(last)?;
    Ok(spans)
}

/// The strips of an edge with these counts.
pub(crate) fn entry_strips(
    alloc: Global,
    solid: &Solid,
    d: &Dir,
    entry: &EdgeSpans,
) -> Result<Vec<Strip>, OutOfMemory>
    requires in_range { entry.now.edge < length (edge_halves solid.now) }
    requires seen { OfEdge solid.now entry.now.edge (λ e. ¬ IsEndOn (of_dir d.now) e) }
    requires chained { AreChained entry.now.spans.items }
    ensures { IfOk result (λ strips. AreEntryStrips (of_dir d.now) solid.now entry.now strips.items) }
{
    let spans = spans_of(alloc, &entry.spans)?;
    let mut strips = Vec::with_capacity(alloc, spans.len())?;
    add_strips(&mut strips, solid, d, entry.edge, &spans)?;
    Ok(strips)
}
