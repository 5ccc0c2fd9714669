// Along an edge, from one of its ends to the other.
ghost use Rattle.std.specs.Prelude.{◌≡◌, ◌+◌, ◌<◌, ◌^◌, ℕ, pos, false, true, not, cond, ◌+ℤ◌, ◌-ℤ◌, length, IfOk};
ghost use Rattle.geometry.specs.Parts.{Edge, IsNumbered};
ghost use Rattle.geometry.specs.Places.{IsPlace};
ghost use Rattle.hiding_laws.specs.Sums.{total};
ghost use Rattle.cross_find.specs.Sights.{IsSeen};
ghost use Rattle.span_count.specs.Carries.{AreSmall};
ghost use Rattle.span_count.specs.CountSpans.{AreCountSpans};
ghost use Rattle.span_count.specs.inner.Rests.{IsCornerCount, AreCountsNext, AreRests};
ghost use Rattle.span_count.specs.inner.Steps.{IsSeenEdge, AreListed};
ghost use Rattle.span_count.specs.Tests.{with_tests, IsTested};

use crate::carry::{ascending, carried};
use crate::corner::own_counts;
use crate::edge_tests::crossings_along;
use crate::finder::Finder;
use crate::span::CountSpan;
use crate::step::{Sides, Start, Walked};
use cross_find::{Crossing, End, Sight};
use exact_frac::{Frac, OutOfMemory};
use std::alloc::Global;

/// The spans of an edge, and the counts next to its other end.
#[derive(Drop)]
struct Along {
    spans: Vec<CountSpan>,
    far: Sides,
}

/// The spans of an edge, and the rests at its ends, by the counts next to one of them and the rest there: a test of each outline
/// that the finder lists along the edge, and of each triangle at the other end.
pub(crate) fn walk_edge<S: Sight, F: Finder>(
    alloc: Global,
    sight: &mut S,
    finder: &F,
    end: End,
    start: Start,
) -> Result<Walked, OutOfMemory>
    requires seen { IsSeen (S.sight sight.old) }
    requires edge { IsSeenEdge (S.sight sight.old) end.edge }
    requires counts { AreCountsNext (S.sight sight.old) end.edge end.at_b start.counts }
    requires rest { AreRests (S.sight sight.old) end.edge end.at_b start.rest }
    requires listed { AreListed (S.sight sight.old) end.edge (F.list_along finder.now end.edge) }
    requires room { (n : ℕ) → IsCornerCount (S.sight sight.old) end.edge (not end.at_b) n →
        (S.sight sight.old).tests + (length (F.list_along finder.now end.edge) + n) < 2 ^ 64 }
    ensures spans { (e : Edge (S.sight sight.old).part) → IsNumbered (S.sight sight.old).halves end.edge e →
        IfOk result (λ walked. AreCountSpans (S.sight sight.old).direction e walked.spans.items) }
    ensures first { IfOk result (λ walked. AreRests (S.sight sight.old) end.edge false walked.first) }
    ensures second { IfOk result (λ walked. AreRests (S.sight sight.old) end.edge true walked.second) }
    ensures tested { (n : ℕ) → IsCornerCount (S.sight sight.old) end.edge (not end.at_b) n →
        IsTested (length (F.list_along finder.now end.edge) + n) (S.sight sight.old) (S.sight sight.new) }
    ensures all_tested { (n : ℕ) → IsCornerCount (S.sight sight.old) end.edge (not end.at_b) n →
        IfOk result (λ _. S.sight sight.new ≡ with_tests (length (F.list_along finder.now end.edge) + n) (S.sight sight.old)) }
{
    let along = along_edge(alloc, sight, finder, end, start.counts)?;
    let far_end = End {
        edge: end.edge,
        at_b: !end.at_b,
    };
    let far_rest = along.far.minus(own_counts(sight, far_end));
    Ok(walked(end.at_b, along.spans, start.rest, far_rest))
}

/// The spans of an edge, and the counts next to its other end.
fn along_edge<S: Sight, F: Finder>(
    alloc: Global,
    sight: &mut S,
    finder: &F,
    end: End,
    counts: Sides,
) -> Result<Along, OutOfMemory>
    requires seen { IsSeen (S.sight sight.old) }
    requires edge { IsSeenEdge (S.sight sight.old) end.edge }
    requires counts { AreCountsNext (S.sight sight.old) end.edge end.at_b counts }
    requires listed { AreListed (S.sight sight.old) end.edge (F.list_along finder.now end.edge) }
    requires room { (S.sight sight.old).tests + length (F.list_along finder.now end.edge) < 2 ^ 64 }
    ensures spans { (e : Edge (S.sight sight.old).part) → IsNumbered (S.sight sight.old).halves end.edge e →
        IfOk result (λ along. AreCountSpans (S.sight sight.old).direction e along.spans.items) }
    ensures far { IfOk result (λ along. AreCountsNext (S.sight sight.old) end.edge (not end.at_b) along.far) }
    ensures tested { IsTested (length (F.list_along finder.now end.edge)) (S.sight sight.old) (S.sight sight.new) }
    ensures all_tested { IfOk result (λ _. S.sight sight.new ≡ with_tests (length (F.list_along finder.now end.edge)) (S.sight sight.old)) }
{
    let crossings = crossings_along(alloc, sight, finder, end.edge)?;
    let crossings = ascending(crossings)?;
    let change = change_over(&crossings);
    let first = first_counts_by(end.at_b, counts, change);
    let spans = carried(alloc, &crossings, start(), finish(), first)?;
    let far = far_counts_by(end.at_b, counts, change);
    Ok(Along { spans, far })
}

/// The first corner of the edge.
fn start() -> Frac
    ensures place { IsPlace result }
    ensures num { result.num ≡ pos 0 }
{
    Frac { num: 0, den: 1 }
}

/// The second corner of the edge.
fn finish() -> Frac
    ensures place { IsPlace result }
    ensures num { result.num ≡ result.den }
{
    Frac { num: 1, den: 1 }
}

/// What the crossings change of the two counts together: where they are those of an edge, from its first end to its second.
///
/// Cost: goes once over them.
pub fn change_over(crossings: &[Crossing]) -> Sides
    requires few { length crossings.now < 2 ^ 32 }
    ensures left { result.left ≡ total (λ x. x.left) crossings.now }
    ensures right { result.right ≡ total (λ x. x.right) crossings.now }
    ensures small { AreSmall result }
{
    let mut left = 0;
    let mut right = 0;
    for x in crossings {
        left += i64::from(x.left);
        right += i64::from(x.right);
    }
    Sides { left, right }
}

/// The counts next to the edge's first end, by those next to one end and what changes along the edge.
///
/// Cost: two differences, or none.
pub fn first_counts_by(at_b: bool, counts: Sides, change: Sides) -> Sides
    requires small { AreSmall counts }
    requires change_small { AreSmall change }
    ensures left { result.left ≡ cond at_b (counts.left -ℤ change.left) counts.left }
    ensures right { result.right ≡ cond at_b (counts.right -ℤ change.right) counts.right }
{
    if at_b { counts.minus(change) } else { counts }
}

/// The counts next to the other end, by those next to one end and what changes along the edge.
fn far_counts_by(at_b: bool, counts: Sides, change: Sides) -> Sides
    requires small { AreSmall counts }
    requires change_small { AreSmall change }
    ensures left { result.left ≡ cond at_b (counts.left -ℤ change.left) (counts.left +ℤ change.left) }
    ensures right { result.right ≡ cond at_b (counts.right -ℤ change.right) (counts.right +ℤ change.right) }
{
    if at_b {
        counts.minus(change)
    } else {
        counts.plus(change)
    }
}

/// The rests by the end that is come from and the other.
fn walked(at_b: bool, spans: Vec<CountSpan>, here: Sides, far: Sides) -> Walked
    ensures spans { result.spans.items ≡ spans.items }
    ensures first { result.first ≡ cond at_b far here }
    ensures second { result.second ≡ cond at_b here far }
{
    if at_b {
        Walked {
            spans,
            first: far,
            second: here,
        }
    } else {
        Walked {
            spans,
            first: here,
            second: far,
        }
    }
}
