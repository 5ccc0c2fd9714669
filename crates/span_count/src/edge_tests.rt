// The tests that are made for an edge.
ghost use Rattle.std.specs.Prelude.{◌≡◌, ℕ, false, ◌+◌, ◌<◌, ◌≤◌, ◌*◌, ◌^◌, length, vec_len, IfOk};
ghost use Rattle.geometry.specs.Parts.{Edge, IsNumbered};
ghost use Rattle.geometry.specs.Turns.{number_at};
ghost use Rattle.span_count.specs.Finders.{AreAllNear};
ghost use Rattle.span_count.specs.inner.Rests.{AreCountsNext};
ghost use Rattle.span_count.specs.inner.Steps.{IsSeenEdge, AreListed, AreCrossings};
ghost use Rattle.span_count.specs.Tests.{with_tests, IsTested, AreNearAmong};

use crate::finder::{Finder, next_triangle};
use crate::step::Sides;
use cross_find::{Crossing, End, Sight};
use exact_frac::OutOfMemory;
use std::alloc::Global;

/// How many faces are counted to the left, and to the right, next to the edge's first end, which is at this corner: a test of each
/// triangle that the finder doesn't pass over there.
pub(crate) fn first_counts<S: Sight, F: Finder>(
    sight: &mut S,
    finder: &F,
    edge: u32,
    corner: u32,
    triangles: u32,
) -> Sides
    requires edge { IsSeenEdge (S.sight sight.old) edge }
    requires corner { (e : Edge (S.sight sight.old).part) → IsNumbered (S.sight sight.old).halves edge e → corner ≡ number_at e false }
    requires near { AreAllNear (S.sight sight.old).direction (S.sight sight.old).part (F.is_near finder.now) }
    requires triangles { triangles ≡ length (S.sight sight.old).part.triangles }
    requires room { (S.sight sight.old).tests + triangles < 2 ^ 64 }
    ensures counts { AreCountsNext (S.sight sight.old) edge false result }
    ensures tested { IsTested triangles (S.sight sight.old) (S.sight sight.new) }
    ensures near_tested { (n : ℕ) × AreNearAmong (F.is_near finder.now corner) triangles n × (S.sight sight.new ≡ with_tests n (S.sight sight.old)) }
{
    let end = End { edge, at_b: false };
    let mut left = 0;
    let mut right = 0;
    let mut told = 0;
    let mut tri = next_triangle(finder, corner, told, 0, triangles);
    while tri < triangles {
        let (on_left, on_right) = sight.cover(end, tri);
        left += u64::from(on_left);
        right += u64::from(on_right);
        told += 1;
        tri = next_triangle(finder, corner, told, tri + 1, triangles);
    }
    Sides::counts(left, right)
}

/// Where the outlines that the finder lists pass nearer over the edge and change one of its counts: a test of each.
pub(crate) fn crossings_along<S: Sight, F: Finder>(
    alloc: Global,
    sight: &mut S,
    finder: &F,
    edge: u32,
) -> Result<Vec<Crossing>, OutOfMemory>
    requires edge { IsSeenEdge (S.sight sight.old) edge }
    requires listed { AreListed (S.sight sight.old) edge (F.list_along finder.now edge) }
    requires room { (S.sight sight.old).tests + length (F.list_along finder.now edge) < 2 ^ 64 }
    ensures crossings { (e : Edge (S.sight sight.old).part) → IsNumbered (S.sight sight.old).halves edge e →
        IfOk result (λ crossings. AreCrossings (S.sight sight.old) e (F.list_along finder.now edge) crossings.items) }
    ensures few { IfOk result (λ crossings. vec_len crossings ≤ length (F.list_along finder.now edge)) }
    ensures tested { IsTested (length (F.list_along finder.now edge)) (S.sight sight.old) (S.sight sight.new) }
    ensures all_tested { IfOk result (λ _. S.sight sight.new ≡ with_tests (length (F.list_along finder.now edge)) (S.sight sight.old)) }
{
    let mut crossings = Vec::new(alloc);
    let mut i = 0;
    while let Some(outline) = finder.along(edge, i) {
        if let Some(crossing) = sight.cross(edge, outline) {
            crossings.push(crossing)?;
        }
        i += 1;
    }
    Ok(crossings)
}
