// What is tested at a corner: the triangles that have it, next to an end of an edge, and the outlines that pass over it.
ghost use Rattle.std.specs.Prelude.{◌≡◌, ◌+◌, ◌<◌, ◌^◌, ℕ, length};
ghost use Rattle.geometry.specs.Parts.{Edge, IsNumbered};
ghost use Rattle.geometry.specs.Turns.{number_at};
ghost use Rattle.cross_find.specs.Sights.{IsSeen};
ghost use Rattle.span_count.specs.Carries.{AreSmall};
ghost use Rattle.span_count.specs.inner.Rests.{IsCornerCount, AreOwnCounts, AreTurnsOver};
ghost use Rattle.span_count.specs.inner.Steps.{IsSeenEdge, AreListedOver};
ghost use Rattle.span_count.specs.Tests.{with_tests};

use crate::finder::Finder;
use crate::step::Sides;
use cross_find::{End, Sight};

/// The number of the corner at an end.
pub(crate) fn corner_of<S: Sight>(sight: &S, end: End) -> u32
    requires in_range { end.edge < length (S.sight sight.now).halves }
    ensures number { (e : Edge (S.sight sight.now).part) → IsNumbered (S.sight sight.now).halves end.edge e → result ≡ number_at e end.at_b }
{
    let edge = sight.edge(end.edge);
    if end.at_b { edge.b } else { edge.a }
}

/// How many of the triangles at an end's corner are counted to the left, and to the right, next to the end: a test of each.
pub(crate) fn own_counts<S: Sight>(sight: &mut S, end: End) -> Sides
    requires seen { IsSeen (S.sight sight.old) }
    requires edge { IsSeenEdge (S.sight sight.old) end.edge }
    requires room { (n : ℕ) → IsCornerCount (S.sight sight.old) end.edge end.at_b n → (S.sight sight.old).tests + n < 2 ^ 64 }
    ensures own { AreOwnCounts (S.sight sight.old) end.edge end.at_b result }
    ensures small { AreSmall result }
    ensures tested { (n : ℕ) → IsCornerCount (S.sight sight.old) end.edge end.at_b n → S.sight sight.new ≡ with_tests n (S.sight sight.old) }
{
    let corner = corner_of(sight, end);
    let triangles = sight.star(corner).len();
    let mut left = 0;
    let mut right = 0;
    for i in 0..triangles {
        let tri = sight.star(corner)[i];
        let (on_left, on_right) = sight.cover(end, tri);
        left += u64::from(on_left);
        right += u64::from(on_right);
    }
    Sides::counts(left, right)
}

/// By how much the outlines that the finder lists over a corner change the two counts in the turn about it, from one end there to
/// another: a test of each.
pub(crate) fn turned<S: Sight, F: Finder>(
    sight: &mut S,
    finder: &F,
    corner: u32,
    from: End,
    to: End,
) -> Sides
    requires from { IsSeenEdge (S.sight sight.old) from.edge }
    requires to { IsSeenEdge (S.sight sight.old) to.edge }
    requires one_corner { (e f : Edge (S.sight sight.old).part) → IsNumbered (S.sight sight.old).halves from.edge e → IsNumbered (S.sight sight.old).halves to.edge f →
        number_at e from.at_b ≡ number_at f to.at_b }
    requires listed { AreListedOver (S.sight sight.old) corner (F.list_over finder.now corner) }
    requires room { (S.sight sight.old).tests + length (F.list_over finder.now corner) < 2 ^ 64 }
    ensures turns { AreTurnsOver (S.sight sight.old) from to (F.list_over finder.now corner) result }
    ensures small { AreSmall result }
    ensures tested { S.sight sight.new ≡ with_tests (length (F.list_over finder.now corner)) (S.sight sight.old) }
{
    let mut left = 0;
    let mut right = 0;
    let mut i = 0;
    while let Some(outline) = finder.over(corner, i) {
        let turn = sight.turn(from, to, outline);
        left += i64::from(turn.left);
        right += i64::from(turn.right);
        i += 1;
    }
    Sides { left, right }
}
