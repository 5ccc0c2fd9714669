// From an end of an edge to the next edge at its corner, and along that edge to its other end.
ghost use Rattle.std.specs.Prelude.{◌≡◌, false, true, ◌+◌, ◌<◌, ◌^◌, ℕ, pos, ◌+ℤ◌, ◌-ℤ◌, length, IfOk};
ghost use Rattle.geometry.specs.Parts.{Edge, IsNumbered};
ghost use Rattle.geometry.specs.Turns.{number_at};
ghost use Rattle.cross_find.specs.Sights.{IsSeen};
ghost use Rattle.span_count.specs.Bounds.{IsEndCount};
ghost use Rattle.span_count.specs.CountSpans.{AreCountSpans};
ghost use Rattle.span_count.specs.Finders.{AreAllNear};
ghost use Rattle.span_count.specs.inner.Rests.{IsCornerCount, AreCountsNext, AreRests};
ghost use Rattle.span_count.specs.inner.Steps.{IsSeenEdge, AreListed, AreListedOver};
ghost use Rattle.span_count.specs.Tests.{with_tests, IsTested, AreNearAmong};

use crate::along::walk_edge;
use crate::corner::{corner_of, own_counts, turned};
use crate::edge_tests::first_counts;
use crate::finder::Finder;
use crate::span::CountSpan;
use cross_find::{End, Sight};
use exact_frac::OutOfMemory;
use std::alloc::Global;

/// Numbers for the left side and for the right side of an edge.
#[derive(Clone, Copy, PartialEq, Eq, Debug)]
pub struct Sides {
    pub left: i64,
    pub right: i64,
}

impl Sides {
    ghost use Rattle.span_count.specs.Carries.{AreSmall};

    /// Two counts.
    pub(crate) fn counts(left: u64, right: u64) -> Sides
        requires left_small { left < 2 ^ 40 }
        requires right_small { right < 2 ^ 40 }
        ensures left { result.left ≡ pos left }
        ensures right { result.right ≡ pos right }
    {
        Sides {
            left: left as i64,
            right: right as i64,
        }
    }

    /// The sums, side by side.
    ///
    /// Cost: two additions.
    pub fn plus(self, more: Sides) -> Sides
        requires small { AreSmall self }
        requires more_small { AreSmall more }
        ensures left { result.left ≡ self.left +ℤ more.left }
        ensures right { result.right ≡ self.right +ℤ more.right }
    {
        Sides {
            left: self.left + more.left,
            right: self.right + more.right,
        }
    }

    /// The differences, side by side.
    ///
    /// Cost: two subtractions.
    pub fn minus(self, part: Sides) -> Sides
        requires small { AreSmall self }
        requires part_small { AreSmall part }
        ensures left { result.left ≡ self.left -ℤ part.left }
        ensures right { result.right ≡ self.right -ℤ part.right }
    {
        Sides {
            left: self.left - part.left,
            right: self.right - part.right,
        }
    }
}

/// The counts next to an end of an edge, and the rest of them without the triangles at the corner there.
#[derive(Clone, Copy)]
pub(crate) struct Start {
    pub(crate) counts: Sides,
    pub(crate) rest: Sides,
}

/// The spans of an edge, and the counts next to each of its ends without the triangles at the corner there.
#[derive(Drop)]
pub(crate) struct Walked {
    pub(crate) spans: Vec<CountSpan>,
    pub(crate) first: Sides,
    pub(crate) second: Sides,
}

/// The first edge of a run, from its first end: one test of each triangle that the finder doesn't pass over at the corner there, and
/// of each at the edge's two corners once more, then along the edge.
pub(crate) fn first_edge<S: Sight, F: Finder>(
    alloc: Global,
    sight: &mut S,
    finder: &F,
    edge: u32,
    triangles: u32,
) -> Result<Walked, OutOfMemory>
    requires seen { IsSeen (S.sight sight.old) }
    requires edge { IsSeenEdge (S.sight sight.old) edge }
    requires triangles { triangles ≡ length (S.sight sight.old).part.triangles }
    requires near { AreAllNear (S.sight sight.old).direction (S.sight sight.old).part (F.is_near finder.now) }
    requires listed { AreListed (S.sight sight.old) edge (F.list_along finder.now edge) }
    requires room { (ends : ℕ) → IsEndCount (S.sight sight.old).part (S.sight sight.old).halves edge ends →
        (S.sight sight.old).tests + (triangles + (length (F.list_along finder.now edge) + ends)) < 2 ^ 64 }
    ensures spans { (e : Edge (S.sight sight.old).part) → IsNumbered (S.sight sight.old).halves edge e →
        IfOk result (λ walked. AreCountSpans (S.sight sight.old).direction e walked.spans.items) }
    ensures first { IfOk result (λ walked. AreRests (S.sight sight.old) edge false walked.first) }
    ensures second { IfOk result (λ walked. AreRests (S.sight sight.old) edge true walked.second) }
    ensures tested { (ends : ℕ) → IsEndCount (S.sight sight.old).part (S.sight sight.old).halves edge ends →
        IsTested (triangles + (length (F.list_along finder.now edge) + ends)) (S.sight sight.old) (S.sight sight.new) }
    ensures all_tested { (e : Edge (S.sight sight.old).part) (ends : ℕ) → IsNumbered (S.sight sight.old).halves edge e →
        IsEndCount (S.sight sight.old).part (S.sight sight.old).halves edge ends →
        IfOk result (λ _. (n : ℕ) × AreNearAmong (F.is_near finder.now (number_at e false)) triangles n
        × (S.sight sight.new ≡ with_tests (n + (length (F.list_along finder.now edge) + ends)) (S.sight sight.old))) }
{
    let end = End { edge, at_b: false };
    let start = begin(sight, finder, edge, triangles);
    walk_edge(alloc, sight, finder, end, start)
}

/// The next edge, from the end of one that was walked to its end at the same corner: a test of each outline that the finder lists
/// over the corner and of each triangle at it, then along the edge.
pub(crate) fn next_edge<S: Sight, F: Finder>(
    alloc: Global,
    sight: &mut S,
    finder: &F,
    from: End,
    rest: Sides,
    to: End,
) -> Result<Walked, OutOfMemory>
    requires seen { IsSeen (S.sight sight.old) }
    requires from { IsSeenEdge (S.sight sight.old) from.edge }
    requires to { IsSeenEdge (S.sight sight.old) to.edge }
    requires one_corner { (e f : Edge (S.sight sight.old).part) → IsNumbered (S.sight sight.old).halves from.edge e → IsNumbered (S.sight sight.old).halves to.edge f →
        number_at e from.at_b ≡ number_at f to.at_b }
    requires rests { AreRests (S.sight sight.old) from.edge from.at_b rest }
    requires listed { AreListed (S.sight sight.old) to.edge (F.list_along finder.now to.edge) }
    requires listed_over { (f : Edge (S.sight sight.old).part) → IsNumbered (S.sight sight.old).halves to.edge f →
        AreListedOver (S.sight sight.old) (number_at f to.at_b) (F.list_over finder.now (number_at f to.at_b)) }
    requires room { (f : Edge (S.sight sight.old).part) (ends : ℕ) → IsNumbered (S.sight sight.old).halves to.edge f →
        IsEndCount (S.sight sight.old).part (S.sight sight.old).halves to.edge ends →
        (S.sight sight.old).tests + (length (F.list_over finder.now (number_at f to.at_b)) + (length (F.list_along finder.now to.edge) + ends)) < 2 ^ 64 }
    ensures spans { (f : Edge (S.sight sight.old).part) → IsNumbered (S.sight sight.old).halves to.edge f →
        IfOk result (λ walked. AreCountSpans (S.sight sight.old).direction f walked.spans.items) }
    ensures first { IfOk result (λ walked. AreRests (S.sight sight.old) to.edge false walked.first) }
    ensures second { IfOk result (λ walked. AreRests (S.sight sight.old) to.edge true walked.second) }
    ensures tested { (f : Edge (S.sight sight.old).part) (ends : ℕ) → IsNumbered (S.sight sight.old).halves to.edge f →
        IsEndCount (S.sight sight.old).part (S.sight sight.old).halves to.edge ends →
        IsTested (length (F.list_over finder.now (number_at f to.at_b)) + (length (F.list_along finder.now to.edge) + ends)) (S.sight sight.old) (S.sight sight.new) }
    ensures all_tested { (f : Edge (S.sight sight.old).part) (ends : ℕ) → IsNumbered (S.sight sight.old).halves to.edge f →
        IsEndCount (S.sight sight.old).part (S.sight sight.old).halves to.edge ends →
        IfOk result (λ _. S.sight sight.new ≡ with_tests (length (F.list_over finder.now (number_at f to.at_b)) + (length (F.list_along finder.now to.edge) + ends)) (S.sight sight.old)) }
{
    let corner = corner_of(sight, to);
    let start = turn_to(sight, finder, corner, from, rest, to);
    walk_edge(alloc, sight, finder, to, start)
}

/// The counts next to the first end of an edge, by one test of each triangle that the finder doesn't pass over at the corner there,
/// and of each at the corner once more.
fn begin<S: Sight, F: Finder>(sight: &mut S, finder: &F, edge: u32, triangles: u32) -> Start
    requires seen { IsSeen (S.sight sight.old) }
    requires edge { IsSeenEdge (S.sight sight.old) edge }
    requires triangles { triangles ≡ length (S.sight sight.old).part.triangles }
    requires near { AreAllNear (S.sight sight.old).direction (S.sight sight.old).part (F.is_near finder.now) }
    requires room { (n : ℕ) → IsCornerCount (S.sight sight.old) edge false n → (S.sight sight.old).tests + (triangles + n) < 2 ^ 64 }
    ensures counts { AreCountsNext (S.sight sight.old) edge false result.counts }
    ensures rest { AreRests (S.sight sight.old) edge false result.rest }
    ensures tested { (n : ℕ) → IsCornerCount (S.sight sight.old) edge false n → IsTested (triangles + n) (S.sight sight.old) (S.sight sight.new) }
    ensures near_tested { (e : Edge (S.sight sight.old).part) (m : ℕ) → IsNumbered (S.sight sight.old).halves edge e → IsCornerCount (S.sight sight.old) edge false m →
        (n : ℕ) × AreNearAmong (F.is_near finder.now (number_at e false)) triangles n × (S.sight sight.new ≡ with_tests (n + m) (S.sight sight.old)) }
{
    let end = End { edge, at_b: false };
    let corner = corner_of(sight, end);
    let counts = first_counts(sight, finder, edge, corner, triangles);
    let own = own_counts(sight, end);
    Start {
        counts,
        rest: counts.minus(own),
    }
}

/// The counts next to an end, by the rest at another end at the same corner: one test of each outline that the finder lists over
/// the corner, and of each triangle at it.
fn turn_to<S: Sight, F: Finder>(
    sight: &mut S,
    finder: &F,
    corner: u32,
    from: End,
    rest: Sides,
    to: End,
) -> Start
    requires seen { IsSeen (S.sight sight.old) }
    requires from { IsSeenEdge (S.sight sight.old) from.edge }
    requires to { IsSeenEdge (S.sight sight.old) to.edge }
    requires one_corner { (e f : Edge (S.sight sight.old).part) → IsNumbered (S.sight sight.old).halves from.edge e → IsNumbered (S.sight sight.old).halves to.edge f →
        number_at e from.at_b ≡ number_at f to.at_b }
    requires corner { (f : Edge (S.sight sight.old).part) → IsNumbered (S.sight sight.old).halves to.edge f → corner ≡ number_at f to.at_b }
    requires rests { AreRests (S.sight sight.old) from.edge from.at_b rest }
    requires listed { AreListedOver (S.sight sight.old) corner (F.list_over finder.now corner) }
    requires room { (n : ℕ) → IsCornerCount (S.sight sight.old) to.edge to.at_b n → (S.sight sight.old).tests + (length (F.list_over finder.now corner) + n) < 2 ^ 64 }
    ensures counts { AreCountsNext (S.sight sight.old) to.edge to.at_b result.counts }
    ensures rest { AreRests (S.sight sight.old) to.edge to.at_b result.rest }
    ensures tested { (n : ℕ) → IsCornerCount (S.sight sight.old) to.edge to.at_b n →
        S.sight sight.new ≡ with_tests (length (F.list_over finder.now corner) + n) (S.sight sight.old) }
{
    let turn = turned(sight, finder, corner, from, to);
    let own = own_counts(sight, to);
    let rest = rest.plus(turn);
    Start {
        counts: rest.plus(own),
        rest,
    }
}
