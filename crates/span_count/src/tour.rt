// What is found at all drawn edges, step by step, and what is kept for the steps after it.
ghost use Rattle.std.specs.Prelude.{◌≡◌, ℕ, ◌+◌, ◌<◌, ◌^◌, Some, length, slice_get, slice_set, IfOk};
ghost use Rattle.cross_find.specs.Sights.{IsSeen};
ghost use Rattle.span_count.specs.Bounds.{IsEndCount};
ghost use Rattle.span_count.specs.Finders.{IsFinder, IsPickedIn};
ghost use Rattle.span_count.specs.Tests.{with_tests, IsTested, AreStepTests};
ghost use Rattle.span_count.specs.inner.Tours.{kept_at, IsReady, IsWalked, cost_of};

use crate::finder::Finder;
use crate::span::EdgeSpans;
use crate::step::{Sides, Walked, first_edge, next_edge};
use cross_find::{End, Sight};
use edge_pick::{Picked, Step};
use exact_frac::OutOfMemory;
use std::alloc::Global;

/// What is kept for the two ends of an edge: the counts next to them without the triangles at the corner there.
#[derive(Clone, Copy, PartialEq, Eq, Debug)]
pub(crate) struct Ends {
    pub(crate) first: Sides,
    pub(crate) second: Sides,
}

/// What was found so far, for each drawn edge. Until an edge is walked it has no span, and 0 is kept.
#[derive(Drop)]
pub(crate) struct SpansFound {
    pub(crate) entries: Vec<EdgeSpans>,
    pub(crate) ends: Vec<Ends>,
}

/// Before any edge of these is walked.
pub(crate) fn nothing_found(alloc: Global, drawn: &[u32]) -> Result<SpansFound, OutOfMemory>
    ensures entries { IfOk result (λ found. length found.entries.items ≡ length drawn.now) }
    ensures ends { IfOk result (λ found. length found.ends.items ≡ length drawn.now) }
{
    let none = Sides { left: 0, right: 0 };
    let mut entries = Vec::new(alloc);
    let mut ends = Vec::new(alloc);
    for edge in drawn {
        entries.push(EdgeSpans {
            edge: *edge,
            spans: Vec::new(alloc),
        })?;
        ends.push(Ends {
            first: none,
            second: none,
        })?;
    }
    Ok(SpansFound { entries, ends })
}

/// Puts what was found at an edge to its place.
pub(crate) fn put(found: &mut SpansFound, place: u32, edge: u32, walked: Walked)
    requires entries { place < length found.old.entries.items }
    requires ends { place < length found.old.ends.items }
    ensures entries { found.new.entries.items ≡ slice_set found.old.entries.items place (record { edge = edge; spans = walked.spans }) }
    ensures ends { found.new.ends.items ≡ slice_set found.old.ends.items place (record { first = walked.first; second = walked.second }) }
{
    found.ends[place as usize] = Ends {
        first: walked.first,
        second: walked.second,
    };
    found.entries[place as usize] = EdgeSpans {
        edge,
        spans: walked.spans,
    };
}

/// What is kept for one of the two ends.
fn end_of(ends: &Ends, at_b: bool) -> Sides
    ensures { result ≡ kept_at ends.now at_b }
{
    if at_b { ends.second } else { ends.first }
}

/// Walks the edge that the step goes to: as the first of its run, or on from the end of one that was walked.
pub(crate) fn walk_step<S: Sight, F: Finder>(
    alloc: Global,
    sight: &mut S,
    finder: &F,
    picked: &Picked,
    ends: &[Ends],
    triangles: u32,
    step: Step,
) -> Result<Walked, OutOfMemory>
    requires seen { IsSeen (S.sight sight.old) }
    requires picked { IsPickedIn (S.sight sight.old) picked.now }
    requires finder { IsFinder (S.sight sight.old) picked.now (F.list_along finder.now) (F.list_over finder.now) (F.is_near finder.now) }
    requires triangles { triangles ≡ length (S.sight sight.old).part.triangles }
    requires place { step.to.place < length picked.now.drawn.items }
    requires ready { IsReady (S.sight sight.old) picked.now ends.now step.to step.from }
    requires room { (edge count : ℕ) → slice_get picked.now.drawn.items step.to.place ≡ Some edge →
        IsEndCount (S.sight sight.old).part (S.sight sight.old).halves edge count →
        (S.sight sight.old).tests + cost_of (length (S.sight sight.old).part.triangles) (length picked.now.outlines.items) count step.from < 2 ^ 64 }
    ensures walked { (edge : ℕ) → slice_get picked.now.drawn.items step.to.place ≡ Some edge →
        IfOk result (λ walked. IsWalked (S.sight sight.old) edge walked) }
    ensures tested { (edge count : ℕ) → slice_get picked.now.drawn.items step.to.place ≡ Some edge →
        IsEndCount (S.sight sight.old).part (S.sight sight.old).halves edge count →
        IsTested (cost_of (length (S.sight sight.old).part.triangles) (length picked.now.outlines.items) count step.from) (S.sight sight.old) (S.sight sight.new) }
    ensures all_tested { IfOk result (λ _. (n : ℕ) × AreStepTests (S.sight sight.old) picked.now (F.list_along finder.now) (F.list_over finder.now) (F.is_near finder.now) step n
        × (S.sight sight.new ≡ with_tests n (S.sight sight.old))) }
{
    let edge = picked.drawn[step.to.place as usize];
    match step.from {
        None => first_edge(alloc, sight, finder, edge, triangles),
        Some(from) => {
            let start = End {
                edge: picked.drawn[from.place as usize],
                at_b: from.at_b,
            };
            let kept = end_of(&ends[from.place as usize], from.at_b);
            let end = End {
                edge,
                at_b: step.to.at_b,
            };
            next_edge(alloc, sight, finder, start, kept, end)
        }
    }
}
