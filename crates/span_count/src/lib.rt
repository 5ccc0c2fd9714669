//! How many faces are nearer along each drawn edge, on its left and on its right, by counts that are carried along edges and
//! around corners (Appel 1967).
//!
//! The two counts are found once for each run of drawn edges, at an end of its first edge, by one test of each triangle near the
//! corner there. Along an edge they change only where an outline passes nearer over it. Around a corner, from the end of an edge
//! there to that of the next, what is counted of the triangles at the corner is taken off and found anew, and the rest changes
//! only where an outline passes nearer over the corner. So one test of each outline that may do so is enough, for each edge and
//! for each corner that is gone around, with one of each triangle at the edge's two ends. A `Finder` lists those outlines, and may
//! say which triangles are near a corner; `AllOutlines` lists all there are. At ordinary points, a point of the edge is hidden
//! exactly where the two counts are not both 0.
//!
//! It departs from Appel in two ways. 1) All nearer faces that are not edge-on are counted, those turned away from the viewer
//! too, so it does not matter which side of a face is the outer one. 2) There are two counts, by the side of the edge's line to
//! which a face reaches, so a corner of an outline on that line is no special case.
//!
//! Cost: `bound` tests at most, and sorts. The faces are seen only through a `Sight`, which counts the tests and tells no
//! coordinate, and through the `Finder`, which is asked without a count: what it doesn't list changes no count at that edge or
//! corner, and what it passes over isn't over that corner. The body tests what it hands out. A clause gives
//! the number of tests (`all_tested`): one for each outline that is listed, for each edge and for each turn; one for each triangle at
//! either end of an edge; and where a run begins, those of different triangles with all near ones among them. Besides the spans,
//! memory is taken for the order of the drawn edges, for two pairs of numbers for each of them, and for the crossings of one edge at a
//! time.
//!
//! Where the crossings of an edge are found by other means, as in a cut view, `ascending`, `change_over`, `first_counts_by` and
//! `carried` make spans of them along the whole edge or a part of it.
#![tactic(auto)]

ghost use Rattle.std.specs.Prelude.{ℕ, ◌+◌, ◌<◌, ◌^◌, IfOk};
ghost use Rattle.std.specs.List.{AllZip};
ghost use Rattle.span_count.specs.Bounds.{IsBound};
ghost use Rattle.span_count.specs.Finders.{IsFinder, IsPickedIn};
ghost use Rattle.span_count.specs.Entries.{IsEntry};
ghost use Rattle.span_count.specs.Tests.{IsTested, AreAllTested};

mod along;
mod bounds;
mod carry;
mod corner;
mod edge_tests;
mod finder;
mod order;
mod span;
mod step;
mod tour;

use crate::order::steps_of;
use crate::tour::{nothing_found, put, walk_step};
pub use along::{change_over, first_counts_by};
pub use bounds::{bound, count_runs};
pub use carry::{ascending, carried};
use cross_find::Sight;
use edge_pick::Picked;
use exact_frac::OutOfMemory;
pub use finder::{AllOutlines, Finder, next_triangle};
pub use span::{CountSpan, EdgeSpans};
use std::alloc::Global;
pub use step::Sides;

/// The spans of each drawn edge, in order. The spans of an edge follow one another from 0 to 1, and none of their ends is at
/// an ordinary point. At each ordinary point within a span, `left` and `right` are the two counts, and the point is hidden
/// exactly where they are not both 0. Neighbours may have equal counts.
///
/// Cost: for each run one test of each triangle that the finder doesn't pass over; for each drawn edge one test of each outline that
/// the finder lists along it and over the corner that it is come to, and of each triangle at its two ends; and a sort of the crossings
/// that are there. Asking the finder is no test. On success exactly so many tests are counted (`AreAllTested`). Where a run begins,
/// they are those of different triangles with all near ones among them, perhaps with others. Which outline or triangle was tested, no
/// clause says. Also where memory runs out, at most `bound` tests are made, and the sight has the same solid and the same direction as
/// before.
pub fn spans_counted<S: Sight, F: Finder>(
    alloc: Global,
    sight: &mut S,
    picked: &Picked,
    finder: &F,
) -> Result<Vec<EdgeSpans>, OutOfMemory>
    requires picked { IsPickedIn (S.sight sight.old) picked.now }
    requires finder { IsFinder (S.sight sight.old) picked.now (F.list_along finder.now) (F.list_over finder.now) (F.is_near finder.now) }
    requires room { (bound : ℕ) × IsBound (S.sight sight.old).part (S.sight sight.old).halves picked.now bound × ((S.sight sight.old).tests + bound < 2 ^ 64) }
    ensures entries { IfOk result (λ entries. AllZip (IsEntry (S.sight sight.old)) picked.now.drawn.items entries.items) }
    ensures tested { (bound : ℕ) → IsBound (S.sight sight.old).part (S.sight sight.old).halves picked.now bound → IsTested bound (S.sight sight.old) (S.sight sight.new) }
    ensures all_tested { IfOk result (λ _. AreAllTested picked.now (F.list_along finder.now) (F.list_over finder.now) (F.is_near finder.now) (S.sight sight.old) (S.sight sight.new)) }
{
    let triangles = sight.triangles();
    let steps = steps_of(alloc, sight, picked)?;
    let mut found = nothing_found(alloc, &picked.drawn)?;
    for step in &steps {
        let walked = walk_step(alloc, sight, finder, picked, &found.ends, triangles, *step)?;
        let edge = picked.drawn[step.to.place as usize];
        put(&mut found, step.to.place, edge, walked);
    }
    Ok(found.entries)
}
