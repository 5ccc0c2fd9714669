//! How many faces are nearer along each drawn edge in the view of a cut, on its left and on its right, and whether the section is: by
//! counts that are carried along each edge (Appel 1967).
//!
//! At a point of an edge beyond the plane each of the two counts is how many faces, by what the plane leaves of them, are strictly
//! nearer and reach to that side of the edge's line, and one more where the point is in the section. Faces that are seen edge-on are
//! never counted. The cut of a solid is closed by its section, which faces the viewer. So along an edge the counts change in two ways
//! alone:
//!
//! - where what is left of an outline passes nearer over the edge. An outline that meets the plane ends there (`cut_cross`);
//! - where the border of a face passes over the edge: the face ends there, and the section begins or ends (`border_cross`). On which side
//!   of a border the face is, is read from its corners, so it plays no part which way the triangles' normals point.
//!
//! Counts aren't carried around corners. Those of an edge start at an end of it that is beyond the plane: each triangle near it is
//! tested there (`cut_cover`), and on each side of the edge's line the section is there where an odd number of borders cross the line
//! ahead. For the left count an end of a border that is seen on the line counts as to its right, for the right count as to its left, so
//! over a border that is seen along the edge the two differ. At ordinary points over which no border passes, a point of the edge is
//! hidden exactly where the two counts are not both 0. `border_cover` tells of one segment whether it counts for a spot, by the rule of
//! even and odd.
//!
//! Cost: for each drawn edge with a part beyond the plane one test of each triangle that the finder doesn't pass over at that end, of
//! each segment of the section and of each outline that the finder lists along it, and sorts of the borders and of the crossings that
//! are there; so at most `cut_bound` tests. On success exactly so many are counted (`IsEdgeTests`). No test takes memory. Each takes
//! constant time, but for `border_cross`, which goes once over the segments where the border passes over an inner place of the edge that
//! is beyond the plane; `spans_cut` doesn't call it. Besides the spans, memory is taken for the borders and the crossings of one edge at
//! a time.
#![tactic(auto)]

ghost use Rattle.std.specs.Prelude.{◌≡◌, ◌≤◌, ◌+◌, ◌<◌, ◌^◌, ℕ, List, IfOk, OnOk, length, sum};
ghost use Rattle.std.specs.List.{AllZip};
ghost use Rattle.lattice.specs.Cuts.{plane_of, toward_of};
ghost use Rattle.solid_mesh.specs.Solids.{solid_part, edge_halves};
ghost use Rattle.cut_plane.specs.Loops.{AreBorders};
ghost use Rattle.edge_pick.specs.Picked.{IsPicked};
ghost use Rattle.span_count.specs.Finders.{IsFinder, IsPickedIn};
ghost use Rattle.cut_count.specs.Bounds.{IsCutBound};
ghost use Rattle.cut_count.specs.CutSpans.{IsCutEntry};
ghost use Rattle.cut_count.specs.Tests.{IsEdgeTests};

mod beyond;
mod border;
mod cover;
mod cross;
mod found;
mod outlines;
mod placed;
mod rests;
mod sights;
mod start;
mod under;
mod walk;

use crate::walk::edge_spans;
pub use border::{border_cover, border_cross};
pub use cover::cut_cover;
pub use cross::cut_cross;
use cross_find::Meter;
use cut_plane::Section;
use edge_pick::Picked;
use exact_frac::OutOfMemory;
use solid_mesh::Solid;
use span_count::{EdgeSpans, Finder};
use std::alloc::Global;

/// The bound of what was picked for the view of a cut: the number of drawn edges, times the sum of those of triangles, of outlines and of
/// the section's segments twice.
/// Takes constant time and no memory.
pub fn cut_bound(solid: &Solid, section: &Section, picked: &Picked) -> u64
    requires picked { (fraction : ℕ) × IsPicked (toward_of (plane_of section.now.cut)) fraction (solid_part solid.now) (edge_halves solid.now) picked.now }
    requires borders { AreBorders (plane_of section.now.cut) (solid_part solid.now) section.now.segments.items section.now.loops.items }
    ensures bound { IsCutBound (solid_part solid.now) section.now picked.now result }
    ensures size { result < 2 ^ 48 }
{
    let drawn = picked.drawn.len() as u64;
    let outlines = picked.outlines.len() as u64;
    let segments = section.segments.len() as u64;
    drawn * (u64::from(solid.triangles()) + outlines + 2 * segments)
}

/// The spans of each drawn edge, in order. Those of an edge follow one another over its part beyond the plane, if there is one, and
/// none of their ends is at a point that is ordinary in the cut. At each such point within a span over which no border passes, `left`
/// and `right` are the two counts, and the point is hidden exactly where they are not both 0. Neighbours may have equal counts.
///
/// Cost: for each drawn edge with a part beyond the plane one test of each triangle that the finder doesn't pass over, of each segment
/// and of each outline that the finder lists along it, and a sort of the crossings that are there. Asking the finder is no test. On
/// success exactly so many tests are counted: one of each such segment and outline, and of different triangles with each that is near
/// the corner where the edge's counts start among them; none of an edge that has no part beyond the plane. Also where memory runs out,
/// at most `cut_bound` tests are made.
pub fn spans_cut<F: Finder>(
    alloc: Global,
    solid: &Solid,
    section: &Section,
    picked: &Picked,
    finder: &F,
    meter: &mut Meter,
) -> Result<Vec<EdgeSpans>, OutOfMemory>
    requires borders { AreBorders (plane_of section.now.cut) (solid_part solid.now) section.now.segments.items section.now.loops.items }
    requires picked { IsPickedIn (record { part = solid_part solid.now; halves = edge_halves solid.now; direction = toward_of (plane_of section.now.cut); tests = meter.old.tests }) picked.now }
    requires finder { IsFinder (record { part = solid_part solid.now; halves = edge_halves solid.now; direction = toward_of (plane_of section.now.cut); tests = meter.old.tests })
        picked.now (F.list_along finder.now) (F.list_over finder.now) (F.is_near finder.now) }
    requires room { (bound : ℕ) → IsCutBound (solid_part solid.now) section.now picked.now bound → meter.old.tests + bound < 2 ^ 64 }
    ensures entries { IfOk result (λ entries. AllZip (IsCutEntry (plane_of section.now.cut) (solid_part solid.now) (edge_halves solid.now)) picked.now.drawn.items entries.items) }
    ensures tested { (bound : ℕ) → IsCutBound (solid_part solid.now) section.now picked.now bound → (meter.old.tests ≤ meter.new.tests) × (meter.new.tests ≤ meter.old.tests + bound) }
    ensures all_tested { OnOk result ((counts : List ℕ)
        × AllZip (IsEdgeTests (plane_of section.now.cut) (solid_part solid.now) (edge_halves solid.now) (F.list_along finder.now) (length section.now.segments.items) (F.is_near finder.now)) picked.now.drawn.items counts
        × (meter.new.tests ≡ meter.old.tests + sum counts)) }
{
    let mut entries = Vec::new(alloc);
    for edge in &picked.drawn {
        let spans = edge_spans(alloc, solid, section, finder, *edge, meter)?;
        entries.push(EdgeSpans { edge: *edge, spans })?;
    }
    Ok(entries)
}
