// Which loops of a section are in others.
ghost use Rattle.std.specs.Prelude.{◌<◌, ◌↔◌, List, length, All, IsTrue, MatchBool};
ghost use Rattle.lattice.specs.Points.{of_dir, of_spot};
ghost use Rattle.cut_plane.specs.declared.segments.Segment.{Segment};
ghost use Rattle.section_look.specs.Regions.{Encloses, IsIn, IsInner, IsOuter, lists_of};

use crate::loops::after;
use cut_plane::{Segment, is_right_of};
use lattice::{Dir, Spot};

/// The loop encloses the spot: an odd number of its segments are to the right of it.
fn encloses(d: &Dir, loop_segments: &[Segment], p: &Spot) -> bool
    ensures { IsTrue result ↔ Encloses (of_dir d.now) loop_segments.now (of_spot p.now) }
{
    let mut odd = false;
    for segment in loop_segments {
        if is_right_of(d, segment, p) {
            odd = !odd;
        }
    }
    odd
}

/// The first loop is in the second, which encloses its first spot. Takes constant time for each segment of the second.
pub(crate) fn is_in(d: &Dir, inner: &[Segment], outer: &[Segment]) -> bool
    ensures { IsTrue result ↔ IsIn (of_dir d.now) inner.now outer.now }
{
    match inner.first() {
        Some(segment) => encloses(d, outer, &segment.a),
        None => false,
    }
}

/// The loop is in none of these others.
fn is_in_none(d: &Dir, inner: &[Segment], others: &[Vec<Segment>]) -> bool
    ensures { IsTrue result ↔ All (λ other. ¬ IsIn (of_dir d.now) inner.now other) (lists_of others.now) }
{
    for other in others {
        if is_in(d, inner, other) {
            return false;
        }
    }
    true
}

/// The loop with this number is in no other one. Takes constant time for each segment of the others.
pub(crate) fn is_outer(d: &Dir, loops: &[Vec<Segment>], k: usize) -> bool
    requires { k < length loops.now }
    ensures { MatchBool result ((x : List Segment) × IsOuter (of_dir d.now) (lists_of loops.now) k x) ((x : List Segment) × IsInner (of_dir d.now) (lists_of loops.now) k x) }
{
    let this = loops[k].as_slice();
    if !is_in_none(d, this, &loops[..k]) {
        return false;
    }
    is_in_none(d, this, after(loops, k))
}
