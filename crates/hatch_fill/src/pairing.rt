// From some loops of a section to their chords.
ghost use Rattle.std.specs.Prelude.{◌≤◌, IfOk};
ghost use Rattle.lattice.specs.Cuts.{plane_of};
ghost use Rattle.hatch_fill.specs.Chords.{AreChords};

use crate::crossings::crossings;
use crate::lines::hatch_lines;
use crate::stretches::pairs;
use cut_plane::Segment;
use exact_frac::OutOfMemory;
use lattice::{Cut, HatchLine};
use std::alloc::Global;

/// The chords of these segments in the plane of the cut: on each line where U - V is a whole multiple of `spacing`, in units,
/// from the first place at which a segment crosses the line to the second, from the third to the fourth, and so on. If the
/// segments are those of some loops of a section, the chords are what is inside an odd number of these loops. They are in the
/// order of U - V, and on one line from left to right; of each, `a` is the left end. A chord may run along a segment.
///
/// It takes memory for the crossings of segments with hatch lines. Its time is that of one pass over the segments, and of
/// sorting the crossings.
pub fn chords(
    alloc: Global,
    cut: &Cut,
    segments: &[Segment],
    spacing: u32,
) -> Result<Vec<HatchLine>, OutOfMemory>
    requires { 1 ≤ spacing }
    ensures { IfOk result (λ lines. AreChords (plane_of cut.now) spacing segments.now lines.items) }
{
    let mut places = crossings(alloc, &cut.dir(), segments, spacing)?;
    places.sort()?;
    let whole = pairs(alloc, &places)?;
    hatch_lines(alloc, cut, &whole)
}
