// From the borders of a section to its hatch lines.
ghost use Rattle.std.specs.Prelude.{◌≤◌, length, IfOk};
ghost use Rattle.std.specs.List.{All};
ghost use Rattle.lattice.specs.Triangles.{IsBelow};
ghost use Rattle.lattice.specs.Cuts.{plane_of};
ghost use Rattle.geometry.specs.Parts.{Part};
ghost use Rattle.geometry.specs.Sound.{IsSound};
ghost use Rattle.cut_plane.specs.Loops.{AreBorders};
ghost use Rattle.hatch_fill.specs.Hatching.{IsHatching};

use crate::crossings::crossings;
use crate::lines::hatch_lines;
use crate::stretches::{pairs, stretches};
use cut_plane::Section;
use exact_frac::OutOfMemory;
use intervals::{rest, united};
use lattice::HatchLine;
use std::alloc::Global;

/// The hatch lines of a section that `borders` gave: where U - V is a whole multiple of `spacing`, in units, exactly what is
/// within the section off its borders, and along no border. They are in the order of U - V, and on one line from left to
/// right; of each, `a` is the left end. Of another section nothing is said.
///
/// It takes memory for the crossings of segments with hatch lines, and for the segments that run along one. Its time is that
/// of one pass over the segments, and of sorting both.
pub fn hatch(alloc: Global, section: &Section, spacing: u32) -> Result<Vec<HatchLine>, OutOfMemory>
    requires { 1 ≤ spacing }
    ensures { (s : Part) → IsSound s → All (IsBelow (length s.corners)) s.triangles → AreBorders (plane_of section.now.cut) s section.now.segments.items section.now.loops.items
        → IfOk result (λ lines. IsHatching (plane_of section.now.cut) s spacing lines.items) }
{
    let d = section.cut.dir();
    let segments = section.segments.as_slice();
    let mut places = crossings(alloc, &d, segments, spacing)?;
    places.sort()?;
    let whole = united(alloc, pairs(alloc, &places)?)?;
    let borders = united(alloc, stretches(alloc, &d, segments, spacing)?)?;
    let within = rest(alloc, &whole, &borders)?;
    hatch_lines(alloc, &section.cut, &within)
}
