// Borders, loop by loop.
ghost use Rattle.std.specs.Prelude.{◌≡◌, ◌<◌, ◌↔◌, length, IsTrue, OnOk, IfOk};
ghost use Rattle.lattice.specs.Cuts.{plane_of};
ghost use Rattle.solid_mesh.specs.Solids.{solid_part};
ghost use Rattle.cut_plane.specs.Loops.{AreBorders, HasSegment};
ghost use Rattle.cut_plane.specs.inner.Walks.{IsCrossedAt, IsMarked, AreFollowing, IsStep, IsRound};

use crate::segments::{Segment, across_side, corners_of, segment_of, sides_of};
use exact_frac::OutOfMemory;
use lattice::Cut;
use solid_mesh::Solid;
use std::alloc::Global;

/// The section of a solid: its border segments, loop by loop. Each loop is closed and begins with its least triangle, loops
/// stand in the order of these, and `loops` holds the place of each loop's first segment.
#[derive(Debug, Drop)]
pub struct Section {
    pub cut: Cut,
    pub segments: Vec<Segment>,
    pub loops: Vec<u32>,
}

/// The border of what the cut leaves of the solid: one segment for each triangle with corners on both sides of the plane.
///
/// Its time is linear in the triangles: it looks at each once, and goes from one segment to the next by the twin of the side
/// at its end. It takes a mark for each triangle, and memory for the segments.
pub fn borders(alloc: Global, solid: &Solid, cut: &Cut) -> Result<Section, OutOfMemory>
    ensures cut { IfOk result (λ x. plane_of x.cut ≡ plane_of cut.now) }
    ensures borders { IfOk result (λ x. AreBorders (plane_of cut.now) (solid_part solid.now) x.segments.items x.loops.items) }
{
    let mut marks = vec![in alloc; false; solid.triangles() as usize]?;
    let mut segments = Vec::new(alloc);
    let mut loops = Vec::new(alloc);
    for tri in 0..solid.triangles() {
        if begins_loop(solid, cut, marks.as_slice(), tri) {
            loops.push(segments.len() as u32)?;
            go_round(solid, cut, tri, marks.as_mut_slice(), &mut segments)?;
        }
    }
    Ok(Section {
        cut: *cut,
        segments,
        loops,
    })
}

/// The triangle has a border, and no loop has come to it.
fn begins_loop(solid: &Solid, cut: &Cut, marks: &[bool], tri: u32) -> bool
    requires within { tri < length (solid_part solid.now).triangles }
    requires for_each { length marks.now ≡ length (solid_part solid.now).triangles }
    ensures new { IsTrue result → ¬ IsMarked marks.now tri }
    ensures crossed { IsTrue result → IsCrossedAt (plane_of cut.now) (solid_part solid.now) tri }
    ensures other { ¬ IsTrue result → IsCrossedAt (plane_of cut.now) (solid_part solid.now) tri → IsMarked marks.now tri }
{
    if marks[tri as usize] {
        return false;
    }
    is_crossed(solid, cut, tri)
}

/// The triangle has corners on both sides of the plane.
fn is_crossed(solid: &Solid, cut: &Cut, tri: u32) -> bool
    requires { tri < length (solid_part solid.now).triangles }
    ensures { IsTrue result ↔ IsCrossedAt (plane_of cut.now) (solid_part solid.now) tri }
{
    sides_of(cut, &corners_of(solid, tri)).is_some()
}

/// The section has a segment. Looks at one triangle after the other until the plane crosses one.
pub fn has_segment(solid: &Solid, cut: &Cut) -> bool
    ensures { IsTrue result ↔ HasSegment (plane_of cut.now) (solid_part solid.now) }
{
    for tri in 0..solid.triangles() {
        if is_crossed(solid, cut, tri) {
            return true;
        }
    }
    false
}

/// Adds the loop that begins at a triangle with a border, and marks its triangles, in constant time for each.
fn go_round(
    solid: &Solid,
    cut: &Cut,
    start: u32,
    marks: &mut [bool],
    segments: &mut Vec<Segment>,
) -> Result<(), OutOfMemory>
    requires crossed { IsCrossedAt (plane_of cut.now) (solid_part solid.now) start }
    requires for_each { length marks.old ≡ length (solid_part solid.now).triangles }
    requires free { ¬ IsMarked marks.old start }
    requires following { AreFollowing (plane_of cut.now) (solid_part solid.now) marks.old }
    ensures { OnOk result (IsRound (plane_of cut.now) (solid_part solid.now) start marks.old segments.old.items marks.new segments.new.items) }
{
    let mut tri = step(solid, cut, start, marks, segments)?;
    while tri != start {
        tri = step(solid, cut, tri, marks, segments)?;
    }
    Ok(())
}

/// Adds the segment of a triangle, marks the triangle, and tells the one in which the loop goes on.
fn step(
    solid: &Solid,
    cut: &Cut,
    tri: u32,
    marks: &mut [bool],
    segments: &mut Vec<Segment>,
) -> Result<u32, OutOfMemory>
    requires crossed { IsCrossedAt (plane_of cut.now) (solid_part solid.now) tri }
    requires for_each { length marks.old ≡ length (solid_part solid.now).triangles }
    ensures { IfOk result (IsStep (plane_of cut.now) (solid_part solid.now) tri marks.old segments.old.items marks.new segments.new.items) }
{
    let corners = corners_of(solid, tri);
    match sides_of(cut, &corners) {
        Some(sides) => {
            segments.push(segment_of(cut, tri, &corners, sides))?;
            marks[tri as usize] = true;
            Ok(across_side(solid, tri, sides.second))
        }
        None => unreachable!(),
    }
}
