// The border segments of triangles.
ghost use Rattle.std.specs.Prelude.{◌≡◌, ◌+◌, ◌*◌, ◌<◌, ◌≤◌, IsNone, IfSome, MatchBool, length};
ghost use Rattle.lattice.specs.Points.{point_of};
ghost use Rattle.lattice.specs.Cuts.{plane_of, IsBeyond, IsBeforePlane};
ghost use Rattle.geometry.specs.Faces.{IsFlat};
ghost use Rattle.geometry.specs.Parts.{part_with};
ghost use Rattle.geometry.specs.Cuts.{over_of};
ghost use Rattle.solid_mesh.specs.Solids.{solid_part};
ghost use Rattle.cut_plane.specs.inner.Borders.{IsFaceAt, corner_from, corner_to, CrossesBySides, IsOnOneSide, IsSegmentAt, LeadsOver};

use crate::side_crossings::{border_line, crossing, over};
use lattice::{Corner, Cut, Line, Spot, Tri};
use solid_mesh::Solid;

/// The border segment of a triangle: where its two sides that cross the plane do. It goes from `a` to `b`, on the line. The
/// viewer sees the triangle's normal to the right of it, so where normals point outward the section is to its left.
#[derive(Clone, Copy, Debug)]
pub struct Segment {
    pub tri: u32,
    pub line: Line,
    pub a: Spot,
    pub b: Spot,
}

/// The three corners of a triangle.
#[derive(Clone, Copy)]
pub(crate) struct Corners {
    pub a: Corner,
    pub b: Corner,
    pub c: Corner,
}

/// The sides of a triangle that cross the plane: the one that goes beyond it and the one that comes back.
#[derive(Clone, Copy)]
pub(crate) struct Sides {
    pub first: u32,
    pub second: u32,
}

/// The corners of the triangle with this number.
pub(crate) fn corners_of(solid: &Solid, tri: u32) -> Corners
    requires { tri < length (solid_part solid.now).triangles }
    ensures { IsFaceAt (solid_part solid.now) tri result }
{
    let Tri { a, b, c } = solid.triangle(tri);
    Corners {
        a: solid.corner(a),
        b: solid.corner(b),
        c: solid.corner(c),
    }
}

/// The corner is before the plane, and not beyond it.
fn is_before(cut: &Cut, k: &Corner) -> bool
    ensures { MatchBool result (IsBeforePlane (plane_of cut.now) (point_of k.now)) (IsBeyond (plane_of cut.now) (point_of k.now)) }
{
    over(cut, k) > 0
}

/// The sides that cross the plane, if any do.
pub(crate) fn sides_of(cut: &Cut, corners: &Corners) -> Option<Sides>
    ensures some { IfSome result (λ x. CrossesBySides (plane_of cut.now) corners.now x.first x.second) }
    ensures none { IsNone result → IsOnOneSide (plane_of cut.now) corners.now }
{
    let Corners { a, b, c } = *corners;
    let (first, second) = match (is_before(cut, &a), is_before(cut, &b), is_before(cut, &c)) {
        (true, false, false) => (0, 2),
        (true, true, false) => (1, 2),
        (true, false, true) => (0, 1),
        (false, true, true) => (2, 0),
        (false, false, true) => (2, 1),
        (false, true, false) => (1, 0),
        (true, true, true) => return None,
        (false, false, false) => return None,
    };
    Some(Sides { first, second })
}

/// The corners between which side 0, 1 or 2 goes.
fn ends(corners: &Corners, side: u32) -> (Corner, Corner)
    ensures from { result.0 ≡ corner_from corners.now side }
    ensures to { result.1 ≡ corner_to corners.now side }
{
    match side {
        0 => (corners.a, corners.b),
        1 => (corners.b, corners.c),
        _ => (corners.c, corners.a),
    }
}

/// The border segment of a triangle with these corners, which are not in one line.
pub(crate) fn segment_of(cut: &Cut, tri: u32, corners: &Corners, sides: Sides) -> Segment
    requires whole { ¬ IsFlat corners.now.a corners.now.b corners.now.c }
    requires crosses { CrossesBySides (plane_of cut.now) corners.now sides.first sides.second }
    ensures { IsSegmentAt (plane_of cut.now) tri corners.now sides.first sides.second result }
{
    let (k, l) = ends(corners, sides.first);
    let (m, n) = ends(corners, sides.second);
    Segment {
        tri,
        line: border_line(cut, &corners.a, &corners.b, &corners.c),
        a: crossing(cut, &k, &l),
        b: crossing(cut, &n, &m),
    }
}

/// The triangle on the other side of a side.
pub(crate) fn across_side(solid: &Solid, tri: u32, side: u32) -> u32
    requires within { tri < length (solid_part solid.now).triangles }
    requires side { side < 3 }
    ensures { LeadsOver (solid_part solid.now) tri side result }
{
    solid.twin(3 * tri + side) / 3
}
