// Whether what the plane leaves of a triangle is nearer next to an end of an edge, and to which sides of the edge's line it reaches.
ghost use Rattle.std.specs.Prelude.{◌≡◌, ◌≢◌, ◌⊎◌, ◌+◌, ◌<◌, ◌≤ℤ◌, ◌^◌, ◌↔◌, pos, ◌<ℤ◌, length, unsigned_abs, IsTrue};
ghost use Rattle.lattice.specs.Cuts.{plane_of, toward_of, IsBeyond};
ghost use Rattle.lattice.specs.Points.{of_dir, point_of};
ghost use Rattle.geometry.specs.Faces.{facing_of};
ghost use Rattle.geometry.specs.Parts.{Edge, Face, IsNumbered};
ghost use Rattle.hiding_laws.specs.CutValues.{under_of};
ghost use Rattle.solid_mesh.specs.Solids.{solid_part, edge_halves};
ghost use Rattle.geometry.specs.Counts.{to_left, to_right, orientation_of};
ghost use Rattle.geometry.specs.Covers.{IsOneWhere};
ghost use Rattle.geometry.specs.Turns.{corner_at};
ghost use Rattle.cross_find.specs.Ends.{IsNotBelow};
ghost use Rattle.cut_count_laws.specs.CutCovers.{IsCutCoveredNext};
ghost use Rattle.cut_count.specs.inner.Rests.{IsRestNext, IsRestNextAt, SideReaches};

use crate::placed::Placed;
use crate::rests::end_turn;
use crate::under::under_at;
use cross_find::{
    End, Meter, TriangleCorners, any_above, any_below, corners_of, ends, hides_at, orientation_of,
};
use cut_plane::{Section, over};
use lattice::{Corner, Cut, Dir};
use solid_mesh::Solid;

/// Whether a triangle is counted to the left, and to the right, next to an end of an edge that is beyond the plane, in the view of a
/// cut: 1 or 0. It is counted by its part that is beyond the plane or on it, so one without a corner beyond the plane never is. Takes
/// constant time and no memory; a triangle that is before the plane, or strictly to one side of the end as it is seen, is left by a few
/// comparisons.
pub fn cut_cover(
    solid: &Solid,
    section: &Section,
    end: End,
    tri: u32,
    meter: &mut Meter,
) -> (u8, u8)
    requires edge_in_range { end.edge < length (edge_halves solid.now) }
    requires tri_in_range { tri < length (solid_part solid.now).triangles }
    requires beyond { (e : Edge (solid_part solid.now)) → IsNumbered (edge_halves solid.now) end.edge e → IsBeyond (plane_of section.now.cut) (point_of (corner_at e end.at_b)) }
    requires room { meter.old.tests + 1 < 2 ^ 64 }
    ensures left { (e : Edge (solid_part solid.now)) (f : Face (solid_part solid.now)) → IsNumbered (edge_halves solid.now) end.edge e → f.number ≡ tri →
        IsOneWhere (IsCutCoveredNext to_left (plane_of section.now.cut) e end.at_b f) result.0 }
    ensures right { (e : Edge (solid_part solid.now)) (f : Face (solid_part solid.now)) → IsNumbered (edge_halves solid.now) end.edge e → f.number ≡ tri →
        IsOneWhere (IsCutCoveredNext to_right (plane_of section.now.cut) e end.at_b f) result.1 }
    ensures counted { meter.new.tests ≡ meter.old.tests + 1 }
{
    meter.tests += 1;
    let cut = &section.cut;
    let t = corners_of(solid, tri);
    let (i, j, k) = (over(cut, &t.a), over(cut, &t.b), over(cut, &t.c));
    if i > 0 && j > 0 && k > 0 {
        return (0, 0);
    }
    let d = cut.dir();
    let (a, b) = ends(solid, end.edge);
    if !hides_at(&d, &a, &b, end.at_b, &t) || !is_left_at(cut, &a, &b, end.at_b, &t) {
        return (0, 0);
    }
    let x = placed(&d, &a, &b, &t.a, i);
    let y = placed(&d, &a, &b, &t.b, j);
    let z = placed(&d, &a, &b, &t.c, k);
    joined(side_reach(&x, &y), side_reach(&y, &z), side_reach(&z, &x))
}

/// Next to that end of the edge from `a` to `b` the points of the triangle's plane over it are beyond the plane of the cut or on it. The
/// triangle is not edge-on.
fn is_left_at(cut: &Cut, a: &Corner, b: &Corner, at_b: bool, t: &TriangleCorners) -> bool
    ensures { IsTrue result ↔ IsRestNextAt at_b (plane_of cut.now) t.now.a t.now.b t.now.c a.now b.now }
{
    if at_b {
        is_left_next(cut, b, a, t)
    } else {
        is_left_next(cut, a, b, t)
    }
}

/// The same next to the end `o` of the edge from `o` to `q`.
fn is_left_next(cut: &Cut, o: &Corner, q: &Corner, t: &TriangleCorners) -> bool
    ensures { IsTrue result ↔ IsRestNext (plane_of cut.now) t.now.a t.now.b t.now.c o.now q.now }
{
    if orientation_of(&cut.dir(), &t.a, &t.b, &t.c) > 0 {
        front_is_left_next(cut, o, q, &t.a, &t.b, &t.c)
    } else {
        front_is_left_next(cut, o, q, &t.a, &t.c, &t.b)
    }
}

/// The same of a triangle by its corners as they are seen counterclockwise. The value at `q` is formed only where that at `o` is 0.
fn front_is_left_next(cut: &Cut, o: &Corner, q: &Corner, a: &Corner, b: &Corner, c: &Corner) -> bool
    ensures { IsTrue result ↔ IsNotBelow (under_of (plane_of cut.now) a.now b.now c.now (point_of o.now)) (under_of (plane_of cut.now) a.now b.now c.now (point_of q.now)) }
{
    let here = under_at(cut, a, b, c, o);
    here > 0 || (here == 0 && under_at(cut, a, b, c, q) >= 0)
}

/// A corner with its height above the plane, and where it is seen to the line from `a` to `b`.
fn placed(d: &Dir, a: &Corner, b: &Corner, k: &Corner, over: i64) -> Placed
    requires { unsigned_abs over < 2 ^ 23 }
    ensures over { result.over ≡ over }
    ensures turn { result.turn ≡ orientation_of (of_dir d.now) a.now b.now k.now }
{
    Placed {
        over,
        turn: orientation_of(d, a, b, k),
    }
}

/// Whether an end of what the plane leaves of the side from `x` to `y` is seen strictly to the left of an edge's line, and whether one is
/// to the right: 1 or 0.
fn side_reach(x: &Placed, y: &Placed) -> (u8, u8)
    ensures left { IsOneWhere (SideReaches to_left x.now y.now) result.0 }
    ensures right { IsOneWhere (SideReaches to_right x.now y.now) result.1 }
{
    if !x.is_beyond() && !y.is_beyond() {
        return (0, 0);
    }
    let (from, to) = (end_turn(x, y), end_turn(y, x));
    (any_above(from, to, to), any_below(from, to, to))
}

/// 1 for each side to which one of the three reaches, else 0.
fn joined(x: (u8, u8), y: (u8, u8), z: (u8, u8)) -> (u8, u8)
    ensures left { IsOneWhere ((x.0 ≢ 0) ⊎ (y.0 ≢ 0) ⊎ (z.0 ≢ 0)) result.0 }
    ensures right { IsOneWhere ((x.1 ≢ 0) ⊎ (y.1 ≢ 0) ⊎ (z.1 ≢ 0)) result.1 }
{
    (one_of(x.0, y.0, z.0), one_of(x.1, y.1, z.1))
}

/// 1 where one of three numbers is not 0, else 0.
fn one_of(x: u8, y: u8, z: u8) -> u8
    ensures { IsOneWhere ((x ≢ 0) ⊎ (y ≢ 0) ⊎ (z ≢ 0)) result }
{
    if x != 0 || y != 0 || z != 0 { 1 } else { 0 }
}
