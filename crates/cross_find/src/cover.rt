// Whether a triangle is nearer next to an end of an edge, and to which sides of the edge's line it reaches.
ghost use Rattle.std.specs.Prelude.{◌≡◌, ◌⊎◌, ◌≢◌, ◌↔◌, ◌+◌, ◌<◌, ◌^◌, pos, ◌<ℤ◌, length, unsigned_abs, IsTrue};
ghost use Rattle.lattice.specs.Triple.{IsWithin, dot};
ghost use Rattle.lattice.specs.Points.{of_dir, of_vector, point_of, difference};
ghost use Rattle.geometry.specs.Faces.{facing_of};
ghost use Rattle.geometry.specs.Parts.{Edge, Face, IsNumbered};
ghost use Rattle.hiding_laws.specs.Values.{side_of, depth_of};
ghost use Rattle.solid_mesh.specs.Solids.{solid_part, edge_halves};
ghost use Rattle.geometry.specs.Counts.{to_left, to_right};
ghost use Rattle.geometry.specs.Covers.{IsCountedNext, IsOneWhere};
ghost use Rattle.cross_find.specs.Ends.{HidesAt, HidesFrom, IsAbove, IsApart, AreBeside};

use crate::edges::{ends, orientation_of};
use crate::meter::{End, Meter};
use lattice::{Corner, Dir, Vector, det3};
use solid_mesh::Solid;

/// The corners of a triangle.
#[derive(Clone, Copy)]
pub struct TriangleCorners {
    pub a: Corner,
    pub b: Corner,
    pub c: Corner,
}

/// Whether a triangle is counted to the left, and to the right, next to an end of an edge: 1 or 0. Takes constant time and no memory;
/// a triangle that is strictly to one side of the end, as it is seen, is mostly left by a few comparisons.
pub fn cover_test(solid: &Solid, d: &Dir, end: End, tri: u32, meter: &mut Meter) -> (u8, u8)
    requires edge_in_range { end.edge < length (edge_halves solid.now) }
    requires tri_in_range { tri < length (solid_part solid.now).triangles }
    requires room { meter.old.tests + 1 < 2 ^ 64 }
    ensures left { (e : Edge (solid_part solid.now)) (f : Face (solid_part solid.now)) → IsNumbered (edge_halves solid.now) end.edge e → f.number ≡ tri →
        IsOneWhere (IsCountedNext to_left (of_dir d.now) e end.at_b f) result.0 }
    ensures right { (e : Edge (solid_part solid.now)) (f : Face (solid_part solid.now)) → IsNumbered (edge_halves solid.now) end.edge e → f.number ≡ tri →
        IsOneWhere (IsCountedNext to_right (of_dir d.now) e end.at_b f) result.1 }
    ensures counted { meter.new.tests ≡ meter.old.tests + 1 }
{
    meter.tests += 1;
    let (a, b) = ends(solid, end.edge);
    let t = corners_of(solid, tri);
    if !hides_at(d, &a, &b, end.at_b, &t) {
        return (0, 0);
    }
    let x = orientation_of(d, &a, &b, &t.a);
    let y = orientation_of(d, &a, &b, &t.b);
    let z = orientation_of(d, &a, &b, &t.c);
    (any_above(x, y, z), any_below(x, y, z))
}

/// The corners of the triangle with this number.
pub fn corners_of(solid: &Solid, tri: u32) -> TriangleCorners
    requires { tri < length (solid_part solid.now).triangles }
    ensures { (f : Face (solid_part solid.now)) → f.number ≡ tri → (f.a ≡ result.a) × (f.b ≡ result.b) × (f.c ≡ result.c) }
{
    let t = solid.triangle(tri);
    TriangleCorners {
        a: solid.corner(t.a),
        b: solid.corner(t.b),
        c: solid.corner(t.c),
    }
}

/// The triangle is not edge-on, and strictly nearer over some stretch of the edge from `a` to `b`, from `a` on or from `b` on. Mostly
/// told by a few comparisons, else by at most eight determinants.
pub fn hides_at(d: &Dir, a: &Corner, b: &Corner, at_b: bool, t: &TriangleCorners) -> bool
    ensures { IsTrue result ↔ ((facing_of (of_dir d.now) t.now.a t.now.b t.now.c ≢ pos 0) × HidesAt at_b (of_dir d.now) t.now.a t.now.b t.now.c a.now b.now) }
{
    if at_b {
        hides_next(d, b, a, t)
    } else {
        hides_next(d, a, b, t)
    }
}

/// The same over the edge from `o` to `q`, from `o` on.
fn hides_next(d: &Dir, o: &Corner, q: &Corner, t: &TriangleCorners) -> bool
    ensures { IsTrue result ↔ ((facing_of (of_dir d.now) t.now.a t.now.b t.now.c ≢ pos 0) × HidesFrom (of_dir d.now) t.now.a t.now.b t.now.c o.now q.now) }
{
    // Most triangles are left here, before any determinant is formed.
    if is_apart(d, o, t) {
        return false;
    }
    let facing = orientation_of(d, &t.a, &t.b, &t.c);
    if facing > 0 {
        front_hides_next(d, o, q, t)
    } else if facing < 0 {
        front_hides_next(
            d,
            o,
            q,
            &TriangleCorners {
                a: t.a,
                b: t.c,
                c: t.b,
            },
        )
    } else {
        false
    }
}

/// The three corners are strictly to one side of the line of sight of `o`, by a coordinate that is the same all along it or, where
/// there is none, by U. A triangle that touches the line is never so; an answer `false` says nothing. V is not looked at: it would
/// leave few more, and cost as much as a side.
fn is_apart(d: &Dir, o: &Corner, t: &TriangleCorners) -> bool
    ensures { IsTrue result → IsApart (of_dir d.now) t.now.a t.now.b t.now.c o.now }
{
    let v = d.vector();
    if is_beside(v.x, o.x, t.a.x, t.b.x, t.c.x) {
        return true;
    }
    if is_beside(v.y, o.y, t.a.y, t.b.y, t.c.y) {
        return true;
    }
    if is_beside(v.z, o.z, t.a.z, t.b.z, t.c.z) {
        return true;
    }
    if v.x == 0 || v.y == 0 || v.z == 0 {
        return false;
    }
    is_apart_along(&d.right(), o, t)
}

/// The direction has the component 0, and three coordinates are above, or all are below, another.
fn is_beside(component: i64, o: i32, a: i32, b: i32, c: i32) -> bool
    ensures { IsTrue result ↔ ((component ≡ pos 0) × AreBeside o a b c) }
{
    component == 0 && are_beside(o, a, b, c)
}

/// Three numbers are above, or all are below, another.
fn are_beside(o: i32, a: i32, b: i32, c: i32) -> bool
    ensures { IsTrue result ↔ AreBeside o a b c }
{
    (a > o && b > o && c > o) || (a < o && b < o && c < o)
}

/// The three corners are strictly to one side of `o` along an axis.
fn is_apart_along(axis: &Vector, o: &Corner, t: &TriangleCorners) -> bool
    requires { IsWithin 162 (of_vector axis.now) }
    ensures { IsTrue result ↔ AreBeside (pos 0) (dot (of_vector axis.now) (difference o.now t.now.a)) (dot (of_vector axis.now) (difference o.now t.now.b)) (dot (of_vector axis.now) (difference o.now t.now.c)) }
{
    have_one_sign(
        axis.dot(&Vector::between(o, &t.a)),
        axis.dot(&Vector::between(o, &t.b)),
        axis.dot(&Vector::between(o, &t.c)),
    )
}

/// Three numbers are above 0, or all are below.
fn have_one_sign(a: i128, b: i128, c: i128) -> bool
    ensures { IsTrue result ↔ AreBeside (pos 0) a b c }
{
    (a > 0 && b > 0 && c > 0) || (a < 0 && b < 0 && c < 0)
}

/// The same as `hides_next`, of a triangle whose corners are seen counterclockwise: next to `o` the edge is within its three sides
/// and behind its plane. A value at `q` is formed only where that at `o` is 0.
fn front_hides_next(d: &Dir, o: &Corner, q: &Corner, t: &TriangleCorners) -> bool
    requires { pos 0 <ℤ facing_of (of_dir d.now) t.now.a t.now.b t.now.c }
    ensures { IsTrue result ↔ HidesFrom (of_dir d.now) t.now.a t.now.b t.now.c o.now q.now }
{
    let ab = side(d, &t.a, &t.b, o);
    if ab < 0 {
        return false;
    }
    let bc = side(d, &t.b, &t.c, o);
    if bc < 0 {
        return false;
    }
    let ca = side(d, &t.c, &t.a, o);
    if ca < 0 {
        return false;
    }
    if leaves(d, ab, &t.a, &t.b, q)
        || leaves(d, bc, &t.b, &t.c, q)
        || leaves(d, ca, &t.c, &t.a, q)
    {
        return false;
    }
    is_behind(t, o, q)
}

/// How far a corner is to the left of the line from `k` to `l`, as it is seen.
fn side(d: &Dir, k: &Corner, l: &Corner, p: &Corner) -> i128
    ensures value { result ≡ side_of (of_dir d.now) k.now l.now (point_of p.now) }
    ensures size { unsigned_abs result < 2 ^ 48 }
{
    orientation_of(d, k, l, p)
}

/// The end of an edge that is `here` to the left of the line from `k` to `l` is on it, and the other end `q` to the right.
fn leaves(d: &Dir, here: i128, k: &Corner, l: &Corner, q: &Corner) -> bool
    ensures { IsTrue result ↔ ((here ≡ pos 0) × (side_of (of_dir d.now) k.now l.now (point_of q.now) <ℤ pos 0)) }
{
    here == 0 && side(d, k, l, q) < 0
}

/// Next to `o` the edge is behind the plane of a triangle.
fn is_behind(t: &TriangleCorners, o: &Corner, q: &Corner) -> bool
    ensures { IsTrue result ↔ IsAbove (depth_of t.now.a t.now.b t.now.c (point_of o.now)) (depth_of t.now.a t.now.b t.now.c (point_of q.now)) }
{
    let here = depth(t, o);
    here > 0 || (here == 0 && depth(t, q) > 0)
}

/// How far a corner is behind the plane of a triangle.
fn depth(t: &TriangleCorners, p: &Corner) -> i128
    ensures value { result ≡ depth_of t.now.a t.now.b t.now.c (point_of p.now) }
    ensures size { unsigned_abs result < 2 ^ 66 }
{
    let (k, l) = (Vector::between(&t.a, &t.b), Vector::between(&t.a, &t.c));
    det3(&Vector::between(p, &t.a), &k, &l)
}

/// 1 where one of three numbers is above 0, else 0.
pub fn any_above(x: i128, y: i128, z: i128) -> u8
    ensures { IsOneWhere ((pos 0 <ℤ x) ⊎ (pos 0 <ℤ y) ⊎ (pos 0 <ℤ z)) result }
{
    if x > 0 || y > 0 || z > 0 { 1 } else { 0 }
}

/// 1 where one of three numbers is below 0, else 0.
pub fn any_below(x: i128, y: i128, z: i128) -> u8
    ensures { IsOneWhere ((x <ℤ pos 0) ⊎ (y <ℤ pos 0) ⊎ (z <ℤ pos 0)) result }
{
    if x < 0 || y < 0 || z < 0 { 1 } else { 0 }
}
