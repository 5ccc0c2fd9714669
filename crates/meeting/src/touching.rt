// Whether an edge and a triangle have a common point.
ghost use Rattle.std.specs.Prelude.{◌↔◌, ◌<◌, ◌^◌, pos, ◌+ℤ◌, ◌≤ℤ◌, ◌<ℤ◌, unsigned_abs, IsTrue};
ghost use Rattle.lattice.specs.Triple.{dot, IsZero};
ghost use Rattle.lattice.specs.Points.{of_dir, of_normal};
ghost use Rattle.geometry.specs.Faces.{IsFlat};
ghost use Rattle.meeting.specs.Touching.{Touch, TouchBeyond};
ghost use Rattle.meeting.specs.inner.Heights.{AreOnOneSide};

use crate::course::{Course, above, left_of};
use crate::edges::{edges_touch, is_one_way};
use crate::places::crosses;
use lattice::{Corner, Dir, Normal, Vector, cross};

/// Whether the edge from `p` to `q` and the triangle of `a`, `b` and `c` have a common point. Both are closed: the ends, the
/// corners and the sides belong to them. The triangle may be flat, and the edge may have length 0.
pub fn touches(a: &Corner, b: &Corner, c: &Corner, p: &Corner, q: &Corner) -> bool
    ensures { IsTrue result ↔ Touch a.now b.now c.now p.now q.now }
{
    if are_on_one_side(above(a, b, c, p), above(a, b, c, q)) {
        return false;
    }
    let normal = cross(&Vector::between(a, b), &Vector::between(a, c));
    if normal.is_zero() {
        return touches_flat(a, b, c, p, q);
    }
    crosses(&Course::new(&front(&normal), a, b, c, p, q))
}

/// Whether both ends of an edge, by how far they are above a plane, are off it on the same side.
fn are_on_one_side(start: i128, end: i128) -> bool
    requires start { unsigned_abs start < 2 ^ 66 }
    requires end { unsigned_abs end < 2 ^ 66 }
    ensures { IsTrue result ↔ AreOnOneSide start end }
{
    if start < 0 {
        return end < 0;
    }
    if start > 0 {
        return end > 0;
    }
    false
}

/// The same, of a flat triangle: each of its points is on one of its two sides from `a`.
fn touches_flat(a: &Corner, b: &Corner, c: &Corner, p: &Corner, q: &Corner) -> bool
    requires { IsFlat a.now b.now c.now }
    ensures { IsTrue result ↔ Touch a.now b.now c.now p.now q.now }
{
    if edges_touch(a, b, p, q) {
        return true;
    }
    edges_touch(a, c, p, q)
}

/// Whether the edge from `a` to `q` and the triangle of `a`, `b` and `c` have another point than `a` in common. The triangle may
/// be flat. Where `q` is `a` they haven't.
pub fn touches_beyond(a: &Corner, b: &Corner, c: &Corner, q: &Corner) -> bool
    ensures { IsTrue result ↔ TouchBeyond a.now b.now c.now q.now }
{
    if above(a, b, c, q) != 0 {
        return false;
    }
    let normal = cross(&Vector::between(a, b), &Vector::between(a, c));
    if normal.is_zero() {
        return touches_beyond_flat(a, b, c, q);
    }
    let d = front(&normal);
    is_beyond(left_of(&d, c, a, q), left_of(&d, a, b, q))
}

/// The same, of a flat triangle.
fn touches_beyond_flat(a: &Corner, b: &Corner, c: &Corner, q: &Corner) -> bool
    requires { IsFlat a.now b.now c.now }
    ensures { IsTrue result ↔ TouchBeyond a.now b.now c.now q.now }
{
    if is_one_way(a, b, q) {
        return true;
    }
    is_one_way(a, c, q)
}

/// Whether a corner in the triangle's plane, by how far it is to the left of the two sides from the first corner, is to the
/// right of neither and not on both: then the edge to it has another common point than that first corner.
fn is_beyond(ca: i128, ab: i128) -> bool
    requires first { unsigned_abs ca < 2 ^ 48 }
    requires second { unsigned_abs ab < 2 ^ 48 }
    ensures { IsTrue result ↔ ((pos 0 ≤ℤ ca) × (pos 0 ≤ℤ ab) × (pos 0 <ℤ (ca +ℤ ab))) }
{
    if ca < 0 {
        return false;
    }
    if ab < 0 {
        return false;
    }
    ca + ab > 0
}

/// A direction along which the corners of the triangle with this normal are seen counterclockwise: the signs of the normal.
fn front(normal: &Normal) -> Dir
    requires { ¬ IsZero (of_normal normal.now) }
    ensures { pos 0 <ℤ dot (of_dir result) (of_normal normal.now) }
{
    match Dir::new(normal.x.signum(), normal.y.signum(), normal.z.signum()) {
        Ok(d) => d,
        Err(_) => unreachable!(),
    }
}
