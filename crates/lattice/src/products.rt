// Exact products of vectors and directions, and what a spot is worth along the axes of a view.
ghost use Rattle.std.specs.Prelude.{◌≡◌, ◌*◌, ◌<◌, ◌≤◌, ◌^◌, ◌-ℤ◌, ◌*ℤ◌, ◌↔◌, unsigned_abs, IsTrue};
ghost use Rattle.lattice.specs.Triple.{IsWithin, dot, cross, det};
ghost use Rattle.lattice.specs.Points.{of_dir, of_vector, of_normal, of_spot, scaled, across_of, upward_of, height_of, IsRatio, OnOneSight, DifferAlong};

use crate::normals::Normal;
use crate::points::{Dir, Spot, Vector};
use exact_frac::Frac;
use std::cmp::Ordering;

/// `a * d - b * c`, one component of a cross product.
pub(crate) fn minor(a: i64, b: i64, c: i64, d: i64) -> i64
    requires first { unsigned_abs a ≤ 2 ^ 21 }
    requires second { unsigned_abs b ≤ 2 ^ 21 }
    requires third { unsigned_abs c ≤ 2 ^ 21 }
    requires fourth { unsigned_abs d ≤ 2 ^ 21 }
    ensures value { result ≡ a *ℤ d -ℤ b *ℤ c }
    ensures size { unsigned_abs result ≤ 2 ^ 43 }
    ensures small { unsigned_abs a ≤ 9 → unsigned_abs b ≤ 9 → unsigned_abs c ≤ 9 → unsigned_abs d ≤ 9 → unsigned_abs result ≤ 162 }
{
    a * d - b * c
}

/// `a * b`, one summand of a scalar product.
fn summand(a: i64, b: i128) -> i128
    requires first { unsigned_abs a ≤ 2 ^ 21 }
    requires second { unsigned_abs b < 2 ^ 92 }
    ensures value { result ≡ a *ℤ b }
    ensures size { unsigned_abs result ≤ 2 ^ 113 }
{
    i128::from(a) * b
}

/// The scalar product of a vector with three numbers.
pub(crate) fn weighted(r: &Vector, x: i128, y: i128, z: i128) -> i128
    requires first { unsigned_abs x < 2 ^ 92 }
    requires second { unsigned_abs y < 2 ^ 92 }
    requires third { unsigned_abs z < 2 ^ 92 }
    ensures value { result ≡ dot (of_vector r.now) (record { x = x; y = y; z = z }) }
    ensures size { unsigned_abs result < 2 ^ 115 }
{
    summand(r.x, x) + summand(r.y, y) + summand(r.z, z)
}

/// The cross product of two vectors: the normal of the face that they span.
pub fn cross(s: &Vector, t: &Vector) -> Normal
    ensures { of_normal result ≡ cross (of_vector s.now) (of_vector t.now) }
{
    Normal {
        x: minor(s.y, s.z, t.y, t.z),
        y: minor(s.z, s.x, t.z, t.x),
        z: minor(s.x, s.y, t.x, t.y),
    }
}

/// The determinant of three vectors: their scalar triple product.
pub fn det3(r: &Vector, s: &Vector, t: &Vector) -> i128
    ensures value { result ≡ det (of_vector r.now) (of_vector s.now) (of_vector t.now) }
    ensures size { unsigned_abs result < 2 ^ 66 }
{
    let normal = cross(s, t);
    weighted(r, normal.x.into(), normal.y.into(), normal.z.into())
}

/// The scalar product of the direction with the cross product of two vectors.
///
/// It is positive where the turn from `s` to `t` is seen counterclockwise, and 0 where both are seen in one line.
pub fn view_cross(d: &Dir, s: &Vector, t: &Vector) -> i128
    ensures value { result ≡ det (of_dir d.now) (of_vector s.now) (of_vector t.now) }
    ensures size { unsigned_abs result < 2 ^ 48 }
{
    det3(&d.vector(), s, t)
}

/// The scalar product of a vector with a spot.
fn along(axis: &Vector, p: &Spot) -> Frac
    requires { IsWithin 162 (of_vector axis.now) }
    ensures ratio { IsRatio result (dot (of_vector axis.now) (scaled (of_spot p.now))) p.now.w }
    ensures near { unsigned_abs result.num ≤ 2 ^ 30 * unsigned_abs p.now.w }
{
    Frac {
        num: weighted(axis, p.x, p.y, p.z),
        den: p.w,
    }
}

/// The height of the spot: its scalar product with the direction, with the spot's `w` as the divisor. Greater is nearer the viewer.
pub fn height(d: &Dir, p: &Spot) -> Frac
    ensures ratio { IsRatio result (height_of (of_dir d.now) (of_spot p.now)) p.now.w }
    ensures near { unsigned_abs result.num ≤ 2 ^ 30 * unsigned_abs p.now.w }
{
    along(&d.vector(), p)
}

/// U of the spot: its scalar product with the right axis, with the spot's `w` as the divisor.
pub fn across(d: &Dir, p: &Spot) -> Frac
    ensures ratio { IsRatio result (across_of (of_dir d.now) (of_spot p.now)) p.now.w }
    ensures near { unsigned_abs result.num ≤ 2 ^ 30 * unsigned_abs p.now.w }
{
    along(&d.right(), p)
}

/// V of the spot: its scalar product with the up axis, with the spot's `w` as the divisor.
pub fn upward(d: &Dir, p: &Spot) -> Frac
    ensures ratio { IsRatio result (upward_of (of_dir d.now) (of_spot p.now)) p.now.w }
    ensures near { unsigned_abs result.num ≤ 2 ^ 30 * unsigned_abs p.now.w }
{
    along(&d.up(), p)
}

/// The two spots are on one line of sight: their U and their V agree, and their difference is a multiple of the direction.
pub fn same_sight(d: &Dir, p: &Spot, q: &Spot) -> bool
    ensures sight { IsTrue result ↔ OnOneSight (of_dir d.now) (of_spot p.now) (of_spot q.now) }
    ensures along { IsTrue result ↔ DifferAlong (of_dir d.now) (of_spot p.now) (of_spot q.now) }
{
    across(d, p).cmp(&across(d, q)) == Ordering::Equal
        && upward(d, p).cmp(&upward(d, q)) == Ordering::Equal
}
