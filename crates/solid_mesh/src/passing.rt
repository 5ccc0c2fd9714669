// Edges that pass by what is within some bounds, or by a fan over it, as they are seen along an axis.
ghost use Rattle.std.specs.Prelude.{◌≡◌, ℤ, ◌≤◌, ◌^◌, ◌*ℤ◌, ◌-ℤ◌, ◌≤ℤ◌, unsigned_abs, IsTrue};
ghost use Rattle.meeting.specs.Ranges.{IsInRange};
ghost use Rattle.solid_mesh.specs.inner.Bounds.{AreLeft, PassesBy, PassesRound};

use crate::bounds::Bounds;
use lattice::Corner;
use meeting::Range;

/// Whether along one of the axes all places within the bounds are seen strictly on one side of the line from `p` to `q`.
pub(crate) fn passes_by(p: &Corner, q: &Corner, bounds: &Bounds) -> bool
    ensures { IsTrue result → PassesBy p.now q.now bounds.now }
{
    if is_left(p.x, q.x, p.y, q.y, &bounds.x, &bounds.y) {
        return true;
    }
    if is_left(p.y, q.y, p.x, q.x, &bounds.y, &bounds.x) {
        return true;
    }
    if is_left(p.y, q.y, p.z, q.z, &bounds.y, &bounds.z) {
        return true;
    }
    if is_left(p.z, q.z, p.y, q.y, &bounds.z, &bounds.y) {
        return true;
    }
    if is_left(p.z, q.z, p.x, q.x, &bounds.z, &bounds.x) {
        return true;
    }
    is_left(p.x, q.x, p.z, q.z, &bounds.x, &bounds.z)
}

/// Whether along one of the axes all places within the bounds are seen strictly on one side of the lines from `h` to `p` and to `q`, on
/// the same of both. Then no triangle of `h` and two places within the bounds has a point of the edge from `p` to `q`.
pub(crate) fn passes_round(h: &Corner, p: &Corner, q: &Corner, bounds: &Bounds) -> bool
    ensures { IsTrue result → PassesRound h.now p.now q.now bounds.now }
{
    let Bounds { x, y, z, .. } = bounds;
    if is_left(h.x, p.x, h.y, p.y, x, y) && is_left(h.x, q.x, h.y, q.y, x, y) {
        return true;
    }
    if is_left(h.y, p.y, h.x, p.x, y, x) && is_left(h.y, q.y, h.x, q.x, y, x) {
        return true;
    }
    if is_left(h.y, p.y, h.z, p.z, y, z) && is_left(h.y, q.y, h.z, q.z, y, z) {
        return true;
    }
    if is_left(h.z, p.z, h.y, p.y, z, y) && is_left(h.z, q.z, h.y, q.y, z, y) {
        return true;
    }
    if is_left(h.z, p.z, h.x, p.x, z, x) && is_left(h.z, q.z, h.x, q.x, z, x) {
        return true;
    }
    is_left(h.x, p.x, h.z, p.z, x, z) && is_left(h.x, q.x, h.z, q.z, x, z)
}

/// Whether all places with both coordinates in these ranges are strictly to the left of the line from one place to another.
fn is_left(from_u: i32, to_u: i32, from_v: i32, to_v: i32, u: &Range, v: &Range) -> bool
    requires from_u { unsigned_abs from_u ≤ 2 ^ 20 }
    requires to_u { unsigned_abs to_u ≤ 2 ^ 20 }
    requires from_v { unsigned_abs from_v ≤ 2 ^ 20 }
    requires to_v { unsigned_abs to_v ≤ 2 ^ 20 }
    ensures { IsTrue result → AreLeft from_u to_u from_v to_v u.now v.now }
{
    let to_left = least_product(to_u - from_u, v, from_v);
    let not_to_right = least_product(from_v - to_v, u, from_u);
    to_left + not_to_right > 0
}

/// The least of `factor * (n - origin)` for the numbers `n` of a range.
fn least_product(factor: i32, range: &Range, origin: i32) -> i64
    requires factor { unsigned_abs factor ≤ 2 ^ 21 }
    requires origin { unsigned_abs origin ≤ 2 ^ 20 }
    ensures least { (n : ℤ) → IsInRange range.now n → result ≤ℤ (factor *ℤ (n -ℤ origin)) }
    ensures size { unsigned_abs result ≤ 2 ^ 54 }
{
    if factor < 0 {
        return product(factor, range.to, origin);
    }
    product(factor, range.from, origin)
}

/// `factor * (n - origin)`.
fn product(factor: i32, n: i32, origin: i32) -> i64
    requires factor { unsigned_abs factor ≤ 2 ^ 21 }
    requires origin { unsigned_abs origin ≤ 2 ^ 20 }
    ensures value { result ≡ factor *ℤ (n -ℤ origin) }
    ensures size { unsigned_abs result ≤ 2 ^ 54 }
{
    i64::from(factor) * (i64::from(n) - i64::from(origin))
}
