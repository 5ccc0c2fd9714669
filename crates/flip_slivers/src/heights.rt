// The least heights of triangles: which is lower, and how far a flip moves points.
ghost use Rattle.std.specs.Prelude.{◌≡◌, ◌+◌, ◌*◌, ◌<◌, ◌≤◌, ◌^◌, ◌↔◌, length, IsTrue, pos, unsigned_abs, ◌*ℤ◌, ◌<ℤ◌};
ghost use Rattle.lattice.specs.Triangles.{IsBelow};
ghost use Rattle.flip_slivers.specs.Heights.{HasHeight, IsLongest, IsRoundedUp, side_square, area_square};

use exact_frac::{Frac, isqrt};
use lattice::{Corner, Tri, Vector, cross};
use std::cmp::Ordering;

/// The square of twice a triangle's area, and that of a longest side: the square of its least height is `area / side`.
#[derive(Clone, Copy, Debug)]
pub(crate) struct Height {
    pub area: u128,
    pub side: u64,
    ghost area_in_range: { area < 2 ^ 88 },
    ghost side_in_range: { side < 2 ^ 44 },
}

/// The height of the triangle with these corner numbers.
pub(crate) fn height_at(corners: &[Corner], t: &Tri) -> Height
    requires { IsBelow (length corners.now) t.now }
    ensures { HasHeight corners.now t.now (pos result.area) (pos result.side) }
{
    let a = &corners[t.a as usize];
    let b = &corners[t.b as usize];
    let c = &corners[t.c as usize];
    height_of(a, b, c)
}

/// The height of the triangle with these corners.
fn height_of(a: &Corner, b: &Corner, c: &Corner) -> Height
    ensures area { pos result.area ≡ area_square a.now b.now c.now }
    ensures side { IsLongest a.now b.now c.now (pos result.side) }
{
    let first = side_between(a, b);
    let second = side_between(b, c);
    let third = side_between(c, a);
    Height {
        area: area_between(a, b, c),
        side: first.max(second).max(third),
    }
}

/// The square of the side from a to b.
pub(crate) fn side_between(a: &Corner, b: &Corner) -> u64
    ensures value { pos result ≡ side_square a.now b.now }
    ensures size { result < 2 ^ 44 }
{
    let way = Vector::between(a, b);
    side_part(way.x) + side_part(way.y) + side_part(way.z)
}

/// The square of one component of a side.
fn side_part(x: i64) -> u64
    requires { unsigned_abs x ≤ 2 ^ 21 }
    ensures value { result ≡ unsigned_abs x * unsigned_abs x }
    ensures size { result ≤ 2 ^ 42 }
{
    let size = x.unsigned_abs();
    size * size
}

/// The square of twice the triangle's area.
fn area_between(a: &Corner, b: &Corner, c: &Corner) -> u128
    ensures value { pos result ≡ area_square a.now b.now c.now }
    ensures size { result < 2 ^ 88 }
{
    let normal = cross(&Vector::between(a, b), &Vector::between(a, c));
    area_part(normal.x) + area_part(normal.y) + area_part(normal.z)
}

/// The square of one component of a normal.
fn area_part(x: i64) -> u128
    requires { unsigned_abs x ≤ 2 ^ 43 }
    ensures value { result ≡ unsigned_abs x * unsigned_abs x }
    ensures size { result ≤ 2 ^ 86 }
{
    let size = u128::from(x.unsigned_abs());
    size * size
}

/// The first height is less. Low ones, as slivers have them, are compared by two multiplications of words.
pub(crate) fn is_less(h: &Height, k: &Height) -> bool
    requires { k.now.side ≡ 0 → k.now.area ≡ 0 }
    ensures { IsTrue result ↔ (pos h.now.area *ℤ pos k.now.side) <ℤ (pos k.now.area *ℤ pos h.now.side) }
{
    if is_low(h) && is_low(k) {
        return product(h.area, k.side) < product(k.area, h.side);
    }
    is_less_by_ratio(h, k)
}

/// The same of any heights.
#[inline(never)]
fn is_less_by_ratio(h: &Height, k: &Height) -> bool
    requires { k.now.side ≡ 0 → k.now.area ≡ 0 }
    ensures { IsTrue result ↔ (pos h.now.area *ℤ pos k.now.side) <ℤ (pos k.now.area *ℤ pos h.now.side) }
{
    if h.side == 0 || k.side == 0 {
        return false;
    }
    ratio_of(h).cmp(&ratio_of(k)) == Ordering::Less
}

/// The product of the square of a low triangle's doubled area with that of a side: one multiplication of words.
fn product(area: u128, side: u64) -> u128
    requires { area < 2 ^ 46 }
    ensures { result ≡ area * side }
{
    u128::from(area as u64) * u128::from(side)
}

/// The first height is less than either of the others.
pub(crate) fn is_below_both(h: &Height, k: &Height, l: &Height) -> bool
    requires one { k.now.side ≡ 0 → k.now.area ≡ 0 }
    requires other { l.now.side ≡ 0 → l.now.area ≡ 0 }
    ensures { IsTrue result ↔ (((pos h.now.area *ℤ pos k.now.side) <ℤ (pos k.now.area *ℤ pos h.now.side))
        × ((pos h.now.area *ℤ pos l.now.side) <ℤ (pos l.now.area *ℤ pos h.now.side))) }
{
    is_less(h, k) && is_less(h, l)
}

/// The square of the height as a fraction.
fn ratio_of(h: &Height) -> Frac
    requires { 0 < h.now.side }
    ensures num { result.num ≡ pos h.now.area }
    ensures den { result.den ≡ pos h.now.side }
{
    Frac {
        num: h.area as i128,
        den: i128::from(h.side),
    }
}

/// The height is that of a sliver.
pub(crate) fn is_sliver(h: &Height) -> bool
    ensures { IsTrue result ↔ ((0 < h.now.side) × (h.now.area ≤ 4 * h.now.side)) }
{
    h.side > 0 && is_low(h)
}

/// The height is at most 2 units.
fn is_low(h: &Height) -> bool
    ensures { IsTrue result ↔ (h.now.area ≤ 4 * h.now.side) }
{
    h.area <= u128::from(4 * h.side)
}

/// The height in 1024ths of a unit, rounded up.
pub(crate) fn rise_of(h: &Height) -> u32
    requires long { 0 < h.now.side }
    requires low { h.now.area ≤ 4 * h.now.side }
    ensures rounded { IsRoundedUp result (pos h.now.area) (pos h.now.side) }
    ensures small { result ≤ 4096 }
{
    let scaled = h.area * 1_048_576;
    let side = u128::from(h.side);
    let root = whole_root(scaled, side);
    if u128::from(root) * u128::from(root) * side < scaled {
        root + 1
    } else {
        root
    }
}

/// The whole part of the square root of `n / d`.
fn whole_root(n: u128, d: u128) -> u32
    requires positive { 0 < d }
    requires small { n ≤ 4194304 * d }
    ensures at_most { (result * result) * d ≤ n }
    ensures greatest { n < ((result + 1) * (result + 1)) * d }
    ensures small { result ≤ 2048 }
{
    isqrt((n / d) as u64) as u32
}
