// What is inside a section.
ghost use Rattle.std.specs.Prelude.{◌≡◌, ◌*◌, ◌<◌, ◌≤◌, ◌^◌, ◌↔◌, pos, ◌+ℤ◌, ◌*ℤ◌, ◌<ℤ◌, ◌≤ℤ◌, unsigned_abs, IsTrue};
ghost use Rattle.integers.specs.Floors.{IsFloor};
ghost use Rattle.lattice.specs.Points.{of_dir, of_spot};
ghost use Rattle.lattice.specs.Cuts.{plane_of};
ghost use Rattle.geometry.specs.Parts.{Part};
ghost use Rattle.geometry.specs.Cuts.{IsInSection};
ghost use Rattle.cut_plane.specs.Loops.{AreBorders};
ghost use Rattle.cut_plane.specs.Sides.{IsRightOf, IsNotAbove};

use crate::loops::Section;
use crate::segments::Segment;
use exact_frac::Frac;
use lattice::{Dir, Line, Spot, across, upward};

/// The spot is seen inside the section of any part whose borders these are: an odd number of segments are to its right, the
/// rule of even and odd. A segment counts at the V of its lower end and not at that of its upper end, and a level one never.
///
/// It takes a constant time for each segment, and no memory.
pub fn inside(section: &Section, p: &Spot) -> bool
    ensures { (s : Part) → AreBorders (plane_of section.now.cut) s section.now.segments.items section.now.loops.items
        → IsTrue result ↔ IsInSection (plane_of section.now.cut) s (of_spot p.now) }
{
    let d = section.cut.dir();
    let mut odd = false;
    for segment in section.segments.as_slice() {
        if is_right_of(&d, segment, p) {
            odd = !odd;
        }
    }
    odd
}

/// The segment is to the right of the spot: V of the spot is from that of the lower end on, and less than that of the upper
/// end, and U is less than that of the line at this V. Takes constant time and no memory.
pub fn is_right_of(d: &Dir, segment: &Segment, p: &Spot) -> bool
    ensures { IsTrue result ↔ IsRightOf (of_dir d.now) segment.now (of_spot p.now) }
{
    if is_not_above(d, &segment.a, p) == is_not_above(d, &segment.b, p) {
        return false;
    }
    is_before(&segment.line, &across(d, p), &upward(d, p))
}

/// V of `p` is at most that of `q`.
fn is_not_above(d: &Dir, p: &Spot, q: &Spot) -> bool
    ensures { IsTrue result ↔ IsNotAbove (of_dir d.now) (of_spot p.now) (of_spot q.now) }
{
    upward(d, p) <= upward(d, q)
}

/// `a * U + b * V < c`, where U and V have one divisor. Multiplied out, the products have up to 137 bits, so whole parts and
/// rests are taken apart.
fn is_before(line: &Line, u: &Frac, v: &Frac) -> bool
    requires same { u.now.den ≡ v.now.den }
    requires small { unsigned_abs u.now.den < 2 ^ 70 }
    requires near_u { unsigned_abs u.now.num ≤ 2 ^ 30 * unsigned_abs u.now.den }
    requires near_v { unsigned_abs v.now.num ≤ 2 ^ 30 * unsigned_abs v.now.den }
    ensures { IsTrue result ↔ (((line.now.a *ℤ u.now.num) +ℤ (line.now.b *ℤ v.now.num)) <ℤ (line.now.c *ℤ u.now.den)) }
{
    let (first, second) = (split(u), split(v));
    let whole = summed(line.a, first.whole, line.b, second.whole);
    let rest = summed(line.a, first.rest, line.b, second.rest);
    is_less(whole, floored(rest, u.den), line.c)
}

/// A fraction's whole part and what is left, over the same divisor.
#[derive(Clone, Copy)]
struct Parted {
    whole: i128,
    rest: i128,
}

/// The whole part of the fraction, and what is left.
fn split(x: &Frac) -> Parted
    requires { unsigned_abs x.now.num ≤ 2 ^ 30 * unsigned_abs x.now.den }
    ensures parts { x.now.num ≡ (result.whole *ℤ x.now.den) +ℤ result.rest }
    ensures size { unsigned_abs result.whole ≤ 2 ^ 30 }
    ensures least { pos 0 ≤ℤ result.rest }
    ensures less { result.rest <ℤ x.now.den }
{
    Parted {
        whole: x.num.div_euclid(x.den),
        rest: x.num.rem_euclid(x.den),
    }
}

/// `a * u + b * v`.
fn summed(a: i128, u: i128, b: i128, v: i128) -> i128
    requires first { unsigned_abs a ≤ 2 ^ 44 }
    requires second { unsigned_abs u < 2 ^ 70 }
    requires third { unsigned_abs b ≤ 2 ^ 44 }
    requires fourth { unsigned_abs v < 2 ^ 70 }
    ensures value { result ≡ (a *ℤ u) +ℤ (b *ℤ v) }
    ensures size { unsigned_abs result < 2 ^ 116 }
{
    a * u + b * v
}

/// The floor of `n / d`.
fn floored(n: i128, d: i128) -> i128
    requires positive { pos 0 <ℤ d }
    requires small { unsigned_abs n < 2 ^ 116 }
    ensures floor { IsFloor result n d }
    ensures size { unsigned_abs result ≤ 2 ^ 116 }
{
    n.div_euclid(d)
}

/// `whole + floor` is less than `c`.
fn is_less(whole: i128, floor: i128, c: i128) -> bool
    requires first { unsigned_abs whole < 2 ^ 116 }
    requires second { unsigned_abs floor ≤ 2 ^ 116 }
    ensures { IsTrue result ↔ ((whole +ℤ floor) <ℤ c) }
{
    whole + floor < c
}
