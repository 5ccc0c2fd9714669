// Lines of a view, in lowest terms.
ghost use Rattle.std.specs.Prelude.{◌≡◌, ◌+◌, ◌<◌, ◌≤◌, ◌^◌, pos, ◌+ℤ◌, ◌*ℤ◌, ◌<ℤ◌, unsigned_abs};
ghost use Rattle.lattice.specs.LowestTerms.{leading_of, HaveNoCommonDivisor};
ghost use Rattle.lattice.specs.inner.LeadingDivisors.{IsLeadingDivisor};
ghost use Rattle.lattice.specs.Triple.{IsWithin, dot};
ghost use Rattle.lattice.specs.Points.{of_dir, of_vector, point_of, scaled, OnOneSight};

use crate::points::{Corner, Dir, Vector};
use crate::products::weighted;
use exact_frac::gcd;

/// The line `a * U + b * V = c` of a view, in lowest terms: no number above 1 divides all three, and the first of `a` and
/// `b` that isn't 0 is positive. So each line has one such form. `a` and `b` are at most 2^44 and `c` is below 2^67 in size.
#[derive(Clone, Copy, PartialEq, Eq, Hash, Debug)]
pub struct Line {
    pub a: i128,
    pub b: i128,
    pub c: i128,
    ghost a_in_range: { unsigned_abs a ≤ 2 ^ 44 },
    ghost b_in_range: { unsigned_abs b ≤ 2 ^ 44 },
    ghost c_in_range: { unsigned_abs c < 2 ^ 67 },
    ghost leads: { pos 0 <ℤ leading_of a b },
    ghost lowest: { HaveNoCommonDivisor a b c },
}

impl Line {
    ghost use Rattle.lattice.specs.Lines.{IsOnLine, IsLineOf};

    /// The line on which both corners are seen, the same for either order. They may not be seen at one place.
    ///
    /// It takes what `lowest` takes.
    pub fn through(d: &Dir, p: &Corner, q: &Corner) -> Line
        requires { ¬ OnOneSight (of_dir d.now) (point_of p.now) (point_of q.now) }
        ensures first { IsOnLine (of_dir d.now) result (point_of p.now) }
        ensures second { IsOnLine (of_dir d.now) result (point_of q.now) }
    {
        let (right, up) = (d.right(), d.up());
        let a = up.dot(&Vector::between(p, q));
        let b = right.dot(&Vector::between(q, p));
        let c = constant(a, b, component(&right, p), component(&up, p));
        Line::lowest(a, b, c)
    }

    /// The line `a * U + b * V = c`. `a` and `b` may not both be 0.
    ///
    /// It takes two greatest common divisors, by at most 184 divisions each, and three divisions.
    pub fn lowest(a: i128, b: i128, c: i128) -> Line
        requires first { unsigned_abs a ≤ 2 ^ 44 }
        requires second { unsigned_abs b ≤ 2 ^ 44 }
        requires third { unsigned_abs c < 2 ^ 67 }
        requires somewhere { 0 < unsigned_abs a + unsigned_abs b }
        ensures { IsLineOf result a b c }
    {
        let divisor = leading_divisor(a, b, c);
        Line {
            a: a / divisor,
            b: b / divisor,
            c: c / divisor,
        }
    }
}

/// The greatest common divisor, with the sign of the first of `a` and `b` that isn't 0. They may not both be 0.
fn leading_divisor(a: i128, b: i128, c: i128) -> i128
    requires first { unsigned_abs a ≤ 2 ^ 44 }
    requires second { unsigned_abs b ≤ 2 ^ 44 }
    requires third { unsigned_abs c < 2 ^ 67 }
    requires somewhere { 0 < unsigned_abs a + unsigned_abs b }
    ensures { IsLeadingDivisor a b c result }
{
    let divisor = gcd(gcd(a, b), c);
    if leading(a, b) < 0 { -divisor } else { divisor }
}

/// The first of the two that isn't 0, if there is one.
fn leading(a: i128, b: i128) -> i128
    ensures { result ≡ leading_of a b }
{
    if a == 0 { b } else { a }
}

/// The scalar product of an axis of a view with a corner.
fn component(axis: &Vector, p: &Corner) -> i128
    requires { IsWithin 162 (of_vector axis.now) }
    ensures value { result ≡ dot (of_vector axis.now) (scaled (point_of p.now)) }
    ensures size { unsigned_abs result < 2 ^ 30 }
{
    weighted(axis, p.x.into(), p.y.into(), p.z.into())
}

/// `a * u + b * v`.
fn constant(a: i128, b: i128, u: i128, v: i128) -> i128
    requires first { unsigned_abs a < 2 ^ 30 }
    requires second { unsigned_abs b < 2 ^ 30 }
    requires third { unsigned_abs u < 2 ^ 30 }
    requires fourth { unsigned_abs v < 2 ^ 30 }
    ensures value { result ≡ (a *ℤ u) +ℤ (b *ℤ v) }
    ensures size { unsigned_abs result < 2 ^ 62 }
{
    a * u + b * v
}
