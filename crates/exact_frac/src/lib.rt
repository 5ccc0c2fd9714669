//! Fractions of whole numbers, compared, reduced and rounded exactly, in 128 bits.
//!
//! Two fractions are compared by their cross products where these can't overflow, and else as Euclid's algorithm goes, by
//! their whole parts and then by what is left. No call takes memory.
#![tactic(auto)]

ghost use Rattle.std.specs.Prelude.{◌≡◌, ◌+◌, ◌*◌, ◌<◌, ◌≤◌, ◌^◌, ◌↔◌, IsTrue, pos, ◌+ℤ◌, ◌*ℤ◌, ◌<ℤ◌, unsigned_abs};
ghost use Rattle.std.specs.Int.{IsGcd};
ghost use Rattle.std.specs.Ordering.{nat_cmp, as_partial_cmp, eq_by_cmp};
ghost use Rattle.std.specs.Cmp.{partial_order_from_total, partial_equiv_from_equiv, eq_by_cmp_equiv};
ghost use Rattle.std.proofs.Common.{refl};
ghost use Rattle.integers.specs.Floors.{IsFloor};
ghost use Rattle.exact_frac.specs.Divisors.{IsGreatestDivisor};

use std::alloc::{AllocError, AllocFailed};
use std::cmp::Ordering;

/// Memory ran out. The one answer of all calls of the project to a refused growth.
#[derive(Clone, Copy, PartialEq, Eq, Debug)]
pub struct OutOfMemory;

impl From<AllocError> for OutOfMemory {
    fn from(_: AllocError) -> Self {
        OutOfMemory
    }
}

impl<T: Drop> From<AllocFailed<T>> for OutOfMemory {
    fn from(_: AllocFailed<T>) -> Self {
        OutOfMemory
    }
}

/// The fraction `num / den`. `den` is positive, and `num` isn't the least `i128`; it needn't be in lowest terms.
/// `==` and the order compare values, so 1/2 equals 2/4.
#[derive(Clone, Copy, Debug)]
pub struct Frac {
    pub num: i128,
    pub den: i128,
    ghost positive: { pos 0 <ℤ den },
    ghost not_least: { unsigned_abs num < 2 ^ 127 },
}

impl Frac {
    ghost use Rattle.exact_frac.specs.Frac.{IsSameValue, IsLowest};

    /// The same value in lowest terms, at the cost of one `gcd` and two divisions.
    pub fn reduce(&self) -> Frac
        ensures same { IsSameValue result self.now }
        ensures lowest { IsLowest result }
    {
        let divisor = gcd(self.num, self.den);
        Frac {
            num: self.num / divisor,
            den: self.den / divisor,
        }
    }
}

impl Ord for Frac {
    ghost use Rattle.exact_frac.specs.Frac.{order_of};
    ghost use Rattle.exact_frac.specs.Laws.{order_of_total};

    ghost cmp = { order_of };

    ghost total = { order_of_total };

    ghost matches_partial_cmp = { λ x y. refl };

    ghost matches_eq = { λ x y. refl };

    /// The order of the two values: by two products where all four numbers are below 2^64 in size, and else by at most 184
    /// steps of Euclid's algorithm on each fraction.
    fn cmp(&self, other: &Frac) -> Ordering {
        let (left, right) = (self.num.unsigned_abs(), other.num.unsigned_abs());
        let (left_den, right_den) = (self.den.unsigned_abs(), other.den.unsigned_abs());
        match (self.num < 0, other.num < 0) {
            (true, false) => Ordering::Less,
            (false, true) => Ordering::Greater,
            (false, false) => compare_unsigned(left, left_den, right, right_den),
            (true, true) => compare_unsigned(right, right_den, left, left_den),
        }
    }
}

impl PartialOrd for Frac {
    ghost use Rattle.exact_frac.specs.Frac.{order_of};
    ghost use Rattle.exact_frac.specs.Laws.{order_of_total};

    ghost partial_cmp = { as_partial_cmp order_of };

    ghost laws = { partial_order_from_total order_of_total };

    fn partial_cmp(&self, other: &Frac) -> Option<Ordering> {
        Some(self.cmp(other))
    }
}

impl Eq for Frac {
    ghost use Rattle.exact_frac.specs.Laws.{order_of_total};

    ghost laws = { eq_by_cmp_equiv order_of_total };
}

impl PartialEq for Frac {
    ghost use Rattle.exact_frac.specs.Frac.{order_of};
    ghost use Rattle.exact_frac.specs.Laws.{order_of_total};

    ghost eq = { eq_by_cmp order_of };

    ghost laws = { partial_equiv_from_equiv (eq_by_cmp_equiv order_of_total) };

    fn eq(&self, other: &Frac) -> bool {
        self.cmp(other) == Ordering::Equal
    }
}

/// The order of `a / b` and `c / d`.
fn compare_unsigned(a: u128, b: u128, c: u128, d: u128) -> Ordering
    requires left_den { 0 < b }
    requires right_den { 0 < d }
    ensures { result ≡ nat_cmp (a * d) (c * b) }
{
    if fits_64(a) && fits_64(b) && fits_64(c) && fits_64(d) {
        (a * d).cmp(&(c * b))
    } else {
        compare_ratios(a, b, c, d)
    }
}

/// The number is below 2^64, so that a product of two such fits.
fn fits_64(n: u128) -> bool
    ensures { IsTrue result ↔ n < 2 ^ 64 }
{
    n <= u64::MAX.into()
}

/// The order of `a / b` and `c / d`, by their whole parts and then by what is left, turned round.
fn compare_ratios(a: u128, b: u128, c: u128, d: u128) -> Ordering
    requires left_den { 0 < b }
    requires right_den { 0 < d }
    ensures { result ≡ nat_cmp (a * d) (c * b) }
{
    match (a / b).cmp(&(c / d)) {
        Ordering::Equal => {
            let (left, right) = (a % b, c % d);
            if left == 0 || right == 0 {
                left.cmp(&right)
            } else {
                compare_ratios(d, right, b, left)
            }
        }
        different => different,
    }
}

/// The greatest common divisor, and 0 where both are 0. Neither number may be the least `i128`.
///
/// Euclid's algorithm: at most 184 divisions.
pub fn gcd(a: i128, b: i128) -> i128
    requires first { unsigned_abs a < 2 ^ 127 }
    requires second { unsigned_abs b < 2 ^ 127 }
    ensures { IsGreatestDivisor a b result }
{
    gcd_unsigned(a.unsigned_abs(), b.unsigned_abs()) as i128
}

/// The greatest common divisor of natural numbers.
fn gcd_unsigned(mut a: u128, mut b: u128) -> u128
    requires first { a < 2 ^ 127 }
    requires second { b < 2 ^ 127 }
    ensures gcd { IsGcd a b result }
    ensures bound { result < 2 ^ 127 }
{
    while b != 0 {
        (a, b) = (b, a % b);
    }
    a
}

/// The whole part of the square root: the greatest whole number whose square is at most `n`.
pub fn isqrt(n: u64) -> u64
    ensures at_most { result * result ≤ n }
    ensures greatest { n < (result + 1) * (result + 1) }
{
    n.isqrt()
}

/// `num / den`, rounded to the nearest whole number, and halves up: the floor of `num / den + 1 / 2`. `den` is positive,
/// and both are below 2^125 in size. One division.
pub fn round_half_up(num: i128, den: i128) -> i128
    requires positive { pos 0 <ℤ den }
    requires num_fits { unsigned_abs num < 2 ^ 125 }
    requires den_fits { unsigned_abs den < 2 ^ 125 }
    ensures { IsFloor result (pos 2 *ℤ num +ℤ den) (pos 2 *ℤ den) }
{
    (2 * num + den).div_euclid(2 * den)
}
