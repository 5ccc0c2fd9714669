// Lengths on the sheet, in hundredths of a millimetre.
ghost use Rattle.std.specs.Prelude.{◌≡◌, ◌+◌, ◌*◌, ◌<◌, ◌≤◌, ◌^◌, pos, ◌+ℤ◌, ◌*ℤ◌, ◌<ℤ◌, ◌≤ℤ◌, unsigned_abs};
ghost use Rattle.integers.specs.Floors.{IsFloor};
ghost use Rattle.lattice.specs.Points.{of_dir, of_vector};
ghost use Rattle.lattice.specs.Triple.{IsWithin, dot, right_axis, up_axis};
ghost use Rattle.sheet_plan.specs.Numbers.{shortening_of, square_of, nearest, measure_of, sheet_length};

use exact_frac::{Frac, isqrt, round_half_up};
use job_file::Scale;
use lattice::{Dir, Vector};

/// What turns units into lengths on the sheet: a scale, and the number of decimals of a unit, which is 10^-`decimals` mm.
#[derive(Clone, Copy)]
pub struct Ruler {
    pub scale: Scale,
    pub decimals: u8,
    ghost few_decimals: { decimals ≤ 6 },
}

impl Ruler {
    /// U, as a length on the sheet.
    pub(crate) fn across(&self, d: &Dir, u: &Frac) -> i64
        requires near { unsigned_abs u.now.num ≤ 2 ^ 30 * unsigned_abs u.now.den }
        requires den_fits { unsigned_abs u.now.den < 2 ^ 70 }
        ensures value { result ≡ sheet_length (measure_of self.now.scale self.now.decimals) (square_of (right_axis (of_dir d.now))) u.now.num u.now.den }
        ensures size { unsigned_abs result ≤ 2 ^ 45 }
    {
        rounded(self.factor(square(&d.right())), self.divisor(), u)
    }

    /// V, as a length on the sheet.
    pub(crate) fn upward(&self, d: &Dir, v: &Frac) -> i64
        requires near { unsigned_abs v.now.num ≤ 2 ^ 30 * unsigned_abs v.now.den }
        requires den_fits { unsigned_abs v.now.den < 2 ^ 70 }
        ensures value { result ≡ sheet_length (measure_of self.now.scale self.now.decimals) (square_of (up_axis (of_dir d.now))) v.now.num v.now.den }
        ensures size { unsigned_abs result ≤ 2 ^ 45 }
    {
        rounded(self.factor(square(&d.up())), self.divisor(), v)
    }

    /// A whole number of U, as a length on the sheet. It may be as large as a window of a view is.
    pub fn whole_across(&self, d: &Dir, u: i64) -> i64
        requires { unsigned_abs u ≤ 2 ^ 40 }
        ensures value { result ≡ sheet_length (measure_of self.now.scale self.now.decimals) (square_of (right_axis (of_dir d.now))) u (pos 1) }
        ensures size { unsigned_abs result ≤ 2 ^ 54 }
    {
        whole_length(self.factor(square(&d.right())), self.divisor(), u)
    }

    /// A whole number of V, as a length on the sheet.
    pub fn whole_upward(&self, d: &Dir, v: i64) -> i64
        requires { unsigned_abs v ≤ 2 ^ 40 }
        ensures value { result ≡ sheet_length (measure_of self.now.scale self.now.decimals) (square_of (up_axis (of_dir d.now))) v (pos 1) }
        ensures size { unsigned_abs result ≤ 2 ^ 54 }
    {
        whole_length(self.factor(square(&d.up())), self.divisor(), v)
    }

    /// What a product with an axis of this squared length is multiplied by.
    fn factor(&self, square: u64) -> i128
        requires { 0 < square }
        ensures value { result ≡ pos (100 * self.now.scale.num * shortening_of square) }
        ensures size { unsigned_abs result ≤ 2 ^ 43 }
    {
        i128::from(100 * u64::from(self.scale.num) * shortening(square))
    }

    /// And what it is divided by.
    fn divisor(&self) -> i128
        ensures value { result ≡ pos (self.now.scale.den * 10 ^ (9 + self.now.decimals)) }
        ensures least { 10 ^ 9 ≤ unsigned_abs result }
        ensures size { unsigned_abs result ≤ 2 ^ 57 }
    {
        i128::from(u64::from(self.scale.den) * 10u64.pow(9 + u32::from(self.decimals)))
    }
}

/// The squared length of an axis.
fn square(axis: &Vector) -> u64
    requires small { IsWithin 162 (of_vector axis.now) }
    requires somewhere { pos 0 <ℤ dot (of_vector axis.now) (of_vector axis.now) }
    ensures value { result ≡ square_of (of_vector axis.now) }
    ensures positive { 0 < result }
{
    axis.dot(axis) as u64
}

/// 10^9 divided by the square root, cut off.
fn shortening(square: u64) -> u64
    requires { 0 < square }
    ensures value { result ≡ shortening_of square }
    ensures size { result ≤ 10 ^ 9 }
{
    isqrt(1_000_000_000_000_000_000 / square)
}

/// The whole number, multiplied by `factor` and divided by `divisor`, rounded to the nearest whole number, and halves up.
fn whole_length(factor: i128, divisor: i128, number: i64) -> i64
    requires not_negative { pos 0 ≤ℤ factor }
    requires factor_fits { unsigned_abs factor ≤ 2 ^ 43 }
    requires positive { pos 0 <ℤ divisor }
    requires least { 10 ^ 9 ≤ unsigned_abs divisor }
    requires divisor_fits { unsigned_abs divisor ≤ 2 ^ 57 }
    requires near { unsigned_abs number ≤ 2 ^ 40 }
    ensures value { result ≡ nearest (factor *ℤ number) (divisor *ℤ pos 1) }
    ensures size { unsigned_abs result ≤ 2 ^ 54 }
{
    round_half_up(times(factor, number.into()), divisor) as i64
}

/// The product, multiplied by `factor` and divided by `divisor`, rounded to the nearest whole number, and halves up. The
/// whole part of the product and its rest are multiplied and divided one after the other, so that no number leaves 128 bits.
fn rounded(factor: i128, divisor: i128, product: &Frac) -> i64
    requires not_negative { pos 0 ≤ℤ factor }
    requires factor_fits { unsigned_abs factor ≤ 2 ^ 43 }
    requires positive { pos 0 <ℤ divisor }
    requires least { 10 ^ 9 ≤ unsigned_abs divisor }
    requires divisor_fits { unsigned_abs divisor ≤ 2 ^ 57 }
    requires near { unsigned_abs product.now.num ≤ 2 ^ 30 * unsigned_abs product.now.den }
    requires den_fits { unsigned_abs product.now.den < 2 ^ 70 }
    ensures value { result ≡ nearest (factor *ℤ product.now.num) (divisor *ℤ product.now.den) }
    ensures size { unsigned_abs result ≤ 2 ^ 45 }
{
    let twice = floor_of_times(2 * factor, product);
    floor(twice + divisor, 2 * divisor) as i64
}

/// The floor of a multiple of a product.
fn floor_of_times(factor: i128, product: &Frac) -> i128
    requires not_negative { pos 0 ≤ℤ factor }
    requires factor_fits { unsigned_abs factor ≤ 2 ^ 44 }
    requires near { unsigned_abs product.now.num ≤ 2 ^ 30 * unsigned_abs product.now.den }
    requires den_fits { unsigned_abs product.now.den < 2 ^ 70 }
    ensures floor { IsFloor result (factor *ℤ product.now.num) product.now.den }
    ensures size { unsigned_abs result ≤ 2 ^ 75 }
{
    let whole = floor(product.num, product.den);
    let rest = rest(product, whole);
    times(factor, whole) + floor(times(factor, rest), product.den)
}

/// What is left of a product beside its whole part.
fn rest(product: &Frac, whole: i128) -> i128
    requires floor { IsFloor whole product.now.num product.now.den }
    requires near { unsigned_abs product.now.num ≤ 2 ^ 30 * unsigned_abs product.now.den }
    requires den_fits { unsigned_abs product.now.den < 2 ^ 70 }
    ensures value { product.now.num ≡ whole *ℤ product.now.den +ℤ result }
    ensures least { pos 0 ≤ℤ result }
    ensures below { result <ℤ product.now.den }
{
    product.num - times(whole, product.den)
}

fn times(a: i128, b: i128) -> i128
    requires first { unsigned_abs a ≤ 2 ^ 44 }
    requires second { unsigned_abs b < 2 ^ 70 }
    ensures value { result ≡ a *ℤ b }
    ensures size { unsigned_abs result ≤ 2 ^ 114 }
{
    a * b
}

/// The floor of a fraction.
fn floor(num: i128, den: i128) -> i128
    requires positive { pos 0 <ℤ den }
    requires num_fits { unsigned_abs num < 2 ^ 126 }
    ensures { IsFloor result num den }
{
    num.div_euclid(den)
}
