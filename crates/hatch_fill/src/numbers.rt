// Hatch lines by their numbers.
ghost use Rattle.std.specs.Prelude.{◌≡◌, ◌*◌, ◌<◌, ◌≤◌, ◌^◌, pos, ◌*ℤ◌, ◌<ℤ◌, unsigned_abs};
ghost use Rattle.integers.specs.Floors.{IsFloor};
ghost use Rattle.lattice.specs.Points.{of_dir, of_spot, IsRatio};
ghost use Rattle.cut_plane.specs.Diagonals.{diagonal_of};
ghost use Rattle.hatch_fill.specs.inner.Numbers.{IsFirstNumber};

use exact_frac::Frac;
use lattice::{Dir, Spot, across, upward};

/// U - V of the spot.
pub(crate) fn diagonal(d: &Dir, p: &Spot) -> Frac
    ensures ratio { IsRatio result (diagonal_of (of_dir d.now) (of_spot p.now)) p.now.w }
    ensures near { unsigned_abs result.num ≤ 2 ^ 31 * unsigned_abs p.now.w }
{
    Frac {
        num: across(d, p).num - upward(d, p).num,
        den: p.w,
    }
}

/// The number of the first hatch line from this U - V on.
pub(crate) fn first_number(at: &Frac, spacing: u32) -> i64
    requires some { 1 ≤ spacing }
    requires near { unsigned_abs at.now.num ≤ 2 ^ 31 * unsigned_abs at.now.den }
    requires short { unsigned_abs at.now.den < 2 ^ 70 }
    ensures first { IsFirstNumber at.now.num at.now.den spacing result }
    ensures size { unsigned_abs result ≤ 2 ^ 31 }
{
    -floored(-at.num, spaced(at.den, spacing))
}

/// The divisor of what is counted in spacings.
fn spaced(den: i128, spacing: u32) -> i128
    requires some { 1 ≤ spacing }
    requires positive { pos 0 <ℤ den }
    requires short { unsigned_abs den < 2 ^ 70 }
    ensures value { result ≡ den *ℤ pos spacing }
    ensures size { unsigned_abs result ≤ 2 ^ 102 }
{
    den * i128::from(spacing)
}

/// The floor of `n / d`.
fn floored(n: i128, d: i128) -> i64
    requires positive { pos 0 <ℤ d }
    requires near { unsigned_abs n ≤ 2 ^ 31 * unsigned_abs d }
    requires short { unsigned_abs d ≤ 2 ^ 102 }
    ensures floor { IsFloor result n d }
    ensures size { unsigned_abs result ≤ 2 ^ 31 }
{
    n.div_euclid(d) as i64
}

/// U - V of the hatch line with this number.
pub(crate) fn diagonal_at(number: i64, spacing: u32) -> i64
    requires { unsigned_abs number ≤ 2 ^ 31 }
    ensures { result ≡ number *ℤ pos spacing }
{
    number * i64::from(spacing)
}
