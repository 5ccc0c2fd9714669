// Where lines of a view meet the borders of half planes.
ghost use Rattle.std.specs.Prelude.{◌≡◌, ◌<◌, ◌≤◌, ◌^◌, pos, ◌+ℤ◌, ◌-ℤ◌, ◌*ℤ◌, ◌<ℤ◌, unsigned_abs};
ghost use Rattle.detail_pieces.specs.declared.sides.ViewAxis.TheVariants.{Across, Upward};
ghost use Rattle.detail_pieces.specs.inner.Places.{crossing_of, IsCrossing};

use crate::places::ViewPlace;
use crate::sides::ViewAxis;
use exact_frac::Frac;
use lattice::Line;

/// The place of the line where U, or V if the axis is `Upward`, is this number. The line may not run along that border.
pub(crate) fn crossing(line: &Line, axis: ViewAxis, at: i64) -> ViewPlace
    requires number { unsigned_abs at ≤ 2 ^ 40 }
    requires crosses { ¬ (crossing_of axis line.now ≡ pos 0) }
    ensures { IsCrossing line.now axis at result }
{
    match axis {
        ViewAxis::Across => crossing_across(line, at),
        ViewAxis::Upward => crossing_upward(line, at),
    }
}

/// The place of the line where U is this number.
fn crossing_across(line: &Line, at: i64) -> ViewPlace
    requires number { unsigned_abs at ≤ 2 ^ 40 }
    requires crosses { ¬ (crossing_of Across line.now ≡ pos 0) }
    ensures { IsCrossing line.now Across at result }
{
    let other = other(line.a, line.b, line.c, at);
    ViewPlace {
        across: times(at, other.den),
        upward: other.num,
        den: other.den,
    }
}

/// The place of the line where V is this number.
fn crossing_upward(line: &Line, at: i64) -> ViewPlace
    requires number { unsigned_abs at ≤ 2 ^ 40 }
    requires crosses { ¬ (crossing_of Upward line.now ≡ pos 0) }
    ensures { IsCrossing line.now Upward at result }
{
    let other = other(line.b, line.a, line.c, at);
    ViewPlace {
        across: other.num,
        upward: times(at, other.den),
        den: other.den,
    }
}

/// What `y` is where `p * x + q * y = c` and `x` is this number.
fn other(p: i128, q: i128, c: i128, at: i64) -> Frac
    requires first { unsigned_abs p ≤ 2 ^ 44 }
    requires second { unsigned_abs q ≤ 2 ^ 44 }
    requires third { unsigned_abs c < 2 ^ 67 }
    requires number { unsigned_abs at ≤ 2 ^ 40 }
    requires somewhere { ¬ (q ≡ pos 0) }
    ensures on_line { (p *ℤ (at *ℤ result.den)) +ℤ (q *ℤ result.num) ≡ c *ℤ result.den }
    ensures den { unsigned_abs result.den ≤ 2 ^ 44 }
    ensures num { unsigned_abs result.num ≤ 2 ^ 86 }
{
    let num = rest(c, p, at);
    if q < 0 {
        return Frac { num: -num, den: -q };
    }
    Frac { num, den: q }
}

/// `c - p * at`.
fn rest(c: i128, p: i128, at: i64) -> i128
    requires first { unsigned_abs c < 2 ^ 67 }
    requires second { unsigned_abs p ≤ 2 ^ 44 }
    requires third { unsigned_abs at ≤ 2 ^ 40 }
    ensures value { result ≡ c -ℤ (at *ℤ p) }
    ensures size { unsigned_abs result ≤ 2 ^ 86 }
{
    c - i128::from(at) * p
}

/// `at * den`.
fn times(at: i64, den: i128) -> i128
    requires first { unsigned_abs at ≤ 2 ^ 40 }
    requires second { unsigned_abs den ≤ 2 ^ 44 }
    ensures value { result ≡ at *ℤ den }
    ensures size { unsigned_abs result ≤ 2 ^ 86 }
{
    i128::from(at) * den
}
