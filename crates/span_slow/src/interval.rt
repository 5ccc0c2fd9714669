// Where values that are linear along an edge are at least 0.
ghost use Rattle.std.specs.Prelude.{[], ◌≡◌, ◌↔◌, pos, ◌-ℤ◌, ◌<ℤ◌, ◌≤ℤ◌, IsTrue};
ghost use Rattle.geometry.specs.Places.{IsPlace, IsEarlier};
ghost use Rattle.span_slow.specs.inner.Hidden.{IsWhereNonnegative};
ghost use Rattle.span_slow.specs.inner.Steps.{IsClipped};

use crate::linear::Linear;
use exact_frac::Frac;
use intervals::Interval;

/// The first place is less than the second.
pub(crate) fn is_earlier(a: Frac, b: Frac) -> bool
    ensures { IsTrue result ↔ IsEarlier a b }
{
    a < b
}

/// The first corner of the edge.
pub(crate) fn start() -> Frac
    ensures place { IsPlace result }
    ensures num { result.num ≡ pos 0 }
    ensures den { result.den ≡ pos 1 }
{
    Frac { num: 0, den: 1 }
}

/// The second corner of the edge.
pub(crate) fn finish() -> Frac
    ensures place { IsPlace result }
    ensures num { result.num ≡ result.den }
    ensures den { result.den ≡ pos 1 }
{
    Frac { num: 1, den: 1 }
}

/// Where a value that rises through 0 is 0.
fn rising_root(linear: Linear) -> Frac
    requires start { linear.start <ℤ pos 0 }
    requires end { pos 0 ≤ℤ linear.end }
    ensures place { IsPlace result }
    ensures num { result.num ≡ pos 0 -ℤ linear.start }
    ensures den { result.den ≡ linear.end -ℤ linear.start }
{
    Frac {
        num: -linear.start,
        den: linear.end - linear.start,
    }
}

/// Where a value that falls through 0 is 0.
fn falling_root(linear: Linear) -> Frac
    requires start { pos 0 ≤ℤ linear.start }
    requires end { linear.end <ℤ pos 0 }
    ensures place { IsPlace result }
    ensures num { result.num ≡ linear.start }
    ensures den { result.den ≡ linear.start -ℤ linear.end }
{
    Frac {
        num: linear.start,
        den: linear.start - linear.end,
    }
}

/// The places where all the values are at least 0; none where `to` is less than `from`.
pub(crate) fn where_nonnegative(linears: &[Linear]) -> Interval<Frac>
    ensures { IsWhereNonnegative linears.now result }
{
    let mut x = whole();
    for linear in linears {
        x = clip(x, *linear);
    }
    x
}

/// All places of the edge.
fn whole() -> Interval<Frac>
    ensures { IsWhereNonnegative [] result }
{
    Interval {
        from: start(),
        to: finish(),
    }
}

/// No place.
fn nowhere() -> Interval<Frac>
    ensures from { result.from.num ≡ result.from.den }
    ensures to { result.to.num ≡ pos 0 }
    ensures from_place { IsPlace result.from }
    ensures to_place { IsPlace result.to }
{
    Interval {
        from: finish(),
        to: start(),
    }
}

/// The places of the interval where the value is at least 0.
fn clip(x: Interval<Frac>, linear: Linear) -> Interval<Frac>
    requires from { IsPlace x.from }
    requires to { IsPlace x.to }
    ensures { IsClipped x linear result }
{
    if linear.start < 0 {
        if linear.end < 0 {
            return nowhere();
        }
        return clip_rising(x, linear);
    }
    if linear.end < 0 {
        return clip_falling(x, linear);
    }
    x
}

/// The same, of a value that rises through 0.
fn clip_rising(x: Interval<Frac>, linear: Linear) -> Interval<Frac>
    requires from { IsPlace x.from }
    requires to { IsPlace x.to }
    requires start { linear.start <ℤ pos 0 }
    requires end { pos 0 ≤ℤ linear.end }
    ensures { IsClipped x linear result }
{
    let root = rising_root(linear);
    if is_earlier(x.from, root) {
        return Interval {
            from: root,
            to: x.to,
        };
    }
    x
}

/// The same, of a value that falls through 0.
fn clip_falling(x: Interval<Frac>, linear: Linear) -> Interval<Frac>
    requires from { IsPlace x.from }
    requires to { IsPlace x.to }
    requires start { pos 0 ≤ℤ linear.start }
    requires end { linear.end <ℤ pos 0 }
    ensures { IsClipped x linear result }
{
    let root = falling_root(linear);
    if is_earlier(root, x.to) {
        return Interval {
            from: x.from,
            to: root,
        };
    }
    x
}
