// The legs of paths, and places on them.
ghost use Rattle.std.specs.Prelude.{◌≡◌, ◌≤◌, ◌^◌, ◌-ℤ◌, unsigned_abs};

use crate::numbers::difference;

/// A straight line of a path, from one of its points to the next, in hundredths of a millimetre. No sheet is wider or higher than 2^17.
#[derive(Clone, Copy, Debug)]
pub struct Leg {
    pub x1: i64,
    pub y1: i64,
    pub x2: i64,
    pub y2: i64,
    ghost x1_near: { unsigned_abs x1 ≤ 2 ^ 17 },
    ghost y1_near: { unsigned_abs y1 ≤ 2 ^ 17 },
    ghost x2_near: { unsigned_abs x2 ≤ 2 ^ 17 },
    ghost y2_near: { unsigned_abs y2 ≤ 2 ^ 17 },
}

/// The leg from one point to another.
pub(crate) fn leg_between(x1: i64, y1: i64, x2: i64, y2: i64) -> Leg
    requires x1_near { unsigned_abs x1 ≤ 2 ^ 17 }
    requires y1_near { unsigned_abs y1 ≤ 2 ^ 17 }
    requires x2_near { unsigned_abs x2 ≤ 2 ^ 17 }
    requires y2_near { unsigned_abs y2 ≤ 2 ^ 17 }
    ensures x1 { result.x1 ≡ x1 }
    ensures y1 { result.y1 ≡ y1 }
    ensures x2 { result.x2 ≡ x2 }
    ensures y2 { result.y2 ≡ y2 }
{
    Leg { x1, y1, x2, y2 }
}

/// A place on a leg: `part` of `whole` parts of the way along it.
#[derive(Clone, Copy, Debug)]
pub(crate) struct Place {
    pub part: i64,
    pub whole: i64,
}

/// How far one goes to the right and down.
#[derive(Clone, Copy)]
pub(crate) struct Way {
    pub across: i64,
    pub down: i64,
    ghost across_small: { unsigned_abs across ≤ 2 ^ 18 },
    ghost down_small: { unsigned_abs down ≤ 2 ^ 18 },
}

/// The way from one point to another.
pub(crate) fn way_between(x1: i64, y1: i64, x2: i64, y2: i64) -> Way
    requires x1_near { unsigned_abs x1 ≤ 2 ^ 17 }
    requires y1_near { unsigned_abs y1 ≤ 2 ^ 17 }
    requires x2_near { unsigned_abs x2 ≤ 2 ^ 17 }
    requires y2_near { unsigned_abs y2 ≤ 2 ^ 17 }
    ensures across { result.across ≡ x2 -ℤ x1 }
    ensures down { result.down ≡ y2 -ℤ y1 }
{
    Way {
        across: difference(x2, x1),
        down: difference(y2, y1),
    }
}

/// The way of a leg.
pub(crate) fn way_of(leg: &Leg) -> Way
    ensures across { result.across ≡ leg.now.x2 -ℤ leg.now.x1 }
    ensures down { result.down ≡ leg.now.y2 -ℤ leg.now.y1 }
{
    way_between(leg.x1, leg.y1, leg.x2, leg.y2)
}
