// Boxes around legs.
ghost use Rattle.std.specs.Prelude.{◌≡◌, ◌≤◌, ◌^◌, unsigned_abs};
ghost use Rattle.covered_paths.specs.Covering.{upper};
ghost use Rattle.covered_paths.specs.inner.Boxes.{extent_of, is_missed, is_outside, no_extent, widened};

use crate::covering::lower;
use crate::legs::Leg;
use crate::numbers::{before, beyond, is_less};

/// How far legs reach to the left, to the right, up and down, in hundredths of a millimetre.
#[derive(Clone, Copy)]
pub(crate) struct Extent {
    pub left: i64,
    pub right: i64,
    pub top: i64,
    pub bottom: i64,
}

/// The larger of two numbers, whatever they are.
#[tactic(auto, unfolding(crate::specs::Covering::upper))]
fn larger(a: i64, b: i64) -> i64
    ensures { result ≡ upper a b }
{
    if is_less(a, b) {
        return b;
    }
    a
}

/// The box of no leg.
fn no_extent() -> Extent
    ensures { result ≡ no_extent }
{
    Extent {
        left: 131_072,
        right: 0,
        top: 131_072,
        bottom: 0,
    }
}

/// The box with one more leg.
pub(crate) fn widened(e: Extent, leg: &Leg) -> Extent
    ensures { result ≡ widened e leg.now }
{
    Extent {
        left: lower(e.left, lower(leg.x1, leg.x2)),
        right: larger(e.right, larger(leg.x1, leg.x2)),
        top: lower(e.top, lower(leg.y1, leg.y2)),
        bottom: larger(e.bottom, larger(leg.y1, leg.y2)),
    }
}

/// The box around a leg.
pub(crate) fn extent_around(leg: &Leg) -> Extent
    ensures { result ≡ widened no_extent leg.now }
{
    widened(no_extent(), leg)
}

/// The box around legs. It goes over them once.
pub(crate) fn extent_of(legs: &[Leg]) -> Extent
    ensures { result ≡ extent_of legs.now }
{
    let mut extent = no_extent();
    for leg in legs {
        extent = widened(extent, leg);
    }
    extent
}

/// A number is farther than a distance below or above two others.
#[tactic(auto, unfolding(crate::specs::inner::Boxes::is_outside))]
fn is_outside(far: i64, z: i64, low: i64, high: i64) -> bool
    requires far { unsigned_abs far ≤ 2 ^ 6 }
    requires near { unsigned_abs z ≤ 2 ^ 17 }
    ensures { result ≡ is_outside far z low high }
{
    if is_less(beyond(z, far), low) {
        return true;
    }
    is_less(high, before(z, far))
}

/// A point is so far outside the box.
#[tactic(auto, unfolding(crate::specs::inner::Boxes::is_missed))]
pub(crate) fn is_missed(far: i64, x: i64, y: i64, e: Extent) -> bool
    requires far { unsigned_abs far ≤ 2 ^ 6 }
    requires x_near { unsigned_abs x ≤ 2 ^ 17 }
    requires y_near { unsigned_abs y ≤ 2 ^ 17 }
    ensures { result ≡ is_missed far x y e }
{
    if is_outside(far, x, e.left, e.right) {
        return true;
    }
    is_outside(far, y, e.top, e.bottom)
}
