// Whether a place on a leg is within a distance of another leg.
ghost use Rattle.std.specs.Prelude.{◌≡◌, ◌≤◌, ◌^◌, ◌+ℤ◌, ◌*ℤ◌, unsigned_abs};
ghost use Rattle.covered_paths.specs.Within.{IsPlace, ahead, aside, gap_across, gap_down, is_beside, is_foot, is_near, is_within, long, most};

use crate::legs::{Leg, Place, way_between, way_of};
use crate::numbers::{
    dot, gap, is_at_most, is_square_at_most, is_wide_less, reach, wide_cross, wide_dot,
    wide_product, widest,
};

/// How far a place is from a point, to the right and down, times the place's whole.
#[derive(Clone, Copy)]
struct Gap {
    across: i64,
    down: i64,
    ghost across_small: { unsigned_abs across ≤ 2 ^ 56 },
    ghost down_small: { unsigned_abs down ≤ 2 ^ 56 },
}

/// The gap from a point to a place of a leg.
fn gap_from(x: i64, y: i64, leg: &Leg, place: &Place) -> Gap
    requires x_near { unsigned_abs x ≤ 2 ^ 17 }
    requires y_near { unsigned_abs y ≤ 2 ^ 17 }
    requires place { IsPlace place.now }
    ensures across { result.across ≡ gap_across leg.now place.now x }
    ensures down { result.down ≡ gap_down leg.now place.now y }
{
    let from = way_between(x, y, leg.x1, leg.y1);
    let along = way_of(leg);
    Gap {
        across: gap(place.whole, from.across, place.part, along.across),
        down: gap(place.whole, from.down, place.part, along.down),
    }
}

/// The square of the distance, times that of the place's whole.
fn most(far: i64, place: &Place) -> i128
    requires far { unsigned_abs far ≤ 2 ^ 6 }
    requires place { IsPlace place.now }
    ensures value { result ≡ most far place.now }
    ensures size { unsigned_abs result ≤ 2 ^ 86 }
{
    let reach = reach(far, place.whole);
    wide_product(reach, reach)
}

/// The square of a leg's length.
pub(crate) fn long(leg: &Leg) -> i64
    ensures value { result ≡ long leg.now }
    ensures size { unsigned_abs result ≤ 2 ^ 37 }
{
    let way = way_of(leg);
    dot(way.across, way.down, way.across, way.down)
}

/// A place of a leg is within the distance of a point.
#[tactic(auto, unfolding(crate::specs::Within::is_near))]
fn is_near(far: i64, leg: &Leg, place: &Place, x: i64, y: i64) -> bool
    requires far { unsigned_abs far ≤ 2 ^ 6 }
    requires place { IsPlace place.now }
    requires x_near { unsigned_abs x ≤ 2 ^ 17 }
    requires y_near { unsigned_abs y ≤ 2 ^ 17 }
    ensures { result ≡ is_near far leg.now place.now x y }
{
    let gap = gap_from(x, y, leg, place);
    let square = wide_dot(gap.across, gap.down, gap.across, gap.down);
    is_at_most(square, most(far, place))
}

/// How far a place of a leg is from the first end of another leg, along that leg.
fn ahead(leg: &Leg, place: &Place, other: &Leg) -> i128
    requires { IsPlace place.now }
    ensures { result ≡ ahead leg.now place.now other.now }
{
    let gap = gap_from(other.x1, other.y1, leg, place);
    let way = way_of(other);
    wide_dot(gap.across, gap.down, way.across, way.down)
}

/// How far it is from that leg's line.
fn aside(leg: &Leg, place: &Place, other: &Leg) -> i128
    requires { IsPlace place.now }
    ensures { result ≡ aside leg.now place.now other.now }
{
    let gap = gap_from(other.x1, other.y1, leg, place);
    let way = way_of(other);
    wide_cross(gap.across, gap.down, way.across, way.down)
}

/// How far ahead the second end of a leg is.
fn end_ahead(place: &Place, other: &Leg) -> i128
    requires { IsPlace place.now }
    ensures { result ≡ place.now.whole *ℤ long other.now }
{
    wide_product(place.whole, long(other))
}

/// The foot of the perpendicular from a place of a leg to another leg is on that leg, and at none of its ends.
#[tactic(auto, unfolding(crate::specs::Within::is_foot))]
fn is_foot(leg: &Leg, place: &Place, other: &Leg) -> bool
    requires { IsPlace place.now }
    ensures { result ≡ is_foot leg.now place.now other.now }
{
    let ahead = ahead(leg, place, other);
    if !is_wide_less(0, ahead) {
        return false;
    }
    is_wide_less(ahead, end_ahead(place, other))
}

/// The square of the distance, times that of the place's whole and that of the other leg's length.
fn most_aside(far: i64, place: &Place, other: &Leg) -> i128
    requires far { unsigned_abs far ≤ 2 ^ 6 }
    requires place { IsPlace place.now }
    ensures value { result ≡ most far place.now *ℤ long other.now }
    ensures size { unsigned_abs result ≤ 2 ^ 123 }
{
    widest(most(far, place), long(other))
}

/// A place of a leg is within the distance of the line through another leg.
#[tactic(auto, unfolding(crate::specs::Within::is_beside))]
fn is_beside(far: i64, leg: &Leg, place: &Place, other: &Leg) -> bool
    requires far { unsigned_abs far ≤ 2 ^ 6 }
    requires place { IsPlace place.now }
    ensures { result ≡ is_beside far leg.now place.now other.now }
{
    is_square_at_most(aside(leg, place, other), most_aside(far, place, other))
}

/// A place of a leg is within the distance of another leg: of one of its ends, or of the foot on it.
#[tactic(auto, unfolding(crate::specs::Within::is_within))]
pub(crate) fn is_within(far: i64, leg: &Leg, place: &Place, other: &Leg) -> bool
    requires far { unsigned_abs far ≤ 2 ^ 6 }
    requires place { IsPlace place.now }
    ensures { result ≡ is_within far leg.now place.now other.now }
{
    if is_near(far, leg, place, other.x1, other.y1) {
        return true;
    }
    if is_near(far, leg, place, other.x2, other.y2) {
        return true;
    }
    if !is_foot(leg, place, other) {
        return false;
    }
    is_beside(far, leg, place, other)
}
