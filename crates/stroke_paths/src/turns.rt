// How a path turns from one stroke to another.
ghost use Rattle.std.specs.Prelude.{◌≡◌, ◌↔◌, ◌≤◌, ◌^◌, ◌+ℤ◌, ◌-ℤ◌, ◌*ℤ◌, IsTrue, unsigned_abs};
ghost use Rattle.stroke_paths.specs.Joints.{FitsSheet, GoesOn, TurnsLess, TurnsLittle, across, down, turn_along, turn_of};
ghost use Rattle.stroke_paths.specs.inner.Pairs.{IsTurn};

use crate::path::Tip;
use sheet_plan::Stroke;

/// The width of the widest sheet, in hundredths of a millimetre.
const WIDEST: u64 = 118_900;

/// A turn by at most 45 degrees: the cross product and the dot product of the ways before it and after it, by their sizes. So
/// `aside / ahead` is the tangent of its angle.
#[derive(Clone, Copy)]
pub(crate) struct Turn {
    aside: u64,
    ahead: u64,
}

/// How far one goes to the right and down: no farther than the widest sheet, each way.
#[derive(Clone, Copy)]
struct Way {
    across: i64,
    down: i64,
    ghost across_small: { unsigned_abs across ≤ 118900 },
    ghost down_small: { unsigned_abs down ≤ 118900 },
}

/// The turn of a path that comes to an end of a stroke and goes on from an end of another, which is at the same point. There is none
/// where one of the two is longer than the widest sheet, or the path would turn by more than 45 degrees.
pub(crate) fn turn_between(stroke: &Stroke, at: Tip, next: &Stroke, to: Tip) -> Option<Turn>
    ensures { IsTurn (FitsSheet stroke.now × FitsSheet next.now × GoesOn at stroke.now to next.now) (turn_of at stroke.now to next.now) result }
{
    if !fits_sheet(stroke) {
        return None;
    }
    if !fits_sheet(next) {
        return None;
    }
    turn_along(way_to(stroke, at), way_to(next, to.other()))
}

/// The angle of the one turn is less than that of the other.
pub(crate) fn turns_less(first: Turn, second: Turn) -> bool
    ensures { IsTrue result ↔ TurnsLess first second }
{
    u128::from(first.aside) * u128::from(second.ahead)
        < u128::from(second.aside) * u128::from(first.ahead)
}

/// The stroke is no longer than the widest sheet, each way.
fn fits_sheet(stroke: &Stroke) -> bool
    ensures { IsTrue result ↔ FitsSheet stroke.now }
{
    if stroke.x2.abs_diff(stroke.x1) > WIDEST {
        return false;
    }
    stroke.y2.abs_diff(stroke.y1) <= WIDEST
}

/// The way of a stroke as it comes to its first or to its second end.
fn way_to(stroke: &Stroke, tip: Tip) -> Way
    requires { FitsSheet stroke.now }
    ensures across { result.across ≡ across tip stroke.now }
    ensures down { result.down ≡ down tip stroke.now }
{
    match tip {
        Tip::First => way_between(stroke.x2, stroke.y2, stroke.x1, stroke.y1),
        Tip::Second => way_between(stroke.x1, stroke.y1, stroke.x2, stroke.y2),
    }
}

/// The way from one point to another.
fn way_between(x1: i64, y1: i64, x2: i64, y2: i64) -> Way
    requires wide { unsigned_abs (x2 -ℤ x1) ≤ 118900 }
    requires high { unsigned_abs (y2 -ℤ y1) ≤ 118900 }
    ensures across { result.across ≡ x2 -ℤ x1 }
    ensures down { result.down ≡ y2 -ℤ y1 }
{
    Way {
        across: x2 - x1,
        down: y2 - y1,
    }
}

/// The turn from one way to another, if it is at most 45 degrees.
fn turn_along(first: Way, second: Way) -> Option<Turn>
    ensures { IsTurn (TurnsLittle first.across first.down second.across second.down)
        (turn_along first.across first.down second.across second.down) result }
{
    let aside = cross(first, second);
    let ahead = dot(first, second);
    if aside.abs() > ahead {
        return None;
    }
    Some(Turn {
        aside: aside.unsigned_abs(),
        ahead: ahead.unsigned_abs(),
    })
}

/// The cross product: positive where one turns to the right.
fn cross(first: Way, second: Way) -> i64
    ensures value { result ≡ (first.across *ℤ second.down) -ℤ (first.down *ℤ second.across) }
    ensures size { unsigned_abs result ≤ 2 ^ 35 }
{
    first.across * second.down - first.down * second.across
}

/// The dot product: positive where one turns by less than 90 degrees.
fn dot(first: Way, second: Way) -> i64
    ensures { result ≡ (first.across *ℤ second.across) +ℤ (first.down *ℤ second.down) }
{
    first.across * second.across + first.down * second.down
}
