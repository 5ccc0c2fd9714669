// Which legs lie within a distance of others.
ghost use Rattle.std.specs.Prelude.{◌≡◌, ◌≤◌, ◌^◌, true, pos, ◌≤ℤ◌, IfOk, unsigned_abs};
ghost use Rattle.std.specs.List.{filter, list_any};
ghost use Rattle.covered_paths.specs.Covering.{along, covers, is_apart, is_below, is_covered, is_covered_by, is_covered_by_few, is_covered_from, is_end_to_end, is_far_off, is_in_line, is_narrow, is_narrow_ahead, is_narrow_beside, is_one, is_reached, is_side_by_side, lower, may_cover, upper};
ghost use Rattle.covered_paths.specs.Points.{EachLeg, EachPointNear};
ghost use Rattle.covered_paths.specs.Splits.{ArePlaces};
ghost use Rattle.covered_paths.specs.Within.{IsPlace};

use crate::legs::{Leg, Place, way_of};
use crate::numbers::{beyond, dot, is_less, is_wide_less, wide_product, widest};
use crate::splits::places;
use crate::within::{is_within, long};
use exact_frac::OutOfMemory;
use std::alloc::Global;

/// The smaller of two numbers.
#[tactic(auto, unfolding(crate::specs::Covering::lower))]
pub(crate) fn lower(a: i64, b: i64) -> i64
    ensures { result ≡ lower a b }
{
    if is_less(b, a) {
        return b;
    }
    a
}

/// The larger of two numbers.
#[tactic(auto, unfolding(crate::specs::Covering::upper))]
fn upper(a: i64, b: i64) -> i64
    requires first { unsigned_abs a ≤ 2 ^ 17 }
    requires second { unsigned_abs b ≤ 2 ^ 17 }
    ensures value { result ≡ upper a b }
    ensures size { unsigned_abs result ≤ 2 ^ 17 }
{
    if is_less(a, b) {
        return b;
    }
    a
}

/// What lies between `c` and `d` is more than a distance above what lies between `a` and `b`.
#[tactic(auto, unfolding(crate::specs::Covering::is_below))]
fn is_below(far: i64, a: i64, b: i64, c: i64, d: i64) -> bool
    requires far { unsigned_abs far ≤ 2 ^ 6 }
    requires first { unsigned_abs a ≤ 2 ^ 17 }
    requires second { unsigned_abs b ≤ 2 ^ 17 }
    ensures { result ≡ is_below far a b c d }
{
    is_less(beyond(upper(a, b), far), lower(c, d))
}

/// The one is so far above or below the other.
#[tactic(auto, unfolding(crate::specs::Covering::is_apart))]
fn is_apart(far: i64, a: i64, b: i64, c: i64, d: i64) -> bool
    requires far { unsigned_abs far ≤ 2 ^ 6 }
    requires first { unsigned_abs a ≤ 2 ^ 17 }
    requires second { unsigned_abs b ≤ 2 ^ 17 }
    requires third { unsigned_abs c ≤ 2 ^ 17 }
    requires fourth { unsigned_abs d ≤ 2 ^ 17 }
    ensures { result ≡ is_apart far a b c d }
{
    if is_below(far, a, b, c, d) {
        return true;
    }
    is_below(far, c, d, a, b)
}

/// The boxes of two legs are more than a distance apart.
#[tactic(auto, unfolding(crate::specs::Covering::is_far_off))]
fn is_far_off(far: i64, leg: &Leg, other: &Leg) -> bool
    requires { unsigned_abs far ≤ 2 ^ 6 }
    ensures { result ≡ is_far_off far leg.now other.now }
{
    if is_apart(far, leg.x1, leg.x2, other.x1, other.x2) {
        return true;
    }
    is_apart(far, leg.y1, leg.y2, other.y1, other.y2)
}

/// Two points are one.
#[tactic(auto, unfolding(crate::specs::Covering::is_one))]
pub(crate) fn is_one(x: i64, y: i64, u: i64, v: i64) -> bool
    ensures { result ≡ is_one x y u v }
{
    if is_less(u, x) {
        return false;
    }
    if is_less(x, u) {
        return false;
    }
    if is_less(v, y) {
        return false;
    }
    !is_less(y, v)
}

/// How far one leg goes along another.
fn along(leg: &Leg, other: &Leg) -> i64
    ensures value { result ≡ along leg.now other.now }
    ensures size { unsigned_abs result ≤ 2 ^ 37 }
{
    let way = way_of(leg);
    let on = way_of(other);
    dot(way.across, way.down, on.across, on.down)
}

/// The lines of two legs part by less than 10 degrees.
#[tactic(auto, unfolding(crate::specs::Covering::is_in_line))]
fn is_in_line(leg: &Leg, other: &Leg) -> bool
    ensures { result ≡ is_in_line leg.now other.now }
{
    let along = along(leg, other);
    let both = wide_product(long(leg), long(other));
    is_wide_less(
        widest(both, 969_846),
        widest(wide_product(along, along), 1_000_000),
    )
}

/// Two legs begin at one point, or end at one.
#[tactic(auto, unfolding(crate::specs::Covering::is_side_by_side))]
fn is_side_by_side(leg: &Leg, other: &Leg) -> bool
    ensures { result ≡ is_side_by_side leg.now other.now }
{
    if is_one(leg.x1, leg.y1, other.x1, other.y1) {
        return true;
    }
    is_one(leg.x2, leg.y2, other.x2, other.y2)
}

/// One of two legs begins where the other ends.
#[tactic(auto, unfolding(crate::specs::Covering::is_end_to_end))]
fn is_end_to_end(leg: &Leg, other: &Leg) -> bool
    ensures { result ≡ is_end_to_end leg.now other.now }
{
    if is_one(leg.x1, leg.y1, other.x2, other.y2) {
        return true;
    }
    is_one(leg.x2, leg.y2, other.x1, other.y1)
}

/// If two legs begin or end at one point they part there by less than 10 degrees.
#[tactic(auto, unfolding(crate::specs::Covering::is_narrow_beside))]
fn is_narrow_beside(leg: &Leg, other: &Leg) -> bool
    ensures { result ≡ is_narrow_beside leg.now other.now }
{
    if !is_side_by_side(leg, other) {
        return true;
    }
    if !is_in_line(leg, other) {
        return false;
    }
    is_less(0, along(leg, other))
}

/// So if one of them begins where the other ends.
#[tactic(auto, unfolding(crate::specs::Covering::is_narrow_ahead))]
fn is_narrow_ahead(leg: &Leg, other: &Leg) -> bool
    ensures { result ≡ is_narrow_ahead leg.now other.now }
{
    if !is_end_to_end(leg, other) {
        return true;
    }
    if !is_in_line(leg, other) {
        return false;
    }
    is_less(along(leg, other), 0)
}

/// If two legs have a common end they part there by less than 10 degrees.
#[tactic(auto, unfolding(crate::specs::Covering::is_narrow))]
fn is_narrow(leg: &Leg, other: &Leg) -> bool
    ensures { result ≡ is_narrow leg.now other.now }
{
    if !is_narrow_beside(leg, other) {
        return false;
    }
    is_narrow_ahead(leg, other)
}

/// A leg counts for another: it comes near it, and doesn't part from it at a common end.
#[tactic(auto, unfolding(crate::specs::Covering::may_cover))]
fn may_cover(far: i64, leg: &Leg, other: &Leg) -> bool
    requires { unsigned_abs far ≤ 2 ^ 6 }
    ensures { result ≡ may_cover far leg.now other.now }
{
    if is_far_off(far, leg, other) {
        return false;
    }
    is_narrow(leg, other)
}

/// The legs that count for a leg.
fn near_legs(alloc: Global, far: i64, leg: &Leg, others: &[Leg]) -> Result<Vec<Leg>, OutOfMemory>
    requires { unsigned_abs far ≤ 2 ^ 6 }
    ensures { IfOk result (λ near. near.items ≡ filter (may_cover far leg.now) others.now) }
{
    let mut near = Vec::new(alloc);
    for other in others {
        if may_cover(far, leg, other) {
            near.push(*other)?;
        }
    }
    Ok(near)
}

/// Two places of a leg are within the distance of another leg.
fn is_reached(far: i64, leg: &Leg, from: &Place, to: &Place, other: &Leg) -> bool
    requires far { unsigned_abs far ≤ 2 ^ 6 }
    requires from { IsPlace from.now }
    requires to { IsPlace to.now }
    ensures { result ≡ is_reached far leg.now from.now to.now other.now }
{
    if !is_within(far, leg, from, other) {
        return false;
    }
    is_within(far, leg, to, other)
}

/// They are so of one of these legs.
fn is_one_reached(far: i64, leg: &Leg, from: &Place, to: &Place, near: &[Leg]) -> bool
    requires far { unsigned_abs far ≤ 2 ^ 6 }
    requires from { IsPlace from.now }
    requires to { IsPlace to.now }
    ensures { result ≡ list_any (is_reached far leg.now from.now to.now) near.now }
{
    for other in near {
        if is_reached(far, leg, from, to, other) {
            return true;
        }
    }
    false
}

/// From a place on, each two places that follow one another are so, up to the end of the leg.
fn is_covered_from(far: i64, leg: &Leg, near: &[Leg], from: &Place, places: &[Place]) -> bool
    requires far { unsigned_abs far ≤ 2 ^ 6 }
    requires from { IsPlace from.now }
    requires places { ArePlaces places.now }
    ensures { result ≡ is_covered_from far leg.now near.now from.now places.now }
{
    match places {
        [] => is_one_reached(far, leg, from, &Place { part: 1, whole: 1 }, near),
        [to, rest @ ..] => {
            if !is_one_reached(far, leg, from, to, near) {
                return false;
            }
            is_covered_from(far, leg, near, to, rest)
        }
    }
}

/// A leg lies within the distance of these legs, which count for it.
fn is_covered_by(alloc: Global, far: i64, leg: &Leg, near: &[Leg]) -> Result<bool, OutOfMemory>
    requires { unsigned_abs far ≤ 2 ^ 6 }
    ensures { IfOk result (λ covered. covered ≡ is_covered_by far leg.now near.now) }
{
    let places = places(alloc, leg, near)?;
    Ok(is_covered_from(far, leg, near, &Place { part: 0, whole: 1 }, &places))
}

/// A leg lies within the distance of these legs, which count for it and are no more than 64.
fn is_covered_by_few(alloc: Global, far: i64, leg: &Leg, near: &[Leg]) -> Result<bool, OutOfMemory>
    requires { unsigned_abs far ≤ 2 ^ 6 }
    ensures { IfOk result (λ covered. covered ≡ is_covered_by_few far leg.now near.now) }
{
    if near.len() > 64 {
        return Ok(false);
    }
    is_covered_by(alloc, far, leg, near)
}

/// A leg lies within the distance of the legs of another path.
fn is_covered(alloc: Global, far: i64, others: &[Leg], leg: &Leg) -> Result<bool, OutOfMemory>
    requires { unsigned_abs far ≤ 2 ^ 6 }
    ensures { IfOk result (λ covered. covered ≡ is_covered far others.now leg.now) }
{
    let near = near_legs(alloc, far, leg, others)?;
    is_covered_by_few(alloc, far, leg, &near)
}

/// Each leg of a path lies within the distance of the legs of another path.
fn are_covered(alloc: Global, far: i64, others: &[Leg], legs: &[Leg]) -> Result<bool, OutOfMemory>
    requires { unsigned_abs far ≤ 2 ^ 6 }
    ensures { IfOk result (λ covered. covered ≡ covers far others.now legs.now) }
{
    for leg in legs {
        if !is_covered(alloc, far, others, leg)? {
            return Ok(false);
        }
    }
    Ok(true)
}

/// Each leg of a path lies within the distance, of at most 64 hundredths of a millimetre, of the legs of another path. Then each of its
/// points is within the distance of a point of that path.
///
/// Each leg is compared with each of the other path. With those that are near it, at most 64, it takes a time of their number squared.
pub(crate) fn covers(
    alloc: Global,
    far: i64,
    others: &[Leg],
    legs: &[Leg],
) -> Result<bool, OutOfMemory>
    requires small { unsigned_abs far ≤ 2 ^ 6 }
    requires not_negative { pos 0 ≤ℤ far }
    ensures exact { IfOk result (λ covered. covered ≡ covers far others.now legs.now) }
    ensures near { IfOk result (λ covered. covered ≡ true → EachLeg (EachPointNear far others.now) legs.now) }
{
    are_covered(alloc, far, others, legs)
}
