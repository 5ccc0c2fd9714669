// A part of a side that is near another side.
ghost use Rattle.std.specs.Prelude.{◌≡◌, ◌<◌, ◌≤◌, ◌+◌, ◌*◌, ◌^◌, ◌+ℤ◌, ◌-ℤ◌, ◌*ℤ◌, pos, unsigned_abs};
ghost use Rattle.near_lines.specs.Near.{across, aside, between, cross, dot, down, goes_along, first_end, is_about, is_beside, is_close, is_end, is_in_line, is_near, length_of, part_of, run_together, second_end, share_end, square_of};
ghost use Rattle.near_lines.specs.Sides.{IsSmall};

use crate::sides::Side;
use exact_frac::isqrt;

/// A point on the sheet.
#[derive(Clone, Copy)]
struct Spot {
    x: u32,
    y: u32,
}

/// How far one goes to the right and down, on the largest sheet.
#[derive(Clone, Copy)]
struct Way {
    across: i64,
    down: i64,
    ghost across_small: { unsigned_abs across ≤ 118900 },
    ghost down_small: { unsigned_abs down ≤ 118900 },
}

/// The way from the first end of a side to the second.
fn way_of(s: &Side) -> Way
    requires { IsSmall s.now }
    ensures across { result.across ≡ across s.now }
    ensures down { result.down ≡ down s.now }
{
    Way {
        across: i64::from(s.x2) - i64::from(s.x1),
        down: i64::from(s.y2) - i64::from(s.y1),
    }
}

/// The way from the first end of a side to a point.
fn lead_to(p: Spot, t: &Side) -> Way
    requires small { IsSmall t.now }
    requires right { p.x ≤ 118900 }
    requires low { p.y ≤ 118900 }
    ensures across { result.across ≡ pos p.x -ℤ pos t.now.x1 }
    ensures down { result.down ≡ pos p.y -ℤ pos t.now.y1 }
{
    Way {
        across: i64::from(p.x) - i64::from(t.x1),
        down: i64::from(p.y) - i64::from(t.y1),
    }
}

/// The size of the cross product of two ways.
fn cross(v: Way, w: Way) -> u64
    ensures value { result ≡ unsigned_abs ((v.across *ℤ w.down) -ℤ (v.down *ℤ w.across)) }
    ensures size { result ≤ 2 ^ 35 }
{
    (v.across * w.down - v.down * w.across).unsigned_abs()
}

/// The size of their dot product.
fn dot(v: Way, w: Way) -> u64
    ensures { result ≡ unsigned_abs ((v.across *ℤ w.across) +ℤ (v.down *ℤ w.down)) }
{
    (v.across * w.across + v.down * w.down).unsigned_abs()
}

/// The squared length of a way.
fn square(w: Way) -> u64
    ensures value { result ≡ unsigned_abs w.across * unsigned_abs w.across + unsigned_abs w.down * unsigned_abs w.down }
    ensures size { result ≤ 2 ^ 35 }
{
    let (across, down) = (w.across.unsigned_abs(), w.down.unsigned_abs());
    across * across + down * down
}

/// Two sides go one way, or opposite ways, to less than 1 in 5.
fn goes_along(s: &Side, t: &Side) -> bool
    requires first { IsSmall s.now }
    requires second { IsSmall t.now }
    ensures { result ≡ goes_along s.now t.now }
{
    let (v, w) = (way_of(s), way_of(t));
    5 * cross(v, w) < dot(v, w)
}

/// The place is an end of the side.
fn is_end(x: u32, y: u32, t: &Side) -> bool
    ensures { result ≡ is_end x y t.now }
{
    (x == t.x1 && y == t.y1) || (x == t.x2 && y == t.y2)
}

/// Two sides have an end in common.
fn share_end(s: &Side, t: &Side) -> bool
    ensures { result ≡ share_end s.now t.now }
{
    is_end(s.x1, s.y1, t) || is_end(s.x2, s.y2, t)
}

/// Two sides of different paths with no common end go one way, or opposite ways.
fn run_together(s: &Side, t: &Side) -> bool
    requires first { IsSmall s.now }
    requires second { IsSmall t.now }
    ensures { result ≡ run_together s.now t.now }
{
    s.path != t.path && !share_end(s, t) && goes_along(s, t)
}

/// The point is in the side's box, or no farther outside than `d`.
fn is_about(d: u32, p: Spot, t: &Side) -> bool
    requires near { d ≤ 50 }
    requires small { IsSmall t.now }
    requires right { p.x ≤ 118900 }
    requires low { p.y ≤ 118900 }
    ensures { result ≡ is_about d p t.now }
{
    (t.x1.min(t.x2) <= p.x + d && p.x <= t.x1.max(t.x2) + d)
        && (t.y1.min(t.y2) <= p.y + d && p.y <= t.y1.max(t.y2) + d)
}

/// The point is no farther than `d` from the side's line.
fn is_in_line(d: u32, p: Spot, t: &Side) -> bool
    requires near { d ≤ 50 }
    requires small { IsSmall t.now }
    requires right { p.x ≤ 118900 }
    requires low { p.y ≤ 118900 }
    ensures { result ≡ is_in_line d p t.now }
{
    let way = way_of(t);
    let aside = u128::from(cross(lead_to(p, t), way));
    let d = u128::from(d);
    aside * aside <= d * d * u128::from(square(way))
}

/// Both: the point is no farther than `d` from the side's line, nor outside its box.
fn is_beside(d: u32, p: Spot, t: &Side) -> bool
    requires near { d ≤ 50 }
    requires small { IsSmall t.now }
    requires right { p.x ≤ 118900 }
    requires low { p.y ≤ 118900 }
    ensures { result ≡ is_beside d p t.now }
{
    is_about(d, p, t) && is_in_line(d, p, t)
}

/// The first end of a side.
fn first_end(s: &Side) -> Spot
    ensures { result ≡ first_end s.now }
{
    Spot { x: s.x1, y: s.y1 }
}

/// The second.
fn second_end(s: &Side) -> Spot
    ensures { result ≡ second_end s.now }
{
    Spot { x: s.x2, y: s.y2 }
}

/// An end of one of the two sides is beside the other.
fn is_close(d: u32, p: &Side, t: &Side) -> bool
    requires near { d ≤ 50 }
    requires first { IsSmall p.now }
    requires second { IsSmall t.now }
    ensures { result ≡ is_close d p.now t.now }
{
    (is_beside(d, first_end(p), t) || is_beside(d, second_end(p), t))
        || (is_beside(d, first_end(t), p) || is_beside(d, second_end(t), p))
}

/// A part of the first side and the second are close, and these two sides run together.
pub(crate) fn is_near(d: u32, s: &Side, p: &Side, t: &Side) -> bool
    requires near { d ≤ 50 }
    requires first { IsSmall s.now }
    requires part { IsSmall p.now }
    requires second { IsSmall t.now }
    ensures { result ≡ is_near d s.now p.now t.now }
{
    is_close(d, p, t) && run_together(s, t)
}

/// The length of a side in 10^-4 mm, cut off.
pub(crate) fn length_of(s: &Side) -> u64
    requires { IsSmall s.now }
    ensures value { result ≡ length_of s.now }
    ensures size { result ≤ 2 ^ 25 }
{
    isqrt(10_000 * square(way_of(s)))
}

/// Between two coordinates the place after `k` of `n` parts of the way.
fn between(n: u64, k: u64, a: u32, b: u32) -> u32
    requires some { 1 ≤ n }
    requires listed { k ≤ n }
    requires few { n ≤ 2 ^ 18 }
    requires first { a ≤ 118900 }
    requires second { b ≤ 118900 }
    ensures value { result ≡ between n k a b }
    ensures size { result ≤ 118900 }
{
    let (a, b) = (u64::from(a), u64::from(b));
    ((a * (n - k) + b * k) / n) as u32
}

/// The part with this number, of `n` equal parts of a side.
pub(crate) fn part_of(n: u64, k: u64, s: &Side) -> Side
    requires listed { k < n }
    requires few { n ≤ 2 ^ 18 }
    requires small { IsSmall s.now }
    ensures value { result ≡ part_of n k s.now }
    ensures small { IsSmall result }
{
    Side {
        path: s.path,
        x1: between(n, k, s.x1, s.x2),
        y1: between(n, k, s.y1, s.y2),
        x2: between(n, k + 1, s.x1, s.x2),
        y2: between(n, k + 1, s.y1, s.y2),
    }
}
