// Where numbers that are linear along an edge come up to 0, and the later one of two places.
ghost use Rattle.std.specs.Prelude.{◌≡◌, ◌+◌, ◌<◌, ◌^◌, pos, ◌+ℤ◌, ◌*ℤ◌, ◌≤◌, unsigned_abs};
ghost use Rattle.lattice.specs.Points.{of_normal};
ghost use Rattle.fault_place.specs.Places.{nearest};
ghost use Rattle.fault_place.specs.inner.Meetings.{AreHeights, AreOffsets, IsCrossing, IsEntry, IsLater};

use crate::weights::{Along, Weights};
use exact_frac::{Frac, round_half_up};
use lattice::{Corner, Normal, Vector, cross, det3};
use std::cmp::Ordering;

/// How far the edge from `p` to `q` is above the plane of `a`, `b` and `c`, times twice the triangle's area.
pub(crate) fn heights(a: &Corner, b: &Corner, c: &Corner, p: &Corner, q: &Corner) -> Along
    ensures { AreHeights a.now b.now c.now p.now q.now result }
{
    let ab = Vector::between(a, b);
    let ac = Vector::between(a, c);
    Along {
        start: det3(&Vector::between(a, p), &ab, &ac),
        end: det3(&Vector::between(a, q), &ab, &ac),
    }
}

/// How far the edge from `p` to `q` is to the left of the side from `k` to `l`, seen from the tip of the normal, times both lengths.
pub(crate) fn offsets(normal: &Normal, k: &Corner, l: &Corner, p: &Corner, q: &Corner) -> Along
    ensures { AreOffsets (of_normal normal.now) k.now l.now p.now q.now result }
{
    let side = Vector::between(k, l);
    Along {
        start: normal.dot(&cross(&side, &Vector::between(k, p))),
        end: normal.dot(&cross(&side, &Vector::between(k, q))),
    }
}

/// The edge's first corner.
fn start() -> Weights
    ensures first { result.first ≡ 1 }
    ensures second { result.second ≡ 0 }
{
    Weights {
        first: 1,
        second: 0,
    }
}

/// The first place of the edge at which the number is 0, if there is one.
pub(crate) fn crossing(f: &Along) -> Weights
    ensures { IsCrossing f.now result }
{
    if f.start == 0 {
        return start();
    }
    Weights {
        first: f.end.unsigned_abs(),
        second: f.start.unsigned_abs(),
    }
}

/// The first place of the edge at which the number isn't negative, if there is one.
pub(crate) fn entry(f: &Along) -> Weights
    ensures { IsEntry f.now result }
{
    if f.start >= 0 {
        return start();
    }
    Weights {
        first: f.end.unsigned_abs(),
        second: f.start.unsigned_abs(),
    }
}

/// How much of the way from the first corner to the second it is to the place.
fn share(w: &Weights) -> Frac
    ensures num { result.num ≡ pos w.now.second }
    ensures den { result.den ≡ pos (w.now.first + w.now.second) }
{
    Frac {
        num: w.second as i128,
        den: (w.first + w.second) as i128,
    }
}

/// The later one of two places of an edge.
pub(crate) fn later(v: &Weights, w: &Weights) -> Weights
    ensures { IsLater v.now w.now result }
{
    match share(v).cmp(&share(w)) {
        Ordering::Less => *w,
        _ => *v,
    }
}

/// A coordinate of the place, from those of the two corners, rounded to whole units, and halves up.
pub(crate) fn rounded(w: &Weights, p: i32, q: i32) -> i32
    requires first { unsigned_abs p ≤ 2 ^ 20 }
    requires second { unsigned_abs q ≤ 2 ^ 20 }
    ensures value { result ≡ nearest ((pos w.now.first *ℤ p) +ℤ (pos w.now.second *ℤ q)) (pos (w.now.first + w.now.second)) }
    ensures size { unsigned_abs result ≤ 2 ^ 20 }
{
    round_half_up(
        weighed(w.first, p) + weighed(w.second, q),
        (w.first + w.second) as i128,
    ) as i32
}

/// A coordinate times a weight.
fn weighed(weight: u128, p: i32) -> i128
    requires weight { weight < 2 ^ 88 }
    requires coordinate { unsigned_abs p ≤ 2 ^ 20 }
    ensures value { result ≡ pos weight *ℤ p }
    ensures size { unsigned_abs result ≤ 2 ^ 108 }
{
    weight as i128 * i128::from(p)
}
