// The dashes of a hidden path.
ghost use Rattle.std.specs.Prelude.{◌≡◌, ◌*◌, ◌<◌, ◌≤◌, ◌^◌, ◌↔◌, length, IfSome, IsNone, IfOk, string_bytes};
ghost use Rattle.sheet_page.specs.Dashes.{apart, side, through, length_of, dashes_on, gaps_between, gap_on, shared, fitted, IsFilled, with_decimals};

use crate::pens::Pens;
use exact_frac::isqrt;
use std::alloc::{AllocError, Global};
use stroke_paths::{Path, Point};

/// The lengths of a dash and of a gap, in 10^-6 mm.
#[derive(Clone, Copy, PartialEq, Eq, Debug)]
pub struct Dashes {
    pub dash: u64,
    pub gap: u64,
}

/// The dashes that fit a path that is drawn by these pens. An open path begins and ends with a dash, and a closed one goes on where it
/// began. None where the path is shorter than 1.5 mm, and so is drawn whole. Its mark doesn't matter.
///
/// Goes over its points once.
pub fn dashes_of(path: &Path, pens: Pens) -> Option<Dashes>
    ensures fitted { result ≡ fitted pens path.now.closed (length_of path.now.closed path.now.points.items) }
    ensures wide { IfSome result (λ d. 500000 ≤ d.gap) }
    ensures long { IfSome result (λ d. 250000 ≤ d.dash) }
    ensures filled { IfSome result (IsFilled path.now.closed (length_of path.now.closed path.now.points.items) (dashes_on pens path.now.closed (length_of path.now.closed path.now.points.items))) }
    ensures whole { IsNone result ↔ length_of path.now.closed path.now.points.items < 1500000 }
{
    let length = length(path);
    if length < 1_500_000 {
        return None;
    }
    let n = dashes_on(pens, path.closed, length);
    Some(shared(path.closed, length, n))
}

/// How many dashes a path of this length has. The length is in 10^-6 mm, as in all that follows.
fn dashes_on(pens: Pens, closed: bool, length: u128) -> u128
    requires long { 1500000 ≤ length }
    requires size { length < 2 ^ 96 }
    ensures value { result ≡ dashes_on pens closed length }
    ensures two { 2 ≤ result }
    ensures at_least { 750000 * result ≤ length }
    ensures at_most { length < 2 ^ 32 * result }
{
    let width = u128::from(pens.narrow());
    let more = if closed { 75_000 } else { 105_000 };
    ((length + more * width) / (150_000 * width)).max(2)
}

/// How many gaps are between n dashes.
fn gaps_between(closed: bool, n: u128) -> u128
    requires { 2 ≤ n }
    ensures value { result ≡ gaps_between closed n }
    ensures few { result ≤ n }
{
    if closed { n } else { n - 1 }
}

/// How long a gap is between n dashes.
fn gap_on(closed: bool, length: u128, n: u128) -> u128
    requires two { 2 ≤ n }
    requires size { n < 2 ^ 96 }
    ensures { result ≡ gap_on closed length n }
{
    (length / (4 * n + gaps_between(closed, n))).max(500_000)
}

/// The n dashes of a path of this length.
fn shared(closed: bool, length: u128, n: u128) -> Dashes
    requires size { length < 2 ^ 96 }
    requires two { 2 ≤ n }
    requires at_least { 750000 * n ≤ length }
    requires at_most { length < 2 ^ 32 * n }
    ensures { result ≡ shared closed length n }
{
    let gap = gap_on(closed, length, n);
    let gaps = gaps_between(closed, n);
    let dash = (length - gaps * gap) / n;
    Dashes {
        dash: dash as u64,
        gap: gap as u64,
    }
}

/// The length of a path, in 10^-6 mm.
fn length(path: &Path) -> u128
    ensures value { result ≡ length_of path.now.closed path.now.points.items }
    ensures size { result < 2 ^ 96 }
{
    let points = path.points.as_slice();
    let (Some(first), Some(last)) = (points.first(), points.last()) else {
        return 0;
    };
    if path.closed {
        through(last, points)
    } else {
        through(first, &points[1..])
    }
}

/// The length from a point through others, in their order.
fn through(from: &Point, points: &[Point]) -> u128
    ensures value { result ≡ through from.now points.now }
    ensures size { result ≤ 2 ^ 31 * length points.now }
{
    let mut from = *from;
    let mut sum = 0;
    for to in points {
        sum += u128::from(side(&from, to));
        from = *to;
    }
    sum
}

/// The length from one point to another.
fn side(p: &Point, q: &Point) -> u64
    ensures value { result ≡ side p.now q.now }
    ensures size { result ≤ 2 ^ 31 }
{
    let (across, down) = (apart(p.x, q.x), apart(p.y, q.y));
    isqrt(100_000_000 * (across * across + down * down))
}

/// How far apart two coordinates are, and no more than the widest sheet, so that the square of a side fits 64 bits.
fn apart(a: i64, b: i64) -> u64
    ensures value { result ≡ apart a b }
    ensures size { result ≤ 118900 }
{
    a.abs_diff(b).min(118_900)
}

/// A length in hundredths of a millimetre, with four decimals.
pub(crate) fn with_decimals(alloc: Global, length: u64) -> Result<String, AllocError>
    ensures { IfOk result (λ text. string_bytes text ≡ with_decimals length) }
{
    let whole = length / 10_000;
    let (first, second) = (length / 1000 % 10, length / 100 % 10);
    let (third, fourth) = (length / 10 % 10, length % 10);
    format!(in alloc; "{whole}.{first}{second}{third}{fourth}")
}
