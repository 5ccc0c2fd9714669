// From the crossings along an edge to the spans of a part of it.
ghost use Rattle.std.specs.Prelude.{◌≡◌, ℕ, ◌≤◌, ◌<◌, ◌^◌, ◌↔◌, pos, ◌≤ℤ◌, length, IfOk, IsTrue, IsPermutation};
ghost use Rattle.std.specs.List.Sorted.{IsSortedByKey};
ghost use Rattle.exact_frac.specs.Frac.{order_of};
ghost use Rattle.geometry.specs.Places.{IsPlace, IsEarlier};
ghost use Rattle.span_count.specs.Carries.{AreSmall, AreCarried};
ghost use Rattle.span_count.specs.inner.Steps.{IsSpanAdded, IsEndUntil};

use crate::span::CountSpan;
use crate::step::Sides;
use cross_find::Crossing;
use exact_frac::{Frac, OutOfMemory};
use std::alloc::Global;

/// The crossings in the order of their places.
///
/// Cost: one sort.
pub fn ascending(mut crossings: Vec<Crossing>) -> Result<Vec<Crossing>, OutOfMemory>
    ensures same { IfOk result (λ sorted. IsPermutation crossings.items sorted.items) }
    ensures sorted { IfOk result (λ sorted. IsSortedByKey (λ x. x.at) order_of sorted.items) }
{
    crossings.sort_by_key(|x| x.at)?;
    Ok(crossings)
}

/// The spans of the part of an edge from a place to a later one, between neighbouring places of the crossings in it. Each has the
/// counts that are before all crossings, and what the crossings before it change of them. Those at one place change the counts
/// together, those at the first place or before it are counted from there on, and those at the second or after it change nothing.
///
/// Cost: goes once over the crossings, with two comparisons of places for each.
pub fn carried(
    alloc: Global,
    crossings: &[Crossing],
    from: Frac,
    to: Frac,
    first: Sides,
) -> Result<Vec<CountSpan>, OutOfMemory>
    requires sorted { IsSortedByKey (λ x. x.at) order_of crossings.now }
    requires few { length crossings.now < 2 ^ 32 }
    requires small { AreSmall first }
    requires from { IsPlace from }
    requires to { IsPlace to }
    requires some { IsEarlier from to }
    ensures { IfOk result (λ spans. AreCarried from to crossings.now first.left first.right spans.items) }
{
    let mut spans = Vec::new(alloc);
    let mut at = from;
    let mut left = first.left;
    let mut right = first.right;
    for x in crossings {
        at = add_span(&mut spans, at, end_until(x.at, to), left, right)?;
        left += i64::from(x.left);
        right += i64::from(x.right);
    }
    add_span(&mut spans, at, to, left, right)?;
    Ok(spans)
}

/// The place at which a span ends: that of a crossing, or the part's end, if this is not later. Where the two are equal it is the
/// part's end, so that the spans end at its very numbers.
fn end_until(place: Frac, to: Frac) -> Frac
    requires place { IsPlace place }
    requires to { IsPlace to }
    ensures place { IsPlace result }
    ensures end { IsEndUntil place to result }
{
    if is_earlier(place, to) { place } else { to }
}

/// Adds the span, if it has an inside. The answer is the place at which the spans then end.
fn add_span(
    spans: &mut Vec<CountSpan>,
    from: Frac,
    to: Frac,
    left: i64,
    right: i64,
) -> Result<Frac, OutOfMemory>
    requires from { IsPlace from }
    requires to { IsPlace to }
    ensures place { IfOk result IsPlace }
    ensures added { IfOk result (λ end. IsSpanAdded from to left right spans.old.items spans.new.items end) }
{
    if !is_earlier(from, to) {
        return Ok(from);
    }
    spans.push(CountSpan {
        from,
        to,
        left: count(left),
        right: count(right),
    })?;
    Ok(to)
}

/// The sum as a count. At an ordinary point each sum is a count of faces, so it is in range there.
fn count(sum: i64) -> u32
    ensures { (n : ℕ) → n < 2 ^ 32 → sum ≡ pos n → result ≡ n }
{
    u32::try_from(sum).unwrap_or(0)
}

/// The first place is less than the second.
fn is_earlier(a: Frac, b: Frac) -> bool
    ensures { IsTrue result ↔ IsEarlier a b }
{
    a < b
}
