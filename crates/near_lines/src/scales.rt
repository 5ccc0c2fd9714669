// Whether lines are near one another on a sheet, and at which scale they aren't.
ghost use Rattle.std.specs.Prelude.{◌≡◌, ◌≤◌, All, IfOk};
ghost use Rattle.std.specs.List.{find};
ghost use Rattle.near_lines.specs.Scales.{are_apart_at, are_near_at, apart_at, distance_at, greater_of, has_room_at, length_at, nearness_of, rising, shows_apart, smaller_of};
ghost use Rattle.near_lines.specs.Sides.{IsSmall};
ghost use Rattle.near_lines.specs.inner.Chunks.{sides_of};

use crate::chunk::Chunk;
use crate::chunks::{chunks_of, near_total};
use crate::extent::{Extent, extent_of};
use crate::sides::Side;
use exact_frac::OutOfMemory;
use job_file::Scale;
use std::alloc::Global;

/// What is said of the visible lines of a view.
#[derive(Clone, Copy, PartialEq, Eq, Debug)]
pub enum Nearness {
    /// No more than 10 mm of them run within 0.5 mm of one another.
    Apart,
    /// More do, but none at this scale, the least greater one at which the view has room and none do.
    ApartAt(Scale),
    /// More do, and some at each greater scale at which the view has room.
    Close,
}

/// With the smaller number, how a scale is to the sheet's own.
fn greater_of(own: &Scale, s: &Scale) -> u64
    ensures value { result ≡ greater_of own.now s.now }
    ensures positive { 1 ≤ result }
{
    (u64::from(s.num) * u64::from(own.den)).max(1)
}

/// The smaller number, where the scale is greater.
fn smaller_of(own: &Scale, s: &Scale) -> u64
    ensures { result ≡ smaller_of own.now s.now }
{
    u64::from(s.den) * u64::from(own.num)
}

/// How long here what is 0.5 mm long at a scale is, rounded up.
fn distance_at(own: &Scale, s: &Scale) -> u32
    ensures value { result ≡ distance_at own.now s.now }
    ensures positive { 1 ≤ result }
    ensures size { result ≤ 50 }
{
    let greater = u128::from(greater_of(own, s));
    let smaller = u128::from(smaller_of(own, s));
    ((50 * smaller + (greater - 1)) / greater).min(50).max(1) as u32
}

/// How long here what is 10 mm long at a scale is, in 10^-4 mm.
fn length_at(own: &Scale, s: &Scale) -> u128
    ensures { result ≡ length_at own.now s.now }
{
    let greater = u128::from(greater_of(own, s));
    let smaller = u128::from(smaller_of(own, s));
    (100_000 * smaller / greater).min(100_000)
}

/// At a scale more than 10 mm of the lines run within 0.5 mm of one another.
fn are_near_at(own: &Scale, chunks: &[Chunk], all: &[Side], s: &Scale) -> bool
    requires small { All IsSmall all.now }
    requires chunks { sides_of chunks.now ≡ all.now }
    ensures { result ≡ are_near_at own.now all.now s.now }
{
    length_at(own, s) < near_total(distance_at(own, s), chunks, all)
}

/// A view has room on the largest sheet at a scale.
fn has_room_at(own: &Scale, e: Extent, s: &Scale) -> bool
    ensures { result ≡ has_room_at own.now e s.now }
{
    let greater = u128::from(greater_of(own, s));
    let smaller = u128::from(smaller_of(own, s));
    let width = u128::from(e.right.saturating_sub(e.left));
    let height = u128::from(e.bottom.saturating_sub(e.top));
    width * greater <= 114_900 * smaller && height * greater <= 78_100 * smaller
}

/// All scales, from the least on.
fn rising() -> [Scale; 12]
    ensures { result ≡ rising }
{
    [
        Scale { num: 1, den: 100 },
        Scale { num: 1, den: 50 },
        Scale { num: 1, den: 20 },
        Scale { num: 1, den: 10 },
        Scale { num: 1, den: 5 },
        Scale { num: 1, den: 2 },
        Scale { num: 1, den: 1 },
        Scale { num: 2, den: 1 },
        Scale { num: 5, den: 1 },
        Scale { num: 10, den: 1 },
        Scale { num: 20, den: 1 },
        Scale { num: 50, den: 1 },
    ]
}

/// No line is near another at a scale.
fn are_apart_at(own: &Scale, chunks: &[Chunk], all: &[Side], s: &Scale) -> bool
    requires small { All IsSmall all.now }
    requires chunks { sides_of chunks.now ≡ all.now }
    ensures { result ≡ are_apart_at own.now all.now s.now }
{
    near_total(distance_at(own, s), chunks, all) == 0
}

/// A scale is greater, the view has room at it, and no line is near another there.
fn shows_apart(own: &Scale, chunks: &[Chunk], all: &[Side], s: &Scale) -> bool
    requires small { All IsSmall all.now }
    requires chunks { sides_of chunks.now ≡ all.now }
    ensures { result ≡ shows_apart own.now all.now s.now }
{
    if smaller_of(own, s) >= greater_of(own, s) {
        return false;
    }
    has_room_at(own, extent_of(all), s) && are_apart_at(own, chunks, all, s)
}

/// The first of these scales that shows the lines apart.
fn first_apart(own: &Scale, chunks: &[Chunk], all: &[Side], scales: &[Scale]) -> Option<Scale>
    requires small { All IsSmall all.now }
    requires chunks { sides_of chunks.now ≡ all.now }
    ensures { result ≡ find (shows_apart own.now all.now) scales.now }
{
    match scales {
        [] => None,
        [s, rest @ ..] => {
            if shows_apart(own, chunks, all, s) {
                return Some(*s);
            }
            first_apart(own, chunks, all, rest)
        }
    }
}

/// What is said of the visible lines of a view, on a sheet of this scale.
///
/// For each part of a side, at each scale that is tried, it looks at n / 128 boxes for n sides, and at all sides in those that are near. A
/// part is no longer than twice the distance, which is 1 mm there, or more by the rounding up. So the time goes with the number of parts where paths are compact, and at worst with that number
/// times n.
pub fn nearness_of(alloc: Global, own: &Scale, all: &[Side]) -> Result<Nearness, OutOfMemory>
    requires small { All IsSmall all.now }
    ensures { IfOk result (λ nearness'. nearness' ≡ nearness_of own.now all.now) }
{
    let chunks = chunks_of(alloc, all)?;
    if !are_near_at(own, &chunks, all, own) {
        return Ok(Nearness::Apart);
    }
    match first_apart(own, &chunks, all, &rising()) {
        Some(s) => Ok(Nearness::ApartAt(s)),
        None => Ok(Nearness::Close),
    }
}
