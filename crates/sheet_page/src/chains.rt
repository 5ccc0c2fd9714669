// Where chain lines begin in their pattern.
ghost use Rattle.std.specs.Prelude.{◌≡◌, ◌<◌, string_bytes, IfOk};
ghost use Rattle.sheet_page.specs.Chains.{chain_dash, period, pattern, with_tenth, beyond, phase, phase_between, phase_of};

use crate::pens::Pens;
use std::alloc::{AllocError, Global};
use stroke_paths::Point;

/// How long the pattern is, in thousandths of a millimetre.
fn period(pens: Pens) -> u32
    ensures value { result ≡ period pens }
    ensures positive { 0 < result }
{
    match pens {
        Pens::Usual => 7625,
        Pens::Small => 5490,
    }
}

/// How long its dash is, in thousandths of a millimetre.
fn chain_dash(pens: Pens) -> u32
    ensures value { result ≡ chain_dash pens }
    ensures size { result < 10000 }
{
    match pens {
        Pens::Usual => 6000,
        Pens::Small => 4320,
    }
}

/// The pattern: a dash of 24 widths, a gap of 3, a dot of half a width and a gap of 3, in hundredths of a millimetre.
pub(crate) fn pattern(alloc: Global, pens: Pens) -> Result<String, AllocError>
    ensures { IfOk result (λ text. string_bytes text ≡ pattern pens) }
{
    let width = u128::from(pens.narrow());
    let dash = with_tenth(alloc, 240 * width)?;
    let gap = with_tenth(alloc, 30 * width)?;
    let dot = with_tenth(alloc, 5 * width)?;
    format!(in alloc; "{dash} {gap} {dot} {gap}")
}

/// A length in thousandths of a millimetre as hundredths, with one decimal.
pub(crate) fn with_tenth(alloc: Global, length: u128) -> Result<String, AllocError>
    ensures { IfOk result (λ text. string_bytes text ≡ with_tenth length) }
{
    let (whole, tenth) = (length / 10, length % 10);
    format!(in alloc; "{whole}.{tenth}")
}

/// How far a place is beyond a whole multiple of the pattern, in thousandths of a millimetre. The place is in hundredths.
fn beyond(pens: Pens, place: i64) -> u128
    ensures value { result ≡ beyond pens place }
    ensures size { result < period pens }
{
    let place = 10 * i128::from(place);
    place.rem_euclid(i128::from(period(pens))).unsigned_abs()
}

/// How far into its pattern a line begins that goes along an axis from one place toward another, in thousandths of a millimetre. The
/// places are in hundredths.
fn phase(pens: Pens, from: i64, to: i64) -> u128
    ensures { result ≡ phase pens from to }
{
    let place = beyond(pens, from);
    if from <= to {
        place
    } else {
        let period = u128::from(period(pens));
        (u128::from(chain_dash(pens)) + period - place) % period
    }
}

/// How far into its pattern a line from one point to another begins.
pub(crate) fn phase_between(pens: Pens, from: &Point, to: &Point) -> u128
    ensures { result ≡ phase_between pens from.now to.now }
{
    if from.x == to.x {
        phase(pens, from.y, to.y)
    } else {
        phase(pens, from.x, to.x)
    }
}

/// How far into its pattern a path begins.
pub(crate) fn phase_of(pens: Pens, points: &[Point]) -> u128
    ensures { result ≡ phase_of pens points.now }
{
    match points {
        [first, second, ..] => phase_between(pens, first, second),
        _ => 0,
    }
}
