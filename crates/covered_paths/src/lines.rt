// The lines of a sheet, made of its paths.
ghost use Rattle.std.specs.Prelude.{◌≡◌, ◌≤◌, ◌+◌, ◌^◌, ◌++◌, [], ◌∷◌, true, cond, length, map, IfOk, OnOk};
ghost use Rattle.std.specs.List.{list_all};
ghost use Rattle.std.specs.List.Sorted.{IsNonDecreasingBy, IsPermutation};
ghost use Rattle.covered_paths.specs.Drawn.{AreLines};
ghost use Rattle.covered_paths.specs.Places.{length_along, length_of, place_of, rank_of};
ghost use Rattle.covered_paths.specs.Sheets.{ends_along, ends_between, ends_of, ends_through, is_hidden, is_in_range, is_line, is_on_sheet, is_outline, sketch_of, sketch_path, sketches};

use crate::covering::is_one;
use crate::extent::extent_of;
use crate::legs::{Leg, leg_between};
use crate::line::Line;
use crate::numbers::is_less;
use crate::within::long;
use exact_frac::{OutOfMemory, isqrt};
use sheet_plan::Mark;
use std::alloc::Global;
use stroke_paths::{Path, Point};

/// A number is a place on the largest sheet.
#[tactic(auto, unfolding(crate::specs::Sheets::is_in_range))]
fn is_in_range(z: i64) -> bool
    ensures { result ≡ is_in_range z }
{
    if is_less(z, 0) {
        return false;
    }
    !is_less(131_072, z)
}

/// A point is on the largest sheet.
#[tactic(auto, unfolding(crate::specs::Sheets::is_on_sheet))]
fn is_on_sheet(point: &Point) -> bool
    ensures { result ≡ is_on_sheet point.now }
{
    if !is_in_range(point.x) {
        return false;
    }
    is_in_range(point.y)
}

/// Each of these points is on it.
fn are_on_sheet(points: &[Point]) -> bool
    ensures { result ≡ list_all is_on_sheet points.now }
{
    for point in points {
        if !is_on_sheet(point) {
            return false;
        }
    }
    true
}

/// A visible or a hidden line's mark.
fn is_outline(mark: Mark) -> bool
    ensures { result ≡ is_outline mark }
{
    match mark {
        Mark::Solid => true,
        Mark::Dashed => true,
        Mark::Chain => false,
        Mark::Hatch => false,
    }
}

/// A hidden line's mark.
fn is_hidden(mark: Mark) -> bool
    ensures { result ≡ is_hidden mark }
{
    match mark {
        Mark::Solid => false,
        Mark::Dashed => true,
        Mark::Chain => false,
        Mark::Hatch => false,
    }
}

/// A path is a line: it is shown, visible or hidden, and on the largest sheet.
#[tactic(auto, unfolding(crate::specs::Sheets::is_line))]
pub(crate) fn is_line(path: &Path, shown: bool) -> bool
    ensures { result ≡ is_line path.now shown }
{
    if !shown {
        return false;
    }
    if !is_outline(path.mark) {
        return false;
    }
    are_on_sheet(&path.points)
}

/// Adds the leg from one point to another, if they aren't one.
fn add_leg(legs: &mut Vec<Leg>, from: &Point, to: &Point) -> Result<(), OutOfMemory>
    requires from { is_on_sheet from.now ≡ true }
    requires to { is_on_sheet to.now ≡ true }
    ensures { OnOk result (map ends_of legs.new.items ≡ map ends_of legs.old.items ++ ends_between from.now to.now) }
{
    if is_one(from.x, from.y, to.x, to.y) {
        return Ok(());
    }
    legs.push(leg_between(from.x, from.y, to.x, to.y))?;
    Ok(())
}

/// Adds the legs from the first point of a path through the others, and back to the first if the path is closed.
fn add_through(
    legs: &mut Vec<Leg>,
    closed: bool,
    first: &Point,
    points: &[Point],
) -> Result<(), OutOfMemory>
    requires first { is_on_sheet first.now ≡ true }
    requires points { list_all is_on_sheet points.now ≡ true }
    ensures { OnOk result (map ends_of legs.new.items ≡ map ends_of legs.old.items ++ ends_through closed first.now first.now points.now) }
{
    let mut from = *first;
    for to in points {
        add_leg(legs, &from, to)?;
        from = *to;
    }
    if closed {
        add_leg(legs, &from, first)?;
    }
    Ok(())
}

/// The legs of a path.
fn legs_along(alloc: Global, closed: bool, points: &[Point]) -> Result<Vec<Leg>, OutOfMemory>
    requires { list_all is_on_sheet points.now ≡ true }
    ensures { IfOk result (λ legs. map ends_of legs.items ≡ ends_along closed points.now) }
{
    let mut legs = Vec::new(alloc);
    match points {
        [] => Ok(legs),
        [first, rest @ ..] => {
            add_through(&mut legs, closed, first, rest)?;
            Ok(legs)
        }
    }
}

/// The length of a leg in 10^-6 mm, cut off.
fn length_of(leg: &Leg) -> u64
    ensures value { result ≡ length_of leg.now }
    ensures size { result ≤ 2 ^ 32 }
{
    isqrt(100_000_000 * long(leg).unsigned_abs())
}

/// The length of legs.
fn length_along(legs: &[Leg]) -> u64
    ensures value { result ≡ length_along legs.now }
    ensures size { result ≤ 2 ^ 63 }
{
    let mut total: u64 = 0;
    for leg in legs {
        total = (total + length_of(leg)).min(1 << 63);
    }
    total
}

/// A visible line is before each hidden one, and a longer hidden line before a shorter one.
fn rank_of(hidden: bool, legs: &[Leg]) -> u64
    ensures value { result ≡ rank_of hidden legs.now }
    ensures size { result ≤ 2 ^ 63 + 1 }
{
    if hidden {
        return (1 << 63) + 1 - length_along(legs);
    }
    0
}

/// The place of a line in the order of lines.
fn place_of(number: usize, hidden: bool, legs: &[Leg]) -> u128
    ensures { result ≡ place_of number hidden legs.now }
{
    u128::from(rank_of(hidden, legs)) * (1 << 64) + number as u128
}

/// The line of a path with this number.
fn line_of(alloc: Global, number: usize, path: &Path) -> Result<Line, OutOfMemory>
    requires { list_all is_on_sheet path.now.points.items ≡ true }
    ensures { IfOk result (λ line. sketch_of line ≡ sketch_path number path.now) }
{
    let legs = legs_along(alloc, path.closed, &path.points)?;
    let hidden = is_hidden(path.mark);
    Ok(Line {
        number,
        view: path.view,
        hidden,
        place: place_of(number, hidden, &legs),
        extent: extent_of(&legs),
        legs,
    })
}

/// Adds the line of a path, if it is one.
fn add_line(
    alloc: Global,
    lines: &mut Vec<Line>,
    number: usize,
    path: &Path,
    shown: bool,
) -> Result<(), OutOfMemory>
    ensures { OnOk result (map sketch_of lines.new.items ≡ map sketch_of lines.old.items ++ (cond (is_line path.now shown) (sketch_path number path.now ∷ []) [])) }
{
    if is_line(path, shown) {
        lines.push(line_of(alloc, number, path)?)?;
    }
    Ok(())
}

/// The lines of a sheet, in the order of its paths.
fn all_lines(alloc: Global, paths: &[Path], shown: &[bool]) -> Result<Vec<Line>, OutOfMemory>
    requires as_many { length shown.now ≡ length paths.now }
    ensures { IfOk result (λ lines. map sketch_of lines.items ≡ sketches 0 paths.now shown.now) }
{
    let mut lines = Vec::new(alloc);
    for number in 0..paths.len() {
        add_line(alloc, &mut lines, number, &paths[number], shown[number])?;
    }
    Ok(lines)
}

/// Lines in the order of their places.
fn in_order(lines: Vec<Line>) -> Result<Vec<Line>, OutOfMemory>
    ensures same { IfOk result (λ sorted. IsPermutation lines.items sorted.items) }
    ensures order { IfOk result (λ sorted. IsNonDecreasingBy (λ (l : Line). place_of l.number l.hidden l.legs.items) sorted.items) }
{
    let mut sorted = lines;
    sorted.sort_by_key(|x| x.place)?;
    Ok(sorted)
}

/// The lines of a sheet, in the order of their places. It takes the time of sorting them.
pub(crate) fn sheet_lines(
    alloc: Global,
    paths: &[Path],
    shown: &[bool],
) -> Result<Vec<Line>, OutOfMemory>
    requires as_many { length shown.now ≡ length paths.now }
    ensures { IfOk result (λ lines. AreLines paths.now shown.now lines.items) }
{
    let lines = all_lines(alloc, paths, shown)?;
    let sorted = in_order(lines)?;
    Ok(sorted)
}
