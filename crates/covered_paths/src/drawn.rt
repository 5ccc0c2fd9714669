// Which lines of a sheet are drawn.
ghost use Rattle.std.specs.Prelude.{◌≡◌, ◌≤◌, ◌^◌, [], pos, ◌≤ℤ◌, IfOk, unsigned_abs};
ghost use Rattle.std.specs.List.{list_any};
ghost use Rattle.covered_paths.specs.Covering.{covers};
ghost use Rattle.covered_paths.specs.Drawn.{EachLine, IsSeen, comes_near, drawn_after, far_of, is_covered_among, is_left_out, starts_near};
ghost use Rattle.covered_paths.specs.Within.{is_within};

use crate::covering::covers;
use crate::extent::{extent_around, is_missed};
use crate::legs::{Leg, Place};
use crate::line::Line;
use crate::within::is_within;
use exact_frac::OutOfMemory;
use std::alloc::Global;

/// How near a line must be to others to lie within their ink, in hundredths of a millimetre.
fn far_of(line: &Line) -> i64
    ensures value { result ≡ far_of line.now }
    ensures small { unsigned_abs result ≤ 2 ^ 6 }
    ensures not_negative { pos 0 ≤ℤ result }
{
    if line.hidden { 25 } else { 35 }
}

/// The first point of a leg is within the distance of another leg. That it is outside the other's box is soon seen.
fn is_start_within(far: i64, leg: &Leg, other: &Leg) -> bool
    requires small { unsigned_abs far ≤ 2 ^ 6 }
    requires not_negative { pos 0 ≤ℤ far }
    ensures { result ≡ is_within far leg.now (record { part = pos 0; whole = pos 1 }) other.now }
{
    if is_missed(far, leg.x1, leg.y1, extent_around(other)) {
        return false;
    }
    is_within(far, leg, &Place { part: 0, whole: 1 }, other)
}

/// The first point of a leg is within the distance of others.
fn is_start_near(far: i64, others: &[Leg], leg: &Leg) -> bool
    requires small { unsigned_abs far ≤ 2 ^ 6 }
    requires not_negative { pos 0 ≤ℤ far }
    ensures { result ≡ list_any (is_within far leg.now (record { part = pos 0; whole = pos 1 })) others.now }
{
    for other in others {
        if is_start_within(far, leg, other) {
            return true;
        }
    }
    false
}

/// The first point of a leg is within the distance of a line. Most lines are passed by with a look at their boxes.
fn is_start_near_line(leg: &Leg, other: &Line) -> bool
    ensures { result ≡ list_any (is_within (far_of other.now) leg.now (record { part = pos 0; whole = pos 1 })) other.now.legs.items }
{
    let far = far_of(other);
    if is_missed(far, leg.x1, leg.y1, other.extent) {
        return false;
    }
    is_start_near(far, &other.legs, leg)
}

/// The first point of some legs is so.
#[tactic(auto, unfolding(crate::specs::Drawn::starts_near))]
fn starts_near(legs: &[Leg], other: &Line) -> bool
    ensures { result ≡ starts_near (far_of other.now) other.now.legs.items legs.now }
{
    match legs {
        [] => false,
        [leg, ..] => is_start_near_line(leg, other),
    }
}

/// A line of the same view comes near the first point of a line.
#[tactic(auto, unfolding(crate::specs::Drawn::comes_near))]
fn comes_near(line: &Line, other: &Line) -> bool
    ensures { result ≡ comes_near line.now other.now }
{
    if other.view != line.view {
        return false;
    }
    starts_near(&line.legs, other)
}

/// A line covers another.
fn covers_line(alloc: Global, line: &Line, other: &Line) -> Result<bool, OutOfMemory>
    ensures { IfOk result (λ covered. covered ≡ covers (far_of other.now) other.now.legs.items line.now.legs.items) }
{
    covers(alloc, far_of(other), &other.legs, &line.legs)
}

/// One of the first so many lines that come near a line covers it.
#[tactic(auto, unfolding(crate::specs::Drawn::is_covered_among))]
fn is_covered_among(
    alloc: Global,
    most: u32,
    line: &Line,
    drawn: &[Line],
) -> Result<bool, OutOfMemory>
    ensures { IfOk result (λ covered. covered ≡ is_covered_among most line.now drawn.now) }
{
    let mut left = most;
    for other in drawn {
        if left == 0 {
            return Ok(false);
        }
        if comes_near(line, other) {
            if covers_line(alloc, line, other)? {
                return Ok(true);
            }
            left -= 1;
        }
    }
    Ok(false)
}

/// A hidden line of at most 1000 legs lies within one of the first eight lines that are drawn and come near it. Once 20,000 lines are drawn
/// no other one is left out.
#[tactic(auto, unfolding(crate::specs::Drawn::is_left_out))]
fn is_left_out(alloc: Global, drawn: &[Line], line: &Line) -> Result<bool, OutOfMemory>
    ensures { IfOk result (λ out. out ≡ is_left_out drawn.now line.now) }
{
    if !line.hidden {
        return Ok(false);
    }
    if line.legs.len() > 1000 {
        return Ok(false);
    }
    if drawn.len() > 20_000 {
        return Ok(false);
    }
    is_covered_among(alloc, 8, line, drawn)
}

/// Takes the lines one after the other, and adds those that aren't left out.
fn add_drawn(alloc: Global, lines: Vec<Line>) -> Result<Vec<Line>, OutOfMemory>
    ensures { IfOk result (λ drawn. drawn.items ≡ drawn_after [] lines.items) }
{
    let mut drawn = Vec::new(alloc);
    for line in lines {
        if !is_left_out(alloc, &drawn, &line)? {
            drawn.push(line)?;
        }
    }
    Ok(drawn)
}

/// The lines that are drawn, of lines in their order: visible ones first, and then hidden ones, the longest first. A hidden line is left
/// out if it lies within 0.35 mm of a visible line, or within 0.25 mm of a hidden line before it, which is itself drawn. Only the first
/// eight lines are tried that come so near to its first point.
pub(crate) fn drawn_lines(alloc: Global, lines: Vec<Line>) -> Result<Vec<Line>, OutOfMemory>
    ensures exact { IfOk result (λ drawn. drawn.items ≡ drawn_after [] lines.items) }
    ensures seen { IfOk result (λ drawn. EachLine (IsSeen drawn.items) lines.items) }
{
    add_drawn(alloc, lines)
}
