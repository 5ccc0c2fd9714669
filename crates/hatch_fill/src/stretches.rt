// Intervals of hatch lines: within the section, and along its borders.
ghost use Rattle.std.specs.Prelude.{◌≡◌, ◌++◌, ◌↔◌, ◌≤◌, ◌*ℤ◌, IsTrue, IsNone, IfSome, IfOk, OnOk};
ghost use Rattle.lattice.specs.Points.{of_dir, of_spot};
ghost use Rattle.cut_plane.specs.Diagonals.{diagonal_of};
ghost use Rattle.hatch_fill.specs.inner.Parts.{AreJoined, AreAdded};
ghost use Rattle.hatch_fill.specs.inner.Stretches.{between, pairs_of, IsPlaceOf, IsSpotOn, AreEndsAlong, HasStretch, AreStretches};

use crate::numbers::{diagonal, diagonal_at, first_number};
use crate::places::HatchPlace;
use cut_plane::Segment;
use exact_frac::{Frac, OutOfMemory};
use intervals::Interval;
use lattice::{Dir, Spot, across};
use std::alloc::Global;

/// What is between the first place and the second, between the third and the fourth, and so on.
pub(crate) fn pairs(
    alloc: Global,
    places: &[HatchPlace],
) -> Result<Vec<Interval<HatchPlace>>, OutOfMemory>
    ensures { IfOk result (λ intervals. intervals.items ≡ pairs_of places.now) }
{
    let mut intervals = Vec::new(alloc);
    let mut k = 0;
    while k + 1 < places.len() {
        add(&mut intervals, places[k], places[k + 1])?;
        k += 2;
    }
    Ok(intervals)
}

/// What segments cover of hatch lines along which they run.
pub(crate) fn stretches(
    alloc: Global,
    d: &Dir,
    segments: &[Segment],
    spacing: u32,
) -> Result<Vec<Interval<HatchPlace>>, OutOfMemory>
    requires { 1 ≤ spacing }
    ensures { IfOk result (λ intervals. AreJoined (AreStretches (of_dir d.now) spacing) segments.now intervals.items) }
{
    let mut intervals = Vec::new(alloc);
    for segment in segments {
        add_stretch(&mut intervals, d, segment, spacing)?;
    }
    Ok(intervals)
}

/// Adds what the segment covers of a hatch line, if it runs along one.
fn add_stretch(
    intervals: &mut Vec<Interval<HatchPlace>>,
    d: &Dir,
    segment: &Segment,
    spacing: u32,
) -> Result<(), OutOfMemory>
    requires { 1 ≤ spacing }
    ensures { OnOk result (AreAdded (AreStretches (of_dir d.now) spacing segment.now) intervals.old.items intervals.new.items) }
{
    match ends_along(d, segment, spacing) {
        Some(ends) => {
            add(intervals, ends.a, ends.b)?;
            add(intervals, ends.b, ends.a)
        }
        None => Ok(()),
    }
}

/// The places of a segment's ends.
#[derive(Clone, Copy)]
struct Ends {
    a: HatchPlace,
    b: HatchPlace,
}

/// Where the segment's ends are on the hatch line along which it runs, if it does and spots can be there.
fn ends_along(d: &Dir, segment: &Segment, spacing: u32) -> Option<Ends>
    requires { 1 ≤ spacing }
    ensures some { IfSome result (λ ends. AreEndsAlong (of_dir d.now) spacing segment.now ends.a ends.b) }
    ensures none { IsNone result → ¬ HasStretch (of_dir d.now) spacing segment.now }
{
    let number = first_number(&diagonal(d, &segment.a), spacing);
    let at = diagonal_at(number, spacing);
    match (place_on(d, &segment.a, at), place_on(d, &segment.b, at)) {
        (Some(a), Some(b)) => Some(Ends { a, b }),
        _ => None,
    }
}

/// The place of the spot, if its U - V is this number and a spot can be there.
fn place_on(d: &Dir, p: &Spot, at: i64) -> Option<HatchPlace>
    ensures some { IfSome result (IsPlaceOf (of_dir d.now) at p.now) }
    ensures none { IsNone result → ¬ IsSpotOn (of_dir d.now) at p.now }
{
    if is_on(d, p, at) {
        HatchPlace::new(at, &across(d, p))
    } else {
        None
    }
}

/// U - V of the spot is this number.
fn is_on(d: &Dir, p: &Spot, at: i64) -> bool
    ensures { IsTrue result ↔ (diagonal_of (of_dir d.now) (of_spot p.now) ≡ at *ℤ p.now.w) }
{
    diagonal(d, p)
        == Frac {
            num: at.into(),
            den: 1,
        }
}

/// Adds the interval, if it has an inside.
fn add(
    intervals: &mut Vec<Interval<HatchPlace>>,
    from: HatchPlace,
    to: HatchPlace,
) -> Result<(), OutOfMemory>
    ensures { OnOk result (intervals.new.items ≡ intervals.old.items ++ between from to) }
{
    if from < to {
        intervals.push(Interval { from, to })?;
    }
    Ok(())
}
