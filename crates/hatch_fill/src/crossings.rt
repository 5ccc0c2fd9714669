// Where the borders of a section cross hatch lines.
ghost use Rattle.std.specs.Prelude.{◌≡◌, ◌≤◌, ◌^◌, unsigned_abs, IfOk, OnOk};
ghost use Rattle.lattice.specs.Points.{of_dir};
ghost use Rattle.hatch_fill.specs.inner.Crossings.{AreMeetings, AreCrossings};
ghost use Rattle.hatch_fill.specs.inner.Parts.{AreJoined, AreAdded};

use crate::meetings::meeting;
use crate::numbers::{diagonal, diagonal_at, first_number};
use crate::places::HatchPlace;
use cut_plane::Segment;
use exact_frac::OutOfMemory;
use lattice::{Dir, Line};
use std::alloc::Global;

/// The places at which the segments cross hatch lines.
pub(crate) fn crossings(
    alloc: Global,
    d: &Dir,
    segments: &[Segment],
    spacing: u32,
) -> Result<Vec<HatchPlace>, OutOfMemory>
    requires { 1 ≤ spacing }
    ensures { IfOk result (λ places. AreJoined (AreCrossings (of_dir d.now) spacing) segments.now places.items) }
{
    let mut places = Vec::new(alloc);
    for segment in segments {
        add_crossings(&mut places, d, segment, spacing)?;
    }
    Ok(places)
}

/// Adds the places at which the segment crosses hatch lines. It crosses those from its lesser U - V on, that one included, to
/// its greater.
fn add_crossings(
    places: &mut Vec<HatchPlace>,
    d: &Dir,
    segment: &Segment,
    spacing: u32,
) -> Result<(), OutOfMemory>
    requires { 1 ≤ spacing }
    ensures { OnOk result (AreAdded (AreCrossings (of_dir d.now) spacing segment.now) places.old.items places.new.items) }
{
    let a = first_number(&diagonal(d, &segment.a), spacing);
    let b = first_number(&diagonal(d, &segment.b), spacing);
    add_meetings(places, &segment.line, spacing, a, b)?;
    add_meetings(places, &segment.line, spacing, b, a)
}

/// Adds the places at which the line meets the hatch lines from one number on and before another.
fn add_meetings(
    places: &mut Vec<HatchPlace>,
    line: &Line,
    spacing: u32,
    from: i64,
    to: i64,
) -> Result<(), OutOfMemory>
    requires first { unsigned_abs from ≤ 2 ^ 31 }
    requires second { unsigned_abs to ≤ 2 ^ 31 }
    requires some { 1 ≤ spacing }
    ensures { OnOk result (AreAdded (AreMeetings line.now spacing from to) places.old.items places.new.items) }
{
    for number in from..to {
        if let Some(place) = meeting(line, diagonal_at(number, spacing)) {
            places.push(place)?;
        }
    }
    Ok(())
}
