// The figures of marks and headings.
ghost use Rattle.std.specs.Prelude.{◌≡◌, ◌<◌, ◌≤◌, ◌^◌, pos, ◌+ℤ◌, ◌-ℤ◌, ◌↔◌, unsigned_abs, map, IsTrue, IfOk};
ghost use Rattle.lattice.specs.Cuts.{plane_of};
ghost use Rattle.solid_mesh.specs.Solids.{solid_part};
ghost use Rattle.cut_marks.specs.Letters.{IsLetterOf};
ghost use Rattle.cut_marks.specs.Traces.{is_upright, is_forward};
ghost use Rattle.cut_marks.specs.Figures.{ahead, place_at, base_at, upright_end, base_beside, level_end, end_on, begin_of, out_of, near_side, far_side, end_of, mark_of, marks_in, heading_over};

use crate::traces::{is_forward, is_upright};
use crate::ways::{Lane, Laned};
use exact_frac::OutOfMemory;
use lattice::{Axis, Cut};
use sheet_plan::ViewBox;
use std::alloc::Global;

/// A point of the sheet.
#[derive(Clone, Copy, Debug)]
pub struct SheetPoint {
    pub x: i64,
    pub y: i64,
}

/// One end of a mark: the strong end of its line, from `start` to `tip`, an arrow in the viewing direction, from `tail` to `tip`, its
/// letter beside the tail, toward the view, and a place for another one on the arrow's other side. Letters are 5 mm high; their places
/// are in the middle of their base lines.
#[derive(Clone, Copy, Debug)]
pub struct MarkEnd {
    pub start: SheetPoint,
    pub tip: SheetPoint,
    pub tail: SheetPoint,
    pub letter: SheetPoint,
    pub beside: SheetPoint,
}

/// The mark of a cut in a view that sees its plane edge-on: a chain line across the view's whole box, from the tip of the first end to
/// that of the second one, and the two ends. Where another cut has its trace on this line, and its viewer looks in the same way, both
/// letters may stand at it. Letters are ASCII codes.
#[derive(Clone, Copy, Debug)]
pub struct CutMark {
    pub letter: u8,
    pub beside: Option<u8>,
    pub first: MarkEnd,
    pub second: MarkEnd,
}

/// The heading of a cut view, as `A-A (y = 10)` with this letter and the place of its cut on an axis, and the view's title behind it,
/// with the middle of its base line at x and y. It is 5 mm high, or less where it would be wider than `room`, whose middle is that of the
/// base line. If the cut's plane crosses no triangle, the view shows no section.
#[derive(Clone, Copy, Debug)]
pub struct Heading {
    pub letter: u8,
    pub axis: Axis,
    pub at: i64,
    pub x: i64,
    pub y: i64,
    pub room: u32,
    pub has_section: bool,
}

/// So far ahead, or back.
fn ahead(forward: bool, at: i64, by: i64) -> i64
    requires here { unsigned_abs at < 2 ^ 62 }
    requires near { unsigned_abs by ≤ 3000 }
    ensures { result ≡ ahead forward at by }
{
    if forward { at + by } else { at - by }
}

/// So far beyond a side of a box, or before it.
fn outside(beyond: bool, side: i64, by: i64) -> i64
    requires here { unsigned_abs side < 2 ^ 61 }
    requires near { unsigned_abs by ≤ 3000 }
    ensures value { result ≡ ahead beyond side by }
    ensures size { unsigned_abs result < 2 ^ 62 }
{
    if beyond { side + by } else { side - by }
}

fn place_at(x: i64, y: i64) -> SheetPoint
    ensures { result ≡ place_at x y }
{
    SheetPoint { x, y }
}

/// The base line of a letter beneath an arrow at this height, or above it.
fn base_at(beneath: bool, y: i64) -> i64
    requires { unsigned_abs y < 2 ^ 62 }
    ensures { result ≡ base_at beneath y }
{
    if beneath { y + 450 } else { y - 90 }
}

/// The end of a mark whose trace runs upright at this x, above the box or beneath it.
fn upright_end(forward: bool, at: i64, beyond: bool, side: i64, begins: i64, ends: i64) -> MarkEnd
    requires at { unsigned_abs at < 2 ^ 61 }
    requires side { unsigned_abs side < 2 ^ 61 }
    requires begins { unsigned_abs begins ≤ 3000 }
    requires ends { unsigned_abs ends ≤ 3000 }
    ensures { result ≡ upright_end forward at beyond side begins ends }
{
    let y = outside(beyond, side, ends);
    let x = ahead(!forward, at, 480);
    MarkEnd {
        start: place_at(at, outside(beyond, side, begins)),
        tip: place_at(at, y),
        tail: place_at(ahead(!forward, at, 660), y),
        letter: place_at(x, base_at(!beyond, y)),
        beside: place_at(x, base_at(beyond, y)),
    }
}

/// The base line of a letter beside the tail of an arrow that goes down, or up, to this height.
fn base_beside(forward: bool, at: i64) -> i64
    requires { unsigned_abs at < 2 ^ 61 }
    ensures { result ≡ base_beside forward at }
{
    if forward { at - 300 } else { at + 660 }
}

/// The end of a mark whose trace runs level at this y, to the left or to the right of the box.
fn level_end(forward: bool, at: i64, beyond: bool, side: i64, begins: i64, ends: i64) -> MarkEnd
    requires at { unsigned_abs at < 2 ^ 61 }
    requires side { unsigned_abs side < 2 ^ 61 }
    requires begins { unsigned_abs begins ≤ 3000 }
    requires ends { unsigned_abs ends ≤ 3000 }
    ensures { result ≡ level_end forward at beyond side begins ends }
{
    let x = outside(beyond, side, ends);
    let base = base_beside(forward, at);
    MarkEnd {
        start: place_at(outside(beyond, side, begins), at),
        tip: place_at(x, at),
        tail: place_at(x, ahead(!forward, at, 660)),
        letter: place_at(ahead(!beyond, x, 290), base),
        beside: place_at(ahead(beyond, x, 290), base),
    }
}

/// The end of a mark whose trace is at this place, so far outside this side of the box.
fn end_on(
    upright: bool,
    forward: bool,
    at: i64,
    beyond: bool,
    side: i64,
    begins: i64,
    ends: i64,
) -> MarkEnd
    requires at { unsigned_abs at < 2 ^ 61 }
    requires side { unsigned_abs side < 2 ^ 61 }
    requires begins { unsigned_abs begins ≤ 3000 }
    requires ends { unsigned_abs ends ≤ 3000 }
    ensures { result ≡ end_on upright forward at beyond side begins ends }
{
    if upright {
        upright_end(forward, at, beyond, side, begins, ends)
    } else {
        level_end(forward, at, beyond, side, begins, ends)
    }
}

/// How far outside the view's box the strong ends of a mark begin.
fn begin_of(lane: Lane) -> i64
    ensures value { result ≡ begin_of lane }
    ensures size { unsigned_abs result ≤ 3000 }
{
    match lane {
        Lane::Inner => 100,
        Lane::Middle => 720,
        Lane::Outer => 1340,
    }
}

/// How far outside it they end, and its arrows are.
fn out_of(lane: Lane) -> i64
    ensures value { result ≡ out_of lane }
    ensures size { unsigned_abs result ≤ 3000 }
{
    match lane {
        Lane::Inner => 900,
        Lane::Middle => 1520,
        Lane::Outer => 2140,
    }
}

/// The side of the box where a trace begins: above, or on the left.
fn near_side(upright: bool, b: &ViewBox) -> i64
    ensures value { result ≡ near_side upright b.now }
    ensures size { unsigned_abs result < 2 ^ 61 }
{
    if upright { b.top } else { b.left }
}

/// And where it ends.
fn far_side(upright: bool, b: &ViewBox) -> i64
    ensures value { result ≡ far_side upright b.now }
    ensures size { unsigned_abs result < 2 ^ 61 }
{
    if upright { b.bottom } else { b.right }
}

/// The end of a trace's mark before the side of the box where the trace begins, or beyond that where it ends.
fn end_of(entry: &Laned, beyond: bool, side: i64) -> MarkEnd
    requires { unsigned_abs side < 2 ^ 61 }
    ensures { result ≡ end_of entry.now beyond side }
{
    let trace = &entry.trace;
    end_on(
        is_upright(trace.way),
        is_forward(trace.way),
        trace.at,
        beyond,
        side,
        begin_of(entry.lane),
        out_of(entry.lane),
    )
}

/// The mark of a trace in the view with this box.
fn mark_of(b: &ViewBox, entry: &Laned) -> CutMark
    ensures { result ≡ mark_of b.now entry.now }
{
    let upright = is_upright(entry.trace.way);
    CutMark {
        letter: entry.trace.letter,
        beside: entry.beside,
        first: end_of(entry, false, near_side(upright, b)),
        second: end_of(entry, true, far_side(upright, b)),
    }
}

/// The marks of traces in the view with this box.
pub(crate) fn marks_in(
    alloc: Global,
    b: &ViewBox,
    laned: &[Laned],
) -> Result<Vec<CutMark>, OutOfMemory>
    ensures { IfOk result (λ marks. marks.items ≡ marks_in b.now laned.now) }
{
    let mut marks = Vec::new(alloc);
    for entry in laned {
        marks.push(mark_of(b, entry))?;
    }
    Ok(marks)
}

/// The heading over the view of a cut with this box, in a room so wide.
pub(crate) fn heading_over(
    b: &ViewBox,
    room: u32,
    letter: u8,
    cut: &Cut,
    has_section: bool,
) -> Heading
    ensures { result ≡ heading_over b.now room letter (plane_of cut.now) has_section }
{
    Heading {
        letter,
        axis: cut.axis(),
        at: cut.at(),
        x: (b.left + b.right).div_euclid(2),
        y: b.top - 200,
        room,
        has_section,
    }
}
