// The points of a sheet at which strokes end, and the ends there.
ghost use Rattle.std.specs.Prelude.{◌≡◌, ◌↔◌, ◌+◌, ◌<◌, IsTrue, IfOk, OnOk, length};
ghost use Rattle.stroke_paths.specs.Joints.{point_of, IsDot};
ghost use Rattle.stroke_paths.specs.inner.Corners.{AreCorners, IsNoted, place_of};
ghost use Rattle.stroke_paths.specs.inner.Tables.{MayJoin};

use crate::path::{End, Point, Tip};
use exact_frac::OutOfMemory;
use indexmap::IndexMap;
use sheet_plan::{Mark, Stroke};
use std::alloc::Global;

/// A point, for the strokes of one view and one mark, which goes by its pen.
#[derive(Clone, Copy, PartialEq, Eq, Hash)]
pub(crate) struct StrokePlace {
    view: u32,
    mark: u8,
    point: Point,
}

/// The ends at all places where strokes end that may be joined, in the order of the strokes. Each end is hashed once, and once more
/// where it is the first at its place.
pub(crate) fn corners(
    alloc: Global,
    strokes: &[Stroke],
) -> Result<IndexMap<StrokePlace, Vec<End>>, OutOfMemory>
    ensures { IfOk result (λ corners. AreCorners strokes.now (length strokes.now) corners) }
{
    let mut corners = IndexMap::new(alloc);
    for i in 0..strokes.len() {
        note_stroke(alloc, &mut corners, strokes, i)?;
    }
    Ok(corners)
}

/// One more stroke, at the places of both its ends, if it may be joined.
fn note_stroke(
    alloc: Global,
    corners: &mut IndexMap<StrokePlace, Vec<End>>,
    strokes: &[Stroke],
    i: usize,
) -> Result<(), OutOfMemory>
    requires listed { i < length strokes.now }
    requires so_far { AreCorners strokes.now i corners.old }
    ensures { OnOk result (AreCorners strokes.now (i + 1) corners.new) }
{
    let stroke = strokes[i];
    if !may_join(&stroke) {
        return Ok(());
    }
    let first = End {
        stroke: i,
        tip: Tip::First,
    };
    let second = End {
        stroke: i,
        tip: Tip::Second,
    };
    note(alloc, corners, place_of(&stroke, Tip::First), first)?;
    note(alloc, corners, place_of(&stroke, Tip::Second), second)
}

/// One more end at a place.
fn note(
    alloc: Global,
    corners: &mut IndexMap<StrokePlace, Vec<End>>,
    place: StrokePlace,
    end: End,
) -> Result<(), OutOfMemory>
    ensures { OnOk result (IsNoted corners.old corners.new place end) }
{
    if let Some(ends) = corners.get_mut(&place) {
        ends.push(end)?;
        return Ok(());
    }
    corners.insert(place, vec![in alloc; end]?)?;
    Ok(())
}

/// Where an end of a stroke is, and among which strokes.
pub(crate) fn place_of(stroke: &Stroke, tip: Tip) -> StrokePlace
    ensures { result ≡ place_of tip stroke.now }
{
    StrokePlace {
        view: stroke.view,
        mark: stroke.mark.pen(),
        point: point_of(stroke, tip),
    }
}

/// Where the first or the second end of a stroke is.
pub(crate) fn point_of(stroke: &Stroke, tip: Tip) -> Point
    ensures { result ≡ point_of tip stroke.now }
{
    match tip {
        Tip::First => Point {
            x: stroke.x1,
            y: stroke.y1,
        },
        Tip::Second => Point {
            x: stroke.x2,
            y: stroke.y2,
        },
    }
}

/// A stroke that is no dot and no line of a hatching.
pub(crate) fn may_join(stroke: &Stroke) -> bool
    ensures { IsTrue result ↔ MayJoin stroke.now }
{
    if is_dot(stroke) {
        return false;
    }
    match stroke.mark {
        Mark::Hatch => false,
        _ => true,
    }
}

/// Both ends are one point of the sheet.
pub(crate) fn is_dot(stroke: &Stroke) -> bool
    ensures { IsTrue result ↔ IsDot stroke.now }
{
    point_of(stroke, Tip::First) == point_of(stroke, Tip::Second)
}
