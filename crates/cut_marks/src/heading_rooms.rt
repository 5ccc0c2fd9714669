// How wide a heading may be.
ghost use Rattle.std.specs.Prelude.{◌≡◌, ◌<◌, ◌≤◌, ◌^◌};
ghost use Rattle.sheet_layout.specs.Seats.{level_side, side_or_least};
ghost use Rattle.cut_marks.specs.HeadingRooms.{narrow_side, room_over, box_width};

use sheet_layout::Sides;
use sheet_plan::ViewBox;

/// The least side of a view.
const LEAST_SIDE: u64 = 750;

/// What a view has on a side, if it asks for so much there.
pub(crate) fn side_or_least(shrunk: bool, asked: u32) -> u64
    ensures value { result ≡ side_or_least shrunk asked }
    ensures size { result < 2 ^ 32 }
{
    if shrunk {
        return LEAST_SIDE;
    }
    LEAST_SIDE.max(u64::from(asked))
}

/// What a view whose box is so wide has to its left, or to its right, if it asks for so much there, and in all for the width `whole`.
pub(crate) fn level_side(shrunk: bool, asked: u32, whole: u32, width: u64) -> u64
    ensures value { result ≡ level_side shrunk asked whole width }
    ensures least { 750 ≤ result }
    ensures size { result < 2 ^ 32 }
{
    if shrunk {
        return LEAST_SIDE;
    }
    let lacking = u64::from(whole).saturating_sub(width);
    LEAST_SIDE.max(u64::from(asked).max((lacking + 1) / 2))
}

/// The narrower of both.
fn narrow_side(shrunk: bool, sides: &Sides, width: u64) -> u64
    ensures value { result ≡ narrow_side shrunk sides.now width }
    ensures least { 750 ≤ result }
    ensures size { result < 2 ^ 32 }
{
    let left = level_side(shrunk, sides.left, sides.width, width);
    left.min(level_side(shrunk, sides.right, sides.width, width))
}

/// How wide a box is.
pub(crate) fn box_width(b: &ViewBox) -> u64
    ensures value { result ≡ box_width b.now }
    ensures size { result < 2 ^ 62 }
{
    (b.right - b.left).unsigned_abs()
}

/// The room of the heading over a cut view with this box, whose sides are shrunk or not: as wide as the box and the narrower of its sides
/// to the left and to the right on both sides of it, less 5 mm, but no wider than the widest sheet.
pub(crate) fn room_over(shrunk: bool, sides: &Sides, b: &ViewBox) -> u32
    ensures { result ≡ room_over shrunk sides.now b.now }
{
    let width = box_width(b);
    (width + 2 * narrow_side(shrunk, sides, width) - 500).min(118_900) as u32
}
