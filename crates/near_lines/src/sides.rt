// The sides of visible paths.
ghost use Rattle.std.specs.Prelude.{◌≡◌, ◌≤◌, ◌++◌, All, OnOk};
ghost use Rattle.near_lines.specs.Sides.{IsSmall, along, is_visible, on_sheet, side_between, sides_in, through};

use exact_frac::OutOfMemory;
use sheet_plan::Mark;
use stroke_paths::{Path, Point};

/// A side of a path: the path's number, and the side's ends on the sheet, in hundredths of a millimetre from the upper left corner.
#[derive(Clone, Copy, PartialEq, Eq, Debug)]
pub struct Side {
    pub path: usize,
    pub x1: u32,
    pub y1: u32,
    pub x2: u32,
    pub y2: u32,
}

/// A place on the largest sheet. One beyond it counts as at its edge.
fn on_sheet(z: i64) -> u32
    ensures value { result ≡ on_sheet z }
    ensures small { result ≤ 118900 }
{
    if z < 0 {
        return 0;
    }
    z.unsigned_abs().min(118_900) as u32
}

/// The side from one point to another.
fn side_between(path: usize, p: &Point, q: &Point) -> Side
    ensures value { result ≡ side_between path p.now q.now }
    ensures small { IsSmall result }
{
    Side {
        path,
        x1: on_sheet(p.x),
        y1: on_sheet(p.y),
        x2: on_sheet(q.x),
        y2: on_sheet(q.y),
    }
}

/// Adds the sides from a point through others.
fn add_through(
    sides: &mut Vec<Side>,
    path: usize,
    from: &Point,
    points: &[Point],
) -> Result<(), OutOfMemory>
    ensures { OnOk result (sides.new.items ≡ sides.old.items ++ through path from.now points.now) }
{
    let mut from = *from;
    for to in points {
        sides.push(side_between(path, &from, to))?;
        from = *to;
    }
    Ok(())
}

/// Adds the sides of a path.
fn add_along(sides: &mut Vec<Side>, number: usize, path: &Path) -> Result<(), OutOfMemory>
    ensures { OnOk result (sides.new.items ≡ sides.old.items ++ along number path.now.closed path.now.points.items) }
{
    let points = path.points.as_slice();
    let (Some(first), Some(last)) = (points.first(), points.last()) else {
        return Ok(());
    };
    if path.closed {
        add_through(sides, number, last, points)
    } else {
        add_through(sides, number, first, &points[1..])
    }
}

/// A visible line's mark.
fn is_visible(mark: Mark) -> bool
    ensures { result ≡ is_visible mark }
{
    match mark {
        Mark::Solid => true,
        Mark::Dashed => false,
        Mark::Chain => false,
        Mark::Hatch => false,
    }
}

/// Adds the sides of a path, under this number, if it is a visible path of this view. Paths that aren't the same need different
/// numbers.
pub fn add_sides(
    sides: &mut Vec<Side>,
    view: u32,
    number: usize,
    path: &Path,
) -> Result<(), OutOfMemory>
    requires small { All IsSmall sides.old.items }
    ensures value { OnOk result (sides.new.items ≡ sides.old.items ++ sides_in view number path.now) }
    ensures small { OnOk result (All IsSmall sides.new.items) }
{
    if path.view == view && is_visible(path.mark) {
        return add_along(sides, number, path);
    }
    Ok(())
}
