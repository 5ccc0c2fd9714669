// Level lines beside one another, worked out by hand.
use crate::drawn_paths;
use exact_frac::OutOfMemory;
use sheet_plan::Mark;
use std::alloc::Global;
use std::test::Fail;
use stroke_paths::{Path, Point};

/// A level path of a view, from 10 mm on, 20 mm long and so low.
fn line(alloc: Global, view: u32, mark: Mark, low: i64) -> Result<Path, OutOfMemory> {
    let mut points = Vec::new(alloc);
    points.push(Point { x: 1000, y: low })?;
    points.push(Point { x: 3000, y: low })?;
    Ok(Path {
        view,
        mark,
        closed: false,
        points,
    })
}

/// Whether these are drawn: a hidden line so low, a visible one at 10 mm, such a hidden one of another view, and one that isn't shown.
fn drawn_at(alloc: Global, low: i64) -> Result<Vec<bool>, OutOfMemory> {
    let mut paths = Vec::new(alloc);
    paths.push(line(alloc, 0, Mark::Dashed, low)?)?;
    paths.push(line(alloc, 0, Mark::Solid, 1000)?)?;
    paths.push(line(alloc, 1, Mark::Dashed, low)?)?;
    paths.push(line(alloc, 0, Mark::Dashed, 5000)?)?;
    drawn_paths(alloc, &paths, &[true, true, true, false])
}

// 0.1 mm and 0.35 mm are within the ink of the visible line, and 0.36 mm aren't.
#[test]
fn leaves_out_what_is_covered(rt: HostRuntime) -> Result<(), Fail> {
    for low in [1010, 1035] {
        let drawn = drawn_at(rt.alloc(), low)?;
        assert_eq!(rt; drawn.as_slice(), [false, true, true, false].as_slice());
    }
    let drawn = drawn_at(rt.alloc(), 1036)?;
    assert_eq!(rt; drawn.as_slice(), [true, true, true, false].as_slice());
    Ok(())
}
