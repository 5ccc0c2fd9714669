// Two level lines, worked out by hand.
use crate::{Nearness, add_sides, nearness_of};
use exact_frac::OutOfMemory;
use job_file::Scale;
use sheet_plan::Mark;
use std::alloc::Global;
use std::test::Fail;
use stroke_paths::{Path, Point};

/// A path from one point to another.
fn line(alloc: Global, mark: Mark, from: Point, to: Point) -> Result<Path, OutOfMemory> {
    let mut points = Vec::new(alloc);
    points.push(from)?;
    points.push(to)?;
    Ok(Path {
        view: 0,
        mark,
        closed: false,
        points,
    })
}

/// What is said at 1:1 of a visible line and another, from 10 mm on to the same place on the right.
fn said_of(alloc: Global, mark: Mark, right: i64, low: i64) -> Result<Nearness, OutOfMemory> {
    let from = Point { x: 1000, y: 1000 };
    let first = line(alloc, Mark::Solid, from, Point { x: right, y: 1000 })?;
    let from = Point { x: 1000, y: low };
    let second = line(alloc, mark, from, Point { x: right, y: low })?;
    let mut sides = Vec::new(alloc);
    add_sides(&mut sides, 0, 0, &first)?;
    add_sides(&mut sides, 0, 1, &second)?;
    nearness_of(alloc, &Scale { num: 1, den: 1 }, &sides)
}

// 0.3 mm are 0.6 mm at 2:1. The two are 20 mm long each, or 4 mm, or one of them is hidden.
#[test]
fn tells_the_least_scale(rt: HostRuntime) -> Result<(), Fail> {
    let twice = Nearness::ApartAt(Scale { num: 2, den: 1 });
    assert_eq!(rt; said_of(rt.alloc(), Mark::Solid, 3000, 1030)?, twice);
    assert_eq!(rt;
        said_of(rt.alloc(), Mark::Solid, 1400, 1030)?,
        Nearness::Apart
    );
    assert_eq!(rt;
        said_of(rt.alloc(), Mark::Dashed, 3000, 1030)?,
        Nearness::Apart
    );
    assert_eq!(rt;
        said_of(rt.alloc(), Mark::Solid, 3000, 1051)?,
        Nearness::Apart
    );
    Ok(())
}

// 0.01 mm are too little at 20:1, where 60 mm have no room.
#[test]
fn tells_that_none_does(rt: HostRuntime) -> Result<(), Fail> {
    assert_eq!(rt;
        said_of(rt.alloc(), Mark::Solid, 7000, 1001)?,
        Nearness::Close
    );
    Ok(())
}
