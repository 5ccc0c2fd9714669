// Strokes joined to paths, and the dashes of paths.
use crate::sheets::stroke;
use exact_frac::OutOfMemory;
use sheet_page::{Pens, dashes_of, pens_of};
use sheet_plan::{Mark, Stroke};
use std::alloc::Global;
use std::test::Fail;
use stroke_paths::{Path, Point, paths};

// A stroke by its view, its mark and its ends.
type Line = (u8, Mark, (i64, i64), (i64, i64));

fn strokes_of(alloc: Global, lines: &[Line]) -> Result<Vec<Stroke>, OutOfMemory> {
    let mut strokes = Vec::new(alloc);
    for line in lines {
        strokes.push(stroke(line.0, line.1, line.2, line.3))?;
    }
    Ok(strokes)
}

// Adds a path, as SVG tells it.
fn add_path(alloc: Global, told: &mut String, path: &Path) -> Result<(), OutOfMemory> {
    let mut letter = 'M';
    for point in &path.points {
        let (x, y) = (point.x, point.y);
        told.push_str(&format!(in alloc; "{letter}{x} {y}")?)?;
        letter = 'L';
    }
    if path.closed {
        told.push('Z')?;
    }
    Ok(())
}

// The paths of strokes, as SVG tells them.
fn told(alloc: Global, lines: &[Line]) -> Result<String, OutOfMemory> {
    let strokes = strokes_of(alloc, lines)?;
    let paths = paths(alloc, &strokes)?;
    let mut told = String::new(alloc);
    for path in &paths {
        add_path(alloc, &mut told, path)?;
    }
    Ok(told)
}

const SEEN: Mark = Mark::Solid;

const HIDDEN: Mark = Mark::Dashed;

const HATCH: Mark = Mark::Hatch;

const JOINED: [(&str, &[Line], &str); 13] = [
    (
        "a box",
        &[
            (0, HIDDEN, (0, 0), (100, 0)),
            (0, HIDDEN, (100, 0), (100, 50)),
            (0, HIDDEN, (100, 50), (0, 50)),
            (0, HIDDEN, (0, 50), (0, 0)),
        ],
        "M0 0L100 0M100 0L100 50M100 50L0 50M0 50L0 0",
    ),
    (
        "a T",
        &[
            (0, HIDDEN, (0, 0), (100, 0)),
            (0, HIDDEN, (100, 0), (200, 0)),
            (0, HIDDEN, (100, 0), (100, 100)),
        ],
        "M0 0L100 0L200 0M100 0L100 100",
    ),
    (
        "two turns by 45 degrees, to the left and to the right",
        &[
            (0, HIDDEN, (0, 0), (100, 0)),
            (0, HIDDEN, (100, 0), (200, 100)),
            (0, HIDDEN, (200, -100), (100, 0)),
        ],
        "M0 0L100 0M100 0L200 100M200 -100L100 0",
    ),
    (
        "a cross",
        &[
            (0, HIDDEN, (0, 0), (100, 0)),
            (0, HIDDEN, (100, 0), (200, 0)),
            (0, HIDDEN, (100, -100), (100, 0)),
            (0, HIDDEN, (100, 0), (100, 100)),
        ],
        "M0 0L100 0M100 0L200 0M100 -100L100 0M100 0L100 100",
    ),
    (
        "a short stroke that turns more, and a long one that turns less",
        &[
            (0, HIDDEN, (0, 0), (100, 0)),
            (0, HIDDEN, (100, 0), (110, 1)),
            (0, HIDDEN, (100, 0), (1100, -50)),
        ],
        "M0 0L100 0L1100 -50M100 0L110 1",
    ),
    (
        "a T of two marks",
        &[
            (0, HIDDEN, (0, 0), (100, 0)),
            (0, SEEN, (100, 0), (100, 100)),
            (0, HIDDEN, (100, 0), (200, 0)),
        ],
        "M0 0L100 0L200 0M100 0L100 100",
    ),
    (
        "strokes that are one point",
        &[
            (0, HIDDEN, (100, 0), (100, 0)),
            (0, HIDDEN, (200, 0), (100, 0)),
            (0, HIDDEN, (0, 0), (100, 0)),
            (0, HIDDEN, (300, 0), (300, 0)),
        ],
        "M200 0L100 0L0 0",
    ),
    (
        "two views",
        &[
            (0, HIDDEN, (0, 0), (100, 0)),
            (1, HIDDEN, (100, 0), (200, 0)),
        ],
        "M0 0L100 0M100 0L200 0",
    ),
    (
        "two marks",
        &[(0, HIDDEN, (0, 0), (100, 0)), (0, SEEN, (100, 0), (200, 0))],
        "M0 0L100 0M100 0L200 0",
    ),
    (
        "a hatching",
        &[(0, HATCH, (0, 0), (100, 0)), (0, HATCH, (100, 0), (200, 0))],
        "M0 0L100 0M100 0L200 0",
    ),
    (
        "turns by 45 degrees, and by more",
        &[
            (0, SEEN, (200, 100), (300, 199)),
            (0, SEEN, (0, 0), (100, 0)),
            (0, SEEN, (100, 0), (200, 100)),
            (0, SEEN, (300, 199), (300, 300)),
        ],
        "M0 0L100 0L200 100L300 199M300 199L300 300",
    ),
    (
        "an octagon of strokes that are turned",
        &[
            (0, HIDDEN, (100, 0), (0, 0)),
            (0, HIDDEN, (100, 0), (150, 50)),
            (0, HIDDEN, (150, 150), (150, 50)),
            (0, HIDDEN, (150, 150), (100, 200)),
            (0, HIDDEN, (0, 200), (100, 200)),
            (0, HIDDEN, (0, 200), (-50, 150)),
            (0, HIDDEN, (-50, 50), (-50, 150)),
            (0, HIDDEN, (-50, 50), (0, 0)),
        ],
        "M100 0L0 0L-50 50L-50 150L0 200L100 200L150 150L150 50Z",
    ),
    (
        "an octagon, and a stroke that ends at a corner",
        &[
            (0, HIDDEN, (100, 0), (0, 0)),
            (0, HIDDEN, (100, 0), (150, 50)),
            (0, HIDDEN, (150, 150), (150, 50)),
            (0, HIDDEN, (50, 40), (150, 50)),
            (0, HIDDEN, (150, 150), (100, 200)),
            (0, HIDDEN, (0, 200), (100, 200)),
            (0, HIDDEN, (0, 200), (-50, 150)),
            (0, HIDDEN, (-50, 50), (-50, 150)),
            (0, HIDDEN, (-50, 50), (0, 0)),
        ],
        "M100 0L0 0L-50 50L-50 150L0 200L100 200L150 150L150 50ZM50 40L150 50",
    ),
];

#[test]
fn strokes_joined_to_paths(rt: HostRuntime) {
    for (what, lines, expected) in &JOINED {
        match told(rt.alloc(), lines) {
            Ok(found) => assert!(rt; found.as_str() == *expected, "{what}: {found}"),
            Err(_) => panic!(rt; "no memory"),
        }
    }
}

// How far along a circle of 64 parts and the radius 100000 a part begins, from one side to the other.
const ACROSS: [u32; 33] = [
    200_000, 199_518, 198_079, 195_694, 192_388, 188_192, 183_147, 177_301, 170_711, 163_439,
    155_557, 147_140, 138_268, 129_028, 119_509, 109_802, 100_000, 90_198, 80_491, 70_972, 61_732,
    52_860, 44_443, 36_561, 29_289, 22_699, 16_853, 11_808, 7_612, 4_306, 1_921, 482, 0,
];

// How far across a circle a part of it begins, as a whole number.
fn across(radius: u16, part: u8) -> i64 {
    let part = usize::from(part) % 64;
    let place = if part <= 32 { part } else { 64 - part };
    let length = u64::from(radius) * u64::from(ACROSS[place]);
    ((length + 50_000) / 100_000) as i64
}

// Where a part of a circle begins.
fn on_circle(radius: u16, part: u8) -> (i64, i64) {
    (across(radius, part), across(radius, part % 64 + 48))
}

// A hidden circle of 64 strokes.
fn circle(alloc: Global, radius: u16) -> Result<Vec<Stroke>, OutOfMemory> {
    let mut strokes = Vec::new(alloc);
    for part in 0..64 {
        let (from, to) = (on_circle(radius, part), on_circle(radius, part + 1));
        strokes.push(stroke(0, Mark::Dashed, from, to))?;
    }
    Ok(strokes)
}

// Whether strokes are joined to one closed path, and its points.
fn closed_points(alloc: Global, strokes: &[Stroke]) -> Result<Option<usize>, OutOfMemory> {
    let paths = paths(alloc, strokes)?;
    match paths.as_slice() {
        [path] if path.closed => Ok(Some(path.points.len())),
        _ => Ok(None),
    }
}

#[test]
fn circles_are_one_closed_path(rt: HostRuntime) -> Result<(), Fail> {
    for (radius, points) in [(10, 56), (100, 64), (1000, 64), (5000, 64)] {
        let found = closed_points(rt.alloc(), &circle(rt.alloc(), radius)?)?;
        assert!(rt; found == Some(points), "{radius}: {found:?}");
    }
    Ok(())
}

// A hidden path through points.
fn through(alloc: Global, closed: bool, places: &[(i64, i64)]) -> Result<Path, OutOfMemory> {
    let mut points = Vec::new(alloc);
    for place in places {
        points.push(Point {
            x: place.0,
            y: place.1,
        })?;
    }
    Ok(Path {
        view: 0,
        mark: Mark::Dashed,
        closed,
        points,
    })
}

// Whether a path is closed, its points, and the length of a dash and of a gap.
type Dashed = (bool, &'static [(i64, i64)], Option<(u64, u64)>);

// From 1.5 mm on a path has dashes, at least two, and gaps of at least 0.5 mm. Dashes of 3 mm and gaps of 0.75 mm take 3.75 mm: an open
// path has two up to 2.5 * 3.75 - 0.75 = 8.625 mm, and a closed one up to 2.5 * 3.75 = 9.375 mm. Of n dashes a gap is a fourth of a dash:
// of 8.63 mm a 14th, and a dash is a third of 8.63 mm less two gaps.
const DASHED: [Dashed; 13] = [
    (false, &[(0, 0), (149, 0)], None),
    (false, &[(0, 0), (150, 0)], Some((500_000, 500_000))),
    (false, &[(0, 0), (862, 0)], Some((3_831_111, 957_777))),
    (false, &[(0, 0), (863, 0)], Some((2_465_714, 616_428))),
    (
        false,
        &[(863, 0), (463, 0), (0, 0)],
        Some((2_465_714, 616_428)),
    ),
    (false, &[(0, 0), (300, 400)], Some((2_222_222, 555_555))),
    (false, &[(0, 0), (110, 110)], Some((527_817, 500_000))),
    (false, &[(0, 0), (10_000, 0)], Some((2_985_075, 746_268))),
    (true, &[(0, 0), (37, 0), (37, 37), (0, 37)], None),
    (
        true,
        &[(0, 0), (37, 0), (37, 38), (0, 38)],
        Some((250_000, 500_000)),
    ),
    (
        true,
        &[(0, 0), (234, 0), (234, 234), (0, 234)],
        Some((3_744_000, 936_000)),
    ),
    (
        true,
        &[(0, 0), (234, 0), (234, 235), (0, 235)],
        Some((2_501_333, 625_333)),
    ),
    (true, &[], None),
];

// On A4 dashes of 2.16 mm and gaps of 0.54 mm take 2.7 mm: two dashes up to 2.5 * 2.7 - 0.54 = 6.21 mm, and closed up to 6.75 mm. A 14th
// of 6.21 mm is less than 0.5 mm.
const DASHED_ON_A4: [Dashed; 5] = [
    (false, &[(0, 0), (149, 0)], None),
    (false, &[(0, 0), (620, 0)], Some((2_755_556, 688_888))),
    (false, &[(0, 0), (621, 0)], Some((1_736_666, 500_000))),
    (
        true,
        &[(0, 0), (168, 0), (168, 169), (0, 169)],
        Some((2_696_000, 674_000)),
    ),
    (
        true,
        &[(0, 0), (169, 0), (169, 169), (0, 169)],
        Some((1_753_333, 500_000)),
    ),
];

// The dashes of a path.
fn dashes(path: &Path, pens: Pens) -> Option<(u64, u64)> {
    match dashes_of(path, pens) {
        Some(dashes) => Some((dashes.dash, dashes.gap)),
        None => None,
    }
}

// The first row that has other dashes, and these.
fn other_dashes(
    alloc: Global,
    pens: Pens,
    rows: &[Dashed],
) -> Result<Option<(Dashed, Option<(u64, u64)>)>, OutOfMemory> {
    for row in rows {
        let found = dashes(&through(alloc, row.0, row.1)?, pens);
        if found != row.2 {
            return Ok(Some((*row, found)));
        }
    }
    Ok(None)
}

#[test]
fn dashes_that_fit(rt: HostRuntime) -> Result<(), Fail> {
    let other = other_dashes(rt.alloc(), Pens::Usual, &DASHED)?;
    assert!(rt; other.is_none(), "{other:?}");
    let other = other_dashes(rt.alloc(), Pens::Small, &DASHED_ON_A4)?;
    assert!(rt; other.is_none(), "{other:?}");
    Ok(())
}

// Pages in hundredths of a millimetre: A4 upright and lying, a little wider, a little longer, and A3.
const PENS: [(i64, i64, Pens); 7] = [
    (21_000, 29_700, Pens::Small),
    (29_700, 21_000, Pens::Small),
    (21_100, 29_700, Pens::Usual),
    (29_700, 21_100, Pens::Usual),
    (10_000, 29_800, Pens::Usual),
    (29_800, 10_000, Pens::Usual),
    (42_000, 29_700, Pens::Usual),
];

#[test]
fn pens_of_pages(rt: HostRuntime) {
    for (width, height, expected) in &PENS {
        let found = pens_of(*width, *height);
        assert!(rt; found == *expected, "{width} {height}: {found:?}");
    }
}
