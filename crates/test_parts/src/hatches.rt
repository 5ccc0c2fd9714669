// Hatch lines of cuts of a tube, of a stepped prism and of a leaning one. The expected ends are those of an independent
// program in exact fractions.
use crate::shares::share;
use cut_plane::Section;
use hatch_fill::hatch;
use lattice::{Axis, Dir, HatchLine, Spot, across, upward};
use std::alloc::Global;
use std::test::Fail;
use test_fixtures::{LEAN, LEAN_CORNERS, STEP, STEP_CORNERS, TUBE, TUBE_CORNERS, section, solid};

// The spot is seen at this place.
fn is_at(d: &Dir, p: &Spot, u: i32, v: i32) -> bool {
    across(d, p) == share(u, 1) && upward(d, p) == share(v, 1)
}

// The line goes from the place of the first two numbers to that of the others.
fn goes(d: &Dir, x: &HatchLine, ends: &[i32; 4]) -> bool {
    is_at(d, &x.a, ends[0], ends[1]) && is_at(d, &x.b, ends[2], ends[3])
}

// The lines are these, in this order.
fn are(d: &Dir, lines: &[HatchLine], expected: &[[i32; 4]]) -> bool {
    lines.len() == expected.len()
        && lines
            .iter()
            .zip(expected.iter())
            .all(|(x, ends)| goes(d, x, ends))
}

// The hatch lines of a section are these.
fn is_hatched(
    alloc: Global,
    section: Option<Section>,
    spacing: u32,
    expected: &[[i32; 4]],
) -> Result<bool, Fail> {
    let section = section.ok_or("no section")?;
    if spacing == 0 {
        return Ok(false);
    }
    let lines = hatch(alloc, &section, spacing)?;
    Ok(are(&section.cut.dir(), &lines, expected))
}

// Across the tube, with lines 3 mm apart.
const ACROSS: [[i32; 4]; 26] = [
    [0, 27000, 3000, 30000],
    [0, 24000, 6000, 30000],
    [0, 21000, 9000, 30000],
    [0, 18000, 12000, 30000],
    [0, 15000, 15000, 30000],
    [0, 12000, 18000, 30000],
    [0, 9000, 10000, 19000],
    [11000, 20000, 21000, 30000],
    [0, 6000, 10000, 16000],
    [14000, 20000, 24000, 30000],
    [0, 3000, 10000, 13000],
    [17000, 20000, 27000, 30000],
    [0, 0, 10000, 10000],
    [20000, 20000, 30000, 30000],
    [3000, 0, 13000, 10000],
    [20000, 17000, 30000, 27000],
    [6000, 0, 16000, 10000],
    [20000, 14000, 30000, 24000],
    [9000, 0, 19000, 10000],
    [20000, 11000, 30000, 21000],
    [12000, 0, 30000, 18000],
    [15000, 0, 30000, 15000],
    [18000, 0, 30000, 12000],
    [21000, 0, 30000, 9000],
    [24000, 0, 30000, 6000],
    [27000, 0, 30000, 3000],
];

// Along the tube.
const ALONG: [[i32; 4]; 19] = [
    [0, 18000, 2000, 20000],
    [0, 15000, 5000, 20000],
    [0, 12000, 8000, 20000],
    [0, 9000, 10000, 19000],
    [0, 6000, 10000, 16000],
    [0, 3000, 10000, 13000],
    [0, 0, 10000, 10000],
    [3000, 0, 10000, 7000],
    [20000, 17000, 23000, 20000],
    [6000, 0, 10000, 4000],
    [20000, 14000, 26000, 20000],
    [9000, 0, 10000, 1000],
    [20000, 11000, 29000, 20000],
    [20000, 8000, 30000, 18000],
    [20000, 5000, 30000, 15000],
    [20000, 2000, 30000, 12000],
    [21000, 0, 30000, 9000],
    [24000, 0, 30000, 6000],
    [27000, 0, 30000, 3000],
];

// Across the tube, through corners of its bore.
const CORNERS: [[i32; 4]; 6] = [
    [0, 20000, 10000, 30000],
    [0, 10000, 20000, 30000],
    [0, 0, 10000, 10000],
    [20000, 20000, 30000, 30000],
    [10000, 0, 30000, 20000],
    [20000, 0, 30000, 10000],
];

#[test]
fn a_tube(rt: HostRuntime) -> Result<(), Fail> {
    let alloc = rt.alloc();
    let tube = solid(alloc, &TUBE_CORNERS, &TUBE).ok_or("no tube")?;
    for (axis, at, from_high, spacing, expected) in [
        (Axis::Z, 10_000, true, 3_000, ACROSS.as_slice()),
        (Axis::Y, 15_000, false, 3_000, &ALONG),
        (Axis::Y, -1_000, false, 3_000, &[]),
        (Axis::Z, 10_000, true, 10_000, &CORNERS),
    ] {
        let section = section(alloc, &tube, axis, at, from_high);
        assert!(rt; is_hatched(alloc, section, spacing, expected)?, "{at}");
    }
    Ok(())
}

// The line through the corner of the quarter that is missing only touches it.
const STEPPED: [[i32; 4]; 6] = [
    [0, 15, 5, 20],
    [0, 10, 10, 20],
    [0, 5, 15, 20],
    [0, 0, 20, 20],
    [5, 0, 10, 5],
    [15, 10, 20, 15],
];

#[test]
fn lines_that_touch_or_run_along_a_border(rt: HostRuntime) -> Result<(), Fail> {
    let alloc = rt.alloc();
    for (corners, triangles, expected) in [
        (STEP_CORNERS.as_slice(), STEP.as_slice(), STEPPED.as_slice()),
        (&LEAN_CORNERS, &LEAN, &[[5, 0, 15, 10]]),
    ] {
        let part = solid(alloc, corners, triangles).ok_or("no part")?;
        let section = section(alloc, &part, Axis::Z, 10, true);
        assert!(rt; is_hatched(alloc, section, 5, expected)?);
    }
    Ok(())
}
