// Cuts of a tube, of a cube with a cavity, and one that takes nothing away; and where edges beneath a section cross its border.
use crate::shares::share;
use cross_find::Meter;
use cut_count::border_cover;
use cut_plane::{Section, borders, crossings, inside};
use exact_frac::{Frac, OutOfMemory};
use lattice::{Axis, Corner, Cut, Dir, Spot, across, upward};
use solid_mesh::Solid;
use std::alloc::Global;
use std::process::Abort;
use test_fixtures::{
    BENEATH, BENEATH_CORNERS, SHELL_CORNERS, SHELLS, TUBE, TUBE_CORNERS, section, solid,
};

fn tube(alloc: Global, axis: Axis, at: i64, from_high: bool) -> Option<Section> {
    let tube = solid(alloc, &TUBE_CORNERS, &TUBE)?;
    section(alloc, &tube, axis, at, from_high)
}

fn shells(alloc: Global) -> Option<Section> {
    let shells = solid(alloc, &SHELL_CORNERS, &SHELLS)?;
    section(alloc, &shells, Axis::Z, 15_000, true)
}

// The section has segments of these triangles, and its loops begin at these places.
fn is_made_of(section: &Section, triangles: &[u32], loops: &[u32]) -> bool {
    for (segment, tri) in section.segments.iter().zip(triangles) {
        if segment.tri != *tri {
            return false;
        }
    }
    section.segments.len() == triangles.len() && *section.loops.as_slice() == *loops
}

fn check_loops(rt: &impl Abort, section: Option<Section>, triangles: &[u32], loops: &[u32]) {
    let Some(section) = section else {
        panic!(rt; "no section");
    };
    assert!(rt; is_made_of(&section, triangles, loops), "{section:?}");
}

const ACROSS_Y: [u32; 16] = [2, 3, 18, 19, 11, 10, 27, 26, 6, 30, 31, 14, 15, 23, 22, 7];

const ACROSS_X: [u32; 14] = [0, 1, 16, 19, 18, 21, 20, 5, 4, 28, 27, 26, 25, 24];

const OF_SHELLS: [u32; 16] = [4, 7, 6, 9, 8, 11, 10, 5, 16, 19, 18, 21, 20, 23, 22, 17];

#[test]
fn loops_of_cuts(rt: HostRuntime) {
    let alloc = rt.alloc();
    check_loops(&rt, tube(alloc, Axis::Y, 15_000, false), &ACROSS_Y, &[0, 8]);
    check_loops(&rt, tube(alloc, Axis::X, 25_000, false), &ACROSS_X, &[0]);
    check_loops(&rt, shells(alloc), &OF_SHELLS, &[0, 8]);
    // This one takes nothing away.
    check_loops(&rt, tube(alloc, Axis::Y, -1_000, false), &[], &[]);
}

// The spot is seen at so many quarters of a unit.
fn is_at(d: &Dir, p: &Spot, place: [i32; 2]) -> bool {
    across(d, p) == share(place[0], 4) && upward(d, p) == share(place[1], 4)
}

// The number of a segment, and from where to where it goes, in quarters of a unit.
type Numbered = (usize, [i32; 2], [i32; 2]);

const SEGMENTS: [Numbered; 4] = [
    (0, [59_997, 0], [120_000, 0]),
    (3, [120_000, 120_000], [60_003, 120_000]),
    (8, [60_001, 40_000], [40_000, 40_000]),
    (15, [80_000, 40_000], [60_001, 40_000]),
];

fn has_segment(section: &Section, row: &Numbered) -> bool {
    let d = section.cut.dir();
    match section.segments.get(row.0) {
        Some(x) => is_at(&d, &x.a, row.1) && is_at(&d, &x.b, row.2),
        None => false,
    }
}

#[test]
fn ends_of_segments(rt: HostRuntime) {
    let Some(tube) = tube(rt.alloc(), Axis::Z, 10_000, true) else {
        panic!(rt; "no tube");
    };
    assert!(rt; tube.segments.len() == 16);
    for row in &SEGMENTS {
        assert!(rt; has_segment(&tube, row), "{row:?}");
    }
}

// An odd number of segments count for the spot.
fn is_counted_odd(section: &Section, p: &Spot) -> bool {
    let mut odd = false;
    for segment in 0..u32::try_from(section.segments.len()).unwrap_or(0) {
        let mut meter = Meter { tests: 0 };
        odd = odd != border_cover(section, p, segment, &mut meter);
    }
    odd
}

const PLACES: [([i16; 2], bool); 14] = [
    ([5_000, 5_000], true),
    ([15_000, 15_000], false),
    ([25_000, 25_000], true),
    ([31_000, 15_000], false),
    ([-1_000, 15_000], false),
    // at the V of level borders, and on borders
    ([15_000, 0], true),
    ([15_000, 30_000], false),
    ([0, 15_000], true),
    ([30_000, 15_000], false),
    ([10_000, 15_000], false),
    ([20_000, 15_000], true),
    ([5_000, 10_000], true),
    ([15_000, 10_000], false),
    ([15_000, 20_000], true),
];

// Whether a place is in the tube, by the segments that count for it too, and in the shells.
fn are_in(tube: &Section, shells: &Section, place: &[i16; 2]) -> [bool; 3] {
    let p = above(place[0], place[1]);
    [
        inside(tube, &p),
        is_counted_odd(tube, &p),
        inside(shells, &p),
    ]
}

#[test]
fn inside_and_outside(rt: HostRuntime) {
    let alloc = rt.alloc();
    let (Some(tube), Some(shells)) = (tube(alloc, Axis::Z, 10_000, true), shells(alloc)) else {
        panic!(rt; "no section");
    };
    for (place, expected) in &PLACES {
        let found = are_in(&tube, &shells, place);
        assert!(rt; found == [*expected; 3], "{place:?}: {found:?}");
    }
}

fn above(x: i16, y: i16) -> Spot {
    Spot::at(&Corner {
        x: x.into(),
        y: y.into(),
        z: 0,
    })
}

// Where an edge is over or under the border of a section 5 mm above the cube's lowest face, in ascending order.
fn places_on(alloc: Global, solid: &Solid, edge: u32) -> Result<Option<Vec<Frac>>, OutOfMemory> {
    let Ok(cut) = Cut::new(Axis::Z, 5000, true) else {
        return Ok(None);
    };
    let section = borders(alloc, solid, &cut)?;
    if edge >= solid.edges() {
        return Ok(None);
    }
    let mut places = crossings(alloc, solid, &section, edge)?;
    places.sort()?;
    Ok(Some(places))
}

// The places are so many tenths of the edge.
fn are_tenths(places: &[Frac], tenths: &[i32]) -> bool {
    for (place, number) in places.iter().zip(tenths) {
        if *place != share(*number, 10) {
            return false;
        }
    }
    places.len() == tenths.len()
}

const BENEATH_PLACES: [(u32, &[i32]); 6] = [
    // from corner 8 to 9, from 9 to 10, from 10 to 8, from 8 to 11 and from 11 to 9
    (18, &[6]),
    (19, &[4]),
    (20, &[]),
    (21, &[]),
    (22, &[5]),
    // the diagonal of the cube's lowest face, both of whose ends are on the border
    (2, &[0, 0, 10, 10]),
];

#[test]
fn edges_beneath_a_section(rt: HostRuntime) {
    let Some(solid) = solid(rt.alloc(), &BENEATH_CORNERS, &BENEATH) else {
        panic!(rt; "no solid");
    };
    for (edge, expected) in BENEATH_PLACES {
        match places_on(rt.alloc(), &solid, edge) {
            Ok(Some(places)) => assert!(rt; are_tenths(&places, expected), "{edge}: {places:?}"),
            _ => panic!(rt; "no places"),
        }
    }
}
