// Counts of edges and runs of cubes, a wedge and prisms. The expected values are those of another program, by the definitions.
ghost use Rattle.std.specs.Prelude.{◌<◌, ◌≤◌};

use edge_pick::{Crease, Picked, pick};
use lattice::Dir;
use std::alloc::{AllocError, Global};
use std::process::Abort;
use test_fixtures::{CORNERS, CUBE_AND_WEDGE, CUBES, solid};

// 48 points of a circle of 30,000 units, counterclockwise.
const CIRCLE: [[i16; 2]; 48] = [
    [30000, 0],
    [29743, 3916],
    [28978, 7765],
    [27716, 11481],
    [25981, 15000],
    [23801, 18263],
    [21213, 21213],
    [18263, 23801],
    [15000, 25981],
    [11481, 27716],
    [7765, 28978],
    [3916, 29743],
    [0, 30000],
    [-3916, 29743],
    [-7765, 28978],
    [-11481, 27716],
    [-15000, 25981],
    [-18263, 23801],
    [-21213, 21213],
    [-23801, 18263],
    [-25981, 15000],
    [-27716, 11481],
    [-28978, 7765],
    [-29743, 3916],
    [-30000, 0],
    [-29743, -3916],
    [-28978, -7765],
    [-27716, -11481],
    [-25981, -15000],
    [-23801, -18263],
    [-21213, -21213],
    [-18263, -23801],
    [-15000, -25981],
    [-11481, -27716],
    [-7765, -28978],
    [-3916, -29743],
    [0, -30000],
    [3916, -29743],
    [7765, -28978],
    [11481, -27716],
    [15000, -25981],
    [18263, -23801],
    [21213, -21213],
    [23801, -18263],
    [25981, -15000],
    [27716, -11481],
    [28978, -7765],
    [29743, -3916],
];

const FRONT: [i64; 3] = [0, -1, 0];

const OBLIQUE: [i64; 3] = [1, -1, 1];

// The corners of a prism along z, over each `step`th of the 48 points.
fn prism_corners(alloc: Global, step: usize) -> Result<Vec<[i16; 3]>, AllocError>
    requires { 0 < step }
{
    let mut corners = Vec::new(alloc);
    for z in [0, 20000] {
        for (i, place) in CIRCLE.iter().enumerate() {
            if i % step == 0 {
                corners.push([place[0], place[1], z])?;
            }
        }
    }
    Ok(corners)
}

fn prism_triangles(alloc: Global, sides: u32) -> Result<Vec<[u32; 3]>, AllocError>
    requires at_least { 3 ≤ sides }
    requires at_most { sides ≤ 48 }
{
    let mut triangles = Vec::new(alloc);
    for i in 0..sides {
        let j = (i + 1) % sides;
        triangles.push([i, j, sides + j])?;
        triangles.push([i, sides + j, sides + i])?;
    }
    for i in 1..sides - 1 {
        triangles.push([0, i + 1, i])?;
        triangles.push([sides, sides + i, sides + i + 1])?;
    }
    Ok(triangles)
}

fn picked(
    alloc: Global,
    corners: &[[i16; 3]],
    triangles: &[[u32; 3]],
    d: [i64; 3],
    crease: Crease,
) -> Option<Picked> {
    let solid = solid(alloc, corners, triangles)?;
    let d = Dir::new(d[0], d[1], d[2]).ok()?;
    pick(alloc, &solid, &d, crease).ok()
}

// The numbers of drawn edges and of outlines, and the last run.
fn counts(p: &Picked) -> (usize, usize, Option<u32>) {
    (
        p.drawn.len(),
        p.outlines.len(),
        p.runs.iter().copied().max(),
    )
}

type Counts = (usize, usize, Option<u32>);

// The counts from the front, and from above a corner.
fn check_cubes(rt: &impl Abort, alloc: Global, triangles: &[[u32; 3]], expected: [Counts; 2]) {
    let front = picked(alloc, &CORNERS, triangles, FRONT, Crease::Normal);
    let oblique = picked(alloc, &CORNERS, triangles, OBLIQUE, Crease::Normal);
    match (front, oblique) {
        (Some(p), Some(q)) => assert_eq!(rt; [counts(&p), counts(&q)], expected),
        _ => panic!(rt; "no solid"),
    }
}

#[test]
fn picks_of_cubes(rt: HostRuntime) {
    check_cubes(
        &rt,
        rt.alloc(),
        &CUBES[..12],
        [(8, 8, Some(1)), (12, 6, Some(0))],
    );
    check_cubes(
        &rt,
        rt.alloc(),
        &CUBES,
        [(16, 16, Some(3)), (24, 12, Some(1))],
    );
    check_cubes(
        &rt,
        rt.alloc(),
        &CUBE_AND_WEDGE,
        [(14, 14, Some(3)), (21, 13, Some(1))],
    );
}

#[test]
fn picks_of_the_front(rt: HostRuntime) {
    let Some(p) = picked(rt.alloc(), &CORNERS, &CUBES[..12], FRONT, Crease::Coarse) else {
        panic!(rt; "no solid");
    };
    let edges = [1, 4, 5, 8, 10, 12, 13, 15].as_slice();
    assert!(rt; *p.drawn.as_slice() == *edges && *p.outlines.as_slice() == *edges);
    assert!(rt; *p.runs.as_slice() == *[0, 1, 1, 0, 1, 1, 0, 0].as_slice());
}

// The sides, each so many of the 48 points, the direction, and the numbers of drawn edges with each of the three creases, and of
// outlines.
type Prism = (u32, usize, [i64; 3], [usize; 3], usize);

const PRISMS: [Prism; 6] = [
    (12, 4, FRONT, [36, 36, 34], 26),
    (12, 4, OBLIQUE, [36, 36, 32], 18),
    (24, 2, FRONT, [72, 66, 50], 50),
    (24, 2, OBLIQUE, [72, 66, 50], 26),
    (48, 1, FRONT, [144, 98, 98], 98),
    (48, 1, OBLIQUE, [144, 98, 98], 50),
];

// The counts of a prism over each `step`th of the 48 points.
fn prism_counts(
    alloc: Global,
    sides: u32,
    step: usize,
    d: [i64; 3],
    crease: Crease,
) -> Option<Counts> {
    if step == 0 || sides < 3 || sides > 48 {
        return None;
    }
    let corners = prism_corners(alloc, step).ok()?;
    let triangles = prism_triangles(alloc, sides).ok()?;
    let picked = picked(alloc, &corners, &triangles, d, crease)?;
    Some(counts(&picked))
}

fn check_prism(rt: &impl Abort, alloc: Global, prism: &Prism) {
    let (sides, step, d, drawn, outlines) = *prism;
    for (crease, edges) in [Crease::Fine, Crease::Normal, Crease::Coarse]
        .iter()
        .zip(drawn)
    {
        let found = prism_counts(alloc, sides, step, d, *crease);
        let expected = Some((edges, outlines, Some(0)));
        assert!(rt; found == expected, "{prism:?}: {found:?}");
    }
}

#[test]
fn picks_of_prisms(rt: HostRuntime) {
    for prism in &PRISMS {
        check_prism(&rt, rt.alloc(), prism);
    }
}
