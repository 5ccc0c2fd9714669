// The counts next to the ends of edges and their changes along them and around corners, on a cube, two cubes and a cube before a
// wedge, seen from the front or from behind. The expected values are those of another program, which counts the nearer faces at
// points, and tries turns with fine hairs, by the definitions.
ghost use Rattle.std.specs.Prelude.{◌<◌, length};
ghost use Rattle.solid_mesh.specs.Solids.{edge_halves};

use crate::shares::share;
use cross_find::{Crossing, End, Meter, corner_test, cover_test, cross_test};
use exact_frac::Frac;
use lattice::Dir;
use solid_mesh::Solid;
use std::alloc::Global;
use std::process::Abort;
use test_fixtures::{CORNERS, CUBE_AND_WEDGE, CUBES, is_outline, solid};

// How many triangles are counted to the left and to the right next to an end of an edge.
fn covered(solid: &Solid, d: &Dir, end: End) -> (u8, u8)
    requires { end.edge < length (edge_halves solid.now) }
{
    let mut meter = Meter { tests: 0 };
    let (mut left, mut right) = (0u8, 0u8);
    for tri in 0..solid.triangles() {
        meter.tests = 0;
        let (l, r) = cover_test(solid, d, end, tri, &mut meter);
        left = left.saturating_add(l);
        right = right.saturating_add(r);
    }
    (left, right)
}

// What a crossing changes of both counts, where it is at this place.
fn changes_at(crossing: Option<Crossing>, place: Frac) -> (i8, i8) {
    match crossing {
        Some(x) if x.at == place => (x.left, x.right),
        _ => (0, 0),
    }
}

// By how much the counts change along an edge at a place.
fn changed(solid: &Solid, d: &Dir, edge: u32, place: Frac) -> (i8, i8)
    requires { edge < length (edge_halves solid.now) }
{
    let mut meter = Meter { tests: 0 };
    let (mut left, mut right) = (0i8, 0i8);
    for outline in 0..solid.edges() {
        meter.tests = 0;
        if is_outline(solid, d, outline) {
            let crossing = cross_test(solid, d, edge, outline, &mut meter);
            let (l, r) = changes_at(crossing, place);
            left = left.saturating_add(l);
            right = right.saturating_add(r);
        }
    }
    (left, right)
}

// The solid on the corners, seen from the front or from behind.
fn seen(rt: &impl Abort, alloc: Global, triangles: &[[u32; 3]], y: i64) -> (Solid, Dir) {
    match (solid(alloc, &CORNERS, triangles), Dir::new(0, y, 0)) {
        (Some(solid), Ok(d)) => (solid, d),
        _ => panic!(rt; "no solid"),
    }
}

// The counts to the left and to the right next to an edge's first end, and next to its second.
type Ends = (u32, [u8; 4]);

// The cube's far and near edges: its sides are edge-on, and those that have the edge don't count.
const CUBE_ENDS: [Ends; 3] = [(1, [1, 0, 1, 0]), (4, [0, 0, 0, 0]), (15, [0, 1, 0, 1])];

// Edges that pass behind the near cube.
const CUBES_ENDS: [Ends; 4] = [
    (19, [3, 2, 1, 0]),
    (22, [0, 0, 2, 2]),
    (30, [0, 0, 2, 2]),
    (33, [2, 3, 0, 1]),
];

// And one that passes under its corners.
const WEDGE_ENDS: [Ends; 2] = [(20, [0, 0, 0, 0]), (21, [0, 1, 0, 1])];

// The counts next to both ends of an edge, if there is such an edge.
fn next_to_ends(solid: &Solid, d: &Dir, edge: u32) -> Option<[u8; 4]> {
    if edge >= solid.edges() {
        return None;
    }
    let (a, b) = covered(solid, d, End { edge, at_b: false });
    let (p, q) = covered(solid, d, End { edge, at_b: true });
    Some([a, b, p, q])
}

fn check_ends(rt: &impl Abort, alloc: Global, triangles: &[[u32; 3]], rows: &[Ends]) {
    let (solid, d) = seen(rt, alloc, triangles, -1);
    for (edge, expected) in rows {
        let found = next_to_ends(&solid, &d, *edge);
        assert!(rt; found == Some(*expected), "{edge}: {found:?}");
    }
}

#[test]
fn counts_next_to_ends(rt: HostRuntime) {
    check_ends(&rt, rt.alloc(), &CUBES[..12], &CUBE_ENDS);
    check_ends(&rt, rt.alloc(), &CUBES, &CUBES_ENDS);
    check_ends(&rt, rt.alloc(), &CUBE_AND_WEDGE, &WEDGE_ENDS);
}

// The edge, the place in quarters of the edge, and by how much the counts change there, to the left and to the right.
type Change = (u32, i32, (i8, i8));

const CUBES_CHANGES: [Change; 5] = [
    (19, 2, (-2, -2)),
    (22, 2, (2, 2)),
    (22, 1, (0, 0)),
    (23, 2, (0, 0)),
    (33, 2, (-2, -2)),
];

// Two outlines begin or end on the edge's line at once.
const WEDGE_CHANGES: [Change; 3] = [(20, 1, (2, 2)), (20, 3, (-2, -2)), (21, 1, (2, 2))];

// What changes along an edge, if there is such an edge.
fn changed_at(solid: &Solid, d: &Dir, edge: u32, quarters: i32) -> Option<(i8, i8)> {
    if edge >= solid.edges() {
        return None;
    }
    Some(changed(solid, d, edge, share(quarters, 4)))
}

fn check_changes(rt: &impl Abort, alloc: Global, triangles: &[[u32; 3]], rows: &[Change]) {
    let (solid, d) = seen(rt, alloc, triangles, -1);
    for (edge, quarters, expected) in rows {
        let found = changed_at(&solid, &d, *edge, *quarters);
        assert!(rt; found == Some(*expected), "{edge}: {found:?}");
    }
}

#[test]
fn changes_along_edges(rt: HostRuntime) {
    check_changes(&rt, rt.alloc(), &CUBES, &CUBES_CHANGES);
    check_changes(&rt, rt.alloc(), &CUBE_AND_WEDGE, &WEDGE_CHANGES);
}

// From one end of an edge to one of another, an outline, and what changes of both counts around the corner in between.
type Turned = ((u32, bool), (u32, bool), u32, (i8, i8));

// From the front.
const FRONT_TURNS: [Turned; 5] = [
    // an outline that is farther
    ((4, true), (12, true), 20, (0, 0)),
    // an outline that ends on the corner's line of sight
    ((1, false), (15, false), 4, (0, 1)),
    // edges that are seen along one way from there, as is the outline: from hair to hair the short way, or around
    ((15, false), (15, false), 12, (0, 0)),
    ((15, false), (17, true), 12, (0, -1)),
    ((17, true), (15, false), 12, (-1, 0)),
];

// From behind.
const BACK_TURNS: [Turned; 5] = [
    // an outline of the wedge over a corner of the cube: passed, passed the other way round, and not passed
    ((2, true), (12, true), 20, (-1, -1)),
    ((12, true), (2, true), 20, (1, 1)),
    ((2, true), (4, true), 20, (0, 0)),
    // the edge runs along the outline, and its left side is the right one as it is seen from the corner
    ((2, true), (11, true), 20, (-1, 0)),
    // an outline that has the corner
    ((12, true), (2, true), 12, (0, 0)),
];

// What changes around a corner with one test, if there are such edges.
fn turned(solid: &Solid, d: &Dir, from: End, to: End, outline: u32) -> Option<(i8, i8)> {
    if from.edge >= solid.edges() || to.edge >= solid.edges() || outline >= solid.edges() {
        return None;
    }
    let mut meter = Meter { tests: 0 };
    let turn = corner_test(solid, d, from, to, outline, &mut meter);
    if meter.tests == 1 {
        Some((turn.left, turn.right))
    } else {
        None
    }
}

fn end(of: (u32, bool)) -> End {
    End {
        edge: of.0,
        at_b: of.1,
    }
}

fn check_turns(rt: &impl Abort, alloc: Global, y: i64, rows: &[Turned]) {
    let (solid, d) = seen(rt, alloc, &CUBE_AND_WEDGE, y);
    for (from, to, outline, expected) in rows {
        let found = turned(&solid, &d, end(*from), end(*to), *outline);
        assert!(rt; found == Some(*expected), "{from:?} to {to:?}: {found:?}");
    }
}

#[test]
fn changes_about_corners(rt: HostRuntime) {
    check_turns(&rt, rt.alloc(), -1, &FRONT_TURNS);
    check_turns(&rt, rt.alloc(), 1, &BACK_TURNS);
}
