// The cube with an edge of 10 units, what is made of it, parts that make no solid, and single sides and triangles.
use exact_frac::Frac;
use sample_part::boxes;
use solid_mesh::{Edge, MeshError, MeshFault, PairMeter, Solid, box_test, pair_test};
use std::alloc::Global;
use std::process::Abort;
use std::test::Fail;
use test_fixtures::{CUBES, soup};

// The cube, and over it a tetrahedron with its tip, corner 9, down.
const OVER: [[u32; 3]; 16] = [
    [0, 3, 2],
    [0, 2, 1],
    [4, 5, 6],
    [4, 6, 7],
    [0, 1, 5],
    [0, 5, 4],
    [1, 2, 6],
    [1, 6, 5],
    [2, 3, 7],
    [2, 7, 6],
    [3, 0, 4],
    [3, 4, 7],
    [10, 11, 12],
    [11, 10, 9],
    [12, 11, 9],
    [10, 12, 9],
];

// Corners 0 to 7 of the cube, corner 8 in one line with 0 and 1, and the corners 9 to 12 of the tetrahedron.
fn corners(tip: i16) -> [[i16; 3]; 13] {
    [
        [0, 0, 0],
        [10, 0, 0],
        [10, 10, 0],
        [0, 10, 0],
        [0, 0, 10],
        [10, 0, 10],
        [10, 10, 10],
        [0, 10, 10],
        [20, 0, 0],
        [5, 5, tip],
        [0, 0, 20],
        [10, 0, 20],
        [5, 10, 20],
    ]
}

// The solid of these corners and triangles, or why there is none.
fn checked(
    alloc: Global,
    tip: i16,
    triangles: &[[u32; 3]],
    meter: &mut PairMeter,
) -> Result<Solid, Option<MeshError>> {
    let Ok(soup) = soup(alloc, &corners(tip), triangles) else {
        return Err(None);
    };
    if triangles.is_empty() || triangles.len() > 100 || meter.boxes > 9 || meter.pairs > 9 {
        return Err(None);
    }
    match Solid::check_metered(alloc, soup, meter) {
        Ok(solid) => Ok(solid),
        Err(error) => Err(Some(error)),
    }
}

const FAULTS: [(i16, &[[u32; 3]], MeshFault); 9] = [
    (11, &[[0, 3, 1], [8, 1, 0], [1, 8, 0]], MeshFault::Flat(1)),
    (
        11,
        &[[0, 3, 1], [0, 4, 1], [0, 1, 4]],
        MeshFault::SameWay(0, 1),
    ),
    // the first side of the last triangle is the second's, and its second side is the first's
    (
        11,
        &[[0, 1, 2], [3, 4, 0], [4, 0, 1]],
        MeshFault::SameWay(0, 2),
    ),
    // a tetrahedron on the cube's corners 0, 3, 1 and 4 without a side, and its bottom alone
    (
        11,
        &[[0, 3, 1], [0, 1, 4], [0, 4, 3]],
        MeshFault::Unpaired(0, 1),
    ),
    (11, &[[0, 3, 1]], MeshFault::Unpaired(0, 0)),
    (11, &[[0, 3, 1], [1, 3, 0]], MeshFault::Double(0, 1)),
    (
        11,
        &[[0, 1, 2], [4, 5, 6], [5, 4, 6], [1, 0, 2]],
        MeshFault::Double(1, 2),
    ),
    // a tip on the cube, and in it
    (10, &OVER, MeshFault::Meet(7, 13)),
    (9, &OVER, MeshFault::Meet(7, 13)),
];

fn check_fault(rt: &impl Abort, alloc: Global, tip: i16, triangles: &[[u32; 3]], fault: MeshFault) {
    let mut meter = PairMeter { boxes: 0, pairs: 0 };
    let found = checked(alloc, tip, triangles, &mut meter).err();
    assert!(rt; found == Some(Some(MeshError::Mesh(fault))), "{found:?}");
}

#[test]
fn the_first_fault_is_told(rt: HostRuntime) {
    for (tip, triangles, fault) in FAULTS {
        check_fault(&rt, rt.alloc(), tip, triangles, fault);
    }
    check_fault(&rt, rt.alloc(), 11, &CUBES[..11], MeshFault::Unpaired(3, 2));
}

#[test]
fn tests_are_counted(rt: HostRuntime) -> Result<(), Fail> {
    let mut meter = PairMeter { boxes: 5, pairs: 7 };
    let Ok(solid) = checked(rt.alloc(), 11, &OVER, &mut meter) else {
        return Err("no solid".into());
    };
    // of 342 pairs the ranges of x meet, and of 180 the boxes
    let PairMeter { boxes, pairs } = meter;
    assert!(rt; 5 < boxes && boxes <= 347 && 7 < pairs && pairs <= 187);
    assert!(rt; solid.edges() == 24);
    let text = format!(in rt.alloc(); "{}", MeshError::Mesh(MeshFault::Double(1, 2)))?;
    assert_eq!(rt;
        text.as_str(),
        "triangles 1 and 2 have the same three corners"
    );
    Ok(())
}

// 512 cubes: of 6,422,528 pairs of an edge and a triangle the ranges of x meet, and fewer than 20 boxes are tested for an edge.
#[test]
fn a_grid_takes_few_tests(rt: HostRuntime) -> Result<(), Fail> {
    let Ok(soup) = boxes(rt.alloc(), 8) else {
        return Err("no sample".into());
    };
    assert!(rt; soup.corners.len() == 4_096 && soup.triangles.len() == 6_144);
    let mut meter = PairMeter { boxes: 0, pairs: 0 };
    let solid = Solid::check_metered(rt.alloc(), soup, &mut meter)?;
    assert!(rt; solid.edges() == 9_216 && meter.boxes < 20 * 9_216);
    Ok(())
}

fn the_cube(alloc: Global) -> Result<Solid, Fail> {
    let mut meter = PairMeter { boxes: 0, pairs: 0 };
    match checked(alloc, 11, &CUBES[..12], &mut meter) {
        Ok(solid) => Ok(solid),
        Err(_) => Err("no solid".into()),
    }
}

#[test]
fn edges_of_the_cube_are_read(rt: HostRuntime) -> Result<(), Fail> {
    let s = the_cube(rt.alloc())?;
    assert_eq!(rt; s.edges(), 18);
    assert_eq!(rt;
        s.edge(0),
        Edge {
            a: 0,
            b: 3,
            left: 0,
            right: 10
        }
    );
    assert_eq!(rt;
        s.edge(17),
        Edge {
            a: 4,
            b: 3,
            left: 10,
            right: 11
        }
    );
    let spot = s.spot(1, &Frac { num: 1, den: 4 });
    assert_eq!(rt; (spot.x, spot.y, spot.z, spot.w), (10, 40, 0, 4));
    Ok(())
}

#[test]
fn a_side_and_a_triangle(rt: HostRuntime) -> Result<(), Fail> {
    let soup = soup(rt.alloc(), &corners(10), &OVER)?;
    assert!(rt; soup.triangles.len() == 16);
    let mut meter = PairMeter { boxes: 0, pairs: 0 };
    // the diagonal of the cube's top, and a face from the tip
    assert!(rt; box_test(&soup, 8, 13, &mut meter));
    // a side of the cube's bottom, and its top
    assert!(rt; !box_test(&soup, 0, 2, &mut meter));
    assert!(rt; pair_test(&soup, 8, 13, &mut meter));
    // a triangle that has the side, and one that has its first corner alone
    assert!(rt; !pair_test(&soup, 8, 2, &mut meter));
    assert!(rt; !pair_test(&soup, 0, 4, &mut meter));
    assert_eq!(rt; (meter.boxes, meter.pairs), (2, 3));
    Ok(())
}

// Three corners of a triangle.
type Face = [[i16; 3]; 3];

// A triangle that isn't flat.
const FACE: Face = [[0, 0, 0], [6, 0, 0], [0, 6, 0]];

// Flat triangles: the third corner is between the others, or the first; all are at one place.
const LINE: Face = [[0, 0, 0], [6, 0, 0], [2, 0, 0]];

const SPLIT: Face = [[2, 0, 0], [0, 0, 0], [6, 0, 0]];

const POINT: Face = [[1, 1, 1], [1, 1, 1], [1, 1, 1]];

// Whether a triangle's first side meets another. They have three corners of a face and two ends, 3 and 4.
fn meets(
    alloc: Global,
    face: &Face,
    ends: &[[i16; 3]; 2],
    side: [u32; 2],
    last: u32,
) -> Option<bool> {
    let [a, b, c] = *face;
    let [p, q] = *ends;
    let [m, n] = side;
    let triangles = [[m, n, n], [0, last / 2, last]];
    let soup = soup(alloc, &[a, b, c, p, q], &triangles).ok()?;
    let mut meter = PairMeter { boxes: 0, pairs: 0 };
    Some(pair_test(&soup, 0, 1, &mut meter))
}

// What a side is called, its ends and their numbers, and whether it meets the face.
type Side = (&'static str, [[i16; 3]; 2], [u32; 2], bool);

const SIDES: [Side; 8] = [
    (
        "on into it from a shared corner",
        [[2, 2, 0], [9, 9, 9]],
        [0, 3],
        true,
    ),
    (
        "away from a shared corner",
        [[2, -2, 0], [9, 9, 9]],
        [0, 3],
        false,
    ),
    (
        "at a corner with another number",
        [[0, 0, 0], [-1, 0, 0]],
        [3, 4],
        true,
    ),
    ("of length 0, in it", [[1, 1, 0], [1, 1, 0]], [3, 4], true),
    (
        "of length 0, beside it",
        [[5, 5, 0], [5, 5, 0]],
        [3, 4],
        false,
    ),
    (
        "of length 0, from a shared corner",
        [[0, 0, 0], [9, 9, 9]],
        [0, 3],
        false,
    ),
    (
        "one corner number, in it",
        [[1, 1, 0], [9, 9, 9]],
        [3, 3],
        true,
    ),
    (
        "one corner number, its own",
        [[1, 1, 0], [9, 9, 9]],
        [0, 0],
        false,
    ),
];

#[test]
fn a_side_and_a_face(rt: HostRuntime) {
    for (name, ends, side, expected) in &SIDES {
        let found = meets(rt.alloc(), &FACE, ends, *side, 2);
        assert!(rt; found == Some(*expected), "{name}");
    }
}

// The number is that of the triangle's last corner. Where it is 1, the first corner is there twice.
type FlatSide = (&'static str, Face, u32, [[i16; 3]; 2], [u32; 2], bool);

const FLAT_SIDES: [FlatSide; 16] = [
    ("across it", LINE, 2, [[4, -1, 0], [4, 1, 0]], [3, 4], true),
    (
        "across its first side",
        SPLIT,
        2,
        [[1, -1, 0], [1, 1, 0]],
        [3, 4],
        true,
    ),
    (
        "across its last side",
        SPLIT,
        2,
        [[4, -1, 0], [4, 1, 0]],
        [3, 4],
        true,
    ),
    (
        "past its end",
        LINE,
        2,
        [[7, -1, 0], [7, 1, 0]],
        [3, 4],
        false,
    ),
    ("over it", LINE, 2, [[4, -1, 1], [4, 1, 1]], [3, 4], false),
    ("beside it", LINE, 2, [[0, 1, 0], [6, 1, 0]], [3, 4], false),
    (
        "in its line, up to it",
        LINE,
        2,
        [[9, 0, 0], [6, 0, 0]],
        [3, 4],
        true,
    ),
    (
        "in its line, apart",
        LINE,
        2,
        [[9, 0, 0], [7, 0, 0]],
        [3, 4],
        false,
    ),
    (
        "in its line, around it",
        LINE,
        2,
        [[-1, 0, 0], [9, 0, 0]],
        [3, 4],
        true,
    ),
    (
        "along it from a shared corner",
        LINE,
        2,
        [[4, 0, 0], [9, 9, 9]],
        [2, 3],
        true,
    ),
    (
        "back from it",
        LINE,
        2,
        [[-1, 0, 0], [9, 9, 9]],
        [0, 3],
        false,
    ),
    ("up from it", LINE, 2, [[1, 1, 0], [9, 9, 9]], [0, 3], false),
    (
        "through a point",
        POINT,
        2,
        [[0, 0, 0], [2, 2, 2]],
        [3, 4],
        true,
    ),
    (
        "past a point",
        POINT,
        2,
        [[0, 0, 0], [2, 2, 3]],
        [3, 4],
        false,
    ),
    (
        "across one with a corner twice",
        LINE,
        1,
        [[4, -1, 0], [4, 1, 0]],
        [3, 4],
        true,
    ),
    (
        "along one with a corner twice",
        LINE,
        1,
        [[4, 0, 0], [9, 9, 9]],
        [0, 3],
        true,
    ),
];

#[test]
fn a_side_and_a_flat_triangle(rt: HostRuntime) {
    for (name, face, last, ends, side, expected) in &FLAT_SIDES {
        let found = meets(rt.alloc(), face, ends, *side, *last);
        assert!(rt; found == Some(*expected), "{name}");
    }
}
