// Small edges and triangles, through one another and in one plane.
use lattice::Corner;
use meeting::{touches, touches_beyond};

fn at(place: &[i8; 3]) -> Corner {
    Corner {
        x: place[0].into(),
        y: place[1].into(),
        z: place[2].into(),
    }
}

// Whether the edge between two places meets the slanted triangle.
fn meets(p: &[i8; 3], q: &[i8; 3]) -> bool {
    let (a, b, c) = (at(&[0, 0, 0]), at(&[6, 0, 2]), at(&[0, 6, 2]));
    touches(&a, &b, &c, &at(p), &at(q))
}

// The same of the edge from the triangle's first corner to a place, without that corner.
fn meets_beyond(q: &[i8; 3]) -> bool {
    let (a, b, c) = (at(&[0, 0, 0]), at(&[6, 0, 2]), at(&[0, 6, 2]));
    touches_beyond(&a, &b, &c, &at(q))
}

const EDGES: [(&str, [i8; 3], [i8; 3], bool); 15] = [
    ("through it", [1, 2, 0], [1, 2, 2], true),
    ("past it", [5, 4, 0], [5, 4, 6], false),
    ("ends in it", [1, 2, 5], [1, 2, 1], true),
    ("ends above it", [1, 2, 5], [1, 2, 2], false),
    ("begins in it and goes down", [1, 2, 1], [1, 2, -3], true),
    ("through a side", [3, 3, 3], [3, 3, 0], true),
    ("beside a side", [4, 3, 0], [4, 3, 9], false),
    ("through a corner", [6, 0, 0], [6, 0, 3], true),
    ("in its plane, apart", [9, 0, 3], [0, 9, 3], false),
    ("in its plane, across", [3, -3, 0], [3, 6, 3], true),
    ("in its plane, along a side", [9, -3, 2], [3, 3, 2], true),
    (
        "in its plane, in line with a side",
        [12, -6, 2],
        [9, -3, 2],
        false,
    ),
    ("in its plane, inside", [1, 2, 1], [2, 1, 1], true),
    ("in its plane, at a corner", [-3, 3, 0], [3, -3, 0], true),
    (
        "in its plane, short of a corner",
        [-6, 6, 0],
        [-3, 3, 0],
        false,
    ),
];

#[test]
fn edges_and_a_slanted_triangle(rt: HostRuntime) {
    for (name, p, q, expected) in &EDGES {
        assert!(rt; meets(p, q) == *expected, "{name}");
    }
}

const FROM_A_CORNER: [(&str, [i8; 3], bool); 10] = [
    ("within it", [1, 2, 1], true),
    ("along a side", [6, 0, 2], true),
    ("along half a side", [0, 3, 1], true),
    ("to the opposite side", [3, 3, 2], true),
    ("through it and on", [12, 12, 8], true),
    ("away from it, in its plane", [3, -3, 0], false),
    ("back from it", [-1, -2, -1], false),
    ("back from a side", [-6, 0, -2], false),
    ("up from it", [1, 2, 2], false),
    ("nowhere", [0, 0, 0], false),
];

#[test]
fn edges_from_a_corner(rt: HostRuntime) {
    for (name, q, expected) in &FROM_A_CORNER {
        assert!(rt; meets_beyond(q) == *expected, "{name}");
    }
}
