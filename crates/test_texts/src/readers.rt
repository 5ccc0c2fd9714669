// What the texts of parts give. Their faults are shown by whole runs.
use dec_text::Length;
use lattice::{Corner, Soup, Tri};
use off_reader::read_off;
use std::process::Abort;
use std::test::Fail;
use stl_reader::read_stl;
use weld::{RawPart, WeldError};

fn coordinates(p: &Corner) -> (i32, i32, i32) {
    (p.x, p.y, p.z)
}

fn numbers(t: &Tri) -> (u32, u32, u32) {
    (t.a, t.b, t.c)
}

fn are(
    rt: &impl Abort,
    found: (&[Corner], &[Tri]),
    corners: &[(i32, i32, i32)],
    triangles: &[(u32, u32, u32)],
) {
    assert!(rt; found.0.iter().map(coordinates).eq(corners.iter().copied()));
    assert!(rt; found.1.iter().map(numbers).eq(triangles.iter().copied()));
}

// An L-shaped face, told from a corner that doesn't see all of it, over two lines and with a colour.
const PLATE: &[u8] =
    b"off # a plate\n6 1 any\n0 0 0\n2e1 0 0\n20 10 0\n1.00005e1 10 0\n10 20 0 # the last but one\n0 +20. -.0005\n6 1 2 3 4 5\n0 0.5 0.5 0.5\n";

#[test]
fn a_plate_is_a_fan(rt: HostRuntime) -> Result<(), Fail> {
    let Ok(part) = read_off(rt.alloc(), PLATE, 3, Length::Millimetre) else {
        return Err("no part".into());
    };
    are(
        &rt,
        (&part.corners, &part.triangles),
        &[
            (0, 0, 0),
            (20000, 0, 0),
            (20000, 10000, 0),
            (10001, 10000, 0),
            (10000, 20000, 0),
            (0, 20000, -1),
        ],
        &[(3, 4, 5), (3, 5, 0), (3, 0, 1), (3, 1, 2)],
    );
    Ok(())
}

#[test]
fn two_solids_are_one_part(rt: HostRuntime) -> Result<(), Fail> {
    let text =
        b"solid # a\nendsolid a b\nSOLID\nFacet normal # 0 nan\nouter loop vertex 1 2 3\nvertex 4 5 6 vertex -7 8 9 endloop\nendfacet endsolid".as_slice();
    let Ok(part) = read_stl(rt.alloc(), text, 0, Length::Millimetre) else {
        return Err("no part".into());
    };
    let corners = [(1, 2, 3), (4, 5, 6), (-7, 8, 9)];
    are(
        &rt,
        (&part.corners, &part.triangles),
        &corners,
        &[(0, 1, 2)],
    );
    Ok(())
}

// Two triangles of three places, each with corners of its own, and two of two places.
const MIXED: &[u8] =
    b"12 4 0\n0 0 0\n0 0 0\n9 9 9\n5 0 0\n0 5 0\n0 0 5\n5 5 0\n5 0 0\n5 5 0\n0 0 5\n0 5 0\n5 0 5\n3 0 1 2\n3 3 4 5\n3 6 7 8\n3 9 10 11\n";

#[test]
fn triangles_of_two_places_are_dropped(rt: HostRuntime) -> Result<(), Fail> {
    let Ok(part) = read_off(rt.alloc(), MIXED, 0, Length::Millimetre) else {
        return Err("no part".into());
    };
    let Soup { corners, triangles } = part.weld(rt.alloc())?;
    are(
        &rt,
        (&corners, &triangles),
        &[(5, 0, 0), (0, 5, 0), (0, 0, 5), (5, 0, 5)],
        &[(0, 1, 2), (2, 1, 3)],
    );
    let nothing = RawPart {
        corners: Vec::new(rt.alloc()),
        triangles: Vec::new(rt.alloc()),
    };
    assert_eq!(rt; nothing.weld(rt.alloc()).err(), Some(WeldError::Nothing));
    Ok(())
}
