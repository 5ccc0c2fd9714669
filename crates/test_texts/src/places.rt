// Worked rows: the axes of the six named directions, lines of sight, and lines through corners.
use lattice::{Corner, Dir, Line, Spot, Vector, across, height, same_sight, upward};
use std::collections::HashSet;
use std::test::Fail;

fn components(v: Vector) -> (i64, i64, i64) {
    (v.x, v.y, v.z)
}

#[test]
fn axes_of_the_named_directions(rt: HostRuntime) -> Result<(), Fail> {
    for (name, (x, y, z), right, up) in [
        ("front", (0, -1, 0), (1, 0, 0), (0, 0, 1)),
        ("back", (0, 1, 0), (-1, 0, 0), (0, 0, 1)),
        ("left", (-1, 0, 0), (0, -1, 0), (0, 0, 1)),
        ("right", (1, 0, 0), (0, 1, 0), (0, 0, 1)),
        ("above", (0, 0, 1), (1, 0, 0), (0, 1, 0)),
        ("below", (0, 0, -1), (1, 0, 0), (0, -1, 0)),
    ] {
        let d = Dir::new(x, y, z)?;
        assert_eq!(rt; components(d.vector()), (x, y, z), "{name}");
        assert_eq!(rt; components(d.right()), right, "right axis of {name}");
        assert_eq!(rt; components(d.up()), up, "up axis of {name}");
    }
    Ok(())
}

#[test]
fn places_in_the_front_view(rt: HostRuntime) -> Result<(), Fail> {
    let front = Dir::new(0, -1, 0)?;
    let p = Spot {
        x: 3,
        y: 4,
        z: 5,
        w: 2,
    };
    let (u, v, h) = (across(&front, &p), upward(&front, &p), height(&front, &p));
    assert_eq!(rt;
        (u.num, u.den, v.num, v.den, h.num, h.den),
        (3, 2, 5, 2, -4, 2)
    );
    let behind = Spot {
        x: 6,
        y: 40,
        z: 10,
        w: 4,
    };
    let beside = Spot {
        x: 3,
        y: 4,
        z: 6,
        w: 2,
    };
    assert!(rt; same_sight(&front, &p, &behind) && !same_sight(&front, &p, &beside));
    Ok(())
}

// The line on which both are seen, if they aren't seen at one place.
fn line(d: &Dir, p: &Corner, q: &Corner) -> Option<Line> {
    if same_sight(d, &Spot::at(p), &Spot::at(q)) {
        return None;
    }
    Some(Line::through(d, p, q))
}

fn numbers(line: Line) -> (i128, i128, i128) {
    (line.a, line.b, line.c)
}

#[test]
fn lines_in_the_front_view(rt: HostRuntime) -> Result<(), Fail> {
    let front = Dir::new(0, -1, 0)?;
    for (p, q, wanted) in [
        ([0, 0, 0], [10, 0, 10], Some((1, -1, 0))),
        ([2, 5, 0], [2, 7, 4], Some((1, 0, 2))),
        ([0, 0, -3], [6, 9, -3], Some((0, 1, -3))),
        ([0, 0, 0], [4, 0, 6], Some((3, -2, 0))),
        ([3, 1, 4], [3, 8, 4], None),
    ] {
        let (p, q) = (small(&p), small(&q));
        assert_eq!(rt; line(&front, &p, &q).map(numbers), wanted, "{p:?} to {q:?}");
        assert_eq!(rt; line(&front, &q, &p).map(numbers), wanted, "{q:?} to {p:?}");
    }
    Ok(())
}

fn small(place: &[i8; 3]) -> Corner {
    Corner {
        x: place[0].into(),
        y: place[1].into(),
        z: place[2].into(),
    }
}

#[test]
fn a_line_of_the_greatest_size(rt: HostRuntime) -> Result<(), Fail> {
    let d = Dir::new(9, 8, -9)?;
    let p = Corner {
        x: 1048576,
        y: -1048576,
        z: -1048576,
    };
    let q = Corner {
        x: -1048575,
        y: 1048576,
        z: 1048576,
    };
    let wanted = Some((285_212_753, -35_651_576, -2_584_739_840));
    assert_eq!(rt; line(&d, &p, &q).map(numbers), wanted);
    Ok(())
}

#[test]
fn equal_lines_in_a_set(rt: HostRuntime) -> Result<(), Fail> {
    let front = Dir::new(0, -1, 0)?;
    let (p, q, r) = (small(&[0, 0, 0]), small(&[4, 0, 6]), small(&[6, 1, 9]));
    let mut lines = HashSet::new(rt.alloc());
    for (from, to) in [(p, q), (q, p), (q, r)] {
        if let Some(line) = line(&front, &from, &to) {
            lines.insert(line)?;
        }
    }
    assert_eq!(rt; lines.len(), 1);
    Ok(())
}
