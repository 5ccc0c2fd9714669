// What a drawing has: its job, its solid, its views and its counts.
use crate::runs::drawn;
use draw_core::{Drawing, drawing_of};
use exact_frac::Frac;
use lattice::Style;
use std::test::Fail;
use test_fixtures::{CUBE_TEXT, MOVED_TEXT};

// Without a job it is the usual one.
#[test]
fn a_drawing_has_its_job(rt: HostRuntime) -> Result<(), Fail> {
    let alloc = rt.alloc();
    let job = "decimals = 0\n[[view]]\nname = \"left\"\n";
    for (words, digits, x, count, most, grid_most) in [
        ("p", 3, 10_000, 3, 864, 96),
        ("--job j p", 0, 10, 1, 288, 32),
    ] {
        let drawing = drawn(alloc, words, CUBE_TEXT, job)?;
        let part = &drawing.solid;
        let greatest = (0..part.corners()).map(|i| part.corner(i).x).max();
        assert_eq!(rt; (drawing.job.decimals, greatest), (digits, Some(x)));
        assert_eq!(rt; (drawing.views.len(), drawing.bound), (count, most));
        assert_eq!(rt;
            (drawing.cell_bound, drawing.cells.cells > 0),
            (grid_most, true)
        );
        assert_eq!(rt; drawing.sheet.places.len(), count);
        for view in &drawing.views {
            let visible = view.pieces.iter().all(|piece| piece.style == Style::Solid);
            assert_eq!(rt; (view.pieces.len(), visible), (4, true));
        }
    }
    Ok(())
}

// A drawing of a solid by a job needs no desk, and is that of the run.
#[test]
fn a_drawing_needs_no_desk(rt: HostRuntime) -> Result<(), Fail> {
    let alloc = rt.alloc();
    let Drawing {
        solid,
        job,
        sheet: _,
        views: _,
        meter: _,
        bound: most,
        cut_meter: _,
        cut_bound: _,
        cells: _,
        cell_bound: grid_most,
    } = drawn(alloc, "p", CUBE_TEXT, "")?;
    let again = drawing_of(alloc, solid, job).ok().ok_or("no drawing")?;
    assert_eq!(rt;
        (again.views.len(), again.bound, again.cell_bound),
        (3, most, grid_most)
    );
    Ok(())
}

// Where outlines are many, as many columns are made as the square root of their number: 14 of 216.
#[test]
fn a_sample_has_its_cell_bound(rt: HostRuntime) -> Result<(), Fail> {
    let alloc = rt.alloc();
    let drawing = drawn(alloc, "sample:3", "", "")?;
    assert_eq!(rt; drawing.cell_bound, 4320);
    assert_eq!(rt; drawing.cells.cells > 0, true);
    Ok(())
}

// The second cube's lower near edge is behind the first cube from its middle on.
#[test]
fn two_cubes_are_counted(rt: HostRuntime) -> Result<(), Fail> {
    let alloc = rt.alloc();
    let job = "[[view]]\nname = \"front\"\n";
    let drawing = drawn(alloc, "--job j p", MOVED_TEXT, job)?;
    let mut told = Vec::new(alloc);
    for view in &drawing.views {
        for entry in &view.counts {
            if entry.edge == 22 {
                for span in &entry.spans {
                    told.push((span.from, span.to, span.left, span.right))?;
                }
            }
        }
    }
    let zero = Frac { num: 0, den: 1 };
    let half = Frac { num: 1, den: 2 };
    let one = Frac { num: 1, den: 1 };
    assert_eq!(rt;
        told.as_slice(),
        [(zero, half, 0, 0), (half, one, 2, 2)].as_slice()
    );
    Ok(())
}
