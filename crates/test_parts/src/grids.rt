// Counts through a grid of outlines, with few columns and with many, beside those through all outlines; an outline that is put by
// hand; and the triangles near a corner.
use cross_find::SolidSight;
use edge_pick::{Crease, pick};
use exact_frac::{Frac, OutOfMemory};
use lattice::Dir;
use out_grid::{CellMeter, GridOutlines, NearMeter, NearTriangles, cell_bound};
use sample_part::boxes;
use solid_mesh::Solid;
use span_count::{AllOutlines, CountSpan, EdgeSpans, Finder, bound, spans_counted};
use std::alloc::{AllocError, Global};
use std::process::Abort;
use std::test::Fail;
use test_fixtures::{
    BRACKET_TEXT, CORNERS, CUBE_AND_WEDGE, CUBE_TEXT, CUBES, INWARD_TEXT, THIRDS_TEXT, TUBE,
    TUBE_CORNERS, WELDED_TEXT, solid, solid_of,
};

// The edge, the ends and the counts of a span.
fn span_told(edge: u32, span: &CountSpan) -> (u32, Frac, Frac, u32, u32) {
    (edge, span.from, span.to, span.left, span.right)
}

// The same of each span, in their order.
fn spans_told(
    alloc: Global,
    entries: &[EdgeSpans],
) -> Result<Vec<(u32, Frac, Frac, u32, u32)>, AllocError> {
    let mut all = Vec::new(alloc);
    for entry in entries {
        for span in &entry.spans {
            all.push(span_told(entry.edge, span))?;
        }
    }
    Ok(all)
}

// What is told of a view, how many tests were made and may be at most.
#[derive(Drop)]
struct Told {
    spans: Vec<(u32, Frac, Frac, u32, u32)>,
    tests: u64,
    most: u64,
}

// The same, and how many cells were counted and may be at most.
#[derive(Drop)]
struct Gridded {
    view: Told,
    cells: u64,
    most_cells: u64,
}

fn through_all(alloc: Global, solid: &Solid, d: &Dir) -> Result<Told, OutOfMemory> {
    let picked = pick(alloc, solid, d, Crease::Normal)?;
    let most = bound(solid, &picked);
    let mut sight = SolidSight::new(solid, d);
    let entries = spans_counted(alloc, &mut sight, &picked, &AllOutlines::new(&picked))?;
    Ok(Told {
        spans: spans_told(alloc, &entries)?,
        tests: sight.tests(),
        most,
    })
}

fn through_grid(
    alloc: Global,
    solid: &Solid,
    d: &Dir,
    columns: u32,
) -> Result<Gridded, OutOfMemory> {
    let columns = columns.clamp(1, 256);
    let picked = pick(alloc, solid, d, Crease::Normal)?;
    let most = bound(solid, &picked);
    let mut meter = CellMeter { cells: 0 };
    let grid = GridOutlines::new(alloc, solid, d, &picked, columns, &mut meter)?;
    let mut sight = SolidSight::new(solid, d);
    let entries = spans_counted(alloc, &mut sight, &picked, &grid)?;
    Ok(Gridded {
        view: Told {
            spans: spans_told(alloc, &entries)?,
            tests: sight.tests(),
            most,
        },
        cells: meter.cells,
        most_cells: cell_bound(solid, d, &picked, columns),
    })
}

// Through a grid of so many columns the counts are the same; no more tests are made, and no more cells are counted than may be.
fn is_same(
    alloc: Global,
    solid: &Solid,
    d: &Dir,
    columns: u32,
    all: &Told,
) -> Result<bool, OutOfMemory> {
    let through = through_grid(alloc, solid, d, columns)?;
    Ok(
        through.view.spans == all.spans
            && through.view.tests <= all.tests
            && 0 < through.cells
            && through.cells <= through.most_cells,
    )
}

// The same through grids with few columns and with many; and no more tests are made through all outlines than may be.
fn are_same(alloc: Global, solid: &Solid, d: &Dir) -> Result<bool, OutOfMemory> {
    let all = through_all(alloc, solid, d)?;
    for columns in [1, 2, 7, 256] {
        if !is_same(alloc, solid, d, columns, &all)? {
            return Ok(false);
        }
    }
    Ok(all.tests <= all.most)
}

fn check(rt: &impl Abort, alloc: Global, name: &str, part: Option<Solid>, d: [i64; 3]) {
    let (Some(part), Ok(d)) = (part, Dir::new(d[0], d[1], d[2])) else {
        panic!(rt; "no {name}");
    };
    assert!(rt; are_same(alloc, &part, &d) == Ok(true), "{name}");
}

#[test]
fn counts_through_a_grid_are_those_through_all_outlines(rt: HostRuntime) {
    let alloc = rt.alloc();
    check(
        &rt,
        alloc,
        "cubes",
        solid(alloc, &CORNERS, &CUBES),
        [0, -1, 0],
    );
    check(
        &rt,
        alloc,
        "wedge",
        solid(alloc, &CORNERS, &CUBE_AND_WEDGE),
        [0, -1, 0],
    );
    check(
        &rt,
        alloc,
        "thirds",
        solid_of(alloc, THIRDS_TEXT),
        [0, -1, 0],
    );
    check(
        &rt,
        alloc,
        "bracket",
        solid_of(alloc, BRACKET_TEXT),
        [1, -2, 1],
    );
    check(&rt, alloc, "cube", solid_of(alloc, CUBE_TEXT), [1, -1, 1]);
    check(
        &rt,
        alloc,
        "inward",
        solid_of(alloc, INWARD_TEXT),
        [1, -1, 1],
    );
    check(
        &rt,
        alloc,
        "welded",
        solid_of(alloc, WELDED_TEXT),
        [0, 0, 1],
    );
    check(
        &rt,
        alloc,
        "tube",
        solid(alloc, &TUBE_CORNERS, &TUBE),
        [1, -2, 3],
    );
}

// Whether an outline that is put into a cell without one stands there. Looking at the cell and putting count one cell each.
fn is_put(alloc: Global, solid: &Solid, d: &Dir, crease: Crease) -> Result<bool, OutOfMemory> {
    let picked = pick(alloc, solid, d, crease)?;
    let most = cell_bound(solid, d, &picked, 7);
    let mut meter = CellMeter { cells: 0 };
    let mut grid = GridOutlines::new(alloc, solid, d, &picked, 7, &mut meter)?;
    let Some(last) = picked.outlines.last() else {
        return Ok(false);
    };
    if grid.cell(0, 0, &mut meter).len() != 0 {
        return Ok(false);
    }
    let before = meter.cells;
    if before > most + 1 {
        return Ok(false);
    }
    grid.put(0, 0, *last, &mut meter)?;
    Ok(*grid.cell(0, 0, &mut meter) == *[*last].as_slice() && meter.cells - before == 2)
}

#[test]
fn a_put_outline_stands_last(rt: HostRuntime) -> Result<(), Fail> {
    let solid = solid(rt.alloc(), &CORNERS, &CUBES).ok_or("no solid")?;
    let d = Dir::new(0, -1, 0)?;
    // a cell is three units wide; the corners reach from -5 on, and the cubes from 0 on
    assert!(rt; is_put(rt.alloc(), &solid, &d, Crease::Normal)?);
    Ok(())
}

// The first triangle near the first corner, by a grid; the first from this number on; and the same by all triangles.
fn near(
    alloc: Global,
    solid: &Solid,
    d: &Dir,
    from: u32,
) -> Result<(Option<u32>, Option<u32>, Option<u32>), OutOfMemory> {
    let picked = pick(alloc, solid, d, Crease::Normal)?;
    let mut meter = CellMeter { cells: 0 };
    let grid = GridOutlines::new(alloc, solid, d, &picked, 7, &mut meter)?;
    let all = AllOutlines::new(&picked);
    Ok((
        grid.next_near(0, 0, 0),
        grid.next_near(0, 1, from),
        all.next_near(0, 0, from),
    ))
}

// Eight cubes from the front: the first corner is one of the first triangle, and the last twelve triangles are those of the cube at
// the other end of the view.
#[test]
fn far_triangles_are_passed_over(rt: HostRuntime) -> Result<(), Fail> {
    let Ok(soup) = boxes(rt.alloc(), 2) else {
        return Err("no sample".into());
    };
    assert!(rt; soup.corners.len() == 64 && soup.triangles.len() == 96);
    let Ok(solid) = Solid::check(rt.alloc(), soup) else {
        return Err("no solid".into());
    };
    let d = Dir::new(0, -1, 0)?;
    assert!(rt; near(rt.alloc(), &solid, &d, 84)? == (Some(0), None, Some(84)));
    Ok(())
}

// A cube from the front, by hand: the cells of 8 corners are found in 3 columns, 12 triangles looked at, 9 cells made, and 12 triangles
// put into 60 cells: 4 into all nine, and 8, which are seen edge-on, into a column or a row.
#[test]
fn near_triangles_are_counted(rt: HostRuntime) -> Result<(), Fail> {
    let solid = solid_of(rt.alloc(), CUBE_TEXT).ok_or("no solid")?;
    let d = Dir::new(0, -1, 0)?;
    let mut meter = NearMeter { steps: 0 };
    let near = NearTriangles::new(rt.alloc(), &solid, &d, &mut meter)?;
    assert_eq!(rt; (meter.steps, near.next_near(0, 0, 0)), (101, Some(0)));
    Ok(())
}
