// How many tests are made and how many cells are counted for a drawing, on parts with few outlines and with many: as many as through
// the grids of its views, and fewer tests than through all outlines.
use crate::cuts::TUBE;
use crate::runs::drawn;
use cross_find::{Meter, SolidSight};
use cut_count::{cut_bound, spans_cut};
use cut_plane::borders;
use draw_core::Drawing;
use edge_pick::{Crease, pick};
use lattice::{Cut, Dir, ViewSpec};
use out_grid::{CellMeter, GridOutlines, cell_bound};
use solid_mesh::Solid;
use span_count::{AllOutlines, bound, spans_counted};
use std::alloc::Global;
use std::test::Fail;
use test_fixtures::{BRACKET_TEXT, CUBE_TEXT, INWARD_TEXT, MOVED_TEXT, THIRDS_TEXT, WELDED_TEXT};

// The tests that are made in plain views and in those of cuts and their bounds, and the cells that are counted and theirs.
#[derive(Clone, Copy, PartialEq, Eq, Debug)]
struct Costs {
    tests: u64,
    most_tests: u64,
    cut_tests: u64,
    most_cut_tests: u64,
    cells: u64,
    most_cells: u64,
}

// What the counts of views cost through grids; whether there are plain views and views of cuts, and the tests that they take through
// all outlines; and the greatest number of outlines of a view.
#[derive(Clone, Copy)]
struct Compared {
    costs: Costs,
    plain_views: bool,
    cut_views: bool,
    all_tests: u64,
    all_cut_tests: u64,
    outlines: usize,
}

// What the counts of a plain view cost, through a grid of as many columns as the square root of the number of outlines.
fn costs_of(alloc: Global, solid: &Solid, d: &Dir, crease: Crease) -> Result<Compared, Fail> {
    let picked = pick(alloc, solid, d, crease)?;
    let columns = picked.outlines.len().isqrt().clamp(1, 256) as u32;
    let most_tests = bound(solid, &picked);
    let most_cells = cell_bound(solid, d, &picked, columns);
    let mut sight = SolidSight::new(solid, d);
    let mut meter = CellMeter { cells: 0 };
    let grid = GridOutlines::new(alloc, solid, d, &picked, columns, &mut meter)?;
    let _entries = spans_counted(alloc, &mut sight, &picked, &grid)?;
    let mut all = SolidSight::new(solid, d);
    let _same = spans_counted(alloc, &mut all, &picked, &AllOutlines::new(&picked))?;
    Ok(Compared {
        costs: Costs {
            tests: sight.tests(),
            most_tests,
            cut_tests: 0,
            most_cut_tests: 0,
            cells: meter.cells,
            most_cells,
        },
        plain_views: true,
        cut_views: false,
        all_tests: all.tests(),
        all_cut_tests: 0,
        outlines: picked.outlines.len(),
    })
}

// What the counts of the view of a cut cost, through such a grid.
fn costs_of_cut(alloc: Global, solid: &Solid, cut: &Cut, crease: Crease) -> Result<Compared, Fail> {
    let section = borders(alloc, solid, cut)?;
    let d = section.cut.dir();
    let picked = pick(alloc, solid, &d, crease)?;
    let columns = picked.outlines.len().isqrt().clamp(1, 256) as u32;
    let most_tests = cut_bound(solid, &section, &picked);
    let most_cells = cell_bound(solid, &d, &picked, columns);
    let mut cells = CellMeter { cells: 0 };
    let grid = GridOutlines::new(alloc, solid, &d, &picked, columns, &mut cells)?;
    let mut meter = Meter { tests: 0 };
    let _entries = spans_cut(alloc, solid, &section, &picked, &grid, &mut meter)?;
    let mut all = Meter { tests: 0 };
    let _same = spans_cut(
        alloc,
        solid,
        &section,
        &picked,
        &AllOutlines::new(&picked),
        &mut all,
    )?;
    Ok(Compared {
        costs: Costs {
            tests: 0,
            most_tests: 0,
            cut_tests: meter.tests,
            most_cut_tests: most_tests,
            cells: cells.cells,
            most_cells,
        },
        plain_views: false,
        cut_views: true,
        all_tests: 0,
        all_cut_tests: all.tests,
        outlines: picked.outlines.len(),
    })
}

// Both costs added up.
fn plus(a: &Costs, b: &Costs) -> Costs {
    Costs {
        tests: a.tests.saturating_add(b.tests),
        most_tests: a.most_tests.saturating_add(b.most_tests),
        cut_tests: a.cut_tests.saturating_add(b.cut_tests),
        most_cut_tests: a.most_cut_tests.saturating_add(b.most_cut_tests),
        cells: a.cells.saturating_add(b.cells),
        most_cells: a.most_cells.saturating_add(b.most_cells),
    }
}

// What the counts of a drawing's views cost, added up.
fn costs_of_views(alloc: Global, drawing: &Drawing) -> Result<Compared, Fail> {
    let mut sums = Compared {
        costs: Costs {
            tests: 0,
            most_tests: 0,
            cut_tests: 0,
            most_cut_tests: 0,
            cells: 0,
            most_cells: 0,
        },
        plain_views: false,
        cut_views: false,
        all_tests: 0,
        all_cut_tests: 0,
        outlines: 0,
    };
    let crease = drawing.job.crease;
    for view in &drawing.views {
        let more = match &view.spec {
            ViewSpec::Plain(d) => costs_of(alloc, &drawing.solid, d, crease)?,
            ViewSpec::Section(cut) => costs_of_cut(alloc, &drawing.solid, cut, crease)?,
        };
        sums = Compared {
            costs: plus(&sums.costs, &more.costs),
            plain_views: sums.plain_views || more.plain_views,
            cut_views: sums.cut_views || more.cut_views,
            all_tests: sums.all_tests.saturating_add(more.all_tests),
            all_cut_tests: sums.all_cut_tests.saturating_add(more.all_cut_tests),
            outlines: sums.outlines.max(more.outlines),
        };
    }
    Ok(sums)
}

// What a drawing tells of them.
fn told(drawing: &Drawing) -> Costs {
    Costs {
        tests: drawing.meter.tests,
        most_tests: drawing.bound,
        cut_tests: drawing.cut_meter.tests,
        most_cut_tests: drawing.cut_bound,
        cells: drawing.cells.cells,
        most_cells: drawing.cell_bound,
    }
}

// Jobs of plain views, of cuts, and of both.
const USUAL: &str = "";

const SLANTED: &str = "[[view]]\ntoward = [1, -1, 1]\n";

const FRONT: &str = "[[view]]\nname = \"front\"\n";

const STEEP: &str = "crease = \"fine\"\n[[view]]\ntoward = [3, 2, 1]\n";

const CUT: &str = "[[view]]\ncut = \"y\"\nat = 5000\nfrom = \"low\"\n";

const TWO_CUTS: &str =
    "[[view]]\ncut = \"x\"\nat = 7000\nfrom = \"high\"\n[[view]]\ncut = \"z\"\nat = 4000\nfrom = \"high\"\n";

const THREE_VIEWS: &str =
    "[[view]]\nname = \"front\"\n[[view]]\ntoward = [1, -1, 1]\n[[view]]\ncut = \"y\"\nat = 5000\nfrom = \"low\"\n";

// Words, the text of a part where they name one, a job, and a number of outlines that some view of it has more of.
const DRAWINGS: [(&str, &str, &str, usize); 24] = [
    ("--job j p", CUBE_TEXT, USUAL, 3),
    ("--job j p", CUBE_TEXT, SLANTED, 3),
    ("--job j p", CUBE_TEXT, CUT, 3),
    ("--job j p", MOVED_TEXT, USUAL, 3),
    ("--job j p", MOVED_TEXT, TWO_CUTS, 3),
    ("--job j p", MOVED_TEXT, THREE_VIEWS, 3),
    ("--job j p", BRACKET_TEXT, USUAL, 3),
    ("--job j p", BRACKET_TEXT, STEEP, 3),
    ("--job j p", BRACKET_TEXT, TWO_CUTS, 3),
    ("--job j p", THIRDS_TEXT, USUAL, 3),
    ("--job j p", THIRDS_TEXT, THREE_VIEWS, 3),
    ("--job j p", INWARD_TEXT, SLANTED, 3),
    ("--job j p", INWARD_TEXT, TWO_CUTS, 3),
    ("--job j p", WELDED_TEXT, USUAL, 3),
    ("--job j p", WELDED_TEXT, CUT, 3),
    ("--job j p", TUBE, STEEP, 3),
    ("--job j p", TUBE, TWO_CUTS, 3),
    ("--job j sample:2", "", USUAL, 24),
    ("--job j sample:2", "", THREE_VIEWS, 24),
    ("--job j sample:3", "", STEEP, 24),
    ("--job j sample:4", "", SLANTED, 256),
    ("--job j sample:4", "", CUT, 256),
    ("--job j sample:6", "", FRONT, 1000),
    ("--job j sample:6", "", CUT, 1000),
];

// Tests and cells are those that are found here through grids, added up; through all outlines others are made.
#[test]
fn costs_are_those_through_grids(rt: HostRuntime) -> Result<(), Fail> {
    let alloc = rt.alloc();
    for (words, part, job, fewer) in DRAWINGS {
        let drawing = drawn(alloc, words, part, job)?;
        let found = costs_of_views(alloc, &drawing)?;
        assert_eq!(rt; told(&drawing), found.costs, "{words} {part} {job}");
        assert_eq!(rt;
            (
                found.costs.tests < found.all_tests,
                found.costs.cut_tests < found.all_cut_tests
            ),
            (found.plain_views, found.cut_views),
            "{words} {part} {job}"
        );
        assert!(rt; found.outlines > fewer, "{words} {part} {job}");
    }
    Ok(())
}

// Each drawn edge has an entry, in the view of a cut too.
#[test]
fn each_drawn_edge_has_counts(rt: HostRuntime) -> Result<(), Fail> {
    let alloc = rt.alloc();
    let drawing = drawn(alloc, "--job j p", MOVED_TEXT, THREE_VIEWS)?;
    let mut entries = Vec::new(alloc);
    for view in &drawing.views {
        entries.push(view.counts.len())?;
    }
    assert_eq!(rt; entries.as_slice(), [16, 24, 16].as_slice());
    Ok(())
}
