// The counts of nearer faces along the drawn edges of a view, and the view's numbers.
ghost use Rattle.std.specs.Prelude.{◌≡◌, ℕ, ◌≤◌, ◌<◌, ◌^◌, length, IfOk};
ghost use Rattle.lattice.specs.Creases.{fraction_of};
ghost use Rattle.lattice.specs.Cuts.{plane_of, toward_of};
ghost use Rattle.lattice.specs.Points.{of_dir};
ghost use Rattle.cut_plane.specs.Loops.{AreBorders};
ghost use Rattle.edge_pick.specs.Picked.{IsPicked};
ghost use Rattle.out_grid.specs.Grids.{along_list, over_list, is_listed_near};
ghost use Rattle.solid_mesh.specs.Solids.{solid_part, edge_halves};
ghost use Rattle.span_count.specs.Finders.{IsFinder};
ghost use Rattle.view_lines.specs.Counts.{AreCountsAlong, AreCountsBeyond};
ghost use Rattle.view_lines.specs.Numbers.{IsGridSize, IsGridBound, CountsPicked, CountsCut, AreBelow};

use crate::numbers::ViewNumbers;
use cross_find::{Meter, SolidSight};
use cut_count::{cut_bound, spans_cut};
use cut_plane::Section;
use edge_pick::{Crease, Picked};
use exact_frac::OutOfMemory;
use lattice::Dir;
use out_grid::{CellMeter, GridOutlines, cell_bound};
use solid_mesh::Solid;
use span_count::{EdgeSpans, bound, count_runs, spans_counted};
use std::alloc::Global;

/// The spans of each drawn edge of a view with their counts, and the view's numbers.
#[derive(Drop)]
pub(crate) struct Counts {
    pub entries: Vec<EdgeSpans>,
    pub numbers: ViewNumbers,
}

/// What was picked for a view in a grid over it, how many cells were counted to make it, and their bound.
#[derive(Drop)]
struct ViewGrid {
    pub outlines: GridOutlines,
    pub cells: u64,
    pub bound: u64,
}

/// The columns of a grid for these outlines, which has as many rows: the whole square root of their number, so that an outline is in
/// few cells and a cell has few outlines, but at least 1 and at most 256.
fn columns_for(outlines: &[u32]) -> u32
    ensures size { IsGridSize (length outlines.now) result }
    ensures some { 1 ≤ result }
    ensures few { result ≤ 256 }
{
    outlines.len().isqrt().clamp(1, 256) as u32
}

/// The grid over the view that this was picked for, as large as its outlines ask. To make it at most as many cells as its bound are
/// counted.
fn view_grid(
    alloc: Global,
    solid: &Solid,
    d: &Dir,
    picked: &Picked,
) -> Result<ViewGrid, OutOfMemory>
    requires { (fraction : ℕ) × IsPicked (of_dir d.now) fraction (solid_part solid.now) (edge_halves solid.now) picked.now }
    ensures law { IfOk result (λ g. (tests : ℕ) → IsFinder (record { part = solid_part solid.now; halves = edge_halves solid.now; direction = of_dir d.now; tests = tests })
        picked.now (along_list g.outlines) (over_list g.outlines) (is_listed_near g.outlines)) }
    ensures bound { IfOk result (λ g. IsGridBound (of_dir d.now) solid.now picked.now g.bound) }
    ensures celled { IfOk result (λ g. g.cells ≤ g.bound) }
    ensures small { IfOk result (λ g. g.bound < 2 ^ 48) }
{
    let mut meter = CellMeter { cells: 0 };
    let columns = columns_for(&picked.outlines);
    let outlines = GridOutlines::new(alloc, solid, d, picked, columns, &mut meter)?;
    Ok(ViewGrid {
        outlines,
        cells: meter.cells,
        bound: cell_bound(solid, d, picked, columns),
    })
}

/// The counts of the plain view that this was picked for with this crease, by as many tests as its bound at most. The outlines that
/// are tested along an edge are those of the cells of a grid that it passes, and over a corner those of its cell. To make the grid it
/// counts at most as many cells as its cell bound.
pub(crate) fn counts_along(
    alloc: Global,
    solid: &Solid,
    d: &Dir,
    crease: Crease,
    picked: &Picked,
) -> Result<Counts, OutOfMemory>
    requires { IsPicked (of_dir d.now) (fraction_of crease) (solid_part solid.now) (edge_halves solid.now) picked.now }
    ensures right { IfOk result (λ x. AreCountsAlong (of_dir d.now) (fraction_of crease) solid.now x.entries.items) }
    ensures counted { IfOk result (λ x. CountsPicked (of_dir d.now) solid.now picked.now x.numbers) }
    ensures tested { IfOk result (λ x. x.numbers.tests ≤ x.numbers.bound) }
    ensures cut_tested { IfOk result (λ x. x.numbers.cut_tests ≤ x.numbers.cut_bound) }
    ensures celled { IfOk result (λ x. x.numbers.cells ≤ x.numbers.cell_bound) }
    ensures small { IfOk result (λ x. AreBelow (2 ^ 48) x.numbers) }
{
    let mut sight = SolidSight::new(solid, d);
    let grid = view_grid(alloc, solid, d, picked)?;
    let bound = bound(solid, picked);
    let entries = spans_counted(alloc, &mut sight, picked, &grid.outlines)?;
    let numbers = ViewNumbers {
        edges: picked.drawn.len() as u64,
        runs: count_runs(&picked.runs),
        bound,
        tests: sight.tests(),
        cut_bound: 0,
        cut_tests: 0,
        cell_bound: grid.bound,
        cells: grid.cells,
    };
    Ok(Counts { entries, numbers })
}

/// The counts of the view of a cut that this was picked for with this crease, by as many tests as its bound at most. The outlines that
/// are tested along an edge are those of the cells of a grid that it passes. To make the grid it counts at most as many cells as its
/// cell bound.
pub(crate) fn counts_beyond(
    alloc: Global,
    solid: &Solid,
    section: &Section,
    crease: Crease,
    picked: &Picked,
) -> Result<Counts, OutOfMemory>
    requires borders { AreBorders (plane_of section.now.cut) (solid_part solid.now) section.now.segments.items section.now.loops.items }
    requires picked { IsPicked (toward_of (plane_of section.now.cut)) (fraction_of crease) (solid_part solid.now) (edge_halves solid.now) picked.now }
    ensures right { IfOk result (λ x. AreCountsBeyond (plane_of section.now.cut) (fraction_of crease) solid.now x.entries.items) }
    ensures counted { IfOk result (λ x. CountsCut (plane_of section.now.cut) solid.now section.now picked.now x.numbers) }
    ensures tested { IfOk result (λ x. x.numbers.tests ≤ x.numbers.bound) }
    ensures cut_tested { IfOk result (λ x. x.numbers.cut_tests ≤ x.numbers.cut_bound) }
    ensures celled { IfOk result (λ x. x.numbers.cells ≤ x.numbers.cell_bound) }
    ensures small { IfOk result (λ x. AreBelow (2 ^ 48) x.numbers) }
{
    let d = section.cut.dir();
    let grid = view_grid(alloc, solid, &d, picked)?;
    let cut_bound = cut_bound(solid, section, picked);
    let mut meter = Meter { tests: 0 };
    let entries = spans_cut(alloc, solid, section, picked, &grid.outlines, &mut meter)?;
    let numbers = ViewNumbers {
        edges: 0,
        runs: 0,
        bound: 0,
        tests: 0,
        cut_bound,
        cut_tests: meter.tests,
        cell_bound: grid.bound,
        cells: grid.cells,
    };
    Ok(Counts { entries, numbers })
}
