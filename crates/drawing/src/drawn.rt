// The drawing of a solid by a job on a sheet.
ghost use Rattle.std.specs.Prelude.{◌≡◌, IfOk};
ghost use Rattle.drawing.specs.Drawing.{HasPlaces, IsDrawing};
ghost use Rattle.drawing.specs.Numbers.{SumsViews};

use crate::views::{Views, views_of};
use cross_find::Meter;
use exact_frac::OutOfMemory;
use job_file::Job;
use out_grid::CellMeter;
use sheet_plan::Sheet;
use solid_mesh::Solid;
use std::alloc::Global;
use view_lines::{ViewDrawing, ViewNumbers};

/// A part, the job that it is drawn by, the sheet, and the job's views in their order.
#[derive(Drop)]
pub struct Drawing {
    pub solid: Solid,
    pub job: Job,
    pub sheet: Sheet,
    pub views: Vec<ViewDrawing>,
    /// The tests that were made for the counts of the plain views, at most as many as the bound.
    pub meter: Meter,
    /// The sum of the bounds of the plain views.
    pub bound: u64,
    /// The tests that were made for the counts of the views of cuts, at most as many as the cut bound.
    pub cut_meter: Meter,
    /// The sum of the cut bounds of the views of cuts.
    pub cut_bound: u64,
    /// The cells that were counted for the grids of all views, at most as many as the cell bound.
    pub cells: CellMeter,
    /// The sum of the cell bounds of all views.
    pub cell_bound: u64,
}

/// A drawing, and the sums of the numbers of its views.
#[derive(Drop)]
pub struct Numbered {
    pub drawing: Drawing,
    pub numbers: ViewNumbers,
}

/// What the job's views of the solid show on this sheet, which has a place for each. Only want of memory is refused. The time is that
/// of the views.
pub fn drawing_on(
    alloc: Global,
    solid: Solid,
    job: Job,
    sheet: Sheet,
) -> Result<Numbered, OutOfMemory>
    requires { HasPlaces job.views.items sheet }
    ensures of { IfOk result (λ made. (made.drawing.solid ≡ solid) × (made.drawing.job ≡ job) × (made.drawing.sheet ≡ sheet)) }
    ensures shows { IfOk result (λ made. IsDrawing made.drawing) }
    ensures sums { IfOk result (λ made. SumsViews made.drawing.solid made.drawing.job.crease made.drawing.job.views.items made.numbers) }
{
    let Views { views, numbers } = views_of(
        alloc,
        &solid,
        job.crease,
        sheet.spacing(),
        &job.views,
    )?;
    let drawing = Drawing {
        solid,
        job,
        sheet,
        views,
        meter: Meter {
            tests: numbers.tests,
        },
        bound: numbers.bound,
        cut_meter: Meter {
            tests: numbers.cut_tests,
        },
        cut_bound: numbers.cut_bound,
        cells: CellMeter {
            cells: numbers.cells,
        },
        cell_bound: numbers.cell_bound,
    };
    Ok(Numbered { drawing, numbers })
}
