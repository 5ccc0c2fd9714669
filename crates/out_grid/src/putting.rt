// Outlines are put into the cells that hold a point of their projections.
ghost use Rattle.std.specs.Prelude.{◌≡◌, ℕ, ◌+◌, ◌*◌, ◌-◌, ◌<◌, ◌≤◌, ◌^◌, List, [], ◌∷◌, ◌++◌, All, length, sum, slice_index_or, slice_set, vec_len, OnOk, OnErr, IfOk};
ghost use Rattle.std.specs.List.{AllZip};
ghost use Rattle.std.specs.List.Sorted.{IsStrictlyIncreasing};
ghost use Rattle.lattice.specs.Points.{of_dir};
ghost use Rattle.solid_mesh.specs.Solids.{solid_part, edge_halves};
ghost use Rattle.solid_mesh.specs.Stars.{lists_of};
ghost use Rattle.out_grid.specs.Cells.{IsRaster};
ghost use Rattle.out_grid.specs.Bounds.{IsSpanAt};
ghost use Rattle.out_grid.specs.inner.Courses.{span_of, Meets};
ghost use Rattle.out_grid.specs.inner.Lists.{IsPut, AreHeld};
ghost use Rattle.out_grid.specs.inner.Places.{raster_of, course_of, IsInside};

use crate::course::{Course, Rows};
use crate::lists::put_in;
use crate::meter::CellMeter;
use crate::places::course_along;
use crate::raster::Raster;
use exact_frac::OutOfMemory;
use lattice::Dir;
use solid_mesh::Solid;

/// Puts each of these outlines last into the cells that hold a point of it. Where memory runs out, some are not put.
pub(crate) fn put_outlines(
    solid: &Solid,
    d: &Dir,
    raster: &Raster,
    columns: u32,
    outlines: &[u32],
    cells: &mut Vec<Vec<u32>>,
    meter: &mut CellMeter,
) -> Result<(), OutOfMemory>
    requires raster { IsRaster (of_dir d.now) (solid_part solid.now).corners columns (raster_of raster.now) }
    requires some { 1 ≤ columns }
    requires few { columns ≤ 256 }
    requires in_range { All (λ i. i < length (edge_halves solid.now)) outlines.now }
    requires rising { IsStrictlyIncreasing outlines.now }
    requires few_outlines { length outlines.now < 2 ^ 32 }
    requires long { vec_len cells.old ≡ columns * columns }
    requires empty { (i : ℕ) → slice_index_or (lists_of cells.old.items) i [] ≡ [] }
    requires room { meter.old.cells < 2 ^ 62 }
    ensures long { vec_len cells.new ≡ columns * columns }
    ensures held { OnOk result (AreHeld (of_dir d.now) (raster_of raster.now) (solid_part solid.now) (edge_halves solid.now) outlines.now columns (lists_of cells.new.items)) }
    ensures counted_each { OnOk result (meter.old.cells + length outlines.now ≤ meter.new.cells) }
    ensures counted_on { meter.old.cells ≤ meter.new.cells }
    ensures counted { (spans : List ℕ) → AllZip (IsSpanAt (of_dir d.now) (raster_of raster.now) (solid_part solid.now) (edge_halves solid.now)) outlines.now spans →
        meter.new.cells ≤ meter.old.cells + sum spans }
    ensures size { meter.new.cells ≤ meter.old.cells + 512 * length outlines.now }
{
    for outline in outlines {
        let course = course_along(solid, d, raster, columns, *outline);
        put_course(cells, columns, &course, *outline, meter)?;
    }
    Ok(())
}

/// Puts an outline last into the cells of a course.
fn put_course(
    cells: &mut Vec<Vec<u32>>,
    columns: u32,
    course: &Course,
    outline: u32,
    meter: &mut CellMeter,
) -> Result<(), OutOfMemory>
    requires few { columns ≤ 256 }
    requires inside { IsInside columns (course_of course.now) }
    requires long { vec_len cells.old ≡ columns * columns }
    requires room { meter.old.cells + span_of (course_of course.now) < 2 ^ 64 }
    ensures long { vec_len cells.new ≡ columns * columns }
    ensures put { OnOk result (IsPut (Meets (course_of course.now)) columns outline (lists_of cells.old.items) (lists_of cells.new.items)) }
    ensures counted_some { OnOk result (meter.old.cells + 1 ≤ meter.new.cells) }
    ensures counted_on { meter.old.cells ≤ meter.new.cells }
    ensures counted { meter.new.cells ≤ meter.old.cells + span_of (course_of course.now) }
{
    for column in course.first_column()..course.last_column() + 1 {
        let rows = course.rows_in(column);
        put_column(cells, columns, column as u32, rows, outline, meter)?;
    }
    Ok(())
}

/// Puts an outline or a triangle last into the cells of a column that are in these rows.
pub(crate) fn put_column(
    cells: &mut Vec<Vec<u32>>,
    columns: u32,
    column: u32,
    rows: Rows,
    outline: u32,
    meter: &mut CellMeter,
) -> Result<(), OutOfMemory>
    requires few { columns ≤ 256 }
    requires column { column < columns }
    requires rows { rows.high < columns }
    requires long { vec_len cells.old ≡ columns * columns }
    requires room { meter.old.cells + ((rows.high - rows.low) + 1) < 2 ^ 64 }
    ensures long { vec_len cells.new ≡ columns * columns }
    ensures put { OnOk result (IsPut (λ c r. (c ≡ column) × (rows.low ≤ r) × (r ≤ rows.high)) columns outline (lists_of cells.old.items) (lists_of cells.new.items)) }
    ensures counted_each { OnOk result (meter.old.cells + ((rows.high - rows.low) + 1) ≤ meter.new.cells) }
    ensures counted_on { meter.old.cells ≤ meter.new.cells }
    ensures counted { meter.new.cells ≤ meter.old.cells + ((rows.high - rows.low) + 1) }
{
    for row in rows.low as u32..rows.high as u32 + 1 {
        put_in(cells, column * columns + row, outline, meter)?;
    }
    Ok(())
}
