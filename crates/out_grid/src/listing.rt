// The outlines of each drawn edge: those in the cells that hold a point of its projection.
ghost use Rattle.std.specs.Prelude.{◌≡◌, ℕ, ◌+◌, ◌*◌, ◌-◌, ◌<◌, ◌≤◌, ◌^◌, List, [], All, Contains, length, sum, slice_index_or, vec_len, OnOk, IfOk};
ghost use Rattle.std.specs.List.{AllZip};
ghost use Rattle.std.specs.List.Sorted.{IsStrictlyIncreasing};
ghost use Rattle.lattice.specs.Points.{of_dir};
ghost use Rattle.geometry.specs.Parts.{Edge, IsNumbered};
ghost use Rattle.solid_mesh.specs.Solids.{solid_part, edge_halves};
ghost use Rattle.solid_mesh.specs.Stars.{lists_of};
ghost use Rattle.edge_pick.specs.Picked.{IsPicked};
ghost use Rattle.out_grid.specs.Cells.{IsRaster, ShareCell};
ghost use Rattle.out_grid.specs.Bounds.{IsSpanAt};
ghost use Rattle.out_grid.specs.Grids.{list_at, HoldsThose};
ghost use Rattle.out_grid.specs.inner.Courses.{span_of, Meets};
ghost use Rattle.out_grid.specs.inner.Lists.{AreHeld, IsStamped, IsGrown, IsInSome};
ghost use Rattle.out_grid.specs.inner.Places.{raster_of, course_of, IsInside};

use crate::course::{Course, Rows};
use crate::lists::empty_lists;
use crate::meter::CellMeter;
use crate::places::course_along;
use crate::raster::Raster;
use edge_pick::Picked;
use exact_frac::OutOfMemory;
use lattice::Dir;
use solid_mesh::Solid;
use std::alloc::Global;

/// For each edge of the solid the list of the outlines that share a cell with it, if it is drawn, and else an empty list. A stamp
/// at each outline tells the last edge that took it, so each is taken once without a search in the list.
pub(crate) fn lists_along(
    alloc: Global,
    solid: &Solid,
    d: &Dir,
    raster: &Raster,
    columns: u32,
    picked: &Picked,
    cells: &[Vec<u32>],
    meter: &mut CellMeter,
) -> Result<Vec<Vec<u32>>, OutOfMemory>
    requires raster { IsRaster (of_dir d.now) (solid_part solid.now).corners columns (raster_of raster.now) }
    requires some { 1 ≤ columns }
    requires few { columns ≤ 256 }
    requires picked { (fraction : ℕ) × IsPicked (of_dir d.now) fraction (solid_part solid.now) (edge_halves solid.now) picked.now }
    requires long { length cells.now ≡ columns * columns }
    requires held { AreHeld (of_dir d.now) (raster_of raster.now) (solid_part solid.now) (edge_halves solid.now) picked.now.outlines.items columns (lists_of cells.now) }
    requires room { meter.old.cells < 2 ^ 63 }
    ensures along { IfOk result (λ lists. (i : ℕ) (e : Edge (solid_part solid.now)) → Contains picked.now.drawn.items i → IsNumbered (edge_halves solid.now) i e →
        HoldsThose {s = solid_part solid.now} (edge_halves solid.now) picked.now.outlines.items (ShareCell (of_dir d.now) (raster_of raster.now) e) (list_at (lists_of lists.items) i)) }
    ensures others { IfOk result (λ lists. (i : ℕ) → (¬ Contains picked.now.drawn.items i) → list_at (lists_of lists.items) i ≡ []) }
    ensures counted_each { OnOk result (meter.old.cells + length picked.now.drawn.items ≤ meter.new.cells) }
    ensures counted_on { meter.old.cells ≤ meter.new.cells }
    ensures counted { (spans : List ℕ) → AllZip (IsSpanAt (of_dir d.now) (raster_of raster.now) (solid_part solid.now) (edge_halves solid.now)) picked.now.drawn.items spans →
        meter.new.cells ≤ meter.old.cells + sum spans }
{
    let mut lists = empty_lists(alloc, solid.edges())?;
    let mut stamps = no_stamps(alloc, solid.edges())?;
    for edge in &picked.drawn {
        let course = course_along(solid, d, raster, columns, *edge);
        let list = list_course(
            alloc,
            &mut stamps,
            *edge + 1,
            &course,
            columns,
            cells,
            meter,
        )?;
        lists[*edge as usize] = list;
    }
    Ok(lists)
}

/// A stamp for each edge, which no edge left.
fn no_stamps(alloc: Global, count: u32) -> Result<Vec<u32>, OutOfMemory>
    ensures for_each { IfOk result (λ stamps. length stamps.items ≡ count) }
    ensures none { IfOk result (λ stamps. All (λ m. m ≡ 0) stamps.items) }
{
    let mut stamps = Vec::new(alloc);
    for _ in 0..count {
        stamps.push(0)?;
    }
    Ok(stamps)
}

/// The outlines in the cells of a course, each once. They get this stamp, which is above all others.
fn list_course(
    alloc: Global,
    stamps: &mut Vec<u32>,
    stamp: u32,
    course: &Course,
    columns: u32,
    cells: &[Vec<u32>],
    meter: &mut CellMeter,
) -> Result<Vec<u32>, OutOfMemory>
    requires few { columns ≤ 256 }
    requires inside { IsInside columns (course_of course.now) }
    requires long { length cells.now ≡ columns * columns }
    requires stamps_below { All (λ m. m < stamp) stamps.old.items }
    requires in_range { All (All (λ k. k < length stamps.old.items)) (lists_of cells.now) }
    requires room { meter.old.cells + span_of (course_of course.now) < 2 ^ 64 }
    ensures stamps_long { length stamps.new.items ≡ length stamps.old.items }
    ensures stamped { IfOk result (λ list. IsStamped stamp stamps.new.items list.items) }
    ensures right { IfOk result (λ list. IsGrown (IsInSome (Meets (course_of course.now)) columns (lists_of cells.now)) [] list.items) }
    ensures counted_some { OnOk result (meter.old.cells + 1 ≤ meter.new.cells) }
    ensures counted_on { meter.old.cells ≤ meter.new.cells }
    ensures counted { meter.new.cells ≤ meter.old.cells + span_of (course_of course.now) }
{
    let mut list = Vec::new(alloc);
    for column in course.first_column()..course.last_column() + 1 {
        let rows = course.rows_in(column);
        list_column(
            &mut list,
            stamps,
            stamp,
            columns,
            column as u32,
            rows,
            cells,
            meter,
        )?;
    }
    Ok(list)
}

/// Adds the outlines of a column's cells in these rows that are not yet in the list.
fn list_column(
    list: &mut Vec<u32>,
    stamps: &mut Vec<u32>,
    stamp: u32,
    columns: u32,
    column: u32,
    rows: Rows,
    cells: &[Vec<u32>],
    meter: &mut CellMeter,
) -> Result<(), OutOfMemory>
    requires few { columns ≤ 256 }
    requires column { column < columns }
    requires rows { rows.high < columns }
    requires long { length cells.now ≡ columns * columns }
    requires in_range { All (All (λ k. k < length stamps.old.items)) (lists_of cells.now) }
    requires stamped { IsStamped stamp stamps.old.items list.old.items }
    requires room { meter.old.cells + ((rows.high - rows.low) + 1) < 2 ^ 64 }
    ensures stamps_long { length stamps.new.items ≡ length stamps.old.items }
    ensures stamped { OnOk result (IsStamped stamp stamps.new.items list.new.items) }
    ensures right { OnOk result (IsGrown (IsInSome (λ c r. (c ≡ column) × (rows.low ≤ r) × (r ≤ rows.high)) columns (lists_of cells.now)) list.old.items list.new.items) }
    ensures counted_each { OnOk result (meter.old.cells + ((rows.high - rows.low) + 1) ≤ meter.new.cells) }
    ensures counted_on { meter.old.cells ≤ meter.new.cells }
    ensures counted { meter.new.cells ≤ meter.old.cells + ((rows.high - rows.low) + 1) }
{
    for row in rows.low as u32..rows.high as u32 + 1 {
        meter.cells += 1;
        add_new(
            list,
            stamps,
            stamp,
            &cells[(column * columns + row) as usize],
        )?;
    }
    Ok(())
}

/// Adds those of these outlines that do not have the stamp, and gives it to them.
fn add_new(
    list: &mut Vec<u32>,
    stamps: &mut Vec<u32>,
    stamp: u32,
    outlines: &[u32],
) -> Result<(), OutOfMemory>
    requires in_range { All (λ k. k < length stamps.old.items) outlines.now }
    requires stamped { IsStamped stamp stamps.old.items list.old.items }
    ensures stamps_long { length stamps.new.items ≡ length stamps.old.items }
    ensures stamped { OnOk result (IsStamped stamp stamps.new.items list.new.items) }
    ensures right { OnOk result (IsGrown (Contains outlines.now) list.old.items list.new.items) }
{
    for outline in outlines {
        if stamps[*outline as usize] != stamp {
            stamps[*outline as usize] = stamp;
            list.push(*outline)?;
        }
    }
    Ok(())
}
