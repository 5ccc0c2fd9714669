// Triangles that are put into the cells which the boxes of their U and V meet.
ghost use Rattle.std.specs.Prelude.{◌≡◌, ℕ, ◌+◌, ◌-◌, ◌*◌, ◌/◌, ◌%◌, ◌<◌, ◌≤◌, ◌^◌, [], All, Some, length, slice_get, vec_len, min, max, OnOk};
ghost use Rattle.lattice.specs.declared.soup.Tri.{Tri};
ghost use Rattle.solid_mesh.specs.Solids.{solid_part};
ghost use Rattle.solid_mesh.specs.Stars.{lists_of};
ghost use Rattle.out_grid.specs.Grids.{list_at};
ghost use Rattle.out_grid.specs.inner.Lists.{IsPut};
ghost use Rattle.out_grid.specs.inner.Triangles.{IsAmong, IsInBox, AreFilled, box_size, box_sizes};

use crate::course::Rows;
use crate::meter::{CellMeter, NearMeter};
use crate::putting::put_column;
use exact_frac::OutOfMemory;
use solid_mesh::Solid;
use std::alloc::Global;

/// The columns from the first to the last, and the rows, in which a triangle's corners are, and those between.
#[derive(Clone, Copy)]
pub(crate) struct CellBox {
    pub(crate) first: u32,
    pub(crate) last: u32,
    pub(crate) rows: Rows,
    ghost in_order: { first ≤ last },
}

impl CellBox {
    /// How many cells it has.
    pub(crate) fn cells(&self) -> u64
        requires last { self.now.last < 256 }
        requires high { self.now.rows.high < 256 }
        ensures value { result ≡ ((self.now.last - self.now.first) + 1) * ((self.now.rows.high - self.now.rows.low) + 1) }
        ensures size { result ≤ 65536 }
    {
        u64::from(self.last - self.first + 1) * (self.rows.high - self.rows.low + 1)
    }
}

/// The least of three numbers.
fn least(a: u32, b: u32, c: u32) -> u32
    ensures value { result ≡ min (min a b) c }
    ensures a { result ≤ a }
    ensures b { result ≤ b }
    ensures c { result ≤ c }
{
    a.min(b).min(c)
}

/// The greatest of three numbers.
fn greatest(a: u32, b: u32, c: u32) -> u32
    ensures value { result ≡ max (max a b) c }
    ensures a { a ≤ result }
    ensures b { b ≤ result }
    ensures c { c ≤ result }
    ensures below { (n : ℕ) → a < n → b < n → c < n → result < n }
{
    a.max(b).max(c)
}

/// The box of a triangle, by the cells of all corners in so many columns and rows as many.
pub(crate) fn box_of(solid: &Solid, columns: u32, cells: &[u32], tri: u32) -> CellBox
    requires tri { tri < length (solid_part solid.now).triangles }
    requires some { 1 ≤ columns }
    requires few { columns ≤ 256 }
    requires for_each { length cells.now ≡ length (solid_part solid.now).corners }
    requires within { All (λ cell. cell < columns * columns) cells.now }
    ensures last { result.last < columns }
    ensures high { result.rows.high < columns }
    ensures size { (t : Tri) → slice_get (solid_part solid.now).triangles tri ≡ Some t →
        ((result.last - result.first) + 1) * ((result.rows.high - result.rows.low) + 1) ≡ box_size columns cells.now t }
    ensures holds { (t : Tri) (column row : ℕ) → slice_get (solid_part solid.now).triangles tri ≡ Some t → IsInBox columns cells.now t column row →
        (result.first ≤ column) × (column ≤ result.last) × (result.rows.low ≤ row) × (row ≤ result.rows.high) }
{
    let t = solid.triangle(tri);
    let (a, b, c) = (
        cells[t.a as usize],
        cells[t.b as usize],
        cells[t.c as usize],
    );
    CellBox {
        first: least(a / columns, b / columns, c / columns),
        last: greatest(a / columns, b / columns, c / columns),
        rows: Rows {
            low: u64::from(least(a % columns, b % columns, c % columns)),
            high: u64::from(greatest(a % columns, b % columns, c % columns)),
        },
    }
}

/// Puts a triangle last into the cells of its box.
fn put_box(
    cells: &mut Vec<Vec<u32>>,
    columns: u32,
    cell_box: &CellBox,
    tri: u32,
    meter: &mut CellMeter,
) -> Result<(), OutOfMemory>
    requires few { columns ≤ 256 }
    requires last { cell_box.now.last < columns }
    requires high { cell_box.now.rows.high < columns }
    requires long { vec_len cells.old ≡ columns * columns }
    requires room { meter.old.cells + ((cell_box.now.last - cell_box.now.first) + 1) * ((cell_box.now.rows.high - cell_box.now.rows.low) + 1) < 2 ^ 64 }
    ensures long { vec_len cells.new ≡ columns * columns }
    ensures put { OnOk result (IsPut (λ c r. (cell_box.now.first ≤ c) × (c ≤ cell_box.now.last) × (cell_box.now.rows.low ≤ r) × (r ≤ cell_box.now.rows.high))
        columns tri (lists_of cells.old.items) (lists_of cells.new.items)) }
    ensures counted { meter.new.cells ≤ meter.old.cells + ((cell_box.now.last - cell_box.now.first) + 1) * ((cell_box.now.rows.high - cell_box.now.rows.low) + 1) }
    ensures counted_some { OnOk result (meter.old.cells + 1 ≤ meter.new.cells) }
{
    for column in cell_box.first..cell_box.last + 1 {
        put_column(cells, columns, column, cell_box.rows, tri, meter)?;
    }
    Ok(())
}

/// Looks at the box of a triangle, and puts it last into the cells of that.
fn put_triangle(
    solid: &Solid,
    columns: u32,
    corner_cells: &[u32],
    cells: &mut Vec<Vec<u32>>,
    tri: u32,
    meter: &mut NearMeter,
) -> Result<(), OutOfMemory>
    requires tri { tri < length (solid_part solid.now).triangles }
    requires some { 1 ≤ columns }
    requires few { columns ≤ 256 }
    requires for_each { length corner_cells.now ≡ length (solid_part solid.now).corners }
    requires within { All (λ cell. cell < columns * columns) corner_cells.now }
    requires long { vec_len cells.old ≡ columns * columns }
    requires filled { AreFilled columns corner_cells.now (solid_part solid.now).triangles tri (lists_of cells.old.items) }
    requires room { meter.old.steps < 2 ^ 63 }
    ensures long { vec_len cells.new ≡ columns * columns }
    ensures filled { OnOk result (AreFilled columns corner_cells.now (solid_part solid.now).triangles (tri + 1) (lists_of cells.new.items)) }
    ensures counted { (t : Tri) → slice_get (solid_part solid.now).triangles tri ≡ Some t → meter.new.steps ≤ meter.old.steps + (1 + box_size columns corner_cells.now t) }
    ensures counted_each { OnOk result (meter.old.steps + 2 ≤ meter.new.steps) }
{
    let cell_box = box_of(solid, columns, corner_cells, tri);
    let mut put = CellMeter { cells: 0 };
    let done = put_box(cells, columns, &cell_box, tri, &mut put);
    meter.steps += 1 + put.cells;
    done
}

/// Puts each triangle, in order, into the cells of its box. It counts each triangle and each of those cells.
pub(crate) fn put_triangles(
    solid: &Solid,
    columns: u32,
    corner_cells: &[u32],
    cells: &mut Vec<Vec<u32>>,
    meter: &mut NearMeter,
) -> Result<(), OutOfMemory>
    requires some { 1 ≤ columns }
    requires few { columns ≤ 256 }
    requires for_each { length corner_cells.now ≡ length (solid_part solid.now).corners }
    requires within { All (λ cell. cell < columns * columns) corner_cells.now }
    requires long { vec_len cells.old ≡ columns * columns }
    requires empty { (i : ℕ) → list_at (lists_of cells.old.items) i ≡ [] }
    requires room { meter.old.steps + (length (solid_part solid.now).triangles + box_sizes columns corner_cells.now (solid_part solid.now).triangles) < 2 ^ 63 }
    ensures long { vec_len cells.new ≡ columns * columns }
    ensures filled { OnOk result (AreFilled columns corner_cells.now (solid_part solid.now).triangles (length (solid_part solid.now).triangles) (lists_of cells.new.items)) }
    ensures counted { meter.new.steps ≤ meter.old.steps + (length (solid_part solid.now).triangles + box_sizes columns corner_cells.now (solid_part solid.now).triangles) }
    ensures counted_each { OnOk result (meter.old.steps + 2 * length (solid_part solid.now).triangles ≤ meter.new.steps) }
{
    for tri in 0..solid.triangles() {
        put_triangle(solid, columns, corner_cells, cells, tri, meter)?;
    }
    Ok(())
}
