// Cells so large that the boxes of triangles meet few of them.
ghost use Rattle.std.specs.Prelude.{◌≡◌, ℕ, ◌+◌, ◌*◌, ◌/◌, ◌%◌, ◌<◌, ◌≤◌, ◌^◌, false, All, length, IfOk, OnOk};
ghost use Rattle.lattice.specs.Points.{of_dir};
ghost use Rattle.solid_mesh.specs.Solids.{solid_part};
ghost use Rattle.out_grid.specs.inner.Triangles.{AreCellsOf, IsHalfOf, AreHalved, AreRoomy};

use crate::boxes::box_of;
use crate::corners::corner_cells;
use crate::meter::NearMeter;
use crate::places::raster_over;
use exact_frac::OutOfMemory;
use lattice::Dir;
use solid_mesh::Solid;
use std::alloc::Global;

/// The cells of the corners of a view, by numbers, in so many columns and rows as many.
#[derive(Drop)]
pub(crate) struct CornerCells {
    pub(crate) columns: u32,
    pub(crate) cells: Vec<u32>,
}

/// The cells of corners, so large that a triangle's box meets few: about as many as there are triangles, or a quarter of these, and so
/// on, until they hold at most eight times as many triangles as there are. It counts each cell of a corner and each triangle that it
/// looks at.
pub(crate) fn cells_for(
    alloc: Global,
    solid: &Solid,
    d: &Dir,
    meter: &mut NearMeter,
) -> Result<CornerCells, OutOfMemory>
    requires room { meter.old.steps < 2 ^ 62 }
    ensures some { IfOk result (λ x. 1 ≤ x.columns) }
    ensures few { IfOk result (λ x. x.columns ≤ 256) }
    ensures cells { IfOk result (λ x. AreCellsOf (of_dir d.now) (solid_part solid.now) x.columns x.cells.items) }
    ensures fewer { IfOk result (λ x. x.columns * x.columns ≤ length (solid_part solid.now).triangles) }
    ensures roomy { IfOk result (λ x. AreRoomy x.columns x.cells.items (solid_part solid.now).triangles) }
    ensures counted { meter.new.steps ≤ meter.old.steps + (9 * length (solid_part solid.now).corners + 8 * length (solid_part solid.now).triangles) }
    ensures counted_each { OnOk result (meter.old.steps + length (solid_part solid.now).corners ≤ meter.new.steps) }
{
    let mut columns = columns_for(solid);
    let raster = raster_over(solid, d, columns);
    let mut cells = corner_cells(alloc, solid, d, &raster, columns)?;
    meter.steps += cells.len() as u64;
    while 1 < columns && are_crowded(solid, columns, &cells, meter) {
        cells = halved(alloc, columns, &cells, meter)?;
        columns = (columns + 1) / 2;
    }
    Ok(CornerCells { columns, cells })
}

/// The whole square root of the number of triangles, but at least 1 and at most 256.
fn columns_for(solid: &Solid) -> u32
    ensures some { 1 ≤ result }
    ensures few { result ≤ 256 }
    ensures square { result * result ≤ length (solid_part solid.now).triangles }
{
    solid.triangles().isqrt().clamp(1, 256)
}

/// The boxes of triangles meet more than eight times as many cells as there are triangles. It counts each triangle.
fn are_crowded(solid: &Solid, columns: u32, cells: &[u32], meter: &mut NearMeter) -> bool
    requires some { 1 ≤ columns }
    requires few { columns ≤ 256 }
    requires for_each { length cells.now ≡ length (solid_part solid.now).corners }
    requires within { All (λ cell. cell < columns * columns) cells.now }
    requires room { meter.old.steps < 2 ^ 63 }
    ensures roomy { result ≡ false → AreRoomy columns cells.now (solid_part solid.now).triangles }
    ensures counted { meter.new.steps ≡ meter.old.steps + length (solid_part solid.now).triangles }
{
    let mut met = 0;
    for tri in 0..solid.triangles() {
        meter.steps += 1;
        met += box_of(solid, columns, cells, tri).cells();
    }
    8 * u64::from(solid.triangles()) < met
}

/// The same cells of corners where two columns and two rows are made one. It counts each corner.
fn halved(
    alloc: Global,
    columns: u32,
    cells: &[u32],
    meter: &mut NearMeter,
) -> Result<Vec<u32>, OutOfMemory>
    requires some { 1 ≤ columns }
    requires few { columns ≤ 256 }
    requires within { All (λ cell. cell < columns * columns) cells.now }
    requires room { meter.old.steps + length cells.now < 2 ^ 64 }
    ensures halved { IfOk result (λ fewer. AreHalved columns cells.now fewer.items) }
    ensures counted { meter.new.steps ≤ meter.old.steps + length cells.now }
    ensures counted_on { meter.old.steps ≤ meter.new.steps }
{
    let mut fewer = Vec::new(alloc);
    for cell in cells {
        meter.steps += 1;
        fewer.push(half_cell(columns, *cell))?;
    }
    Ok(fewer)
}

/// The number of a cell where two columns and two rows are made one.
fn half_cell(columns: u32, cell: u32) -> u32
    requires some { 1 ≤ columns }
    requires few { columns ≤ 256 }
    requires within { cell < columns * columns }
    ensures { IsHalfOf columns cell result }
{
    (cell / columns / 2) * ((columns + 1) / 2) + cell % columns / 2
}
