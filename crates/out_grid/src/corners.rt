// The cell of each corner.
ghost use Rattle.std.specs.Prelude.{◌≡◌, ℕ, ◌<◌, ◌≤◌, ◌+◌, ◌*◌, ◌/◌, Some, All, length, slice_get, IfOk};
ghost use Rattle.lattice.specs.declared.points.Corner.{Corner};
ghost use Rattle.lattice.specs.Points.{of_dir};
ghost use Rattle.solid_mesh.specs.Solids.{solid_part};
ghost use Rattle.out_grid.specs.Cells.{IsRaster};
ghost use Rattle.out_grid.specs.inner.Places.{raster_of, IsCellOf};

use crate::places::place_of;
use crate::raster::Raster;
use exact_frac::OutOfMemory;
use lattice::Dir;
use solid_mesh::Solid;
use std::alloc::Global;

/// The number of its cell for each corner.
pub(crate) fn corner_cells(
    alloc: Global,
    solid: &Solid,
    d: &Dir,
    raster: &Raster,
    columns: u32,
) -> Result<Vec<u32>, OutOfMemory>
    requires raster { IsRaster (of_dir d.now) (solid_part solid.now).corners columns (raster_of raster.now) }
    requires some { 1 ≤ columns }
    requires few { columns ≤ 256 }
    ensures for_each { IfOk result (λ cells. length cells.items ≡ length (solid_part solid.now).corners) }
    ensures within { IfOk result (λ cells. All (λ cell. cell < columns * columns) cells.items) }
    ensures right { IfOk result (λ cells. (number cell : ℕ) (c : Corner) → slice_get cells.items number ≡ Some cell → slice_get (solid_part solid.now).corners number ≡ Some c →
        IsCellOf (of_dir d.now) (raster_of raster.now) columns c cell) }
{
    let mut cells = Vec::new(alloc);
    for corner in 0..solid.corners() {
        cells.push(corner_cell(solid, d, raster, columns, corner))?;
    }
    Ok(cells)
}

/// The number of a corner's cell.
fn corner_cell(solid: &Solid, d: &Dir, raster: &Raster, columns: u32, corner: u32) -> u32
    requires corner { corner < length (solid_part solid.now).corners }
    requires raster { IsRaster (of_dir d.now) (solid_part solid.now).corners columns (raster_of raster.now) }
    requires some { 1 ≤ columns }
    requires few { columns ≤ 256 }
    ensures within { result < columns * columns }
    ensures right { (c : Corner) → slice_get (solid_part solid.now).corners corner ≡ Some c → IsCellOf (of_dir d.now) (raster_of raster.now) columns c result }
{
    let place = place_of(solid, d, raster, columns, corner);
    raster.cell_of(place, columns)
}
