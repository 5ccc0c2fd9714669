// The cell bound of a view.
ghost use Rattle.std.specs.Prelude.{◌≡◌, ℕ, ◌+◌, ◌*◌, ◌<◌, ◌≤◌, ◌^◌, List, All, length, sum};
ghost use Rattle.std.specs.List.{AllZip};
ghost use Rattle.lattice.specs.Points.{of_dir};
ghost use Rattle.edge_pick.specs.Picked.{IsPicked};
ghost use Rattle.solid_mesh.specs.Solids.{solid_part, edge_halves};
ghost use Rattle.out_grid.specs.Bounds.{IsSpanAt, IsCellBound};
ghost use Rattle.out_grid.specs.Cells.{IsRaster};
ghost use Rattle.out_grid.specs.inner.Places.{raster_of};

use crate::places::{course_along, raster_over};
use crate::raster::Raster;
use edge_pick::Picked;
use lattice::Dir;
use solid_mesh::Solid;

/// How often `GridOutlines::new` may count a cell: the sum of the spans of all outlines and of all drawn edges, where an edge's
/// span is one less than the columns and the rows together in which its projection has a point.
///
/// Takes no memory, and time that is linear in the corners, the outlines and the drawn edges.
pub fn cell_bound(solid: &Solid, d: &Dir, picked: &Picked, columns: u32) -> u64
    requires some { 1 ≤ columns }
    requires few { columns ≤ 256 }
    requires picked { (fraction : ℕ) × IsPicked (of_dir d.now) fraction (solid_part solid.now) (edge_halves solid.now) picked.now }
    ensures bound { IsCellBound (of_dir d.now) (solid_part solid.now) (edge_halves solid.now) picked.now columns result }
    ensures size { result < 2 ^ 32 }
{
    let raster = raster_over(solid, d, columns);
    spans_of(solid, d, &raster, columns, &picked.outlines)
        + spans_of(solid, d, &raster, columns, &picked.drawn)
}

/// The sum of the spans of these edges.
fn spans_of(solid: &Solid, d: &Dir, raster: &Raster, columns: u32, edges: &[u32]) -> u64
    requires raster { IsRaster (of_dir d.now) (solid_part solid.now).corners columns (raster_of raster.now) }
    requires some { 1 ≤ columns }
    requires few { columns ≤ 256 }
    requires in_range { All (λ i. i < length (edge_halves solid.now)) edges.now }
    requires few_edges { length edges.now ≤ 60000 }
    ensures sum { (spans : List ℕ) × AllZip (IsSpanAt (of_dir d.now) (raster_of raster.now) (solid_part solid.now) (edge_halves solid.now)) edges.now spans × (result ≡ sum spans) }
    ensures size { result ≤ 30720000 }
{
    let mut sum = 0;
    for edge in edges {
        sum += course_along(solid, d, raster, columns, *edge).span();
    }
    sum
}
