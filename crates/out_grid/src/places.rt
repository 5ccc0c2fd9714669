// Where corners and edges of a solid are in a raster.
ghost use Rattle.std.specs.Prelude.{◌≡◌, ◌<◌, ◌≤◌, ◌^◌, ◌/◌, ◌+◌, pos, ◌-ℤ◌, ◌≤ℤ◌, Some, length, slice_get, unsigned_abs};
ghost use Rattle.lattice.specs.declared.points.Corner.{Corner};
ghost use Rattle.lattice.specs.Points.{of_dir};
ghost use Rattle.geometry.specs.Parts.{Edge, IsNumbered};
ghost use Rattle.solid_mesh.specs.Solids.{solid_part, edge_halves};
ghost use Rattle.out_grid.specs.Cells.{IsRaster};
ghost use Rattle.out_grid.specs.inner.Places.{raster_of, course_of, AreEnds, IsAt, IsCourseOf, IsInside};

use crate::course::Course;
use crate::raster::{Raster, RasterPlace};
use lattice::{Dir, Spot, across, upward};
use sheet_plan::extent;
use solid_mesh::Solid;

/// The raster of so many columns, and of rows as many. Goes twice over the corners.
pub(crate) fn raster_over(solid: &Solid, d: &Dir, columns: u32) -> Raster
    requires { 1 ≤ columns }
    ensures { IsRaster (of_dir d.now) (solid_part solid.now).corners columns (raster_of result) }
{
    let reach = extent(solid, d);
    Raster {
        left: reach.u_min,
        bottom: reach.v_min,
        width: cell_size(reach.u_min, reach.u_max, columns),
        height: cell_size(reach.v_min, reach.v_max, columns),
    }
}

/// So much of the way from the least to the greatest, rounded down, and one more.
fn cell_size(least: i64, greatest: i64, columns: u32) -> u64
    requires least { unsigned_abs least < 2 ^ 29 }
    requires greatest { unsigned_abs greatest < 2 ^ 29 }
    requires some { 1 ≤ columns }
    ensures value { result ≡ (unsigned_abs (greatest -ℤ least) / columns) + 1 }
    ensures size { result ≤ 2 ^ 30 }
{
    (greatest - least).unsigned_abs() / u64::from(columns) + 1
}

/// The place of a corner of the solid.
pub(crate) fn place_of(
    solid: &Solid,
    d: &Dir,
    raster: &Raster,
    columns: u32,
    corner: u32,
) -> RasterPlace
    requires corner { corner < length (solid_part solid.now).corners }
    requires raster { IsRaster (of_dir d.now) (solid_part solid.now).corners columns (raster_of raster.now) }
    requires some { 1 ≤ columns }
    ensures at { (c : Corner) → slice_get (solid_part solid.now).corners corner ≡ Some c → IsAt (of_dir d.now) (raster_of raster.now) c result.u result.v }
    ensures column { result.u / raster.now.width < columns }
    ensures row { result.v / raster.now.height < columns }
{
    let p = Spot::at(&solid.corner(corner));
    RasterPlace {
        u: distance(raster.left, across(d, &p).num),
        v: distance(raster.bottom, upward(d, &p).num),
    }
}

/// From one number to another that is not less.
fn distance(least: i64, value: i128) -> u64
    requires least { unsigned_abs least < 2 ^ 29 }
    requires value { unsigned_abs value ≤ 2 ^ 30 }
    requires order { least ≤ℤ value }
    ensures value { pos result ≡ value -ℤ least }
    ensures size { result < 2 ^ 31 }
{
    (value - i128::from(least)) as u64
}

/// The course of an edge of the solid.
pub(crate) fn course_along(
    solid: &Solid,
    d: &Dir,
    raster: &Raster,
    columns: u32,
    edge: u32,
) -> Course
    requires edge { edge < length (edge_halves solid.now) }
    requires raster { IsRaster (of_dir d.now) (solid_part solid.now).corners columns (raster_of raster.now) }
    requires some { 1 ≤ columns }
    ensures of_edge { (e : Edge (solid_part solid.now)) → IsNumbered (edge_halves solid.now) edge e → IsCourseOf (of_dir d.now) (raster_of raster.now) e.a e.b (course_of result) }
    ensures inside { IsInside columns (course_of result) }
{
    let numbers = solid.edge(edge);
    let a = place_of(solid, d, raster, columns, numbers.a);
    let b = place_of(solid, d, raster, columns, numbers.b);
    between(raster, a, b)
}

/// The course between two places.
fn between(raster: &Raster, a: RasterPlace, b: RasterPlace) -> Course
    ensures ends { AreEnds a.u a.v b.u b.v (course_of result) }
    ensures width { result.width ≡ raster.now.width }
    ensures height { result.height ≡ raster.now.height }
{
    if a.u <= b.u {
        ordered(raster, a, b)
    } else {
        ordered(raster, b, a)
    }
}

/// The course from one place to another that is not to its left.
fn ordered(raster: &Raster, from: RasterPlace, to: RasterPlace) -> Course
    requires { from.u ≤ to.u }
    ensures { course_of result ≡ record { from_u = from.u; from_v = from.v; to_u = to.u; to_v = to.v; width = raster.now.width; height = raster.now.height } }
{
    Course {
        from_u: from.u,
        from_v: from.v,
        to_u: to.u,
        to_v: to.v,
        width: raster.width,
        height: raster.height,
    }
}
