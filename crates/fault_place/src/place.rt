// The place of a fault.
ghost use Rattle.std.specs.Prelude.{◌+◌, ◌*◌, ◌<◌, length, IfOk};
ghost use Rattle.geometry.specs.Parts.{part_of};
ghost use Rattle.solid_mesh.specs.Faults.{HasFault};
ghost use Rattle.fault_place.specs.Places.{IsTriangle, IsSide, IsBetween, IsPlaceOf};

use crate::bounds::{middle_of, side_bounds, triangle_bounds};
use crate::first_point::of_meeting;
use crate::halves::half_of_edge;
use exact_frac::OutOfMemory;
use lattice::{Corner, Soup};
use solid_mesh::MeshFault;
use std::alloc::Global;

/// Where a fault of a surface is, in units. Of `Meet` it is the first point of the edge that the triangle has, from the corner at
/// which the edge's half begins, each coordinate rounded to the nearest whole number, and halves up; that takes the time of two hashes
/// for each directed side, and memory. Of any other fault it is the middle of the box that both of its figures have in common: along
/// each axis, half the sum of the greater of their least coordinates and the lesser of their greatest ones, rounded down; that takes
/// constant time.
pub fn fault_place(alloc: Global, soup: &Soup, fault: &MeshFault) -> Result<Corner, OutOfMemory>
    requires fault { HasFault (part_of soup.now) fault.now }
    ensures { IfOk result (IsPlaceOf (part_of soup.now) fault.now) }
{
    match fault {
        MeshFault::Flat(t) => Ok(of_triangles(soup, *t, *t)),
        MeshFault::SameWay(a, b) => Ok(of_triangles(soup, *a, *b)),
        MeshFault::Unpaired(t, side) => Ok(of_side(soup, 3 * u128::from(*t) + u128::from(*side))),
        MeshFault::Double(a, b) => Ok(of_triangles(soup, *a, *b)),
        MeshFault::Meet(edge, t) => {
            let half = half_of_edge(alloc, soup, *edge)?;
            Ok(of_meeting(soup, half, *t))
        }
    }
}

/// The place of two triangles.
fn of_triangles(soup: &Soup, a: u32, b: u32) -> Corner
    requires first { a < length (part_of soup.now).triangles }
    requires second { b < length (part_of soup.now).triangles }
    ensures { IsBetween (IsTriangle (part_of soup.now) a) (IsTriangle (part_of soup.now) b) result }
{
    middle_of(&triangle_bounds(soup, a), &triangle_bounds(soup, b))
}

/// The place of a side.
fn of_side(soup: &Soup, half: u128) -> Corner
    requires { half < 3 * length (part_of soup.now).triangles }
    ensures { IsBetween (IsSide (part_of soup.now) half) (IsSide (part_of soup.now) half) result }
{
    let side = side_bounds(soup, half);
    middle_of(&side, &side)
}
