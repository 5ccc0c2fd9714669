// Whether a solid has room along an axis.
ghost use Rattle.std.specs.Prelude.{◌≡◌, ◌≢◌, ◌≤◌, ◌<◌, ◌^◌, ◌↔◌, ◌<ℤ◌, ◌≤ℤ◌, unsigned_abs, IsTrue, Contains};
ghost use Rattle.lattice.specs.declared.points.Corner.{Corner};
ghost use Rattle.lattice.specs.Cuts.{plane_of, level_of, unit_of};
ghost use Rattle.lattice.specs.Points.{of_vector, point_of};
ghost use Rattle.lattice.specs.Triple.{IsWithin};
ghost use Rattle.lattice.specs.Axes.{coordinate_of};
ghost use Rattle.solid_mesh.specs.Solids.{solid_part};
ghost use Rattle.geometry.specs.Traces.{GoesThrough};
ghost use Rattle.cut_marks.specs.Traces.{IsSpread};

use lattice::{Axis, Vector};
use sheet_plan::reach_along;
use solid_mesh::Solid;

/// One unit along an axis.
fn unit(axis: Axis) -> Vector
    ensures value { of_vector result ≡ unit_of axis }
    ensures small { IsWithin 9 (of_vector result) }
{
    match axis {
        Axis::X => Vector { x: 1, y: 0, z: 0 },
        Axis::Y => Vector { x: 0, y: 1, z: 0 },
        Axis::Z => Vector { x: 0, y: 0, z: 1 },
    }
}

fn is_less(a: i64, b: i64) -> bool
    ensures { IsTrue result ↔ (a <ℤ b) }
{
    a < b
}

/// Not all corners are at one place of the axis. Goes once over them.
pub(crate) fn is_spread(solid: &Solid, axis: Axis) -> bool
    ensures { IsTrue result ↔ IsSpread axis (solid_part solid.now).corners }
{
    let reach = reach_along(solid, &unit(axis));
    is_less(reach.least, reach.greatest)
}
