// From where to where a part reaches along an axis.
ghost use Rattle.std.specs.Prelude.{◌≡◌, ◌≤◌, ◌^◌, ◌≤ℤ◌, unsigned_abs};
ghost use Rattle.solid_mesh.specs.Solids.{solid_part};
ghost use Rattle.sheet_summary.specs.Ends.{coordinate, greatest_along, least_along};

use lattice::{Axis, Corner};
use solid_mesh::Solid;

/// The least and the greatest place of a part's corners on an axis, in units.
#[derive(Clone, Copy)]
pub(crate) struct Ends {
    pub(crate) least: i64,
    pub(crate) greatest: i64,
}

/// A corner's place on an axis.
fn coordinate(axis: Axis, corner: &Corner) -> i64
    ensures value { result ≡ coordinate axis corner.now }
    ensures size { unsigned_abs result ≤ 2 ^ 20 }
{
    match axis {
        Axis::X => i64::from(corner.x),
        Axis::Y => i64::from(corner.y),
        Axis::Z => i64::from(corner.z),
    }
}

/// The part's ends on an axis. It goes once over the corners.
pub(crate) fn ends_along(solid: &Solid, axis: Axis) -> Ends
    ensures least { result.least ≡ least_along axis (solid_part solid.now).corners }
    ensures greatest { result.greatest ≡ greatest_along axis (solid_part solid.now).corners }
    ensures ordered { result.least ≤ℤ result.greatest }
    ensures least_size { unsigned_abs result.least ≤ 2 ^ 20 }
    ensures greatest_size { unsigned_abs result.greatest ≤ 2 ^ 20 }
{
    let mut least = coordinate(axis, &solid.corner(0));
    let mut greatest = least;
    for i in 1..solid.corners() {
        let value = coordinate(axis, &solid.corner(i));
        least = least.min(value);
        greatest = greatest.max(value);
    }
    Ends { least, greatest }
}
