// How far a solid reaches in a view.
ghost use Rattle.std.specs.Prelude.{◌≡◌, ◌*◌, ◌<◌, ◌≤◌, ◌^◌, ◌*ℤ◌, ◌≤ℤ◌, unsigned_abs};
ghost use Rattle.lattice.specs.Points.{of_dir, of_vector, point_of, scaled};
ghost use Rattle.lattice.specs.Triple.{IsWithin, dot};
ghost use Rattle.solid_mesh.specs.Solids.{solid_part};
ghost use Rattle.sheet_plan.specs.Extents.{IsLeast, IsGreatest, IsExtent};

use crate::bounds::Extent;
use lattice::{Corner, Dir, Vector};
use solid_mesh::Solid;

/// From where to where a solid reaches along an axis.
#[derive(Clone, Copy)]
pub struct Reach {
    pub least: i64,
    pub greatest: i64,
}

/// How far the solid reaches, seen from `d`. Goes twice over the corners.
pub fn extent(solid: &Solid, d: &Dir) -> Extent
    ensures { IsExtent (of_dir d.now) (solid_part solid.now).corners result }
{
    let across = reach_along(solid, &d.right());
    let upward = reach_along(solid, &d.up());
    Extent {
        d: *d,
        u_min: across.least,
        u_max: across.greatest,
        v_min: upward.least,
        v_max: upward.greatest,
    }
}

/// The least and the greatest product of a corner with the axis. Goes once over the corners.
pub fn reach_along(solid: &Solid, axis: &Vector) -> Reach
    requires { IsWithin 162 (of_vector axis.now) }
    ensures least { IsLeast (λ c. dot (of_vector axis.now) (scaled (point_of c))) (solid_part solid.now).corners result.least }
    ensures greatest { IsGreatest (λ c. dot (of_vector axis.now) (scaled (point_of c))) (solid_part solid.now).corners result.greatest }
    ensures ordered { result.least ≤ℤ result.greatest }
    ensures least_size { unsigned_abs result.least < 2 ^ 29 }
    ensures greatest_size { unsigned_abs result.greatest < 2 ^ 29 }
{
    let mut least = along(axis, &solid.corner(0));
    let mut greatest = least;
    for i in 0..solid.corners() {
        let value = along(axis, &solid.corner(i));
        least = least.min(value);
        greatest = greatest.max(value);
    }
    Reach { least, greatest }
}

/// The product of an axis with a corner.
fn along(axis: &Vector, corner: &Corner) -> i64
    requires { IsWithin 162 (of_vector axis.now) }
    ensures value { result ≡ dot (of_vector axis.now) (scaled (point_of corner.now)) }
    ensures size { unsigned_abs result < 2 ^ 29 }
{
    summand(axis.x, corner.x) + summand(axis.y, corner.y) + summand(axis.z, corner.z)
}

/// `a * b`, one summand of the product.
fn summand(a: i64, b: i32) -> i64
    requires first { unsigned_abs a ≤ 162 }
    requires second { unsigned_abs b ≤ 2 ^ 20 }
    ensures value { result ≡ a *ℤ b }
    ensures size { unsigned_abs result ≤ 162 * 2 ^ 20 }
{
    a * i64::from(b)
}
