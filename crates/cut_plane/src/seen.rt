// The coordinates of a cut view, and the lines in which faces cross the plane.
ghost use Rattle.std.specs.Prelude.{◌≡◌, ℕ, ◌<◌, ◌≤◌, ◌^◌, ◌↔◌, ℤ, pos, ◌+ℤ◌, ◌-ℤ◌, ◌*ℤ◌, unsigned_abs};
ghost use Rattle.lattice.specs.Triple.{IsWithin, dot, right_axis, up_axis};
ghost use Rattle.lattice.specs.Points.{of_normal, point_of, across_of, upward_of, height_of};
ghost use Rattle.lattice.specs.Cuts.{plane_of, toward_of, level_of};

use lattice::{Axis, Corner, Cut, Normal};

/// The components of a vector across, upward and toward the viewer, in units.
#[derive(Clone, Copy)]
pub struct InView {
    pub across: i64,
    pub upward: i64,
    pub height: i64,
}

/// The corner as it is seen in the cut view.
pub fn seen_corner(cut: &Cut, k: &Corner) -> InView
    ensures across { result.across ≡ across_of (toward_of (plane_of cut.now)) (point_of k.now) }
    ensures upward { result.upward ≡ upward_of (toward_of (plane_of cut.now)) (point_of k.now) }
    ensures height { result.height ≡ height_of (toward_of (plane_of cut.now)) (point_of k.now) }
    ensures size { IsWithin (2 ^ 20) (record { x = result.across; y = result.upward; z = result.height }) }
{
    seen(cut, k.x.into(), k.y.into(), k.z.into())
}

/// The normal as it is seen in the cut view.
pub(crate) fn seen_normal(cut: &Cut, n: &Normal) -> InView
    ensures across { result.across ≡ dot (right_axis (toward_of (plane_of cut.now))) (of_normal n.now) }
    ensures upward { result.upward ≡ dot (up_axis (toward_of (plane_of cut.now))) (of_normal n.now) }
    ensures height { result.height ≡ dot (toward_of (plane_of cut.now)) (of_normal n.now) }
    ensures size { IsWithin (2 ^ 43) (record { x = result.across; y = result.upward; z = result.height }) }
{
    seen(cut, n.x, n.y, n.z)
}

/// The vector as it is seen in the cut view.
fn seen(cut: &Cut, x: i64, y: i64, z: i64) -> InView
    requires { IsWithin (2 ^ 43) (record { x = x; y = y; z = z }) }
    ensures across { result.across ≡ dot (right_axis (toward_of (plane_of cut.now))) (record { x = x; y = y; z = z }) }
    ensures upward { result.upward ≡ dot (up_axis (toward_of (plane_of cut.now))) (record { x = x; y = y; z = z }) }
    ensures height { result.height ≡ dot (toward_of (plane_of cut.now)) (record { x = x; y = y; z = z }) }
    ensures size { (m : ℕ) → IsWithin m (record { x = x; y = y; z = z }) → IsWithin m (record { x = result.across; y = result.upward; z = result.height }) }
{
    match (cut.axis(), cut.from_high()) {
        (Axis::X, true) => InView {
            across: y,
            upward: z,
            height: x,
        },
        (Axis::X, false) => InView {
            across: -y,
            upward: z,
            height: -x,
        },
        (Axis::Y, true) => InView {
            across: -x,
            upward: z,
            height: y,
        },
        (Axis::Y, false) => InView {
            across: x,
            upward: z,
            height: -y,
        },
        (Axis::Z, true) => InView {
            across: x,
            upward: y,
            height: z,
        },
        (Axis::Z, false) => InView {
            across: x,
            upward: -y,
            height: -z,
        },
    }
}

/// The height of `at`.
pub(crate) fn level(cut: &Cut) -> i64
    ensures value { result ≡ level_of (plane_of cut.now) }
    ensures size { unsigned_abs result ≤ 2 ^ 20 }
{
    if cut.from_high() { cut.at() } else { -cut.at() }
}
