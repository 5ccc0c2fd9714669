// How far the plane of a triangle is below that of a cut, over a corner: by the heights of the triangle's corners.
ghost use Rattle.std.specs.Prelude.{◌≡◌, ◌≤◌, ◌<◌, ◌^◌, ◌*ℤ◌, unsigned_abs};
ghost use Rattle.lattice.specs.Cuts.{plane_of};
ghost use Rattle.lattice.specs.Points.{point_of};
ghost use Rattle.hiding_laws.specs.CutValues.{under_of};

use crate::sights::{step, turn};
use cut_plane::over;
use lattice::{Corner, Cut};

/// How far the point over the corner `p` of the plane of `a`, `b` and `c` is below that of the cut, times twice the triangle's area as it
/// is seen, which is below 0 where the triangle is turned away. Each corner's height counts by the turn between the other two as they are
/// seen from `p`.
pub(crate) fn under_at(cut: &Cut, a: &Corner, b: &Corner, c: &Corner, p: &Corner) -> i128
    ensures value { result ≡ under_of (plane_of cut.now) a.now b.now c.now (point_of p.now) }
    ensures small { unsigned_abs result < 2 ^ 118 }
{
    let (x, y, z) = (step(cut, p, a), step(cut, p, b), step(cut, p, c));
    counted(over(cut, a), turn(&z, &y))
        + counted(over(cut, b), turn(&x, &z))
        + counted(over(cut, c), turn(&y, &x))
}

/// A height that counts so much.
fn counted(over: i64, turn: i128) -> i128
    requires first { unsigned_abs over < 2 ^ 23 }
    requires second { unsigned_abs turn ≤ 2 ^ 93 }
    ensures value { result ≡ over *ℤ turn }
    ensures size { unsigned_abs result ≤ 2 ^ 116 }
{
    i128::from(over) * turn
}
