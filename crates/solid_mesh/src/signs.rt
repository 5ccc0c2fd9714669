// How a triangle is turned.
ghost use Rattle.std.specs.Prelude.{◌≡◌};
ghost use Rattle.lattice.specs.Points.{of_dir};
ghost use Rattle.geometry.specs.Faces.{facing_of};
ghost use Rattle.geometry.specs.Views.{sign_of};

use lattice::{Corner, Dir, Vector, view_cross};

/// The sign of the product of a triangle's normal with the direction.
pub(crate) fn facing_sign(d: &Dir, a: &Corner, b: &Corner, c: &Corner) -> i8
    ensures { result ≡ sign_of (facing_of (of_dir d.now) a.now b.now c.now) }
{
    sign(view_cross(d, &Vector::between(a, b), &Vector::between(a, c)))
}

/// 1, 0 or -1.
fn sign(x: i128) -> i8
    ensures { result ≡ sign_of x }
{
    if x > 0 {
        1
    } else if x < 0 {
        -1
    } else {
        0
    }
}
