// The spots of an edge.
ghost use Rattle.std.specs.Prelude.{◌≡◌, ◌*◌, ◌<◌, ◌≤◌, ◌^◌, pos, ◌+ℤ◌, ◌-ℤ◌, ◌*ℤ◌, ◌≤ℤ◌, unsigned_abs};
ghost use Rattle.lattice.specs.Points.{of_spot};
ghost use Rattle.geometry.specs.Faces.{share_point};

use exact_frac::Frac;
use lattice::{Corner, Spot};

/// The spot that divides the way from `a` to `b` at the share `t`.
pub(crate) fn spot_at(a: &Corner, b: &Corner, t: &Frac) -> Spot
    requires from_start { pos 0 ≤ℤ t.now.num }
    requires to_end { t.now.num ≤ℤ t.now.den }
    requires small { unsigned_abs t.now.den < 2 ^ 69 }
    ensures { of_spot result ≡ share_point a.now b.now t.now.num t.now.den }
{
    Spot {
        x: coordinate_at(t, a.x, b.x),
        y: coordinate_at(t, a.y, b.y),
        z: coordinate_at(t, a.z, b.z),
        w: t.den,
    }
}

/// What divides the way from `a` to `b` at the share `t`, times its denominator.
fn coordinate_at(t: &Frac, a: i32, b: i32) -> i128
    requires from_start { pos 0 ≤ℤ t.now.num }
    requires to_end { t.now.num ≤ℤ t.now.den }
    requires small { unsigned_abs t.now.den < 2 ^ 69 }
    requires first { unsigned_abs a ≤ 2 ^ 20 }
    requires second { unsigned_abs b ≤ 2 ^ 20 }
    ensures value { result ≡ ((t.now.den -ℤ t.now.num) *ℤ a) +ℤ (t.now.num *ℤ b) }
    ensures size { unsigned_abs result < 2 ^ 89 }
    ensures near { unsigned_abs result ≤ 2 ^ 20 * unsigned_abs t.now.den }
{
    (t.den - t.num) * i128::from(a) + t.num * i128::from(b)
}
