// What the plane of a cut leaves of the way from one corner to another, and where it is seen to the line of an edge.
ghost use Rattle.std.specs.Prelude.{◌≡◌, ◌<◌, ◌^◌, ◌↔◌, pos, ◌+ℤ◌, ◌-ℤ◌, ◌*ℤ◌, ◌<ℤ◌, unsigned_abs, IsTrue};
ghost use Rattle.lattice.specs.Cuts.{plane_of, IsBeyond};
ghost use Rattle.geometry.specs.Faces.{share_point};
ghost use Rattle.geometry.specs.Places.{IsPlace};
ghost use Rattle.cut_count.specs.inner.Rests.{end_turn};

use crate::placed::Placed;
use cut_plane::over;
use exact_frac::Frac;
use lattice::{Corner, Cut};

/// Where what the plane leaves of the way from the corner `k` to `l` ends on the side of `k`: at `k` if it is beyond the plane, else
/// where the way meets the plane. It is the turn of `k`, or the turns of both with the other's height as the weight: a positive multiple.
pub(crate) fn end_turn(k: &Placed, l: &Placed) -> i128
    ensures value { result ≡ end_turn k.now l.now }
    ensures size { unsigned_abs result < 2 ^ 72 }
{
    if k.over < 0 {
        k.turn
    } else {
        weighed(l.over, k.turn, k.over, l.turn)
    }
}

/// The sum of two turns, each with the size of a height as its weight.
fn weighed(i: i64, x: i128, j: i64, y: i128) -> i128
    requires first { unsigned_abs i < 2 ^ 23 }
    requires second { unsigned_abs x < 2 ^ 48 }
    requires third { unsigned_abs j < 2 ^ 23 }
    requires fourth { unsigned_abs y < 2 ^ 48 }
    ensures value { result ≡ (pos (unsigned_abs i) *ℤ x) +ℤ (pos (unsigned_abs j) *ℤ y) }
    ensures size { unsigned_abs result < 2 ^ 72 }
{
    i128::from(i.unsigned_abs()) * x + i128::from(j.unsigned_abs()) * y
}

/// The point of the way from `a` to `b` at this place is beyond the plane.
pub(crate) fn is_beyond_at(cut: &Cut, a: &Corner, b: &Corner, at: &Frac) -> bool
    requires { IsPlace at.now }
    ensures { IsTrue result ↔ IsBeyond (plane_of cut.now) (share_point a.now b.now at.now.num at.now.den) }
{
    between(over(cut, a), over(cut, b), at) < 0
}

/// What is `from` at the first end and `to` at the second is worth at this place, times its denominator.
fn between(from: i64, to: i64, at: &Frac) -> i128
    requires place { IsPlace at.now }
    requires first { unsigned_abs from < 2 ^ 23 }
    requires second { unsigned_abs to < 2 ^ 23 }
    ensures value { result ≡ ((at.now.den -ℤ at.now.num) *ℤ from) +ℤ (at.now.num *ℤ to) }
    ensures size { unsigned_abs result < 2 ^ 94 }
{
    (at.den - at.num) * i128::from(from) + at.num * i128::from(to)
}
