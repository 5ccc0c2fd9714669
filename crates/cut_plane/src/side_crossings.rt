// Where sides cross the plane of a cut, and the lines in which faces do.
ghost use Rattle.std.specs.Prelude.{◌≡◌, ◌+◌, ◌*◌, ◌<◌, ◌≤◌, ◌^◌, ℕ, pos, ◌+ℤ◌, ◌-ℤ◌, ◌*ℤ◌, unsigned_abs};
ghost use Rattle.lattice.specs.Points.{of_spot};
ghost use Rattle.lattice.specs.Cuts.{plane_of, toward_of};
ghost use Rattle.lattice.specs.Lines.{IsOnLine};
ghost use Rattle.geometry.specs.Faces.{IsFlat};
ghost use Rattle.geometry.specs.Cuts.{over_of, crossing_of, GoesBeyond};
ghost use Rattle.cut_plane.specs.inner.Borders.{HaveBothSides};
ghost use Rattle.cut_plane.specs.Loops.{IsBorderLine};

use crate::seen::{level, seen_corner, seen_normal};
use lattice::{Corner, Cut, Line, Spot, Vector, cross};

/// Twice the height of the corner above the plane: never 0.
pub fn over(cut: &Cut, k: &Corner) -> i64
    ensures value { result ≡ over_of (plane_of cut.now) k.now }
    ensures size { unsigned_abs result < 2 ^ 23 }
{
    twice_over(seen_corner(cut, k).height, level(cut))
}

/// Twice the height above a plane that stands half a unit below the level.
fn twice_over(height: i64, level: i64) -> i64
    requires first { unsigned_abs height ≤ 2 ^ 20 }
    requires second { unsigned_abs level ≤ 2 ^ 20 }
    ensures value { result ≡ (pos 2 *ℤ height) -ℤ ((pos 2 *ℤ level) -ℤ pos 1) }
    ensures size { unsigned_abs result < 2 ^ 23 }
{
    2 * (height - level) + 1
}

/// Where the way from `k` to `l` crosses the plane, with `w` below 2^24.
pub(crate) fn crossing(cut: &Cut, k: &Corner, l: &Corner) -> Spot
    requires { GoesBeyond (plane_of cut.now) k.now l.now }
    ensures { of_spot result ≡ crossing_of (plane_of cut.now) k.now l.now }
{
    let near = over(cut, l).unsigned_abs();
    let far = over(cut, k).unsigned_abs();
    Spot {
        x: mixed(near, k.x, far, l.x),
        y: mixed(near, k.y, far, l.y),
        z: mixed(near, k.z, far, l.z),
        w: i128::from(near + far),
    }
}

/// The sum of two coordinates with weights.
fn mixed(i: u64, a: i32, j: u64, b: i32) -> i128
    requires first { i < 2 ^ 23 }
    requires second { j < 2 ^ 23 }
    requires third { unsigned_abs a ≤ 2 ^ 20 }
    requires fourth { unsigned_abs b ≤ 2 ^ 20 }
    ensures value { result ≡ (pos i *ℤ a) +ℤ (pos j *ℤ b) }
    ensures near { unsigned_abs result ≤ 2 ^ 20 * (i + j) }
{
    i128::from(i) * i128::from(a) + i128::from(j) * i128::from(b)
}

/// The line in which the face of three corners meets the plane. The face isn't flat, and one of its sides crosses the plane.
pub(crate) fn border_line(cut: &Cut, a: &Corner, b: &Corner, c: &Corner) -> Line
    requires whole { ¬ IsFlat a.now b.now c.now }
    requires crosses { HaveBothSides (plane_of cut.now) a.now b.now c.now }
    ensures { IsBorderLine (plane_of cut.now) a.now b.now c.now result }
{
    let normal = cross(&Vector::between(a, b), &Vector::between(a, c));
    let way = seen_normal(cut, &normal);
    let (across, upward) = (doubled(way.across), doubled(way.upward));
    let corner = seen_corner(cut, a);
    let level = constant(
        across,
        corner.across,
        upward,
        corner.upward,
        way.height,
        over(cut, a),
    );
    Line::lowest(across, upward, level)
}

/// `2 * n`.
fn doubled(n: i64) -> i128
    requires { unsigned_abs n ≤ 2 ^ 43 }
    ensures value { result ≡ pos 2 *ℤ n }
    ensures size { unsigned_abs result ≤ 2 ^ 44 }
{
    2 * i128::from(n)
}

/// `a * u + b * v + h * over`.
fn constant(a: i128, u: i64, b: i128, v: i64, h: i64, over: i64) -> i128
    requires first { unsigned_abs a ≤ 2 ^ 44 }
    requires second { unsigned_abs u ≤ 2 ^ 20 }
    requires third { unsigned_abs b ≤ 2 ^ 44 }
    requires fourth { unsigned_abs v ≤ 2 ^ 20 }
    requires fifth { unsigned_abs h ≤ 2 ^ 43 }
    requires sixth { unsigned_abs over < 2 ^ 23 }
    ensures value { result ≡ ((a *ℤ u) +ℤ (b *ℤ v)) +ℤ (h *ℤ over) }
    ensures size { unsigned_abs result < 2 ^ 67 }
{
    a * i128::from(u) + b * i128::from(v) + i128::from(h) * i128::from(over)
}
