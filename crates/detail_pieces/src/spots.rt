// Spots that are seen at places of a view.
ghost use Rattle.std.specs.Prelude.{◌≡◌, ℕ, ◌*◌, ◌<◌, ◌≤◌, ◌^◌, pos, ◌+ℤ◌, ◌-ℤ◌, ◌*ℤ◌, ◌<ℤ◌, ◌≤ℤ◌, unsigned_abs};
ghost use Rattle.lattice.specs.Triple.{Triple, IsWithin, dot};
ghost use Rattle.lattice.specs.Points.{of_dir, of_vector, of_spot, scaled};
ghost use Rattle.detail_pieces.specs.inner.Places.{IsSeenAt, HasSpot};
ghost use Rattle.detail_pieces.specs.inner.Steps.{of_reach, of_heading, turned, IsPush, IsPushTo, IsStep};

use crate::places::ViewPlace;
use crate::reaches::{Heading, Push, Reach};
use lattice::{Dir, Spot, Vector};

/// A spot that is seen at this place: from the foot of the line of sight three steps go into the box where spots are. The last
/// two don't leave it on an axis where it was reached, since some spot is seen there.
pub(crate) fn spot_at(d: &Dir, place: &ViewPlace) -> Spot
    requires { HasSpot (of_dir d.now) place.now }
    ensures { IsSeenAt (of_dir d.now) place.now (of_spot result) }
{
    let x = ahead(d);
    let y = turned(&x);
    let z = turned(&y);
    let near = step(&z, &step(&y, &step(&x, &foot(d, place))));
    Spot {
        x: near.x,
        y: near.y,
        z: near.z,
        w: near.w,
    }
}

/// The point of the line of sight that is nearest to the origin.
fn foot(d: &Dir, place: &ViewPlace) -> Reach
    ensures seen { IsSeenAt (of_dir d.now) place.now (of_reach result) }
    ensures positive { pos 0 <ℤ result.w }
    ensures divisor { unsigned_abs result.w ≤ 78732 * 2 ^ 44 }
    ensures size { IsWithin (2 ^ 98) (scaled (of_reach result)) }
{
    let (right, up) = (d.right(), d.up());
    let level = level(place.across, square(&d.vector()));
    Reach {
        x: mixed(level, right.x, place.upward, up.x),
        y: mixed(level, right.y, place.upward, up.y),
        z: mixed(level, right.z, place.upward, up.z),
        w: divisor(place.den, square(&up)),
    }
}

/// The scalar product of the vector with itself.
fn square(axis: &Vector) -> i128
    requires { IsWithin 162 (of_vector axis.now) }
    ensures value { result ≡ dot (of_vector axis.now) (of_vector axis.now) }
    ensures size { unsigned_abs result ≤ 78732 }
    ensures small { IsWithin 9 (of_vector axis.now) → unsigned_abs result ≤ 243 }
{
    axis.dot(axis)
}

/// `across * square`.
fn level(across: i128, square: i128) -> i128
    requires first { unsigned_abs across ≤ 2 ^ 86 }
    requires second { unsigned_abs square ≤ 243 }
    ensures value { result ≡ across *ℤ square }
    ensures size { unsigned_abs result ≤ 2 ^ 94 }
{
    across * square
}

/// `den * square`.
fn divisor(den: i128, square: i128) -> i128
    requires first { unsigned_abs den ≤ 2 ^ 44 }
    requires second { unsigned_abs square ≤ 78732 }
    ensures value { result ≡ den *ℤ square }
    ensures size { unsigned_abs result ≤ 78732 * 2 ^ 44 }
{
    den * square
}

/// `u * r + v * t`.
fn mixed(u: i128, r: i64, v: i128, t: i64) -> i128
    requires first { unsigned_abs u ≤ 2 ^ 94 }
    requires second { unsigned_abs r ≤ 9 }
    requires third { unsigned_abs v ≤ 2 ^ 86 }
    requires fourth { unsigned_abs t ≤ 162 }
    ensures value { result ≡ (u *ℤ r) +ℤ (v *ℤ t) }
    ensures size { unsigned_abs result ≤ 2 ^ 98 }
{
    u * i128::from(r) + v * i128::from(t)
}

/// The direction's components.
fn ahead(d: &Dir) -> Heading
    ensures { of_heading result ≡ of_dir d.now }
{
    let toward = d.vector();
    Heading {
        x: toward.x,
        y: toward.y,
        z: toward.z,
    }
}

/// The heading with y in the place of x, z in that of y and x in that of z.
fn turned(d: &Heading) -> Heading
    ensures { of_heading result ≡ turned (of_heading d.now) }
{
    Heading {
        x: d.y,
        y: d.z,
        z: d.x,
    }
}

/// The point after it has gone along the heading as far as its x is outside of the box where spots are, turned.
fn step(d: &Heading, p: &Reach) -> Reach
    requires size { IsWithin (2 ^ 112) (scaled (of_reach p.now)) }
    requires not_negative { pos 0 ≤ℤ p.now.w }
    requires divisor { unsigned_abs p.now.w ≤ 2 ^ 70 }
    ensures step { IsStep (of_heading d.now) (of_reach p.now) (of_reach result) }
    ensures not_negative { pos 0 ≤ℤ result.w }
    ensures divisor { unsigned_abs result.w ≤ 9 * unsigned_abs p.now.w }
    ensures size { (m : ℕ) → IsWithin m (scaled (of_reach p.now)) → IsWithin (18 * m) (scaled (of_reach result)) }
{
    let push = push_in(d.x, p.x, p.w);
    Reach {
        x: moved(&push, p.y, d.y),
        y: moved(&push, p.z, d.z),
        z: moved(&push, p.x, d.x),
        w: times(push.scale, p.w),
    }
}

/// How the coordinate comes into the box where spots are, if the direction has this component.
fn push_in(component: i64, x: i128, w: i128) -> Push
    requires first { unsigned_abs component ≤ 9 }
    requires second { unsigned_abs x ≤ 2 ^ 112 }
    requires not_negative { pos 0 ≤ℤ w }
    requires third { unsigned_abs w ≤ 2 ^ 70 }
    ensures push { IsPush component x w result.scale result.by }
    ensures not_negative { pos 0 ≤ℤ result.scale }
    ensures scale { unsigned_abs result.scale ≤ 9 }
    ensures by { unsigned_abs result.by ≤ unsigned_abs x }
{
    let edge = edge(w);
    if x > edge {
        return push_to(component, x - edge);
    }
    if x < -edge {
        return push_to(component, x + edge);
    }
    Push { scale: 1, by: 0 }
}

/// The farthest coordinate in the box where spots are.
fn edge(w: i128) -> i128
    requires { unsigned_abs w ≤ 2 ^ 70 }
    ensures { result ≡ pos (2 ^ 21) *ℤ w }
{
    2_097_152 * w
}

/// How the coordinate gets less by this excess, if the direction has this component.
fn push_to(component: i64, excess: i128) -> Push
    requires first { unsigned_abs component ≤ 9 }
    requires second { unsigned_abs excess ≤ 2 ^ 112 }
    ensures { IsPushTo component excess result.scale result.by }
{
    if component < 0 {
        Push {
            scale: -component,
            by: -excess,
        }
    } else {
        Push {
            scale: component,
            by: excess,
        }
    }
}

/// The coordinate after the push, along a direction with this component.
fn moved(push: &Push, x: i128, component: i64) -> i128
    requires scale { unsigned_abs push.now.scale ≤ 9 }
    requires by { unsigned_abs push.now.by ≤ 2 ^ 112 }
    requires x { unsigned_abs x ≤ 2 ^ 112 }
    requires component { unsigned_abs component ≤ 9 }
    ensures value { result ≡ (push.now.scale *ℤ x) -ℤ (push.now.by *ℤ component) }
    ensures size { (m : ℕ) → unsigned_abs x ≤ m → unsigned_abs push.now.by ≤ m → unsigned_abs result ≤ 18 * m }
{
    i128::from(push.scale) * x - push.by * i128::from(component)
}

/// `scale * w`.
fn times(scale: i64, w: i128) -> i128
    requires first { unsigned_abs scale ≤ 9 }
    requires second { unsigned_abs w ≤ 2 ^ 70 }
    ensures value { result ≡ scale *ℤ w }
    ensures size { unsigned_abs result ≤ 9 * unsigned_abs w }
{
    i128::from(scale) * w
}
