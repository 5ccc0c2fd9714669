// Whether a turn about a corner passes an end of an outline, by the signs of numbers.
ghost use Rattle.std.specs.Prelude.{◌≡◌, ◌⊎◌, ◌↔◌, ◌<◌, ◌≤◌, ◌^◌, pos, ◌+ℤ◌, ◌-ℤ◌, ◌*ℤ◌, ◌<ℤ◌, ◌≤ℤ◌, unsigned_abs, IsTrue};
ghost use Rattle.lattice.specs.Points.{of_dir};
ghost use Rattle.geometry.specs.Turns.{turn_from, product_of, way_to};
ghost use Rattle.hiding_laws.specs.inner.Perturbations.{perturbation_of, IsLeft, TwoAreLeft};
ghost use Rattle.hiding_laws.specs.inner.CornerTests.{PassesBetween};
ghost use Rattle.cross_find.specs.inner.Ways.{way_of, side_of};

use crate::ways::Way;
use lattice::{Corner, Dir, Vector};

/// The way in the view from a corner to another.
pub(crate) fn way_to(d: &Dir, p: &Corner, q: &Corner) -> Way
    ensures { way_of result ≡ way_to (of_dir d.now) p.now q.now }
{
    let way = Vector::between(p, q);
    Way {
        u: d.right().dot(&way),
        v: d.up().dot(&way),
    }
}

/// Positive where `y` is to the left of `x`.
fn turn_from(x: &Way, y: &Way) -> i128
    ensures value { result ≡ turn_from (way_of x.now) (way_of y.now) }
    ensures size { unsigned_abs result < 2 ^ 62 }
{
    x.u * y.v - x.v * y.u
}

fn product_of(x: &Way, y: &Way) -> i128
    ensures value { result ≡ product_of (way_of x.now) (way_of y.now) }
    ensures size { unsigned_abs result < 2 ^ 62 }
{
    x.u * y.u + x.v * y.v
}

/// The two ways are along one line.
pub(crate) fn are_in_line(x: &Way, y: &Way) -> bool
    ensures { IsTrue result ↔ (turn_from (way_of x.now) (way_of y.now) ≡ pos 0) }
{
    turn_from(x, y) == 0
}

/// 1 for a perturbation to the left of a way, -1 for one to the right.
fn perturbation(left: bool) -> i128
    ensures value { result ≡ perturbation_of (side_of left) }
    ensures size { unsigned_abs result ≤ 1 }
{
    if left { 1 } else { -1 }
}

/// A product, times how far two perturbations are apart.
fn by_perturbation(perturbation: i128, product: i128) -> i128
    requires perturbation { unsigned_abs perturbation ≤ 2 }
    requires product { unsigned_abs product < 2 ^ 62 }
    ensures value { result ≡ perturbation *ℤ product }
    ensures size { unsigned_abs result < 2 ^ 64 }
{
    perturbation * product
}

/// The first number is above 0, or it is 0 and the second is above 0.
fn is_above(first: i128, second: i128) -> bool
    ensures { IsTrue result ↔ ((pos 0 <ℤ first) ⊎ ((first ≡ pos 0) × (pos 0 <ℤ second))) }
{
    first > 0 || (first == 0 && second > 0)
}

/// `y` is to the left of `x`, or along the same line and the perturbation turns to the left.
fn is_left(perturbation: i128, x: &Way, y: &Way) -> bool
    requires { unsigned_abs perturbation ≤ 2 }
    ensures { IsTrue result ↔ IsLeft perturbation (way_of x.now) (way_of y.now) }
{
    is_above(
        turn_from(x, y),
        by_perturbation(perturbation, product_of(x, y)),
    )
}

fn any_two(a: bool, b: bool, c: bool) -> bool
    ensures { IsTrue result ↔ ((IsTrue a × IsTrue b) ⊎ (IsTrue b × IsTrue c) ⊎ (IsTrue c × IsTrue a)) }
{
    (a && b) || (b && c) || (c && a)
}

/// The turn from beside `x` to beside `y`, counterclockwise and less than once around, passes `w`.
pub(crate) fn passes(x: &Way, x_left: bool, y: &Way, y_left: bool, w: &Way) -> bool
    ensures { IsTrue result ↔ TwoAreLeft (side_of x_left) (way_of x.now) (side_of y_left) (way_of y.now) (way_of w.now) }
{
    let (k, l) = (perturbation(x_left), perturbation(y_left));
    any_two(is_left(-k, x, w), is_left(l, w, y), is_left(k - l, y, x))
}

/// The height of the line between two points over the corner, by the ways from there to the two and how much nearer they are.
fn lead(v: &Way, w: &Way, f: i128, g: i128) -> i128
    requires f { unsigned_abs f < 2 ^ 30 }
    requires g { unsigned_abs g < 2 ^ 30 }
    ensures value { result ≡ ((product_of (way_of w.now) (way_of w.now) -ℤ product_of (way_of v.now) (way_of w.now)) *ℤ f) +ℤ ((product_of (way_of v.now) (way_of v.now) -ℤ product_of (way_of v.now) (way_of w.now)) *ℤ g) }
    ensures size { unsigned_abs result < 2 ^ 96 }
{
    let product = product_of(v, w);
    (product_of(w, w) - product) * f + (product_of(v, v) - product) * g
}

/// The first number is 0, the second at most 0 and the third above 0.
fn is_nearer_between(turn: i128, product: i128, lead: i128) -> bool
    ensures { IsTrue result ↔ ((turn ≡ pos 0) × (product ≤ℤ pos 0) × (pos 0 <ℤ lead)) }
{
    turn == 0 && product <= 0 && lead > 0
}

/// The line between two points, which is not seen end-on, is strictly nearer over the corner.
pub(crate) fn passes_between(v: &Way, w: &Way, f: i128, g: i128) -> bool
    requires f { unsigned_abs f < 2 ^ 30 }
    requires g { unsigned_abs g < 2 ^ 30 }
    ensures { IsTrue result ↔ PassesBetween (way_of v.now) (way_of w.now) f g }
{
    is_nearer_between(turn_from(v, w), product_of(v, w), lead(v, w, f, g))
}
