// What an outline changes of the counts in a turn about a corner, from the end of one edge to the end of another.
ghost use Rattle.std.specs.Prelude.{◌≡◌, ◌+◌, ◌<◌, ◌≤◌, ◌^◌, ◌-ℤ◌, ◌*ℤ◌, length, unsigned_abs, IsTrue, MatchOption};
ghost use Rattle.lattice.specs.Points.{of_dir};
ghost use Rattle.geometry.specs.Parts.{Edge, IsNumbered};
ghost use Rattle.solid_mesh.specs.Solids.{solid_part, edge_halves};
ghost use Rattle.geometry.specs.Counts.{to_left, to_right};
ghost use Rattle.hiding_laws.specs.inner.Tallies.{IsTally};
ghost use Rattle.geometry.specs.Turns.{way_to, way_from, corner_at, number_at, side_from, HasTurnedAt};
ghost use Rattle.hiding_laws.specs.inner.Perturbations.{TwoAreLeft};
ghost use Rattle.hiding_laws.specs.inner.CornerTests.{rise_to, IsOver};
ghost use Rattle.cross_find.specs.inner.Ways.{way_of, side_of, IsShare};

use crate::corner::{are_in_line, passes, passes_between, way_to};
use crate::cross::turn_of;
use crate::edges::ends;
use crate::meter::{End, Meter, Turn};
use crate::ways::Way;
use lattice::{Corner, Dir, Vector};
use solid_mesh::Solid;

/// The ways in the view from a corner to the two ends of an outline.
#[derive(Clone, Copy)]
struct EndWays {
    a: Way,
    b: Way,
}

/// By how much an outline changes the two counts in the turn about the corner of `from`, counterclockwise and less than once around,
/// from there to `to`; left and right are those along each edge from its first end. An outline that has the corner, or is not
/// strictly nearer over it, changes nothing. These are the changes of the counts where both ends are at one corner, neither edge is
/// seen end-on and `outline` is an outline; else the same formula. Takes constant time and no memory.
pub fn corner_test(
    solid: &Solid,
    d: &Dir,
    from: End,
    to: End,
    outline: u32,
    meter: &mut Meter,
) -> Turn
    requires from_in_range { from.edge < length (edge_halves solid.now) }
    requires to_in_range { to.edge < length (edge_halves solid.now) }
    requires outline_in_range { outline < length (edge_halves solid.now) }
    requires room { meter.old.tests + 1 < 2 ^ 64 }
    ensures left { (e f o : Edge (solid_part solid.now)) → IsNumbered (edge_halves solid.now) from.edge e → IsNumbered (edge_halves solid.now) to.edge f →
        IsNumbered (edge_halves solid.now) outline o → HasTurnedAt to_left (of_dir d.now) e from.at_b f to.at_b o result.left }
    ensures right { (e f o : Edge (solid_part solid.now)) → IsNumbered (edge_halves solid.now) from.edge e → IsNumbered (edge_halves solid.now) to.edge f →
        IsNumbered (edge_halves solid.now) outline o → HasTurnedAt to_right (of_dir d.now) e from.at_b f to.at_b o result.right }
    ensures counted { meter.new.tests ≡ meter.old.tests + 1 }
{
    meter.tests += 1;
    let Some(ways) = ways_over(solid, d, from, outline) else {
        return Turn { left: 0, right: 0 };
    };
    // The ways along the two edges are formed once, for both sides and both ends of the outline.
    let (x, y) = (way_from(solid, d, from), way_from(solid, d, to));
    let turn = turn_of(solid, d, outline);
    Turn {
        left: share(
            &x,
            seen_left(true, from.at_b),
            &y,
            seen_left(true, to.at_b),
            &ways,
            turn,
        ),
        right: share(
            &x,
            seen_left(false, from.at_b),
            &y,
            seen_left(false, to.at_b),
            &ways,
            turn,
        ),
    }
}

/// The number of the corner at an end of an edge.
pub(crate) fn number_at(solid: &Solid, end: End) -> u32
    requires { end.edge < length (edge_halves solid.now) }
    ensures { (e : Edge (solid_part solid.now)) → IsNumbered (edge_halves solid.now) end.edge e → number_at e end.at_b ≡ result }
{
    let numbers = solid.edge(end.edge);
    if end.at_b { numbers.b } else { numbers.a }
}

/// The corner at an end of an edge.
fn corner_at(solid: &Solid, end: End) -> Corner
    requires { end.edge < length (edge_halves solid.now) }
    ensures { (e : Edge (solid_part solid.now)) → IsNumbered (edge_halves solid.now) end.edge e → corner_at e end.at_b ≡ result }
{
    let (a, b) = ends(solid, end.edge);
    if end.at_b { b } else { a }
}

/// The way along an edge from one of its ends.
fn way_from(solid: &Solid, d: &Dir, end: End) -> Way
    requires { end.edge < length (edge_halves solid.now) }
    ensures { (e : Edge (solid_part solid.now)) → IsNumbered (edge_halves solid.now) end.edge e → way_of result ≡ way_from (of_dir d.now) e end.at_b }
{
    let (a, b) = ends(solid, end.edge);
    if end.at_b {
        way_to(d, &b, &a)
    } else {
        way_to(d, &a, &b)
    }
}

/// How much nearer `q` is than `p`.
fn rise_to(d: &Dir, p: &Corner, q: &Corner) -> i128
    ensures value { result ≡ rise_to (of_dir d.now) p.now q.now }
    ensures size { unsigned_abs result < 2 ^ 30 }
{
    d.vector().dot(&Vector::between(p, q))
}

/// The ways to the ends of an outline from the corner at that end of an edge, where the outline does not have the corner, is not
/// seen end-on, and is strictly nearer over it; else none.
fn ways_over(solid: &Solid, d: &Dir, end: End, outline: u32) -> Option<EndWays>
    requires end_in_range { end.edge < length (edge_halves solid.now) }
    requires outline_in_range { outline < length (edge_halves solid.now) }
    ensures { (e o : Edge (solid_part solid.now)) → IsNumbered (edge_halves solid.now) end.edge e → IsNumbered (edge_halves solid.now) outline o →
        MatchOption result (¬ IsOver (of_dir d.now) (number_at e end.at_b) (corner_at e end.at_b) o)
        (λ r. IsOver (of_dir d.now) (number_at e end.at_b) (corner_at e end.at_b) o × (way_of r.a ≡ way_to (of_dir d.now) (corner_at e end.at_b) o.a) × (way_of r.b ≡ way_to (of_dir d.now) (corner_at e end.at_b) o.b)) }
{
    let number = number_at(solid, end);
    let numbers = solid.edge(outline);
    if numbers.a == number || numbers.b == number {
        return None;
    }
    let c = corner_at(solid, end);
    let (p, q) = ends(solid, outline);
    let (a, b) = (way_to(d, &c, &p), way_to(d, &c, &q));
    // Few outlines are seen in line with a corner, so most tests end here.
    if !are_in_line(&a, &b) {
        return None;
    }
    if !passes_between(&a, &b, rise_to(d, &c, &p), rise_to(d, &c, &q)) {
        return None;
    }
    Some(EndWays { a, b })
}

/// What an outline with this turn from face to face, that is over a corner, changes of a count in the turn about the corner, from beside
/// the way `x` to beside the way `y`.
fn share(x: &Way, x_left: bool, y: &Way, y_left: bool, ways: &EndWays, turn: i8) -> i8
    requires { unsigned_abs turn ≤ 2 }
    ensures share { IsShare turn (TwoAreLeft (side_of x_left) (way_of x.now) (side_of y_left) (way_of y.now) (way_of ways.now.a))
        (TwoAreLeft (side_of x_left) (way_of x.now) (side_of y_left) (way_of y.now) (way_of ways.now.b)) result }
    ensures size { unsigned_abs result ≤ 4 }
{
    let first = one_where(passes(x, x_left, y, y_left, &ways.a));
    let second = one_where(passes(x, x_left, y, y_left, &ways.b));
    times_between(turn, first, second)
}

/// Whether the side is the left one as it is seen from an end.
fn seen_left(left: bool, at_b: bool) -> bool
    ensures { side_of result ≡ side_from at_b (side_of left) }
{
    if at_b { !left } else { left }
}

fn one_where(so: bool) -> i8
    ensures tally { IsTally (IsTrue so) result }
    ensures size { unsigned_abs result ≤ 1 }
{
    if so { 1 } else { 0 }
}

/// The turn times the difference of two marks.
fn times_between(turn: i8, from: i8, to: i8) -> i8
    requires turn { unsigned_abs turn ≤ 2 }
    requires from { unsigned_abs from ≤ 1 }
    requires to { unsigned_abs to ≤ 1 }
    ensures value { result ≡ turn *ℤ (to -ℤ from) }
    ensures size { unsigned_abs result ≤ 4 }
{
    turn * (to - from)
}
