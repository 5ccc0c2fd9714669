// An edge as it is seen in a cut view, and how corners and faces lie to the plane.
ghost use Rattle.std.specs.Prelude.{◌≡◌, ◌<◌, ◌≤◌, ◌^◌, pos, ◌-ℤ◌, ◌*ℤ◌, unsigned_abs};
ghost use Rattle.lattice.specs.Triple.{dot};
ghost use Rattle.lattice.specs.Points.{of_dir, of_corner, of_vector, of_normal, point_of, OnOneSight};
ghost use Rattle.lattice.specs.Cuts.{plane_of, unit_of, toward_of, level_of};
ghost use Rattle.hiding_laws.specs.CutValues.{below_of, under_of, reach_of};

use crate::linear::Linear;
use crate::seen::SeenEdge;
use lattice::{Axis, Corner, Cut, Normal, Vector, cross, det3};

/// An edge that is not seen end-on in the view of a cut.
#[derive(Clone, Copy)]
pub(crate) struct CutEdge {
    pub seen: SeenEdge,
    pub cut: Cut,
    ghost along: { of_dir seen.d ≡ toward_of (plane_of cut) },
}

impl CutEdge {
    /// The edge from one corner to the other.
    pub(crate) fn new(cut: &Cut, a: &Corner, b: &Corner) -> CutEdge
        requires { ¬ OnOneSight (toward_of (plane_of cut.now)) (point_of a.now) (point_of b.now) }
        ensures plane { plane_of result.cut ≡ plane_of cut.now }
        ensures a { result.seen.a ≡ a.now }
        ensures b { result.seen.b ≡ b.now }
    {
        CutEdge {
            seen: SeenEdge::new(&cut.dir(), a, b),
            cut: *cut,
        }
    }
}

/// The corner's coordinate along the axis.
fn coordinate(axis: Axis, p: &Corner) -> i64
    ensures value { result ≡ dot (unit_of axis) (of_corner p.now) }
    ensures size { unsigned_abs result ≤ 2 ^ 20 }
{
    match axis {
        Axis::X => p.x.into(),
        Axis::Y => p.y.into(),
        Axis::Z => p.z.into(),
    }
}

/// The normal's component along the axis.
fn component(axis: Axis, n: &Normal) -> i64
    ensures value { result ≡ dot (unit_of axis) (of_normal n.now) }
    ensures size { unsigned_abs result ≤ 2 ^ 43 }
{
    match axis {
        Axis::X => n.x,
        Axis::Y => n.y,
        Axis::Z => n.z,
    }
}

/// How far the corner is below the place that the cut names, away from the viewer.
fn down(cut: &Cut, p: &Corner) -> i64
    ensures value { result ≡ level_of (plane_of cut.now) -ℤ dot (toward_of (plane_of cut.now)) (of_corner p.now) }
    ensures size { unsigned_abs result ≤ 2 ^ 21 }
{
    let along = coordinate(cut.axis(), p);
    if cut.from_high() {
        cut.at() - along
    } else {
        along - cut.at()
    }
}

/// Twice how far the corner is below the plane: positive beyond it, and never 0.
pub(crate) fn below(cut: &Cut, p: &Corner) -> i128
    ensures value { result ≡ below_of (plane_of cut.now) (point_of p.now) }
    ensures size { unsigned_abs result ≤ 2 ^ 23 }
{
    doubled(down(cut, p))
}

/// `2 * down - 1`.
fn doubled(down: i64) -> i128
    requires { unsigned_abs down ≤ 2 ^ 21 }
    ensures value { result ≡ (pos 2 *ℤ down) -ℤ pos 1 }
    ensures size { unsigned_abs result ≤ 2 ^ 23 }
{
    i128::from(2 * down - 1)
}

/// The product of a normal with the direction to the viewer.
fn facing(cut: &Cut, n: &Normal) -> i64
    ensures value { result ≡ dot (toward_of (plane_of cut.now)) (of_normal n.now) }
    ensures size { unsigned_abs result ≤ 2 ^ 43 }
{
    let along = component(cut.axis(), n);
    if cut.from_high() { along } else { -along }
}

/// How far the edge is below the plane.
pub(crate) fn beyond(edge: &CutEdge) -> Linear
    ensures start { result.start ≡ below_of (plane_of edge.now.cut) (point_of edge.now.seen.a) }
    ensures end { result.end ≡ below_of (plane_of edge.now.cut) (point_of edge.now.seen.b) }
{
    Linear {
        start: below(&edge.cut, &edge.seen.a),
        end: below(&edge.cut, &edge.seen.b),
    }
}

/// How far the face's points over the edge are below the plane.
pub(crate) fn under(edge: &CutEdge, a: &Corner, b: &Corner, c: &Corner) -> Linear
    ensures start { result.start ≡ under_of (plane_of edge.now.cut) a.now b.now c.now (point_of edge.now.seen.a) }
    ensures end { result.end ≡ under_of (plane_of edge.now.cut) a.now b.now c.now (point_of edge.now.seen.b) }
{
    Linear {
        start: under_at(&edge.cut, a, b, c, &edge.seen.a),
        end: under_at(&edge.cut, a, b, c, &edge.seen.b),
    }
}

/// How far the point over a corner of the face's plane is below that of the cut, times twice the face's area as it is seen, which is
/// below 0 where the face is turned away.
fn under_at(cut: &Cut, a: &Corner, b: &Corner, c: &Corner, p: &Corner) -> i128
    ensures value { result ≡ under_of (plane_of cut.now) a.now b.now c.now (point_of p.now) }
    ensures small { unsigned_abs result < 2 ^ 68 }
{
    let (s, t) = (Vector::between(a, b), Vector::between(a, c));
    let depth = det3(&Vector::between(p, a), &s, &t);
    lowered(facing(cut, &cross(&s, &t)), below(cut, p), depth)
}

/// `facing * below - 2 * depth`.
fn lowered(facing: i64, below: i128, depth: i128) -> i128
    requires first { unsigned_abs facing ≤ 2 ^ 43 }
    requires second { unsigned_abs below ≤ 2 ^ 23 }
    requires third { unsigned_abs depth < 2 ^ 66 }
    ensures value { result ≡ (facing *ℤ below) -ℤ (pos 2 *ℤ depth) }
    ensures small { unsigned_abs result < 2 ^ 68 }
{
    i128::from(facing) * below - 2 * depth
}

/// How far the points over the edge of the line from `k` to `l` are below the plane.
pub(crate) fn reach(edge: &CutEdge, k: &Corner, l: &Corner) -> Linear
    ensures start { result.start ≡ reach_of (plane_of edge.now.cut) (of_vector edge.now.seen.axis) k.now l.now (point_of edge.now.seen.a) }
    ensures end { result.end ≡ reach_of (plane_of edge.now.cut) (of_vector edge.now.seen.axis) k.now l.now (point_of edge.now.seen.b) }
{
    Linear {
        start: reach_at(edge, k, l, &edge.seen.a),
        end: reach_at(edge, k, l, &edge.seen.b),
    }
}

/// How far the point over a corner of the line from `k` to `l` is below the plane.
fn reach_at(edge: &CutEdge, k: &Corner, l: &Corner, p: &Corner) -> i128
    ensures value { result ≡ reach_of (plane_of edge.now.cut) (of_vector edge.now.seen.axis) k.now l.now (point_of p.now) }
    ensures small { unsigned_abs result < 2 ^ 68 }
{
    let axis = edge.seen.axis;
    let short = axis.dot(&Vector::between(p, l));
    let past = axis.dot(&Vector::between(k, p));
    short * below(&edge.cut, k) + past * below(&edge.cut, l)
}
