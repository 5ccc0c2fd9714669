// An edge as it is seen, and how points lie to its faces and sides.
ghost use Rattle.std.specs.Prelude.{◌≡◌, ℕ, ◌<◌, ◌^◌, ◌↔◌, pos, ◌<ℤ◌, unsigned_abs, IsNone, IfSome};
ghost use Rattle.lattice.specs.Triple.{Triple, IsWithin, dot, right_axis, up_axis};
ghost use Rattle.lattice.specs.Points.{of_dir, of_vector, point_of, OnOneSight};
ghost use Rattle.hiding_laws.specs.Values.{IsAhead, side_of, depth_of, past_of, short_of, behind_of};

use crate::linear::Linear;
use lattice::{Corner, Dir, Vector, det3, view_cross};

/// An edge that is not seen end-on: its two corners, the direction to the viewer, and an axis of the view along which
/// the edge goes forward.
#[derive(Clone, Copy)]
pub(crate) struct SeenEdge {
    pub d: Dir,
    pub a: Corner,
    pub b: Corner,
    pub axis: Vector,
    ghost ahead: { IsAhead (of_dir d) (of_vector axis) a b },
    ghost small: { IsWithin 162 (of_vector axis) },
}

impl SeenEdge {
    /// The edge from one corner to the other.
    pub(crate) fn new(d: &Dir, a: &Corner, b: &Corner) -> SeenEdge
        requires { ¬ OnOneSight (of_dir d.now) (point_of a.now) (point_of b.now) }
        ensures d { of_dir result.d ≡ of_dir d.now }
        ensures a { result.a ≡ a.now }
        ensures b { result.b ≡ b.now }
    {
        let axis = axis_along(d, &Vector::between(a, b));
        SeenEdge {
            d: *d,
            a: *a,
            b: *b,
            axis,
        }
    }
}

/// An axis of the view, or its reverse, along which the way goes forward.
fn axis_along(d: &Dir, way: &Vector) -> Vector
    requires { ¬ ((dot (right_axis (of_dir d.now)) (of_vector way.now) ≡ pos 0) × (dot (up_axis (of_dir d.now)) (of_vector way.now) ≡ pos 0)) }
    ensures level { dot (of_vector result) (of_dir d.now) ≡ pos 0 }
    ensures forward { pos 0 <ℤ dot (of_vector result) (of_vector way.now) }
    ensures small { IsWithin 162 (of_vector result) }
{
    match toward(d.right(), way) {
        Some(axis) => axis,
        None => match toward(d.up(), way) {
            Some(axis) => axis,
            None => unreachable!(),
        },
    }
}

/// The axis, or its reverse, along which the way goes forward; None where it goes neither way.
fn toward(axis: Vector, way: &Vector) -> Option<Vector>
    ensures forward { IfSome result (λ x. pos 0 <ℤ dot (of_vector x) (of_vector way.now)) }
    ensures level { (t : Triple) → dot (of_vector axis) t ≡ pos 0 → IfSome result (λ x. dot (of_vector x) t ≡ pos 0) }
    ensures small { (m : ℕ) → IsWithin m (of_vector axis) → IfSome result (λ x. IsWithin m (of_vector x)) }
    ensures neither { IsNone result ↔ (dot (of_vector axis) (of_vector way.now) ≡ pos 0) }
{
    let along = axis.dot(way);
    if along > 0 {
        Some(axis)
    } else if along < 0 {
        Some(axis.reversed())
    } else {
        None
    }
}

/// How far the edge is to the left of the line from `k` to `l`, as it is seen.
pub(crate) fn side(seen: &SeenEdge, k: &Corner, l: &Corner) -> Linear
    ensures start { result.start ≡ side_of (of_dir seen.now.d) k.now l.now (point_of seen.now.a) }
    ensures end { result.end ≡ side_of (of_dir seen.now.d) k.now l.now (point_of seen.now.b) }
{
    let way = Vector::between(k, l);
    Linear {
        start: view_cross(&seen.d, &way, &Vector::between(k, &seen.a)),
        end: view_cross(&seen.d, &way, &Vector::between(k, &seen.b)),
    }
}

/// How far the edge is behind the plane of a face.
pub(crate) fn depth(seen: &SeenEdge, a: &Corner, b: &Corner, c: &Corner) -> Linear
    ensures start { result.start ≡ depth_of a.now b.now c.now (point_of seen.now.a) }
    ensures end { result.end ≡ depth_of a.now b.now c.now (point_of seen.now.b) }
{
    let (s, t) = (Vector::between(a, b), Vector::between(a, c));
    Linear {
        start: det3(&Vector::between(&seen.a, a), &s, &t),
        end: det3(&Vector::between(&seen.b, a), &s, &t),
    }
}

/// How far the edge is past the corner, along its axis.
pub(crate) fn past(seen: &SeenEdge, k: &Corner) -> Linear
    ensures start { result.start ≡ past_of (of_vector seen.now.axis) k.now (point_of seen.now.a) }
    ensures end { result.end ≡ past_of (of_vector seen.now.axis) k.now (point_of seen.now.b) }
{
    Linear {
        start: seen.axis.dot(&Vector::between(k, &seen.a)),
        end: seen.axis.dot(&Vector::between(k, &seen.b)),
    }
}

/// How far the edge is short of the corner, along its axis.
pub(crate) fn short(seen: &SeenEdge, l: &Corner) -> Linear
    ensures start { result.start ≡ short_of (of_vector seen.now.axis) l.now (point_of seen.now.a) }
    ensures end { result.end ≡ short_of (of_vector seen.now.axis) l.now (point_of seen.now.b) }
{
    Linear {
        start: seen.axis.dot(&Vector::between(&seen.a, l)),
        end: seen.axis.dot(&Vector::between(&seen.b, l)),
    }
}

/// How far the edge is behind the line from `k` to `l`, in the plane of both.
pub(crate) fn behind(seen: &SeenEdge, k: &Corner, l: &Corner) -> Linear
    ensures start { result.start ≡ behind_of (of_dir seen.now.d) (of_vector seen.now.axis) k.now l.now (point_of seen.now.a) }
    ensures end { result.end ≡ behind_of (of_dir seen.now.d) (of_vector seen.now.axis) k.now l.now (point_of seen.now.b) }
{
    Linear {
        start: behind_at(seen, k, l, &seen.a),
        end: behind_at(seen, k, l, &seen.b),
    }
}

/// How far a corner is behind the line from `k` to `l`.
fn behind_at(seen: &SeenEdge, k: &Corner, l: &Corner, p: &Corner) -> i128
    ensures value { result ≡ behind_of (of_dir seen.now.d) (of_vector seen.now.axis) k.now l.now (point_of p.now) }
    ensures small { unsigned_abs result < 2 ^ 62 }
{
    let d = seen.d.vector();
    let way = Vector::between(k, l);
    let to_p = Vector::between(k, p);
    d.dot(&way) * seen.axis.dot(&to_p) - seen.axis.dot(&way) * d.dot(&to_p)
}
