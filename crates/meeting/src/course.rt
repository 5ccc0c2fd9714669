// How an edge goes past a triangle.
ghost use Rattle.std.specs.Prelude.{◌≡◌, ◌<◌, ◌^◌, unsigned_abs};
ghost use Rattle.lattice.specs.Points.{of_dir};
ghost use Rattle.geometry.specs.Faces.{facing_of};
ghost use Rattle.meeting.specs.inner.Heights.{height_of};

use lattice::{Corner, Dir, Vector, det3, view_cross};

/// How far the first corner of an edge and its second are above a triangle's plane, times twice the triangle's area. It
/// is linear along the edge. The normal points up.
#[derive(Clone, Copy)]
pub(crate) struct Heights {
    pub start: i128,
    pub end: i128,
    ghost start_small: { unsigned_abs start < 2 ^ 66 },
    ghost end_small: { unsigned_abs end < 2 ^ 66 },
}

/// How far the first corner of an edge and its second are seen to the left of a side of a triangle, times the lengths of
/// the side as it is seen and of the direction. It is linear along the edge.
#[derive(Clone, Copy)]
pub(crate) struct Offset {
    pub start: i128,
    pub end: i128,
    ghost start_small: { unsigned_abs start < 2 ^ 48 },
    ghost end_small: { unsigned_abs end < 2 ^ 48 },
}

/// An edge against a triangle: its plane, and its three sides.
#[derive(Clone, Copy)]
pub(crate) struct Course {
    pub above: Heights,
    pub bc: Offset,
    pub ca: Offset,
    pub ab: Offset,
}

impl Course {
    ghost use Rattle.meeting.specs.inner.Courses.{IsCourseOf};

    /// The edge from `p` to `q` against the triangle of `a`, `b` and `c`, as they are seen along `d`.
    pub(crate) fn new(d: &Dir, a: &Corner, b: &Corner, c: &Corner, p: &Corner, q: &Corner) -> Course
        ensures { IsCourseOf (of_dir d.now) a.now b.now c.now p.now q.now result }
    {
        Course {
            above: Heights::new(a, b, c, p, q),
            bc: Offset::new(d, b, c, p, q),
            ca: Offset::new(d, c, a, p, q),
            ab: Offset::new(d, a, b, p, q),
        }
    }
}

impl Heights {
    ghost use Rattle.meeting.specs.inner.Courses.{AreHeightsOf};

    /// The edge from `p` to `q` against the plane of `a`, `b` and `c`.
    fn new(a: &Corner, b: &Corner, c: &Corner, p: &Corner, q: &Corner) -> Heights
        ensures { AreHeightsOf a.now b.now c.now p.now q.now result }
    {
        Heights {
            start: above(a, b, c, p),
            end: above(a, b, c, q),
        }
    }
}

impl Offset {
    ghost use Rattle.meeting.specs.inner.Courses.{IsOffsetOf};

    /// The edge from `p` to `q` against the side from `k` to `l`, as they are seen along `d`.
    fn new(d: &Dir, k: &Corner, l: &Corner, p: &Corner, q: &Corner) -> Offset
        ensures { IsOffsetOf (of_dir d.now) k.now l.now p.now q.now result }
    {
        Offset {
            start: left_of(d, k, l, p),
            end: left_of(d, k, l, q),
        }
    }
}

/// How far a corner is above the plane of `a`, `b` and `c`, times twice the triangle's area.
pub(crate) fn above(a: &Corner, b: &Corner, c: &Corner, p: &Corner) -> i128
    ensures value { result ≡ height_of a.now b.now c.now p.now }
    ensures size { unsigned_abs result < 2 ^ 66 }
{
    det3(
        &Vector::between(a, p),
        &Vector::between(a, b),
        &Vector::between(a, c),
    )
}

/// How far a corner is seen to the left of the side from `k` to `l`, times the lengths of the side as it is seen and of `d`.
pub(crate) fn left_of(d: &Dir, k: &Corner, l: &Corner, p: &Corner) -> i128
    ensures value { result ≡ facing_of (of_dir d.now) k.now l.now p.now }
    ensures size { unsigned_abs result < 2 ^ 48 }
{
    view_cross(d, &Vector::between(k, l), &Vector::between(k, p))
}
