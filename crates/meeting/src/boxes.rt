// Ranges of coordinates, and the boxes of edges and triangles.
ghost use Rattle.std.specs.Prelude.{◌↔◌, ◌≤ℤ◌, IsTrue};
ghost use Rattle.meeting.specs.Ranges.{RangesMeet, IsEdgeRange, IsTriangleRange};
ghost use Rattle.meeting.specs.Boxes.{CoordinatesMeet, BoxesMeet};

use crate::range::Range;
use lattice::Corner;

/// The range of one coordinate of an edge, from the lesser of its two ends' to the greater.
pub fn edge_range(p: i32, q: i32) -> Range
    ensures { IsEdgeRange p q result }
{
    Range {
        from: p.min(q),
        to: p.max(q),
    }
}

/// The range of one coordinate of a triangle, from the least of its three corners' to the greatest.
pub fn triangle_range(a: i32, b: i32, c: i32) -> Range
    ensures { IsTriangleRange a b c result }
{
    Range {
        from: a.min(b).min(c),
        to: a.max(b).max(c),
    }
}

/// Whether some number is in both ranges.
pub fn ranges_meet(r: &Range, s: &Range) -> bool
    ensures { IsTrue result ↔ RangesMeet r.now s.now }
{
    r.from <= s.to && s.from <= r.to
}

/// Whether the box of the edge from `p` to `q` and that of the triangle of `a`, `b` and `c` have a common point. The sides
/// of a box are along the axes.
pub fn boxes_meet(a: &Corner, b: &Corner, c: &Corner, p: &Corner, q: &Corner) -> bool
    ensures { IsTrue result ↔ BoxesMeet a.now b.now c.now p.now q.now }
{
    coordinates_meet(a.x, b.x, c.x, p.x, q.x)
        && coordinates_meet(a.y, b.y, c.y, p.y, q.y)
        && coordinates_meet(a.z, b.z, c.z, p.z, q.z)
}

/// The same along one axis.
fn coordinates_meet(a: i32, b: i32, c: i32, p: i32, q: i32) -> bool
    ensures { IsTrue result ↔ CoordinatesMeet a b c p q }
{
    ranges_meet(&triangle_range(a, b, c), &edge_range(p, q))
}
