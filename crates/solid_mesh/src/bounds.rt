// From where to where edges and triangles go along six directions.
ghost use Rattle.std.specs.Prelude.{◌↔◌, IsTrue};
ghost use Rattle.solid_mesh.specs.inner.Bounds.{AreEdgeBounds, AreTriangleBounds, BoundsMeet, RangesEnd, BoundsEnd, IsWithin, AreWithin};

use lattice::Corner;
use meeting::{Range, edge_range, ranges_meet, triangle_range};

/// From where to where an edge, a triangle or some triangles go along the axes, and so their differences: they are within the
/// discrete oriented polytope of these twelve planes (Klosowski and others 1998). The differences tell apart what lies side by
/// side along a diagonal, where boxes overlap.
#[derive(Clone, Copy, Debug)]
pub(crate) struct Bounds {
    pub x: Range,
    pub y: Range,
    pub z: Range,
    pub xy: Range,
    pub yz: Range,
    pub zx: Range,
}

/// Those of the edge from `p` to `q`.
pub(crate) fn edge_bounds(p: &Corner, q: &Corner) -> Bounds
    ensures { AreEdgeBounds p.now q.now result }
{
    Bounds {
        x: edge_range(p.x, q.x),
        y: edge_range(p.y, q.y),
        z: edge_range(p.z, q.z),
        xy: edge_range(p.x - p.y, q.x - q.y),
        yz: edge_range(p.y - p.z, q.y - q.z),
        zx: edge_range(p.z - p.x, q.z - q.x),
    }
}

/// Those of the triangle of `a`, `b` and `c`.
pub(crate) fn triangle_bounds(a: &Corner, b: &Corner, c: &Corner) -> Bounds
    ensures { AreTriangleBounds a.now b.now c.now result }
{
    Bounds {
        x: triangle_range(a.x, b.x, c.x),
        y: triangle_range(a.y, b.y, c.y),
        z: triangle_range(a.z, b.z, c.z),
        xy: triangle_range(a.x - a.y, b.x - b.y, c.x - c.y),
        yz: triangle_range(a.y - a.z, b.y - b.z, c.y - c.z),
        zx: triangle_range(a.z - a.x, b.z - b.x, c.z - c.x),
    }
}

/// Whether along each of the six some number is within both.
pub(crate) fn bounds_meet(r: &Bounds, s: &Bounds) -> bool
    ensures { IsTrue result ↔ BoundsMeet r.now s.now }
{
    if !ranges_meet(&r.x, &s.x) {
        return false;
    }
    if !ranges_meet(&r.y, &s.y) {
        return false;
    }
    if !ranges_meet(&r.z, &s.z) {
        return false;
    }
    if !ranges_meet(&r.xy, &s.xy) {
        return false;
    }
    if !ranges_meet(&r.yz, &s.yz) {
        return false;
    }
    ranges_meet(&r.zx, &s.zx)
}

/// Whether along one of the six the first bounds reach no farther into the second than to an end, and are more than that end.
pub(crate) fn bounds_end(r: &Bounds, s: &Bounds) -> bool
    ensures { IsTrue result ↔ BoundsEnd r.now s.now }
{
    if ranges_end(&r.x, &s.x) {
        return true;
    }
    if ranges_end(&r.y, &s.y) {
        return true;
    }
    if ranges_end(&r.z, &s.z) {
        return true;
    }
    if ranges_end(&r.xy, &s.xy) {
        return true;
    }
    if ranges_end(&r.yz, &s.yz) {
        return true;
    }
    ranges_end(&r.zx, &s.zx)
}

/// The same along one of the six.
fn ranges_end(r: &Range, s: &Range) -> bool
    ensures { IsTrue result ↔ RangesEnd r.now s.now }
{
    if r.to <= r.from {
        return false;
    }
    if r.to <= s.from {
        return true;
    }
    s.to <= r.from
}

/// The bounds of both together.
pub(crate) fn united(r: &Bounds, s: &Bounds) -> Bounds
    ensures first { AreWithin r.now result }
    ensures second { AreWithin s.now result }
{
    Bounds {
        x: range_of_both(&r.x, &s.x),
        y: range_of_both(&r.y, &s.y),
        z: range_of_both(&r.z, &s.z),
        xy: range_of_both(&r.xy, &s.xy),
        yz: range_of_both(&r.yz, &s.yz),
        zx: range_of_both(&r.zx, &s.zx),
    }
}

/// The same along one of the six.
fn range_of_both(r: &Range, s: &Range) -> Range
    ensures first { IsWithin r.now result }
    ensures second { IsWithin s.now result }
{
    Range {
        from: r.from.min(s.from),
        to: r.to.max(s.to),
    }
}
