// Where an edge meets a triangle.
ghost use Rattle.std.specs.Prelude.{◌*◌, ◌<◌, length};
ghost use Rattle.geometry.specs.Faces.{IsFlat};
ghost use Rattle.geometry.specs.Parts.{part_of};
ghost use Rattle.meeting.specs.Touching.{Touch};
ghost use Rattle.fault_place.specs.Places.{IsFirstPlace};
ghost use Rattle.fault_place.specs.inner.Meetings.{HaveCommonPoint, MeetFirstAt, IsFirstAt};

use crate::along::{crossing, entry, heights, later, offsets, rounded};
use crate::halves::{DirectedSide, side_at};
use crate::weights::Weights;
use lattice::{Corner, Soup, Tri, Vector, cross};

/// The place of a side and a triangle that isn't flat: the first point of the side that the triangle has, rounded to whole units.
pub(crate) fn of_meeting(soup: &Soup, half: u128, t: u32) -> Corner
    requires side { half < 3 * length (part_of soup.now).triangles }
    requires triangle { t < length (part_of soup.now).triangles }
    requires meet { HaveCommonPoint (part_of soup.now) half t }
    ensures { MeetFirstAt (part_of soup.now) half t result }
{
    let DirectedSide { from, to } = side_at(soup, half);
    let Tri { a, b, c } = soup.triangles[t as usize];
    first_place(
        &soup.corners[from as usize],
        &soup.corners[to as usize],
        &soup.corners[a as usize],
        &soup.corners[b as usize],
        &soup.corners[c as usize],
    )
}

/// The first point from `p` to `q` that the triangle of `a`, `b` and `c` has, rounded to whole units.
fn first_place(p: &Corner, q: &Corner, a: &Corner, b: &Corner, c: &Corner) -> Corner
    requires touch { Touch a.now b.now c.now p.now q.now }
    requires not_flat { ¬ IsFlat a.now b.now c.now }
    ensures { IsFirstPlace p.now q.now a.now b.now c.now result }
{
    let w = first_weights(p, q, a, b, c);
    Corner {
        x: rounded(&w, p.x, q.x),
        y: rounded(&w, p.y, q.y),
        z: rounded(&w, p.z, q.z),
    }
}

/// The weights of that point. Where the edge is in the plane and to the right of no side of the triangle it is in the triangle, so the
/// first such place is the last one of those at which it comes into the plane and comes over the sides.
fn first_weights(p: &Corner, q: &Corner, a: &Corner, b: &Corner, c: &Corner) -> Weights
    requires touch { Touch a.now b.now c.now p.now q.now }
    requires not_flat { ¬ IsFlat a.now b.now c.now }
    ensures { IsFirstAt p.now q.now a.now b.now c.now result }
{
    let normal = cross(&Vector::between(a, b), &Vector::between(a, c));
    let in_plane = crossing(&heights(a, b, c, p, q));
    let over_bc = entry(&offsets(&normal, b, c, p, q));
    let over_ca = entry(&offsets(&normal, c, a, p, q));
    let over_ab = entry(&offsets(&normal, a, b, p, q));
    later(&later(&in_plane, &over_bc), &later(&over_ca, &over_ab))
}
