// How far figures reach, and the middle of two.
ghost use Rattle.std.specs.Prelude.{◌*◌, ◌<◌, length};
ghost use Rattle.geometry.specs.Parts.{part_of};
ghost use Rattle.fault_place.specs.Places.{Figure, stretch, triangle, IsMiddle};
ghost use Rattle.fault_place.specs.inner.Bounds.{IsAt, AreUnited, AreBounds, BoundTriangle, BoundSide};

use crate::halves::{DirectedSide, side_at};
use crate::reach::{Bounds, Reach, middle, united};
use lattice::{Corner, Soup, Tri};

/// A corner's own coordinates.
fn at(corner: &Corner) -> Bounds
    ensures { IsAt corner.now result }
{
    Bounds {
        x: Reach {
            least: corner.x,
            greatest: corner.x,
        },
        y: Reach {
            least: corner.y,
            greatest: corner.y,
        },
        z: Reach {
            least: corner.z,
            greatest: corner.z,
        },
    }
}

/// The bounds of two together.
fn both(f: &Bounds, g: &Bounds) -> Bounds
    ensures { AreUnited f.now g.now result }
{
    Bounds {
        x: united(&f.x, &g.x),
        y: united(&f.y, &g.y),
        z: united(&f.z, &g.z),
    }
}

/// The bounds of what goes from `p` to `q`.
fn of_stretch(p: &Corner, q: &Corner) -> Bounds
    ensures { AreBounds (stretch p.now q.now) result }
{
    both(&at(p), &at(q))
}

/// The bounds of the triangle of `a`, `b` and `c`.
fn of_triangle(a: &Corner, b: &Corner, c: &Corner) -> Bounds
    ensures { AreBounds (triangle a.now b.now c.now) result }
{
    both(&of_stretch(a, b), &at(c))
}

/// The bounds of the side along a half.
pub(crate) fn side_bounds(soup: &Soup, half: u128) -> Bounds
    requires { half < 3 * length (part_of soup.now).triangles }
    ensures { BoundSide (part_of soup.now) half result }
{
    let DirectedSide { from, to } = side_at(soup, half);
    of_stretch(&soup.corners[from as usize], &soup.corners[to as usize])
}

/// The bounds of the triangle with this number.
pub(crate) fn triangle_bounds(soup: &Soup, number: u32) -> Bounds
    requires { number < length (part_of soup.now).triangles }
    ensures { BoundTriangle (part_of soup.now) number result }
{
    let Tri { a, b, c } = soup.triangles[number as usize];
    of_triangle(
        &soup.corners[a as usize],
        &soup.corners[b as usize],
        &soup.corners[c as usize],
    )
}

/// The middle of what two figures have in common.
pub(crate) fn middle_of(f: &Bounds, g: &Bounds) -> Corner
    ensures { (p q : Figure) → AreBounds p f.now → AreBounds q g.now → IsMiddle p q result }
{
    Corner {
        x: middle(&f.x, &g.x),
        y: middle(&f.y, &g.y),
        z: middle(&f.z, &g.z),
    }
}
