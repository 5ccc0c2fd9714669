// Whether an edge meets a triangle, and how often that is tested.
ghost use Rattle.std.specs.Prelude.{◌≡◌, ◌+◌, ◌*◌, ◌^◌, ◌<◌, ◌↔◌, length, slice_get, Some, IsTrue};
ghost use Rattle.lattice.specs.declared.points.Corner.{Corner};
ghost use Rattle.geometry.specs.Parts.{part_of, IsCornerOf};
ghost use Rattle.meeting.specs.Touching.{Touch};
ghost use Rattle.lattice.specs.Triangles.{IsBelow};
ghost use Rattle.solid_mesh.specs.Meetings.{HaveCommonBox, MeetApart};
ghost use Rattle.solid_mesh.specs.inner.Pairs.{MeetBeyond, AreAt, IsTurnedTo};

use crate::sides::ends;
use lattice::{Soup, Tri};
use meeting::{boxes_meet, touches, touches_beyond};

/// How often boxes and pairs were tested.
#[derive(Clone, Copy, PartialEq, Eq, Debug)]
pub struct PairMeter {
    pub boxes: u64,
    pub pairs: u64,
}

/// Whether the closed boxes of a side, by its half, and of a triangle have a common point. Counts one box. Takes constant time.
pub fn box_test(soup: &Soup, half: u32, tri: u32, meter: &mut PairMeter) -> bool
    requires half { half < 3 * length (part_of soup.now).triangles }
    requires tri { tri < length (part_of soup.now).triangles }
    requires boxes { meter.old.boxes < 2 ^ 63 }
    requires pairs { meter.old.pairs < 2 ^ 63 }
    ensures value { IsTrue result ↔ HaveCommonBox (part_of soup.now) half tri }
    ensures boxes { meter.new.boxes ≡ meter.old.boxes + 1 }
    ensures pairs { meter.new.pairs ≡ meter.old.pairs }
{
    meter.boxes += 1;
    let (m, n) = ends(&soup.triangles[(half / 3) as usize], half % 3);
    let Tri { a, b, c } = soup.triangles[tri as usize];
    boxes_meet(
        &soup.corners[a as usize],
        &soup.corners[b as usize],
        &soup.corners[c as usize],
        &soup.corners[m as usize],
        &soup.corners[n as usize],
    )
}

/// Whether a side, by its half, and a triangle that doesn't have it have a common point that isn't at a corner number of both.
/// The triangle may be flat, and the side may have length 0. Counts one pair. Takes constant time.
pub fn pair_test(soup: &Soup, half: u32, tri: u32, meter: &mut PairMeter) -> bool
    requires half { half < 3 * length (part_of soup.now).triangles }
    requires tri { tri < length (part_of soup.now).triangles }
    requires boxes { meter.old.boxes < 2 ^ 63 }
    requires pairs { meter.old.pairs < 2 ^ 63 }
    ensures value { IsTrue result ↔ MeetApart (part_of soup.now) half tri }
    ensures pairs { meter.new.pairs ≡ meter.old.pairs + 1 }
    ensures boxes { meter.new.boxes ≡ meter.old.boxes }
{
    meter.pairs += 1;
    let (m, n) = ends(&soup.triangles[(half / 3) as usize], half % 3);
    let triangle = &soup.triangles[tri as usize];
    if !has(triangle, m) {
        if !has(triangle, n) {
            return meets(soup, triangle, m, n);
        }
        return meets_beyond(soup, triangle, n, m);
    }
    if has(triangle, n) {
        return false;
    }
    meets_beyond(soup, triangle, m, n)
}

/// Whether the triangle has this corner.
fn has(triangle: &Tri, corner: u32) -> bool
    ensures { IsTrue result ↔ IsCornerOf triangle.now corner }
{
    if triangle.a == corner {
        return true;
    }
    if triangle.b == corner {
        return true;
    }
    triangle.c == corner
}

/// The triangle, with this corner for its first if it has it.
fn turned_to(triangle: &Tri, corner: u32) -> Tri
    ensures { IsTurnedTo triangle.now corner result }
{
    let Tri { a, b, c } = *triangle;
    if b == corner {
        return Tri { a: b, b: c, c: a };
    }
    if c == corner {
        return Tri { a: c, b: a, c: b };
    }
    Tri { a, b, c }
}

/// Whether the edge from corner `m` to corner `n` has a point in common with the triangle.
fn meets(soup: &Soup, triangle: &Tri, m: u32, n: u32) -> bool
    requires triangle { IsBelow (length (part_of soup.now).corners) triangle.now }
    requires m { m < length (part_of soup.now).corners }
    requires n { n < length (part_of soup.now).corners }
    ensures { (a b c p q : Corner) → AreAt (part_of soup.now) triangle.now a b c → slice_get (part_of soup.now).corners m ≡ Some p
        → slice_get (part_of soup.now).corners n ≡ Some q → IsTrue result ↔ Touch a b c p q }
{
    let Tri { a, b, c } = *triangle;
    touches(
        &soup.corners[a as usize],
        &soup.corners[b as usize],
        &soup.corners[c as usize],
        &soup.corners[m as usize],
        &soup.corners[n as usize],
    )
}

/// Whether the edge from the triangle's corner `m` to corner `n` has another point than `m` in common with the triangle.
fn meets_beyond(soup: &Soup, triangle: &Tri, m: u32, n: u32) -> bool
    requires triangle { IsBelow (length (part_of soup.now).corners) triangle.now }
    requires has { IsCornerOf triangle.now m }
    requires n { n < length (part_of soup.now).corners }
    ensures { (a b c p q : Corner) → AreAt (part_of soup.now) triangle.now a b c → slice_get (part_of soup.now).corners m ≡ Some p
        → slice_get (part_of soup.now).corners n ≡ Some q → IsTrue result ↔ MeetBeyond a b c p q }
{
    let Tri { a, b, c } = turned_to(triangle, m);
    touches_beyond(
        &soup.corners[a as usize],
        &soup.corners[b as usize],
        &soup.corners[c as usize],
        &soup.corners[n as usize],
    )
}
