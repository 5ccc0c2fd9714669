// Where the border of a face passes over an edge, and what it changes there of the counts along the edge.
ghost use Rattle.std.specs.Prelude.{◌≡◌, ◌⊎◌, ◌≤◌, ◌+◌, ◌<◌, ◌^◌, ◌↔◌, ◌*◌, ◌+ℤ◌, ◌-ℤ◌, ◌*ℤ◌, ◌<ℤ◌, pos, length, unsigned_abs, Some, slice_get, MatchBool, IsTrue};
ghost use Rattle.lattice.specs.Cuts.{plane_of, toward_of, IsBeyond};
ghost use Rattle.lattice.specs.Points.{of_dir, of_spot, point_of};
ghost use Rattle.geometry.specs.Cuts.{IsLeftOfBorder};
ghost use Rattle.geometry.specs.Faces.{share_point};
ghost use Rattle.geometry.specs.Parts.{Part, Face, Edge, IsNumbered, HasNoFlatTriangle};
ghost use Rattle.geometry.specs.Places.{IsPlace};
ghost use Rattle.solid_mesh.specs.Solids.{solid_part, edge_halves};
ghost use Rattle.cut_plane.specs.declared.segments.Segment.{Segment};
ghost use Rattle.cut_plane.specs.Loops.{IsSegmentOf, AreBorders};
ghost use Rattle.cut_count_laws.specs.BorderShares.{middle_of, HasGreaterLeft, HasSectionLeft, IsTurnedBy};
ghost use Rattle.cut_count.specs.Crossings.{IsBorderAcross};
ghost use Rattle.cut_count.specs.inner.Borders.{IsSmallEnd, IsInnerBeyond};

use crate::rests::is_beyond_at;
use crate::sights::{SeenEdge, corner_side, side};
use cross_find::{
    CountChanges, Crossing, Meter, TriangleCorners, corners_of, count_changes, left_mark,
    right_mark,
};
use cut_plane::{Section, Segment, crossing, inside, is_right_of, over};
use exact_frac::Frac;
use lattice::{Corner, Cut, Dir, Spot, across, upward};
use solid_mesh::Solid;
use std::cmp::Ordering;

/// Where a border passes over an inner place of an edge that is beyond the plane, and what it changes of the two counts there; none where
/// it changes neither. The face of the border ends there, and the section begins or ends. The orientation of the triangle plays no part. Takes no memory, and constant time but
/// for one pass over the segments where the border passes over such a place, which tells on which side of it the section is.
pub fn border_cross(
    solid: &Solid,
    section: &Section,
    edge: u32,
    segment: u32,
    meter: &mut Meter,
) -> Option<Crossing>
    requires edge_in_range { edge < length (edge_halves solid.now) }
    requires segment_in_range { segment < length section.now.segments.items }
    requires borders { AreBorders (plane_of section.now.cut) (solid_part solid.now) section.now.segments.items section.now.loops.items }
    requires room { meter.old.tests + 1 < 2 ^ 64 }
    ensures answer { (e : Edge (solid_part solid.now)) (f : Face (solid_part solid.now)) (x : Segment) → IsNumbered (edge_halves solid.now) edge e →
        slice_get section.now.segments.items segment ≡ Some x → f.number ≡ x.tri → IsBorderAcross (plane_of section.now.cut) e f result }
    ensures counted { meter.new.tests ≡ meter.old.tests + 1 }
{
    meter.tests += 1;
    let x = section.segments.as_slice()[segment as usize];
    let seen = SeenEdge::new(solid, &section.cut, edge);
    let (from, to) = (side(&seen, &x.a), side(&seen, &x.b));
    if left_mark(from) == left_mark(to) && right_mark(from) == right_mark(to) {
        return None;
    }
    let at = match crossing(solid, &section.cut, &seen.at, &x) {
        Some(at) => at,
        None => return None,
    };
    if !is_inner_beyond(&seen, &at) {
        return None;
    }
    let turned = turned_by(solid, &section.cut, &x);
    let CountChanges { left, right } = if section_is_left(section, &x) {
        count_changes(1 - turned, from, to)
    } else {
        count_changes(1 + turned, to, from)
    };
    if left == 0 && right == 0 {
        return None;
    }
    Some(Crossing { at, left, right })
}

/// The place is an inner one of the edge, and its point there is beyond the plane.
fn is_inner_beyond(seen: &SeenEdge, at: &Frac) -> bool
    requires { IsPlace at.now }
    ensures { IsTrue result ↔ IsInnerBeyond (plane_of seen.now.cut) seen.now.at.a seen.now.at.b at.now }
{
    at.num > 0 && at.num < at.den && is_beyond_at(&seen.cut, &seen.at.a, &seen.at.b, at)
}

/// 1 where what the plane leaves of the segment's triangle is seen to the right of the segment, -1 where it is seen to the left, 0 where
/// the triangle is edge-on.
fn turned_by(solid: &Solid, cut: &Cut, x: &Segment) -> i8
    requires { IsSegmentOf (plane_of cut.now) (solid_part solid.now) x.now }
    ensures turned { (f : Face (solid_part solid.now)) → f.number ≡ x.now.tri → IsTurnedBy (plane_of cut.now) f (of_spot x.now.a) (of_spot x.now.b) result }
    ensures size { unsigned_abs result ≤ 1 }
{
    if solid.sign(&cut.dir(), x.tri) == 0 {
        return 0;
    }
    let k = corner_beyond(cut, &corners_of(solid, x.tri));
    if corner_side(cut, &x.a, &x.b, &k) < 0 {
        1
    } else {
        -1
    }
}

/// A corner of the triangle that is beyond the plane, where one is.
fn corner_beyond(cut: &Cut, t: &TriangleCorners) -> Corner
    ensures one { (t.now.a ≡ result) ⊎ (t.now.b ≡ result) ⊎ (t.now.c ≡ result) }
    ensures beyond { IsBeyond (plane_of cut.now) (point_of t.now.a) ⊎ IsBeyond (plane_of cut.now) (point_of t.now.b) ⊎ IsBeyond (plane_of cut.now) (point_of t.now.c) →
        IsBeyond (plane_of cut.now) (point_of result) }
{
    if over(cut, &t.a) < 0 {
        t.a
    } else if over(cut, &t.b) < 0 {
        t.b
    } else {
        t.c
    }
}

/// The section is on the left of the segment from `a` to `b`; else it is on its right. A point of a border is in the section where what
/// is next to it on the side of the greater U is (of the greater V where the border is level), so the segment's middle tells it.
fn section_is_left(section: &Section, x: &Segment) -> bool
    requires { (s : Part) × AreBorders (plane_of section.now.cut) s section.now.segments.items section.now.loops.items × IsSegmentOf (plane_of section.now.cut) s x.now }
    ensures { (s : Part) → HasNoFlatTriangle s → AreBorders (plane_of section.now.cut) s section.now.segments.items section.now.loops.items → IsSegmentOf (plane_of section.now.cut) s x.now →
        MatchBool result (HasSectionLeft (plane_of section.now.cut) s (of_spot x.now.a) (of_spot x.now.b)) (HasSectionLeft (plane_of section.now.cut) s (of_spot x.now.b) (of_spot x.now.a)) }
{
    has_greater_left(&section.cut.dir(), &x.a, &x.b) == inside(section, &middle(&x.a, &x.b))
}

/// The middle between two ends of borders.
fn middle(p: &Spot, q: &Spot) -> Spot
    requires first { IsSmallEnd p.now }
    requires second { IsSmallEnd q.now }
    ensures { of_spot result ≡ middle_of (of_spot p.now) (of_spot q.now) }
{
    Spot {
        x: mixed(p.x, q.w, q.x, p.w),
        y: mixed(p.y, q.w, q.y, p.w),
        z: mixed(p.z, q.w, q.z, p.w),
        w: doubled(p.w, q.w),
    }
}

/// `x * v + y * w`, where `x` has the divisor `w`, and `y` the divisor `v`.
fn mixed(x: i128, v: i128, y: i128, w: i128) -> i128
    requires first { unsigned_abs x ≤ 2 ^ 21 * unsigned_abs w }
    requires second { unsigned_abs y ≤ 2 ^ 21 * unsigned_abs v }
    requires third { unsigned_abs v ≤ 2 ^ 24 }
    requires fourth { unsigned_abs w ≤ 2 ^ 24 }
    ensures value { result ≡ (x *ℤ v) +ℤ (y *ℤ w) }
    ensures near { unsigned_abs result ≤ 2 ^ 21 * unsigned_abs (pos 2 *ℤ (w *ℤ v)) }
    ensures size { unsigned_abs result ≤ 2 ^ 70 }
{
    x * v + y * w
}

/// `2 * (v * w)`.
fn doubled(v: i128, w: i128) -> i128
    requires first { unsigned_abs v ≤ 2 ^ 24 }
    requires second { unsigned_abs w ≤ 2 ^ 24 }
    ensures value { result ≡ pos 2 *ℤ (v *ℤ w) }
    ensures size { unsigned_abs result ≤ 2 ^ 49 }
{
    2 * (v * w)
}

/// The way from `p` to `q` goes down in the view, or it is level and goes to the right.
fn has_greater_left(d: &Dir, p: &Spot, q: &Spot) -> bool
    ensures { IsTrue result ↔ HasGreaterLeft (of_dir d.now) (of_spot p.now) (of_spot q.now) }
{
    match upward(d, q).cmp(&upward(d, p)) {
        Ordering::Less => true,
        Ordering::Equal => across(d, p) < across(d, q),
        Ordering::Greater => false,
    }
}

/// Whether the segment counts for the spot, by the rule of even and odd: it is to the right of the spot. V of the spot is from that of the
/// segment's lower end on and less than that of its upper end, and U is less than that of the segment there; a level segment never counts.
/// Takes constant time and no memory.
pub fn border_cover(section: &Section, p: &Spot, segment: u32, meter: &mut Meter) -> bool
    requires segment_in_range { segment < length section.now.segments.items }
    requires room { meter.old.tests + 1 < 2 ^ 64 }
    ensures answer { (s : Part) (f : Face s) (x : Segment) → AreBorders (plane_of section.now.cut) s section.now.segments.items section.now.loops.items →
        slice_get section.now.segments.items segment ≡ Some x → f.number ≡ x.tri → IsTrue result ↔ IsLeftOfBorder (plane_of section.now.cut) f (of_spot p.now) }
    ensures counted { meter.new.tests ≡ meter.old.tests + 1 }
{
    meter.tests += 1;
    is_right_of(
        &section.cut.dir(),
        &section.segments.as_slice()[segment as usize],
        p,
    )
}
