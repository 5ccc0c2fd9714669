// What an edge is asked at the end from which its counts start: which borders are ahead of it and which cross the edge, and which faces are
// nearer next to it.
ghost use Rattle.std.specs.Prelude.{◌≡◌, ◌≢◌, ◌⊎◌, ℕ, ◌≤◌, ◌+◌, ◌<◌, ◌^◌, ◌↔◌, ◌-ℤ◌, ◌*ℤ◌, ◌<ℤ◌, pos, length, sum, unsigned_abs, IsTrue, IfOk, OnOk};
ghost use Rattle.lattice.specs.Cuts.{plane_of, toward_of, IsBeyond};
ghost use Rattle.lattice.specs.Points.{of_spot, point_of};
ghost use Rattle.geometry.specs.Parts.{Part, Face, Edge, IsNumbered};
ghost use Rattle.geometry.specs.Places.{IsEarlier};
ghost use Rattle.hiding_laws.specs.Values.{side_of};
ghost use Rattle.solid_mesh.specs.Solids.{solid_part, edge_halves};
ghost use Rattle.geometry.specs.Counts.{to_left, to_right};
ghost use Rattle.geometry.specs.Shares.{mark};
ghost use Rattle.geometry.specs.Turns.{corner_at, number_at};
ghost use Rattle.cut_plane.specs.Loops.{IsSegmentOf, AreBorders};
ghost use Rattle.cut_count.specs.inner.Borders.{IsAhead, IsFoundOr, ahead_turn};
ghost use Rattle.cut_plane.proofs.Xors.{xor};
ghost use Rattle.span_count.specs.Finders.{AreAllNear};
ghost use Rattle.span_count.specs.Tests.{AreNearAmong};
ghost use Rattle.cut_plane.specs.Beyond.{IsStretch};
ghost use Rattle.cut_count.specs.inner.Walks.{AreFound, IsOddAhead, AreCoverCounts};

use crate::cover::cut_cover;
use crate::found::{CrossingBorder, Odds, Share};
use crate::sights::{SeenEdge, corner_side, side};
use cross_find::{End, Meter, left_mark, right_mark, times};
use cut_plane::{Section, Segment, crossing};
use exact_frac::{Frac, OutOfMemory};
use intervals::Interval;
use solid_mesh::Solid;
use span_count::{Finder, Sides, next_triangle};
use std::alloc::Global;

/// What a walk along an edge asks of a border: whether it is ahead of the end that is come from, for either count, and where and how
/// it changes them.
struct BorderTest {
    ahead: Odds,
    found: Option<CrossingBorder>,
}

/// The borders that cross an edge within a part of it, and whether an odd number are ahead of an end of the edge, for either count.
#[derive(Drop)]
pub(crate) struct Borders {
    pub(crate) found: Vec<CrossingBorder>,
    pub(crate) odd: Odds,
}

/// The borders that cross an edge within its part beyond the plane, in the order of the segments, and whether an odd number of borders
/// cross the edge's line ahead of the end that is come from: a test of each segment. A border that is one with the edge's line
/// counts with neither.
pub(crate) fn borders_along(
    alloc: Global,
    solid: &Solid,
    section: &Section,
    seen: &SeenEdge,
    at_b: bool,
    part: &Interval<Frac>,
    meter: &mut Meter,
) -> Result<Borders, OutOfMemory>
    requires in_range { seen.now.at.number < length (edge_halves solid.now) }
    requires plane { plane_of seen.now.cut ≡ plane_of section.now.cut }
    requires ends { (e : Edge (solid_part solid.now)) → IsNumbered (edge_halves solid.now) seen.now.at.number e → (e.a ≡ seen.now.at.a) × (e.b ≡ seen.now.at.b) }
    requires part { IsStretch part.now }
    requires borders { AreBorders (plane_of section.now.cut) (solid_part solid.now) section.now.segments.items section.now.loops.items }
    requires room { meter.old.tests + length section.now.segments.items < 2 ^ 64 }
    ensures found { (e : Edge (solid_part solid.now)) → IsNumbered (edge_halves solid.now) seen.now.at.number e →
        IfOk result (λ x. AreFound (plane_of section.now.cut) e part.now section.now.segments.items x.found.items) }
    ensures few { IfOk result (λ x. length x.found.items ≤ length section.now.segments.items) }
    ensures left { IfOk result (λ x. IsOddAhead to_left at_b (toward_of (plane_of section.now.cut)) seen.now.at.a seen.now.at.b section.now.segments.items x.odd.left) }
    ensures right { IfOk result (λ x. IsOddAhead to_right at_b (toward_of (plane_of section.now.cut)) seen.now.at.a seen.now.at.b section.now.segments.items x.odd.right) }
    ensures least { meter.old.tests ≤ meter.new.tests }
    ensures most { meter.new.tests ≤ meter.old.tests + length section.now.segments.items }
    ensures all_tested { OnOk result (meter.new.tests ≡ meter.old.tests + length section.now.segments.items) }
{
    let mut found = Vec::new(alloc);
    let mut odd = Odds {
        left: false,
        right: false,
    };
    for segment in section.segments.as_slice() {
        meter.tests += 1;
        let BorderTest {
            ahead,
            found: border,
        } = border_test(solid, seen, at_b, part, segment);
        odd = both(odd, ahead);
        if let Some(border) = border {
            found.push(border)?;
        }
    }
    Ok(Borders { found, odd })
}

/// One of the two but not both, side by side.
fn both(x: Odds, y: Odds) -> Odds
    ensures left { result.left ≡ xor x.left y.left }
    ensures right { result.right ≡ xor x.right y.right }
{
    Odds {
        left: x.left != y.left,
        right: x.right != y.right,
    }
}

/// What the border is to the edge. Most are to one side of the edge's line, and no more is formed for them.
fn border_test(
    solid: &Solid,
    seen: &SeenEdge,
    at_b: bool,
    part: &Interval<Frac>,
    x: &Segment,
) -> BorderTest
    requires in_range { seen.now.at.number < length (edge_halves solid.now) }
    requires ends { (e : Edge (solid_part solid.now)) → IsNumbered (edge_halves solid.now) seen.now.at.number e → (e.a ≡ seen.now.at.a) × (e.b ≡ seen.now.at.b) }
    requires part { IsStretch part.now }
    requires segment { IsSegmentOf (plane_of seen.now.cut) (solid_part solid.now) x.now }
    ensures left { IsTrue result.ahead.left ↔ IsAhead to_left at_b (toward_of (plane_of seen.now.cut)) seen.now.at.a seen.now.at.b (of_spot x.now.a) (of_spot x.now.b) }
    ensures right { IsTrue result.ahead.right ↔ IsAhead to_right at_b (toward_of (plane_of seen.now.cut)) seen.now.at.a seen.now.at.b (of_spot x.now.a) (of_spot x.now.b) }
    ensures found { (e : Edge (solid_part solid.now)) (f : Face (solid_part solid.now)) → IsNumbered (edge_halves solid.now) seen.now.at.number e → f.number ≡ x.now.tri →
        IsFoundOr (plane_of seen.now.cut) e f part.now (of_spot x.now.a) (of_spot x.now.b) result.found }
{
    let (from, to) = (side(seen, &x.a), side(seen, &x.b));
    if left_mark(from) == left_mark(to) && right_mark(from) == right_mark(to) {
        return BorderTest {
            ahead: Odds {
                left: false,
                right: false,
            },
            found: None,
        };
    }
    let turn = turn_ahead(seen, at_b, x);
    BorderTest {
        ahead: Odds {
            left: is_ahead(left_mark(from), left_mark(to), turn),
            right: is_ahead(right_mark(from), right_mark(to), turn),
        },
        found: found_at(solid, seen, part, x, from, to),
    }
}

/// Where the end of the edge that is come from is seen to the segment, as one comes from it.
fn turn_ahead(seen: &SeenEdge, at_b: bool, x: &Segment) -> i128
    requires { (s : Part) × IsSegmentOf (plane_of seen.now.cut) s x.now }
    ensures { result ≡ ahead_turn at_b (toward_of (plane_of seen.now.cut)) seen.now.at.a seen.now.at.b (of_spot x.now.a) (of_spot x.now.b) }
{
    if at_b {
        -corner_side(&seen.cut, &x.a, &x.b, &seen.at.b)
    } else {
        corner_side(&seen.cut, &x.a, &x.b, &seen.at.a)
    }
}

/// The marks differ, and the way from the end with the first mark to that with the second crosses the line ahead, by this turn.
fn is_ahead(from: i8, to: i8, turn: i128) -> bool
    ensures { IsTrue result ↔ (((from <ℤ to) × (pos 0 <ℤ turn)) ⊎ ((to <ℤ from) × (turn <ℤ pos 0))) }
{
    (from < to && turn > 0) || (to < from && turn < 0)
}

/// Where the border, whose ends are seen at these sides of the edge's line, crosses it within the part, and its shares.
fn found_at(
    solid: &Solid,
    seen: &SeenEdge,
    part: &Interval<Frac>,
    x: &Segment,
    from: i128,
    to: i128,
) -> Option<CrossingBorder>
    requires in_range { seen.now.at.number < length (edge_halves solid.now) }
    requires ends { (e : Edge (solid_part solid.now)) → IsNumbered (edge_halves solid.now) seen.now.at.number e → (e.a ≡ seen.now.at.a) × (e.b ≡ seen.now.at.b) }
    requires part { IsStretch part.now }
    requires segment { IsSegmentOf (plane_of seen.now.cut) (solid_part solid.now) x.now }
    requires from { from ≡ side_of (toward_of (plane_of seen.now.cut)) seen.now.at.a seen.now.at.b (of_spot x.now.a) }
    requires to { to ≡ side_of (toward_of (plane_of seen.now.cut)) seen.now.at.a seen.now.at.b (of_spot x.now.b) }
    requires changes { (mark to_left from ≢ mark to_left to) ⊎ (mark to_right from ≢ mark to_right to) }
    ensures { (e : Edge (solid_part solid.now)) (f : Face (solid_part solid.now)) → IsNumbered (edge_halves solid.now) seen.now.at.number e → f.number ≡ x.now.tri →
        IsFoundOr (plane_of seen.now.cut) e f part.now (of_spot x.now.a) (of_spot x.now.b) result }
{
    let at = crossing(solid, &seen.cut, &seen.at, x)?;
    if !is_within(part, &at) {
        return None;
    }
    let sign = solid.sign(&seen.cut.dir(), x.tri);
    Some(CrossingBorder {
        at,
        left: share_of(sign, left_mark(from), left_mark(to)),
        right: share_of(sign, right_mark(from), right_mark(to)),
    })
}

/// Strictly between the two places.
fn is_within(part: &Interval<Frac>, at: &Frac) -> bool
    ensures { IsTrue result ↔ (IsEarlier part.now.from at.now × IsEarlier at.now part.now.to) }
{
    part.from < *at && *at < part.to
}

/// The share of the border of a face with this sign, by the marks of the border's ends.
fn share_of(sign: i8, from: i8, to: i8) -> Share
    requires sign { unsigned_abs sign ≤ 1 }
    requires from { unsigned_abs from ≤ 1 }
    requires to { unsigned_abs to ≤ 1 }
    ensures turns { IsTrue result.turns ↔ (from ≢ to) }
    ensures own { result.own ≡ pos 0 -ℤ (sign *ℤ (from -ℤ to)) }
{
    Share {
        turns: from != to,
        own: sign * (to - from),
    }
}

/// The number of the corner at an end.
fn corner_of(solid: &Solid, end: End) -> u32
    requires { end.edge < length (edge_halves solid.now) }
    ensures { (e : Edge (solid_part solid.now)) → IsNumbered (edge_halves solid.now) end.edge e → result ≡ number_at e end.at_b }
{
    let edge = solid.edge(end.edge);
    if end.at_b { edge.b } else { edge.a }
}

/// How many faces are counted to the left, and to the right, next to an end of the edge that is beyond the plane: a test of each triangle
/// that the finder doesn't pass over at the corner there.
pub(crate) fn cover_counts<F: Finder>(
    solid: &Solid,
    section: &Section,
    finder: &F,
    end: End,
    meter: &mut Meter,
) -> Sides
    requires in_range { end.edge < length (edge_halves solid.now) }
    requires beyond { (e : Edge (solid_part solid.now)) → IsNumbered (edge_halves solid.now) end.edge e → IsBeyond (plane_of section.now.cut) (point_of (corner_at e end.at_b)) }
    requires near { AreAllNear (toward_of (plane_of section.now.cut)) (solid_part solid.now) (F.is_near finder.now) }
    requires room { meter.old.tests + length (solid_part solid.now).triangles < 2 ^ 64 }
    ensures left { (e : Edge (solid_part solid.now)) → IsNumbered (edge_halves solid.now) end.edge e → AreCoverCounts to_left (plane_of section.now.cut) e end.at_b result.left }
    ensures right { (e : Edge (solid_part solid.now)) → IsNumbered (edge_halves solid.now) end.edge e → AreCoverCounts to_right (plane_of section.now.cut) e end.at_b result.right }
    ensures least { meter.old.tests ≤ meter.new.tests }
    ensures most { meter.new.tests ≤ meter.old.tests + length (solid_part solid.now).triangles }
    ensures near_tested { (e : Edge (solid_part solid.now)) → IsNumbered (edge_halves solid.now) end.edge e →
        (n : ℕ) × AreNearAmong (F.is_near finder.now (number_at e end.at_b)) (length (solid_part solid.now).triangles) n × (meter.new.tests ≡ meter.old.tests + n) }
{
    let corner = corner_of(solid, end);
    let triangles = solid.triangles();
    let mut left = 0;
    let mut right = 0;
    let mut told = 0;
    let mut tri = next_triangle(finder, corner, told, 0, triangles);
    while tri < triangles {
        let (on_left, on_right) = cut_cover(solid, section, end, tri, meter);
        left += i64::from(on_left);
        right += i64::from(on_right);
        told += 1;
        tri = next_triangle(finder, corner, told, tri + 1, triangles);
    }
    Sides { left, right }
}
