// Where the borders of a section cross an edge, as both are seen in the view of the cut.
ghost use Rattle.std.specs.Prelude.{◌≡◌, ◌⊎◌, ℤ, ◌<◌, ◌≤◌, ◌^◌, ◌↔◌, pos, ◌+ℤ◌, ◌-ℤ◌, ◌*ℤ◌, ◌<ℤ◌, ◌≤ℤ◌, unsigned_abs, length, IsTrue, IfOk, IfSome, IfNone};
ghost use Rattle.lattice.specs.Points.{of_dir, of_spot, point_of};
ghost use Rattle.lattice.specs.Cuts.{plane_of, toward_of};
ghost use Rattle.geometry.specs.Parts.{Edge, IsNumbered};
ghost use Rattle.solid_mesh.specs.Solids.{solid_part, edge_halves};
ghost use Rattle.cut_plane.specs.Loops.{IsSegmentOf, AreBorders};
ghost use Rattle.cut_plane.specs.inner.Crossings.{line_value, IsAmid, IsSeenBetween, IsRootOf};
ghost use Rattle.cut_plane.specs.Crossings.{IsShort, AreCrossings, IsCrossingOf};

use crate::{InView, Section, Segment, seen_corner};
use exact_frac::{Frac, OutOfMemory};
use lattice::{Corner, Cut, Dir, Line, Spot, across, upward};
use solid_mesh::Solid;
use std::alloc::Global;
use std::cmp::Ordering;

/// An edge of a solid by its number, and its two corners.
#[derive(Clone, Copy)]
pub struct EdgeAt {
    pub number: u32,
    pub a: Corner,
    pub b: Corner,
}

/// A value that is linear along an edge: what it is at the first corner, and by how much it is more at the second.
#[derive(Clone, Copy)]
struct Linear {
    start: i128,
    change: i128,
    ghost start_small: { unsigned_abs start < 2 ^ 68 },
    ghost change_small: { unsigned_abs change ≤ 2 ^ 66 },
}

/// The places of an edge at which borders of the section cross it, in no order, and perhaps some twice.
///
/// Cost: a few products for each segment of the section, and at most four comparisons of fractions for each whose line the
/// edge crosses.
pub fn crossings(
    alloc: Global,
    solid: &Solid,
    section: &Section,
    edge: u32,
) -> Result<Vec<Frac>, OutOfMemory>
    requires in_range { edge < length (edge_halves solid.now) }
    requires borders { AreBorders (plane_of section.now.cut) (solid_part solid.now) section.now.segments.items section.now.loops.items }
    ensures { (e : Edge (solid_part solid.now)) → IsNumbered (edge_halves solid.now) edge e →
        IfOk result (λ places. AreCrossings (plane_of section.now.cut) e places.items) }
{
    let numbers = solid.edge(edge);
    let edge = EdgeAt {
        number: edge,
        a: solid.corner(numbers.a),
        b: solid.corner(numbers.b),
    };
    let mut places = Vec::new(alloc);
    for segment in section.segments.as_slice() {
        if let Some(place) = crossing(solid, &section.cut, &edge, segment) {
            places.push(place)?;
        }
    }
    Ok(places)
}

/// Where the segment crosses the edge, if it does between the edge's corners. Takes constant time: a few products, and at most four
/// comparisons of fractions where the edge crosses the segment's line.
pub fn crossing(solid: &Solid, cut: &Cut, edge: &EdgeAt, segment: &Segment) -> Option<Frac>
    requires { edge.now.number < length (edge_halves solid.now) }
    ensures { (e : Edge (solid_part solid.now)) → IsNumbered (edge_halves solid.now) edge.now.number e → e.a ≡ edge.now.a → e.b ≡ edge.now.b →
        (at : IsSegmentOf (plane_of cut.now) (solid_part solid.now) segment.now) → IsCrossingOf (plane_of cut.now) at.face e result }
{
    let place = match root(along(cut, &segment.line, &edge.a, &edge.b)) {
        Some(place) => place,
        None => return None,
    };
    let spot = solid.spot(edge.number, &place);
    if is_seen_between(&cut.dir(), &segment.a, &segment.b, &spot) {
        return Some(place);
    }
    None
}

/// What the line is worth along the way from one corner to the other.
fn along(cut: &Cut, line: &Line, a: &Corner, b: &Corner) -> Linear
    ensures start { result.start ≡ line_value (toward_of (plane_of cut.now)) line.now (point_of a.now) }
    ensures end { result.start +ℤ result.change ≡ line_value (toward_of (plane_of cut.now)) line.now (point_of b.now) }
{
    let (a, b) = (seen_corner(cut, a), seen_corner(cut, b));
    Linear {
        start: value(line, a.across, a.upward),
        change: change(line, b.across - a.across, b.upward - a.upward),
    }
}

/// `a * U + b * V - c`.
fn value(line: &Line, u: i64, v: i64) -> i128
    requires first { unsigned_abs u ≤ 2 ^ 20 }
    requires second { unsigned_abs v ≤ 2 ^ 20 }
    ensures value { result ≡ ((line.now.a *ℤ u) +ℤ (line.now.b *ℤ v)) -ℤ line.now.c }
    ensures size { unsigned_abs result < 2 ^ 68 }
{
    line.a * i128::from(u) + line.b * i128::from(v) - line.c
}

/// By how much the value is more where U and V are more by these numbers.
fn change(line: &Line, u: i64, v: i64) -> i128
    requires first { unsigned_abs u ≤ 2 ^ 21 }
    requires second { unsigned_abs v ≤ 2 ^ 21 }
    ensures value { result ≡ (line.now.a *ℤ u) +ℤ (line.now.b *ℤ v) }
    ensures size { unsigned_abs result ≤ 2 ^ 66 }
{
    line.a * i128::from(u) + line.b * i128::from(v)
}

/// Where the value changes its sign, if it does on the edge.
fn root(linear: Linear) -> Option<Frac>
    ensures some { IfSome result (λ r. IsShort r × IsRootOf linear.start (linear.start +ℤ linear.change) r.num r.den) }
    ensures none { IfNone result ((n m : ℤ) → pos 0 <ℤ m → pos 0 ≤ℤ n → n ≤ℤ m → ¬ IsRootOf linear.start (linear.start +ℤ linear.change) n m) }
{
    if linear.change > 0 {
        on_edge(-linear.start, linear.change)
    } else if linear.change < 0 {
        on_edge(linear.start, -linear.change)
    } else {
        None
    }
}

/// The place `num / den`, if it is on the edge.
fn on_edge(num: i128, den: i128) -> Option<Frac>
    requires positive { pos 0 <ℤ den }
    requires num_fits { unsigned_abs num < 2 ^ 68 }
    requires den_fits { unsigned_abs den ≤ 2 ^ 66 }
    ensures some { IfSome result (λ r. IsShort r × (r.num ≡ num) × (r.den ≡ den)) }
    ensures none { IfNone result ((num <ℤ pos 0) ⊎ (den <ℤ num)) }
{
    if num < 0 || den < num {
        return None;
    }
    Some(Frac { num, den })
}

/// U of the third spot is from that of the first to that of the second, or from that of the second to that of the first, and
/// so is its V.
fn is_seen_between(d: &Dir, p: &Spot, q: &Spot, r: &Spot) -> bool
    ensures { IsTrue result ↔ IsSeenBetween (of_dir d.now) (of_spot p.now) (of_spot q.now) (of_spot r.now) }
{
    if !is_amid(&across(d, p), &across(d, q), &across(d, r)) {
        return false;
    }
    is_amid(&upward(d, p), &upward(d, q), &upward(d, r))
}

/// The third is from the first to the second, or from the second to the first.
fn is_amid(x: &Frac, y: &Frac, z: &Frac) -> bool
    ensures { IsTrue result ↔ IsAmid x.now.num x.now.den y.now.num y.now.den z.now.num z.now.den }
{
    match x.cmp(z) {
        Ordering::Less => z <= y,
        Ordering::Equal => true,
        Ordering::Greater => y <= z,
    }
}
