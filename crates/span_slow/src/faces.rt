// The intervals of an edge that faces hide.
ghost use Rattle.std.specs.Prelude.{◌≡◌, ◌<◌, ◌↔◌, pos, ◌<ℤ◌, ◌++◌, length, All, IsTrue, IfOk, OnOk, IfSome, IfNone, option_to_list};
ghost use Rattle.lattice.specs.Triangles.{IsBelow};
ghost use Rattle.lattice.specs.Triple.{dot};
ghost use Rattle.lattice.specs.Points.{of_dir, of_vector, point_of, difference};
ghost use Rattle.geometry.specs.Faces.{FaceHides, facing_of};
ghost use Rattle.geometry.specs.Parts.{Part, Face, Edge};
ghost use Rattle.geometry.specs.Views.{IsHidden};
ghost use Rattle.geometry.specs.Sound.{IsSound};
ghost use Rattle.solid_mesh.specs.Solids.{solid_part};
ghost use Rattle.hiding_laws.specs.Values.{side_of, AreCornersOf, IsSideOf, WideSideHides, IsInLine};
ghost use Rattle.geometry.specs.Places.{IsEarlier};
ghost use Rattle.span_slow.specs.inner.Hidden.{AreWhere, AreAdded};

use crate::interval::{is_earlier, where_nonnegative};
use crate::seen::{SeenEdge, behind, depth, past, short, side};
use exact_frac::{Frac, OutOfMemory};
use intervals::Interval;
use lattice::{Corner, Tri, Vector, view_cross};
use solid_mesh::Solid;
use std::alloc::Global;

/// The intervals in which faces hide the edge. Goes once over the triangles.
pub(crate) fn hidden_intervals(
    alloc: Global,
    solid: &Solid,
    seen: &SeenEdge,
) -> Result<Vec<Interval<Frac>>, OutOfMemory>
    ensures { (e : Edge (solid_part solid.now)) → e.a ≡ seen.now.a → e.b ≡ seen.now.b →
        IfOk result (λ xs. AreWhere (of_dir seen.now.d) e (IsHidden (of_dir seen.now.d) (solid_part solid.now)) xs.items) }
{
    let mut hidden = Vec::new(alloc);
    for triangle in 0..solid.triangles() {
        add_face(&mut hidden, solid, seen, triangle)?;
    }
    Ok(hidden)
}

/// Adds the intervals in which the triangle hides the edge: at most three.
pub(crate) fn add_face(
    hidden: &mut Vec<Interval<Frac>>,
    solid: &Solid,
    seen: &SeenEdge,
    triangle: u32,
) -> Result<(), OutOfMemory>
    requires { triangle < length (solid_part solid.now).triangles }
    ensures { (e : Edge (solid_part solid.now)) → e.a ≡ seen.now.a → e.b ≡ seen.now.b →
        (f : Face (solid_part solid.now)) → f.number ≡ triangle →
        OnOk result (AreAdded (of_dir seen.now.d) e (FaceHides (of_dir seen.now.d) f.a f.b f.c) hidden.old.items hidden.new.items) }
{
    let Tri { a, b, c } = solid.triangle(triangle);
    let (a, b, c) = (solid.corner(a), solid.corner(b), solid.corner(c));
    let facing = view_cross(&seen.d, &Vector::between(&a, &b), &Vector::between(&a, &c));
    if facing > 0 {
        add(hidden, front_interval(seen, &a, &b, &c))
    } else if facing < 0 {
        add(hidden, front_interval(seen, &a, &c, &b))
    } else {
        add(hidden, side_interval(seen, &a, &b))?;
        add(hidden, side_interval(seen, &b, &c))?;
        add(hidden, side_interval(seen, &c, &a))
    }
}

/// One more interval, if there is one.
pub(crate) fn add(
    hidden: &mut Vec<Interval<Frac>>,
    x: Option<Interval<Frac>>,
) -> Result<(), OutOfMemory>
    ensures { OnOk result (hidden.new.items ≡ hidden.old.items ++ option_to_list x) }
{
    if let Some(x) = x {
        hidden.push(x)?;
    }
    Ok(())
}

/// Where the edge is hidden by a face whose corners are seen counterclockwise: within its three sides and behind its plane.
fn front_interval(seen: &SeenEdge, a: &Corner, b: &Corner, c: &Corner) -> Option<Interval<Frac>>
    requires { pos 0 <ℤ facing_of (of_dir seen.now.d) a.now b.now c.now }
    ensures { (s : Part) → IsSound s → All (IsBelow (length s.corners)) s.triangles → (e : Edge s) → e.a ≡ seen.now.a → e.b ≡ seen.now.b →
        (f : Face s) → AreCornersOf f a.now b.now c.now →
        AreWhere (of_dir seen.now.d) e (FaceHides (of_dir seen.now.d) f.a f.b f.c) (option_to_list result) }
{
    let depth = depth(seen, a, b, c);
    if depth.start <= 0 && depth.end <= 0 {
        return None;
    }
    proper(where_nonnegative(&[side(seen, a, b), side(seen, b, c), side(seen, c, a), depth]))
}

/// Where the edge is hidden by a side of a face that is edge-on.
fn side_interval(seen: &SeenEdge, k: &Corner, l: &Corner) -> Option<Interval<Frac>>
    ensures { (s : Part) → IsSound s → All (IsBelow (length s.corners)) s.triangles → (e : Edge s) → e.a ≡ seen.now.a → e.b ≡ seen.now.b →
        (f : Face s) → IsSideOf f k.now l.now →
        AreWhere (of_dir seen.now.d) e (WideSideHides (of_dir seen.now.d) k.now l.now) (option_to_list result) }
{
    if !is_in_line(seen, k) || !is_in_line(seen, l) {
        return None;
    }
    let along = seen.axis.dot(&Vector::between(k, l));
    if along > 0 {
        forward_interval(seen, k, l)
    } else if along < 0 {
        forward_interval(seen, l, k)
    } else {
        None
    }
}

/// The corner is seen on the line of the edge.
pub(crate) fn is_in_line(seen: &SeenEdge, k: &Corner) -> bool
    ensures { IsTrue result ↔ (side_of (of_dir seen.now.d) seen.now.a seen.now.b (point_of k.now) ≡ pos 0) }
{
    view_cross(
        &seen.d,
        &Vector::between(&seen.a, &seen.b),
        &Vector::between(&seen.a, k),
    ) == 0
}

/// The same, of a side in line with the edge, that goes forward as the edge does.
fn forward_interval(seen: &SeenEdge, k: &Corner, l: &Corner) -> Option<Interval<Frac>>
    requires in_line { IsInLine (of_dir seen.now.d) seen.now.a seen.now.b k.now l.now }
    requires forward { pos 0 <ℤ dot (of_vector seen.now.axis) (difference k.now l.now) }
    ensures { (s : Part) → IsSound s → All (IsBelow (length s.corners)) s.triangles → (e : Edge s) → e.a ≡ seen.now.a → e.b ≡ seen.now.b →
        (f : Face s) → IsSideOf f k.now l.now →
        AreWhere (of_dir seen.now.d) e (WideSideHides (of_dir seen.now.d) k.now l.now) (option_to_list result) }
{
    let behind = behind(seen, k, l);
    if behind.start <= 0 && behind.end <= 0 {
        return None;
    }
    proper(where_nonnegative(&[past(seen, k), short(seen, l), behind]))
}

/// The interval, if it has an inside.
pub(crate) fn proper(x: Interval<Frac>) -> Option<Interval<Frac>>
    ensures kept { IfSome result (λ y. (y ≡ x) × IsEarlier x.from x.to) }
    ensures dropped { IfNone result (¬ IsEarlier x.from x.to) }
{
    if is_earlier(x.from, x.to) {
        Some(x)
    } else {
        None
    }
}
