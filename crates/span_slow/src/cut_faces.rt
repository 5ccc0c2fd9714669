// The part of an edge that is beyond the plane of a cut, and the intervals of it that faces hide.
ghost use Rattle.std.specs.Prelude.{◌≡◌, ◌<◌, ◌⊎◌, ◌↔◌, pos, ◌<ℤ◌, length, [], All, IsTrue, IsFalse, IfOk, OnOk, IfSome, IfNone, option_to_list};
ghost use Rattle.lattice.specs.Triangles.{IsBelow};
ghost use Rattle.lattice.specs.Triple.{dot};
ghost use Rattle.lattice.specs.Points.{of_dir, of_vector, point_of, difference};
ghost use Rattle.lattice.specs.Cuts.{plane_of, toward_of, IsBeyond, IsBeforePlane};
ghost use Rattle.geometry.specs.Faces.{facing_of};
ghost use Rattle.geometry.specs.Parts.{Part, Face, Edge};
ghost use Rattle.geometry.specs.Cuts.{FaceHidesInCut};
ghost use Rattle.geometry.specs.Sound.{IsSound};
ghost use Rattle.solid_mesh.specs.Solids.{solid_part};
ghost use Rattle.hiding_laws.specs.Values.{AreCornersOf, IsSideOf, WideSideHides, IsInLine};
ghost use Rattle.span_slow.specs.inner.Hidden.{AreWhere};
ghost use Rattle.cut_plane.specs.Beyond.{IsPartBeyond};
ghost use Rattle.span_slow.specs.inner.CutHidden.{AreWhereBeyond, AreAddedBeyond, IsHiddenByFaces, PairHides, SomeSideReaches, IsForward};

use crate::cut_seen::{CutEdge, below, beyond, reach, under};
use crate::faces::{add, add_face, is_in_line, proper};
use crate::interval::where_nonnegative;
use crate::linear::Linear;
use crate::seen::{SeenEdge, behind, depth, past, short, side};
use exact_frac::{Frac, OutOfMemory};
use intervals::Interval;
use lattice::{Corner, Cut, Tri, Vector, view_cross};
use solid_mesh::Solid;
use std::alloc::Global;

/// The part of the edge that is beyond the plane, if there is one.
pub(crate) fn part_beyond(edge: &CutEdge) -> Option<Interval<Frac>>
    ensures { (s : Part) → (e : Edge s) → e.a ≡ edge.now.seen.a → e.b ≡ edge.now.seen.b → IsPartBeyond (plane_of edge.now.cut) e (option_to_list result) }
{
    proper(where_nonnegative(&[beyond(edge)]))
}

/// The intervals in which what the plane leaves of the faces hides the edge. Goes once over the triangles.
pub(crate) fn hidden_by_faces(
    alloc: Global,
    solid: &Solid,
    edge: &CutEdge,
) -> Result<Vec<Interval<Frac>>, OutOfMemory>
    ensures { (e : Edge (solid_part solid.now)) → e.a ≡ edge.now.seen.a → e.b ≡ edge.now.seen.b →
        IfOk result (λ xs. AreWhereBeyond (plane_of edge.now.cut) e (IsHiddenByFaces (plane_of edge.now.cut) (solid_part solid.now)) xs.items) }
{
    let mut hidden = Vec::new(alloc);
    for triangle in 0..solid.triangles() {
        add_cut_face(&mut hidden, solid, edge, triangle)?;
    }
    Ok(hidden)
}

/// Adds the intervals in which what the plane leaves of the triangle hides the edge: at most nine, and those of the plain view
/// where the plane leaves all of it.
fn add_cut_face(
    hidden: &mut Vec<Interval<Frac>>,
    solid: &Solid,
    edge: &CutEdge,
    triangle: u32,
) -> Result<(), OutOfMemory>
    requires { triangle < length (solid_part solid.now).triangles }
    ensures { (e : Edge (solid_part solid.now)) → e.a ≡ edge.now.seen.a → e.b ≡ edge.now.seen.b →
        (f : Face (solid_part solid.now)) → f.number ≡ triangle →
        OnOk result (AreAddedBeyond (plane_of edge.now.cut) e (FaceHidesInCut (plane_of edge.now.cut) f) hidden.old.items hidden.new.items) }
{
    let Tri { a, b, c } = solid.triangle(triangle);
    let (a, b, c) = (solid.corner(a), solid.corner(b), solid.corner(c));
    if is_before(&edge.cut, &a, &b, &c) {
        return Ok(());
    }
    if is_beyond(&edge.cut, &a, &b, &c) {
        return add_face(hidden, solid, &edge.seen, triangle);
    }
    let facing = view_cross(
        &edge.seen.d,
        &Vector::between(&a, &b),
        &Vector::between(&a, &c),
    );
    if facing > 0 {
        add(hidden, front_interval(edge, &a, &b, &c))
    } else if facing < 0 {
        add(hidden, front_interval(edge, &a, &c, &b))
    } else {
        add_pairs(hidden, edge, &a, &b, &a, &b, &c)?;
        add_pairs(hidden, edge, &b, &c, &a, &b, &c)?;
        add_pairs(hidden, edge, &c, &a, &a, &b, &c)
    }
}

/// The cut takes the face away: all of its corners are before the plane.
fn is_before(cut: &Cut, a: &Corner, b: &Corner, c: &Corner) -> bool
    ensures { IsTrue result ↔ (IsBeforePlane (plane_of cut.now) (point_of a.now) × IsBeforePlane (plane_of cut.now) (point_of b.now) × IsBeforePlane (plane_of cut.now) (point_of c.now)) }
{
    is_corner_before(cut, a) && is_corner_before(cut, b) && is_corner_before(cut, c)
}

/// The cut leaves the face as it is: all of its corners are beyond the plane.
fn is_beyond(cut: &Cut, a: &Corner, b: &Corner, c: &Corner) -> bool
    ensures { IsTrue result ↔ (IsBeyond (plane_of cut.now) (point_of a.now) × IsBeyond (plane_of cut.now) (point_of b.now) × IsBeyond (plane_of cut.now) (point_of c.now)) }
{
    is_corner_beyond(cut, a) && is_corner_beyond(cut, b) && is_corner_beyond(cut, c)
}

/// The corner is beyond the plane.
fn is_corner_beyond(cut: &Cut, p: &Corner) -> bool
    ensures { IsTrue result ↔ IsBeyond (plane_of cut.now) (point_of p.now) }
{
    below(cut, p) > 0
}

/// The corner is before the plane.
fn is_corner_before(cut: &Cut, p: &Corner) -> bool
    ensures { IsTrue result ↔ IsBeforePlane (plane_of cut.now) (point_of p.now) }
{
    below(cut, p) < 0
}

/// Where the edge is hidden by a face whose corners are seen counterclockwise: within its three sides, behind its plane,
/// and where its point is beyond the plane of the cut.
fn front_interval(edge: &CutEdge, a: &Corner, b: &Corner, c: &Corner) -> Option<Interval<Frac>>
    requires { pos 0 <ℤ facing_of (of_dir edge.now.seen.d) a.now b.now c.now }
    ensures { (s : Part) → IsSound s → All (IsBelow (length s.corners)) s.triangles → (e : Edge s) → e.a ≡ edge.now.seen.a → e.b ≡ edge.now.seen.b →
        (f : Face s) → AreCornersOf f a.now b.now c.now →
        AreWhereBeyond (plane_of edge.now.cut) e (FaceHidesInCut (plane_of edge.now.cut) f) (option_to_list result) }
{
    let depth = depth(&edge.seen, a, b, c);
    if !has_positive_end(depth) {
        return None;
    }
    let under = under(edge, a, b, c);
    if !has_positive_end(under) {
        return None;
    }
    proper(where_nonnegative(&[
        under,
        side(&edge.seen, a, b),
        side(&edge.seen, b, c),
        side(&edge.seen, c, a),
        depth,
    ]))
}

/// The value is positive at one of the edge's corners.
fn has_positive_end(v: Linear) -> bool
    ensures { IsTrue result ↔ ((pos 0 <ℤ v.start) ⊎ (pos 0 <ℤ v.end)) }
{
    v.start > 0 || v.end > 0
}

/// Adds the intervals in which a side of a face that is edge-on hides the edge, and a side of it is beyond the plane. Most
/// sides hide nothing, and need one look.
fn add_pairs(
    hidden: &mut Vec<Interval<Frac>>,
    edge: &CutEdge,
    k: &Corner,
    l: &Corner,
    a: &Corner,
    b: &Corner,
    c: &Corner,
) -> Result<(), OutOfMemory>
    ensures { (s : Part) → IsSound s → All (IsBelow (length s.corners)) s.triangles → (e : Edge s) → e.a ≡ edge.now.seen.a → e.b ≡ edge.now.seen.b →
        (f : Face s) → f.a ≡ a.now → f.b ≡ b.now → f.c ≡ c.now → IsSideOf f k.now l.now →
        OnOk result (AreAddedBeyond (plane_of edge.now.cut) e
        (λ p. WideSideHides (toward_of (plane_of edge.now.cut)) k.now l.now p × SomeSideReaches (plane_of edge.now.cut) a.now b.now c.now p) hidden.old.items hidden.new.items) }
{
    if !may_hide(edge, k, l) {
        return Ok(());
    }
    add(hidden, pair_interval(edge, k, l, a, b))?;
    add(hidden, pair_interval(edge, k, l, b, c))?;
    add(hidden, pair_interval(edge, k, l, c, a))
}

/// False only where the side hides no point of the edge: it isn't seen in line with the edge, or is not nearer at either end.
fn may_hide(edge: &CutEdge, k: &Corner, l: &Corner) -> bool
    ensures { (s : Part) → IsSound s → All (IsBelow (length s.corners)) s.triangles → (e : Edge s) → e.a ≡ edge.now.seen.a → e.b ≡ edge.now.seen.b →
        (f : Face s) → IsSideOf f k.now l.now → IsFalse result →
        AreWhere (toward_of (plane_of edge.now.cut)) e (WideSideHides (toward_of (plane_of edge.now.cut)) k.now l.now) [] }
{
    match forward_side(&edge.seen, k, l) {
        None => false,
        Some((k, l)) => has_positive_end(behind(&edge.seen, &k, &l)),
    }
}

/// Where the side from `k` to `l` hides the edge, and the one from `m` to `n` is beyond the plane.
fn pair_interval(
    edge: &CutEdge,
    k: &Corner,
    l: &Corner,
    m: &Corner,
    n: &Corner,
) -> Option<Interval<Frac>>
    ensures { (s : Part) → IsSound s → All (IsBelow (length s.corners)) s.triangles → (e : Edge s) → e.a ≡ edge.now.seen.a → e.b ≡ edge.now.seen.b →
        (f : Face s) → IsSideOf f k.now l.now → IsSideOf f m.now n.now →
        AreWhereBeyond (plane_of edge.now.cut) e (PairHides (plane_of edge.now.cut) k.now l.now m.now n.now) (option_to_list result) }
{
    match forward_side(&edge.seen, k, l) {
        None => None,
        Some((k, l)) => match forward_side(&edge.seen, m, n) {
            None => None,
            Some((m, n)) => forward_pair(edge, &k, &l, &m, &n),
        },
    }
}

/// The ends of a side that is seen in line with the edge and not end-on, in the order in which the edge goes.
fn forward_side(seen: &SeenEdge, k: &Corner, l: &Corner) -> Option<(Corner, Corner)>
    ensures some { IfSome result (λ x. IsForward (of_dir seen.now.d) (of_vector seen.now.axis) seen.now.a seen.now.b k.now l.now x.0 x.1) }
    ensures none { IfNone result ((¬ IsInLine (of_dir seen.now.d) seen.now.a seen.now.b k.now l.now) ⊎ (dot (of_vector seen.now.axis) (difference k.now l.now) ≡ pos 0)) }
{
    if !is_in_line(seen, k) || !is_in_line(seen, l) {
        return None;
    }
    let along = seen.axis.dot(&Vector::between(k, l));
    if along > 0 {
        Some((*k, *l))
    } else if along < 0 {
        Some((*l, *k))
    } else {
        None
    }
}

/// The same as `pair_interval`, of two sides in line with the edge, that go forward as the edge does.
fn forward_pair(
    edge: &CutEdge,
    k: &Corner,
    l: &Corner,
    m: &Corner,
    n: &Corner,
) -> Option<Interval<Frac>>
    requires first_in_line { IsInLine (of_dir edge.now.seen.d) edge.now.seen.a edge.now.seen.b k.now l.now }
    requires first_forward { pos 0 <ℤ dot (of_vector edge.now.seen.axis) (difference k.now l.now) }
    requires second_in_line { IsInLine (of_dir edge.now.seen.d) edge.now.seen.a edge.now.seen.b m.now n.now }
    requires second_forward { pos 0 <ℤ dot (of_vector edge.now.seen.axis) (difference m.now n.now) }
    ensures { (s : Part) → IsSound s → All (IsBelow (length s.corners)) s.triangles → (e : Edge s) → e.a ≡ edge.now.seen.a → e.b ≡ edge.now.seen.b →
        (f : Face s) → IsSideOf f k.now l.now → IsSideOf f m.now n.now →
        AreWhereBeyond (plane_of edge.now.cut) e (PairHides (plane_of edge.now.cut) k.now l.now m.now n.now) (option_to_list result) }
{
    let behind = behind(&edge.seen, k, l);
    if !has_positive_end(behind) {
        return None;
    }
    proper(where_nonnegative(&[
        reach(edge, m, n),
        past(&edge.seen, m),
        short(&edge.seen, n),
        past(&edge.seen, k),
        short(&edge.seen, l),
        behind,
    ]))
}
