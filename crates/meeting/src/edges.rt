// Whether two edges have a common point.
ghost use Rattle.std.specs.Prelude.{◌↔◌, ◌⊎◌, IsTrue};
ghost use Rattle.lattice.specs.Points.{of_vector};
ghost use Rattle.meeting.specs.inner.Edges.{EdgesTouch, IsBetween, IsOneWay, IsShare, IsCrossing};

use lattice::{Corner, Vector, cross, det3};

/// Whether the edge from `a` to `b` and that from `p` to `q` have a common point. Both are closed, and may have length 0.
pub(crate) fn edges_touch(a: &Corner, b: &Corner, p: &Corner, q: &Corner) -> bool
    ensures { IsTrue result ↔ EdgesTouch a.now b.now p.now q.now }
{
    let ab = Vector::between(a, b);
    let pq = Vector::between(p, q);
    if cross(&ab, &pq).is_zero() {
        return has_end_between(a, b, p, q);
    }
    is_crossing(&ab, &pq, &Vector::between(a, p))
}

/// Whether an end of one edge is on the other. Of two edges in one line, some end of the first or the second's start is, where
/// they have a common point.
fn has_end_between(a: &Corner, b: &Corner, p: &Corner, q: &Corner) -> bool
    ensures { IsTrue result ↔ (IsBetween p.now a.now b.now ⊎ IsBetween a.now p.now q.now ⊎ IsBetween b.now p.now q.now) }
{
    if is_between(p, a, b) {
        return true;
    }
    if is_between(a, p, q) {
        return true;
    }
    is_between(b, p, q)
}

/// Whether the corner `m` is on the edge from `p` to `q`.
fn is_between(m: &Corner, p: &Corner, q: &Corner) -> bool
    ensures { IsTrue result ↔ IsBetween m.now p.now q.now }
{
    let to_p = Vector::between(m, p);
    let to_q = Vector::between(m, q);
    if !cross(&to_p, &to_q).is_zero() {
        return false;
    }
    to_p.dot(&to_q) <= 0
}

/// Whether `b` and `q` are in one direction from `a`: then the edges to them have another common point than `a`.
pub(crate) fn is_one_way(a: &Corner, b: &Corner, q: &Corner) -> bool
    ensures { IsTrue result ↔ IsOneWay a.now b.now q.now }
{
    let to_b = Vector::between(a, b);
    let to_q = Vector::between(a, q);
    if !cross(&to_b, &to_q).is_zero() {
        return false;
    }
    to_b.dot(&to_q) > 0
}

/// Whether the lines along `e` and `g` have a common point that is on both edges; `w` goes from the start of `e` to that of
/// `g`. By Cramer's rule it is at a share of the way along each, with the square of the normal as the divisor.
fn is_crossing(e: &Vector, g: &Vector, w: &Vector) -> bool
    ensures { IsTrue result ↔ IsCrossing (of_vector e.now) (of_vector g.now) (of_vector w.now) }
{
    if det3(w, e, g) != 0 {
        return false;
    }
    let normal = cross(e, g);
    let whole = normal.dot(&normal);
    if !is_share(normal.dot(&cross(w, g)), whole) {
        return false;
    }
    is_share(normal.dot(&cross(w, e)), whole)
}

/// Whether `n / m` is from 0 to 1.
fn is_share(n: i128, m: i128) -> bool
    ensures { IsTrue result ↔ IsShare n m }
{
    if n < 0 {
        return false;
    }
    n <= m
}
