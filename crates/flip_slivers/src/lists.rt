// Lists of places: for each directed side and each corner, the triangles that have it.
ghost use Rattle.std.specs.Prelude.{◌≡◌, ℕ, ◌<◌, ◌≤◌, ◌↔◌, [], length, vec_len, IsTrue, IfSome, IsNone, IfOk, OnOk};
ghost use Rattle.flip_slivers.specs.Flips.{tri, IsRound, HasSide, IsSideOf};
ghost use Rattle.flip_slivers.specs.inner.Lists.{HasTriAt, IsListed, IsGrown, IsLess, IsMore, lists_of, list_number, listed_at, triangles_of};

use crate::Bounded;
use lattice::Tri;
use std::alloc::{AllocError, Global};

/// How many lists there are. Sides and corners with one number share a list.
const LISTS: usize = 65_536;

/// The number of the list of the side from m to n, or of a corner where both are the same.
fn number_of(m: u32, n: u32) -> usize
    ensures value { result ≡ list_number m n }
    ensures within { result < 65536 }
{
    ((u64::from(m) * 40_503 + u64::from(n) * 30_011) % 65_536) as usize
}

/// The places of triangles, each in the lists of its sides and corners.
pub(crate) fn list_all(alloc: Global, triangles: &[Tri]) -> Result<Vec<Vec<u32>>, AllocError>
    requires few_triangles { length triangles.now ≤ 20000 }
    ensures count { IfOk result (λ lists. length lists.items ≡ 65536) }
    ensures listed { IfOk result (λ lists. IsListed triangles.now (lists_of lists.items)) }
{
    let mut lists = empty_lists(alloc)?;
    for place in 0..triangles.len() as u32 {
        add_all(&mut lists, &triangles[place as usize], place)?;
    }
    Ok(lists)
}

/// The lists with no place yet.
fn empty_lists(alloc: Global) -> Result<Vec<Vec<u32>>, AllocError>
    ensures count { IfOk result (λ lists. length lists.items ≡ 65536) }
    ensures empty { IfOk result (λ lists. (k : ℕ) → listed_at (lists_of lists.items) k ≡ []) }
{
    let mut lists = Vec::new(alloc);
    for _ in 0..LISTS {
        lists.push(Vec::new(alloc))?;
    }
    Ok(lists)
}

/// Adds a place to a list.
fn add(lists: &mut Vec<Vec<u32>>, number: usize, place: u32) -> Result<(), AllocError>
    requires { number < vec_len lists.old }
    ensures { OnOk result (IsGrown (lists_of lists.old.items) (lists_of lists.new.items) number place) }
{
    lists[number].push(place)?;
    Ok(())
}

/// Takes a place out of a list.
fn take_out(lists: &mut Vec<Vec<u32>>, number: usize, place: u32)
    requires { number < vec_len lists.old }
    ensures { IsLess (lists_of lists.old.items) (lists_of lists.new.items) place }
{
    lists[number].retain(|i| *i != place);
}

/// Adds a place to the lists of a triangle's sides and corners.
pub(crate) fn add_all(lists: &mut Vec<Vec<u32>>, t: &Tri, place: u32) -> Result<(), AllocError>
    requires { length lists.old.items ≡ 65536 }
    ensures { OnOk result (IsMore (lists_of lists.old.items) (lists_of lists.new.items) t.now place) }
{
    add(lists, number_of(t.a, t.b), place)?;
    add(lists, number_of(t.b, t.c), place)?;
    add(lists, number_of(t.c, t.a), place)?;
    add(lists, number_of(t.a, t.a), place)?;
    add(lists, number_of(t.b, t.b), place)?;
    add(lists, number_of(t.c, t.c), place)?;
    Ok(())
}

/// Takes a place out of the lists of a triangle's sides and corners.
pub(crate) fn take_out_all(lists: &mut Vec<Vec<u32>>, t: &Tri, place: u32)
    requires { length lists.old.items ≡ 65536 }
    ensures { IsLess (lists_of lists.old.items) (lists_of lists.new.items) place }
{
    take_out(lists, number_of(t.a, t.b), place);
    take_out(lists, number_of(t.b, t.c), place);
    take_out(lists, number_of(t.c, t.a), place);
    take_out(lists, number_of(t.a, t.a), place);
    take_out(lists, number_of(t.b, t.b), place);
    take_out(lists, number_of(t.c, t.c), place);
}

/// The list of the side from m to n, or of a corner where both are the same.
pub(crate) fn listed(lists: &[Vec<u32>], m: u32, n: u32) -> &[u32]
    requires { length lists.now ≡ 65536 }
    ensures { result.now ≡ listed_at (lists_of lists.now) (list_number m n) }
{
    &lists[number_of(m, n)]
}

/// The triangle's third corner, if it has the directed side from m to n.
pub(crate) fn third_of(t: &Tri, m: u32, n: u32) -> Option<u32>
    ensures some { IfSome result (λ d. IsRound t.now (tri m n d)) }
    ensures none { IsNone result → ¬ HasSide t.now m n }
{
    if t.a == m && t.b == n {
        Some(t.c)
    } else if t.b == m && t.c == n {
        Some(t.a)
    } else if t.c == m && t.a == n {
        Some(t.b)
    } else {
        None
    }
}

/// The triangle has the directed side from m to n.
fn has_side(t: &Tri, m: u32, n: u32) -> bool
    ensures { IsTrue result ↔ HasSide t.now m n }
{
    third_of(t, m, n).is_some()
}

/// Some triangle has the directed side from m to n.
pub(crate) fn is_side(surface: &[Bounded], lists: &[Vec<u32>], m: u32, n: u32) -> bool
    requires count { length lists.now ≡ 65536 }
    requires listed { IsListed (triangles_of surface.now) (lists_of lists.now) }
    ensures { IsTrue result ↔ IsSideOf surface.now m n }
{
    let places = listed(lists, m, n);
    for place in places {
        if has_side(&surface[*place as usize].tri, m, n) {
            return true;
        }
    }
    false
}

/// The triangle has the corners m, n and d, in this order around.
fn is_round(t: &Tri, m: u32, n: u32, d: u32) -> bool
    ensures { IsTrue result ↔ IsRound t.now (tri m n d) }
{
    let u = Tri { a: m, b: n, c: d };
    u == *t
        || u == (Tri {
            a: t.b,
            b: t.c,
            c: t.a,
        })
        || u == (Tri {
            a: t.c,
            b: t.a,
            c: t.b,
        })
}

/// Some triangle has the corners m, n and d, in this order around.
pub(crate) fn is_triangle(surface: &[Bounded], lists: &[Vec<u32>], m: u32, n: u32, d: u32) -> bool
    requires count { length lists.now ≡ 65536 }
    requires listed { IsListed (triangles_of surface.now) (lists_of lists.now) }
    ensures { (i : ℕ) → HasTriAt surface.now i m n d → IsTrue result }
{
    let places = listed(lists, m, n);
    for place in places {
        if is_round(&surface[*place as usize].tri, m, n, d) {
            return true;
        }
    }
    false
}
