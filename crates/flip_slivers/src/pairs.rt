// Triangles that lie on each other, turned opposite.
ghost use Rattle.std.specs.Prelude.{◌≡◌, ℕ, ◌<◌, ◌≤◌, ◌↔◌, length, Some, None, replicate, slice_get, IsTrue, IfSome, IsNone, IfOk};
ghost use Rattle.std.specs.List.{All};
ghost use Rattle.lattice.specs.Triangles.{IsBelow};
ghost use Rattle.flip_slivers.specs.Pairs.{AreOpposite, IsWithoutPairs, alone};
ghost use Rattle.flip_slivers.specs.inner.Lists.{IsListed, lists_of};
ghost use Rattle.flip_slivers.specs.inner.Partners.{ArePartners, IsFreePartner, IsAlone};

use crate::lists::{list_all, listed};
use exact_frac::OutOfMemory;
use lattice::Tri;
use std::alloc::{AllocError, Global};

/// The triangles without those that come in pairs on the same corners, turned opposite: such a pair bounds nothing. `corners` is the
/// number of corners. Each triangle is compared with those that have its first side the other way round.
pub fn without_pairs(
    alloc: Global,
    triangles: &[Tri],
    corners: u32,
) -> Result<Vec<Tri>, OutOfMemory>
    requires few_corners { corners ≤ 60000 }
    requires few_triangles { length triangles.now ≤ 20000 }
    requires in_range { All (IsBelow corners) triangles.now }
    ensures { IfOk result (λ left. IsWithoutPairs triangles.now left.items) }
{
    let partners = find_partners(alloc, triangles)?;
    let left = left_alone(alloc, triangles, &partners)?;
    Ok(left)
}

/// For each triangle the place of its partner, if it has one.
fn find_partners(alloc: Global, triangles: &[Tri]) -> Result<Vec<Option<u32>>, AllocError>
    requires { length triangles.now ≤ 20000 }
    ensures partners { IfOk result (λ partners. ArePartners triangles.now partners.items) }
    ensures others { IfOk result (λ partners. (i : ℕ) → slice_get partners.items i ≡ Some None → IsAlone triangles.now partners.items i) }
{
    let lists = list_all(alloc, triangles)?;
    let mut partners = no_partners(alloc, triangles.len())?;
    for place in 0..triangles.len() as u32 {
        pair_up(triangles, &lists, &mut partners, place);
    }
    Ok(partners)
}

/// No partner yet, so many times.
fn no_partners(alloc: Global, count: usize) -> Result<Vec<Option<u32>>, AllocError>
    ensures { IfOk result (λ partners. partners.items ≡ replicate count None) }
{
    let mut partners = Vec::new(alloc);
    for _ in 0..count {
        partners.push(None)?;
    }
    Ok(partners)
}

/// Makes the triangle at a place and an opposite one partners, if both have none yet.
fn pair_up(triangles: &[Tri], lists: &[Vec<u32>], partners: &mut Vec<Option<u32>>, place: u32)
    requires partners { ArePartners triangles.now partners.old.items }
    requires count { length lists.now ≡ 65536 }
    requires listed { IsListed triangles.now (lists_of lists.now) }
    requires place { place < length triangles.now }
    ensures partners { ArePartners triangles.now partners.new.items }
    ensures alone { slice_get partners.new.items place ≡ Some None → IsAlone triangles.now partners.new.items place }
    ensures fewer { (i : ℕ) → slice_get partners.new.items i ≡ Some None → slice_get partners.old.items i ≡ Some None }
{
    if partners[place as usize].is_some() {
        return;
    }
    if let Some(other) = partner_of(triangles, lists, partners, place) {
        partners[place as usize] = Some(other);
        partners[other as usize] = Some(place);
    }
}

/// The place of an opposite triangle that has no partner yet, if there is one.
fn partner_of(
    triangles: &[Tri],
    lists: &[Vec<u32>],
    partners: &[Option<u32>],
    place: u32,
) -> Option<u32>
    requires for_each { length partners.now ≡ length triangles.now }
    requires count { length lists.now ≡ 65536 }
    requires listed { IsListed triangles.now (lists_of lists.now) }
    requires place { place < length triangles.now }
    ensures some { IfSome result (IsFreePartner triangles.now partners.now place) }
    ensures none { IsNone result → IsAlone triangles.now partners.now place }
{
    let t = triangles[place as usize];
    let places = listed(lists, t.b, t.a);
    for other in places {
        if is_free_partner(triangles, partners, place, *other) {
            return Some(*other);
        }
    }
    None
}

/// The triangle at the other place is opposite and has no partner yet.
fn is_free_partner(triangles: &[Tri], partners: &[Option<u32>], place: u32, other: u32) -> bool
    requires for_each { length partners.now ≡ length triangles.now }
    requires place { place < length triangles.now }
    requires other { other < length triangles.now }
    ensures { IsTrue result ↔ IsFreePartner triangles.now partners.now place other }
{
    if place == other || partners[other as usize].is_some() {
        return false;
    }
    are_opposite(&triangles[place as usize], &triangles[other as usize])
}

/// The second triangle has the corner numbers of the first in the other order around.
fn are_opposite(t: &Tri, u: &Tri) -> bool
    ensures { IsTrue result ↔ AreOpposite t.now u.now }
{
    let back = Tri {
        a: t.a,
        b: t.c,
        c: t.b,
    };
    back == *u
        || back
            == (Tri {
                a: u.b,
                b: u.c,
                c: u.a,
            })
        || back
            == (Tri {
                a: u.c,
                b: u.a,
                c: u.b,
            })
}

/// The triangles without a partner, in order.
fn left_alone(
    alloc: Global,
    triangles: &[Tri],
    partners: &[Option<u32>],
) -> Result<Vec<Tri>, AllocError>
    requires for_each { length partners.now ≡ length triangles.now }
    ensures { IfOk result (λ left. left.items ≡ alone triangles.now partners.now) }
{
    let mut left = Vec::new(alloc);
    for place in 0..triangles.len() {
        if partners[place].is_none() {
            left.push(triangles[place])?;
        }
    }
    Ok(left)
}
