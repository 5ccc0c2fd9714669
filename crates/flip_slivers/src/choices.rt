// Which flip is made next.
ghost use Rattle.std.specs.Prelude.{◌≡◌, ◌⊎◌, ℕ, ◌<◌, ◌≤◌, ◌↔◌, length, slice_get, Some, IfSome, IsNone, IsTrue};
ghost use Rattle.lattice.specs.Triangles.{IsBelow};
ghost use Rattle.flip_slivers.specs.Flips.{tri, IsRound, IsRise, first_of, second_of};
ghost use Rattle.flip_slivers.specs.inner.Choices.{IsLaid, IsSliverAt, IsChoice, IsCandidate, IsNewBound, IsIdleAt, IsIdleOn, IsIdleBeside};

use crate::Bounded;
use crate::heights::{is_sliver, side_between};
use crate::lists::{is_side, listed, third_of};
use crate::measures::{Measure, rises};
use lattice::{Corner, Tri};

/// The two triangles of a flip by their places, their corners as in `IsFlip`, and the bound that both get.
#[derive(Clone, Copy, Debug)]
pub(crate) struct Flip {
    pub sliver: u32,
    pub neighbour: u32,
    pub a: u32,
    pub b: u32,
    pub c: u32,
    pub d: u32,
    pub bound: u32,
}

/// A sliver by its place, turned so that a longest side comes first, with its height there in 1024ths of a unit, rounded up.
#[derive(Clone, Copy, Debug)]
pub(crate) struct Sliver {
    pub place: u32,
    pub tri: Tri,
    pub rise: u32,
}

/// The triangles with their bounds, what is measured of them, their lists, and the corners and the limit.
#[derive(Clone, Copy)]
pub(crate) struct Scene<'a> {
    pub corners: &'a [Corner],
    pub surface: &'a [Bounded],
    pub measures: &'a [Measure],
    pub lists: &'a [Vec<u32>],
    pub most: u32,
}

/// The first flip of the triangle at a place and one that doesn't wait, if there is one.
pub(crate) fn flip_at(scene: &Scene, waits: &[bool], place: u32) -> Option<Flip>
    requires laid { IsLaid scene.now.corners.now scene.now.surface.now scene.now.measures.now scene.now.lists.now }
    requires waits { length waits.now ≡ length scene.now.surface.now }
    requires most { scene.now.most ≤ 102400 }
    requires place { place < length scene.now.surface.now }
    ensures some { IfSome result (IsChoice scene.now.corners.now scene.now.most scene.now.surface.now) }
    ensures none { IsNone result → IsIdleAt scene.now.corners.now scene.now.most scene.now.surface.now waits.now place }
{
    let Tri { a, b, c } = scene.surface[place as usize].tri;
    if let Some(flip) = flip_on(scene, waits, place, &Tri { a, b, c }) {
        return Some(flip);
    }
    if let Some(flip) = flip_on(scene, waits, place, &Tri { a: b, b: c, c: a }) {
        return Some(flip);
    }
    flip_on(scene, waits, place, &Tri { a: c, b: a, c: b })
}

/// The first flip across the first side of `t`, which is the triangle at a place from some corner on, and with a triangle that doesn't
/// wait.
fn flip_on(scene: &Scene, waits: &[bool], place: u32, t: &Tri) -> Option<Flip>
    requires laid { IsLaid scene.now.corners.now scene.now.surface.now scene.now.measures.now scene.now.lists.now }
    requires waits { length waits.now ≡ length scene.now.surface.now }
    requires most { scene.now.most ≤ 102400 }
    requires place { place < length scene.now.surface.now }
    requires turned { (given : Bounded) → slice_get scene.now.surface.now place ≡ Some given → IsRound given.tri t.now }
    ensures some { IfSome result (IsChoice scene.now.corners.now scene.now.most scene.now.surface.now) }
    ensures none { IsNone result → IsIdleOn scene.now.corners.now scene.now.most scene.now.surface.now waits.now place t.now }
{
    let places = listed(scene.lists, t.b, t.a);
    for other in places {
        if !waits[*other as usize] {
            if let Some(flip) = flip_beside(scene, place, t, *other) {
                return Some(flip);
            }
        }
    }
    None
}

/// The flip of the triangles at two places across the first side of `t`, which is the first of them from some corner on. Either may be
/// the sliver.
fn flip_beside(scene: &Scene, place: u32, t: &Tri, other: u32) -> Option<Flip>
    requires laid { IsLaid scene.now.corners.now scene.now.surface.now scene.now.measures.now scene.now.lists.now }
    requires most { scene.now.most ≤ 102400 }
    requires place { place < length scene.now.surface.now }
    requires turned { (given : Bounded) → slice_get scene.now.surface.now place ≡ Some given → IsRound given.tri t.now }
    requires other { other < length scene.now.surface.now }
    ensures some { IfSome result (IsChoice scene.now.corners.now scene.now.most scene.now.surface.now) }
    ensures none { IsNone result → IsIdleBeside scene.now.corners.now scene.now.most scene.now.surface.now place t.now other }
{
    if other == place {
        return None;
    }
    let Some(d) = third_of(&scene.surface[other as usize].tri, t.b, t.a) else {
        return None;
    };
    let Some(flip) = candidate_of_two(scene, place, t, other, d) else {
        return None;
    };
    if !may_rise(scene, place, t, other, d) {
        return None;
    }
    if is_side(scene.surface, scene.lists, t.c, d) {
        return None;
    }
    if is_side(scene.surface, scene.lists, d, t.c) {
        return None;
    }
    Some(flip)
}

/// The lesser height of the triangles at two places rises by a flip across the first side of `t`; d is the second one's third corner.
fn may_rise(scene: &Scene, place: u32, t: &Tri, other: u32, d: u32) -> bool
    requires laid { IsLaid scene.now.corners.now scene.now.surface.now scene.now.measures.now scene.now.lists.now }
    requires place { place < length scene.now.surface.now }
    requires other { other < length scene.now.surface.now }
    requires below { IsBelow (length scene.now.corners.now) t.now }
    requires third { d < length scene.now.corners.now }
    ensures { (x y : Bounded) → slice_get scene.now.surface.now place ≡ Some x → slice_get scene.now.surface.now other ≡ Some y →
        (IsTrue result ↔ IsRise scene.now.corners.now x.tri y.tri (first_of t.now.a t.now.b t.now.c d) (second_of t.now.a t.now.b t.now.c d)) }
{
    let Tri { a, b, c } = *t;
    let (first, second) = (Tri { a, b: d, c }, Tri { a: d, b, c });
    rises(
        scene.corners,
        &scene.measures[place as usize],
        &scene.measures[other as usize],
        &first,
        &second,
    )
}

/// The flip of two triangles beside each other, as far as slivers and the limit go: that of the first one, or else of the second.
fn candidate_of_two(scene: &Scene, place: u32, t: &Tri, other: u32, d: u32) -> Option<Flip>
    requires laid { IsLaid scene.now.corners.now scene.now.surface.now scene.now.measures.now scene.now.lists.now }
    requires most { scene.now.most ≤ 102400 }
    requires place { place < length scene.now.surface.now }
    requires turned { (given : Bounded) → slice_get scene.now.surface.now place ≡ Some given → IsRound given.tri t.now }
    requires other { other < length scene.now.surface.now }
    requires beside { (given : Bounded) → slice_get scene.now.surface.now other ≡ Some given → IsRound given.tri (tri t.now.b t.now.a d) }
    ensures some { IfSome result (λ f. IsCandidate scene.now.corners.now scene.now.most scene.now.surface.now place t.now other d f
        ⊎ IsCandidate scene.now.corners.now scene.now.most scene.now.surface.now other (tri t.now.b t.now.a d) place t.now.c f) }
    ensures none { IsNone result → IsIdleBeside scene.now.corners.now scene.now.most scene.now.surface.now place t.now other }
{
    if let Some(flip) = candidate(scene, place, t, other, d) {
        return Some(flip);
    }
    let back = Tri {
        a: t.b,
        b: t.a,
        c: d,
    };
    candidate(scene, other, &back, place, t.c)
}

/// The flip of a sliver across the first side of `t`, which is that sliver from some corner on, as far as the sliver and the limit go; d
/// is the neighbour's third corner.
fn candidate(scene: &Scene, place: u32, t: &Tri, other: u32, d: u32) -> Option<Flip>
    requires laid { IsLaid scene.now.corners.now scene.now.surface.now scene.now.measures.now scene.now.lists.now }
    requires most { scene.now.most ≤ 102400 }
    requires place { place < length scene.now.surface.now }
    requires turned { (given : Bounded) → slice_get scene.now.surface.now place ≡ Some given → IsRound given.tri t.now }
    requires other { other < length scene.now.surface.now }
    ensures some { IfSome result (IsCandidate scene.now.corners.now scene.now.most scene.now.surface.now place t.now other d) }
    ensures none { IsNone result → (f : Flip) → f.sliver ≡ place → tri f.a f.b f.c ≡ t.now → f.neighbour ≡ other →
        ¬ IsChoice scene.now.corners.now scene.now.most scene.now.surface.now f }
{
    let Some(sliver) = sliver_at(scene, place, t) else {
        return None;
    };
    let (first, second) = (
        scene.surface[place as usize].bound,
        scene.surface[other as usize].bound,
    );
    let Some(bound) = bound_of(scene.most, first, second, sliver.rise) else {
        return None;
    };
    Some(Flip {
        sliver: place,
        neighbour: other,
        a: t.a,
        b: t.b,
        c: t.c,
        d,
        bound,
    })
}

/// The triangle at a place as a sliver, if it is one and the first side of `t` is a longest one.
fn sliver_at(scene: &Scene, place: u32, t: &Tri) -> Option<Sliver>
    requires laid { IsLaid scene.now.corners.now scene.now.surface.now scene.now.measures.now scene.now.lists.now }
    requires place { place < length scene.now.surface.now }
    requires turned { (given : Bounded) → slice_get scene.now.surface.now place ≡ Some given → IsRound given.tri t.now }
    ensures sliver { IfSome result (IsSliverAt scene.now.corners.now scene.now.surface.now) }
    ensures place { IfSome result (λ s. s.place ≡ place) }
    ensures turned { IfSome result (λ s. s.tri ≡ t.now) }
    ensures small { IfSome result (λ s. s.rise ≤ 4096) }
    ensures none { IsNone result → (s : Sliver) → s.place ≡ place → s.tri ≡ t.now → ¬ IsSliverAt scene.now.corners.now scene.now.surface.now s }
{
    let measure = &scene.measures[place as usize];
    if !is_sliver(&measure.height) {
        return None;
    }
    let first = side_between(&scene.corners[t.a as usize], &scene.corners[t.b as usize]);
    if first != measure.height.side {
        return None;
    }
    Some(Sliver {
        place,
        tri: *t,
        rise: measure.rise,
    })
}

/// The bound of both triangles after a flip, if it is within the limit.
fn bound_of(most: u32, first: u32, second: u32, rise: u32) -> Option<u32>
    requires most { most ≤ 102400 }
    requires small { rise ≤ 4096 }
    ensures some { IfSome result (IsNewBound most first second rise) }
    ensures none { IsNone result → (bound : ℕ) → ¬ IsNewBound most first second rise bound }
{
    let greater = first.max(second);
    if greater > most {
        return None;
    }
    if greater + rise > most {
        return None;
    }
    Some(greater + rise)
}
