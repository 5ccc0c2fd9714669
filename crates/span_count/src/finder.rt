// Which outlines are tested along an edge and at a corner, and which triangles where a run begins.
ghost use Rattle.std.specs.Prelude.{◌≡◌, ℕ, ◌≤◌, ◌<◌, List, slice_get};
ghost use Rattle.cross_find.specs.Sights.{SightState};
ghost use Rattle.span_count.specs.Finders.{IsFinder, IsNext, IsPickedIn};

use edge_pick::Picked;

/// Lists of numbers, one for each edge and one for each corner, and the triangles that are near a corner. `IsFinder` says when they
/// serve for what is picked of a solid: the lists hold outlines, none twice; that of a drawn edge has every outline that changes one
/// of the counts along it, and that of a corner every outline that does not have the corner and is strictly nearer over it. Near a
/// corner is every triangle that is not seen strictly to one side of it, and maybe others; where a finder does not say it, all are.
/// So a caller learns without a test what need not be tested, and nothing else. No call takes memory, and none is counted.
pub trait Finder {
    ghost list_along: { Self → ℕ → List ℕ };

    ghost list_over: { Self → ℕ → List ℕ };

    ghost is_near: { Self → ℕ → ℕ → Type 0 } = { λ finder corner triangle. Unit {0} };

    /// The number at a place of an edge's list; none from its end on.
    fn along(&self, edge: u32, i: u32) -> Option<u32>
        ensures { result ≡ slice_get (list_along self.now edge) i };

    /// The number at a place of a corner's list; none from its end on.
    fn over(&self, corner: u32, i: u32) -> Option<u32>
        ensures { result ≡ slice_get (list_over self.now corner) i };

    /// A triangle from this number on, or none: those that are passed over are not near the corner. By default none is passed over.
    /// `told` is how many the caller was told of this corner before; it may say where to look, and no answer rests on it.
    fn next_near(&self, corner: u32, told: u32, from: u32) -> Option<u32>
        ensures { IsNext (is_near self.now corner) from result }
    {
        Some(from)
    }
}

/// The next triangle, of so many, that may be near a corner, from this number on; their number where there is none. Each that is
/// passed over is not near the corner. So many of this corner were told before, for a finder that looks by that.
pub fn next_triangle<F: Finder>(
    finder: &F,
    corner: u32,
    told: u32,
    from: u32,
    triangles: u32,
) -> u32
    requires { from ≤ triangles }
    ensures from { from ≤ result }
    ensures most { result ≤ triangles }
    ensures passed_over { (tri : ℕ) → from ≤ tri → tri < result → ¬ F.is_near finder.now corner tri }
{
    match finder.next_near(corner, told, from) {
        Some(tri) => tri.min(triangles),
        None => triangles,
    }
}

/// The finder that lists all outlines for each edge and for each corner, and all triangles as near each corner.
#[derive(Clone, Copy)]
pub struct AllOutlines<'p> {
    picked: &'p Picked,
}

impl<'p> AllOutlines<'p> {
    /// Takes no memory.
    pub fn new(picked: &'p Picked) -> AllOutlines<'p>
        ensures along { (edge : ℕ) → ⟦<AllOutlines<'p> as Finder>⟧.list_along result edge ≡ picked.now.outlines.items }
        ensures over { (corner : ℕ) → ⟦<AllOutlines<'p> as Finder>⟧.list_over result corner ≡ picked.now.outlines.items }
        ensures law { (x : SightState) → IsPickedIn x picked.now →
            IsFinder x picked.now (⟦<AllOutlines<'p> as Finder>⟧.list_along result) (⟦<AllOutlines<'p> as Finder>⟧.list_over result) (⟦<AllOutlines<'p> as Finder>⟧.is_near result) }
    {
        AllOutlines { picked }
    }
}

impl Finder for AllOutlines<'_> {
    ghost list_along = { λ finder edge. finder.picked.now.outlines.items };

    ghost list_over = { λ finder corner. finder.picked.now.outlines.items };

    fn along(&self, _edge: u32, i: u32) -> Option<u32> {
        self.picked.outlines.get(i as usize).copied()
    }

    fn over(&self, _corner: u32, i: u32) -> Option<u32> {
        self.picked.outlines.get(i as usize).copied()
    }
}
