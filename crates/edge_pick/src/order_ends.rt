// The ends of drawn edges at each corner.
ghost use Rattle.std.specs.Prelude.{◌≡◌, ℕ, ◌<◌, ◌^◌, List, [], ◌∷◌, ◌++◌, All, length, slice_index_or, slice_set, vec_len, OnOk, IfOk};
ghost use Rattle.edge_pick.specs.declared.order.DrawnEnd.{DrawnEnd};
ghost use Rattle.edge_pick.specs.inner.Searches.{AreBelow, AreEndsAt, lists_of};

use crate::order::{DrawnEnd, EdgeCorners};
use exact_frac::OutOfMemory;
use smallvec::SmallVec;
use std::alloc::Global;

/// For each corner, the ends of the edges at it. Few corners have more than six, and take memory of their own.
pub(crate) fn find_ends(
    alloc: Global,
    edges: &[EdgeCorners],
) -> Result<Vec<SmallVec<DrawnEnd, 6>>, OutOfMemory>
    requires { length edges.now < 2 ^ 32 }
    ensures { IfOk result (λ lists. AreEndsAt edges.now (length edges.now) (lists_of lists.items)) }
{
    let mut lists = no_ends(alloc, corner_count(edges))?;
    for place in 0..edges.len() as u32 {
        let corners = edges[place as usize];
        add(&mut lists, corners.a, DrawnEnd { place, at_b: false })?;
        add(&mut lists, corners.b, DrawnEnd { place, at_b: true })?;
    }
    Ok(lists)
}

/// One more than the greatest number of a corner.
fn corner_count(edges: &[EdgeCorners]) -> usize
    ensures { All (AreBelow result) edges.now }
{
    let mut count: usize = 0;
    for corners in edges {
        count = count
            .max(corners.a as usize + 1)
            .max(corners.b as usize + 1);
    }
    count
}

/// An empty list for each corner.
fn no_ends(alloc: Global, corners: usize) -> Result<Vec<SmallVec<DrawnEnd, 6>>, OutOfMemory>
    ensures for_each { IfOk result (λ lists. vec_len lists ≡ corners) }
    ensures empty { IfOk result (λ lists. (corner : ℕ) → slice_index_or (lists_of lists.items) corner [] ≡ []) }
{
    let mut lists = Vec::new(alloc);
    for _ in 0..corners {
        lists.push(SmallVec::new(alloc))?;
    }
    Ok(lists)
}

/// One end more at a corner.
fn add(
    lists: &mut Vec<SmallVec<DrawnEnd, 6>>,
    corner: u32,
    end: DrawnEnd,
) -> Result<(), OutOfMemory>
    requires { corner < vec_len lists.old }
    ensures for_each { vec_len lists.new ≡ vec_len lists.old }
    ensures added { OnOk result (lists_of lists.new.items
        ≡ slice_set (lists_of lists.old.items) corner (slice_index_or (lists_of lists.old.items) corner [] ++ end ∷ [])) }
{
    lists[corner as usize].push(end)?;
    Ok(())
}
