// A tree of boxes over triangles.
ghost use Rattle.std.specs.Prelude.{◌≡◌, ◌<◌, ◌≤◌, length, Some, IfOk, IfSome};
ghost use Rattle.solid_mesh.specs.inner.Trees.{IsSubtree, AreSubtrees};

use crate::bounds::{Bounds, united};
use crate::placed::Placed;
use std::alloc::{AllocError, Global};

/// The triangles from the place `first` to the place of this subtree: the bounds of them all, a corner that all have, if one was
/// found, and bounds of their other corners.
#[derive(Clone, Copy, Debug)]
pub(crate) struct Subtree {
    pub around: Bounds,
    pub first: u32,
    pub corner: Option<u32>,
    pub rim: Bounds,
}

/// A hierarchy of bounding boxes (Goldsmith and Salmon 1987) in post-order: each triangle is the root of a subtree, whose two
/// children end before it and before its second child's first. Subtrees are put together as the digits of a skew binary
/// number are (Myers 1983), so each is complete: as many triangles are below the one child as below the other. Takes constant
/// time for each triangle.
pub(crate) fn grow_subtrees(alloc: Global, placed: &[Placed]) -> Result<Vec<Subtree>, AllocError>
    requires few { length placed.now ≤ 20000 }
    ensures count { IfOk result (λ v. length v.items ≡ length placed.now) }
    ensures subtrees { IfOk result (λ v. AreSubtrees placed.now v.items) }
{
    let mut subtrees = Vec::new(alloc);
    for k in 0..placed.len() {
        subtrees.push(next_subtree(placed, &subtrees))?;
    }
    Ok(subtrees)
}

/// The subtree of the next triangle: over the last two if they are of one size, and else of it alone.
fn next_subtree(placed: &[Placed], subtrees: &[Subtree]) -> Subtree
    requires few { length placed.now ≤ 20000 }
    requires next { length subtrees.now < length placed.now }
    requires subtrees { AreSubtrees placed.now subtrees.now }
    ensures { IsSubtree placed.now (length subtrees.now) result }
{
    let place = subtrees.len();
    let own = placed[place];
    let alone = Subtree {
        around: own.bounds,
        first: place as u32,
        corner: Some(own.corner),
        rim: own.rim,
    };
    if place == 0 {
        return alone;
    }
    let second = subtrees[place - 1];
    let middle = second.first as usize;
    if middle == 0 {
        return alone;
    }
    let first = subtrees[middle - 1];
    if place - middle != middle - first.first as usize {
        return alone;
    }
    Subtree {
        around: united(&own.bounds, &united(&first.around, &second.around)),
        first: first.first,
        corner: common_corner(own.corner, &first.corner, &second.corner),
        rim: united(&own.rim, &united(&first.rim, &second.rim)),
    }
}

/// A corner, if the two others are the same.
fn common_corner(corner: u32, first: &Option<u32>, second: &Option<u32>) -> Option<u32>
    ensures { IfSome result (λ common. (corner ≡ common) × (first.now ≡ Some common) × (second.now ≡ Some common)) }
{
    if *first != Some(corner) {
        return None;
    }
    if *second != Some(corner) {
        return None;
    }
    Some(corner)
}
