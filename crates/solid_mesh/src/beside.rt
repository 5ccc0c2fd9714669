// Whether bounds tell that an edge meets none of some triangles, or each in a corner of both alone.
ghost use Rattle.std.specs.Prelude.{◌↔◌, IsTrue};
ghost use Rattle.solid_mesh.specs.inner.Searches.{IsEnd, Leaves, IsBeside, IsApart};

use crate::bounds::{Bounds, bounds_end};
use crate::passing::{passes_by, passes_round};
use crate::search::Reach;
use lattice::Corner;

/// Whether bounds tell that an edge is apart from the triangles within `around`, which have this corner, if one is given, at the place
/// `at`, and their other corners within `rim`. Of others nothing is told.
pub(crate) fn is_apart(
    reach: &Reach,
    around: &Bounds,
    corner: Option<u32>,
    at: &Corner,
    rim: &Bounds,
) -> bool
    ensures { IsTrue result → IsApart reach.now around.now corner at.now rim.now }
{
    match corner {
        None => false,
        Some(number) => is_beside(reach, around, number, at, rim),
    }
}

/// The same of triangles with a common corner: an edge that begins or ends there goes to another side, or another edge goes past all.
fn is_beside(reach: &Reach, around: &Bounds, corner: u32, at: &Corner, rim: &Bounds) -> bool
    ensures { IsTrue result → IsBeside reach.now around.now corner at.now rim.now }
{
    if is_end(reach, corner) {
        return leaves(reach, around, rim);
    }
    passes_round(at, &reach.p, &reach.q, rim)
}

/// Whether the bounds tell that an edge from a common corner of the triangles goes to another side than these.
fn leaves(reach: &Reach, around: &Bounds, rim: &Bounds) -> bool
    ensures { IsTrue result → Leaves reach.now around.now rim.now }
{
    if bounds_end(&reach.bounds, around) {
        return true;
    }
    passes_by(&reach.p, &reach.q, rim)
}

/// Whether this is a corner of the edge.
fn is_end(reach: &Reach, corner: u32) -> bool
    ensures { IsTrue result ↔ IsEnd reach.now corner }
{
    reach.m == corner || reach.n == corner
}
