// The first edge and triangle that meet in another point than a shared corner, by a walk over a tree of boxes for each edge.
ghost use Rattle.std.specs.Prelude.{◌≡◌, ◌+◌, ◌*◌, ◌^◌, ◌<◌, ◌≤◌, ◌↔◌, length, slice_get, Some, None, IsTrue, IfOk, IfSome};
ghost use Rattle.std.specs.List.{All};
ghost use Rattle.geometry.specs.Parts.{part_of, IsClosed, AreEdges};
ghost use Rattle.solid_mesh.specs.Meetings.{HaveCommonX, HaveCommonBox, IsAtMostPairs};
ghost use Rattle.solid_mesh.specs.inner.Trees.{IsPlaced, AreAllPlaced, AreSubtrees};
ghost use Rattle.solid_mesh.specs.inner.Searches.{ComesBefore, Searched, AtHalf, IsReachOf, IsPair, IsOfPlaces, IsOfEdge, IsFirst};

use crate::beside::is_apart;
use crate::bounds::{Bounds, bounds_meet, edge_bounds};
use crate::pairs::{PairMeter, pair_test};
use crate::passing::passes_by;
use crate::placed::{Placed, place_triangles};
use crate::sides::ends;
use crate::subtrees::{Subtree, grow_subtrees};
use lattice::{Corner, Soup};
use meeting::ranges_meet;
use std::alloc::{AllocError, Global};

/// From so many triangles below its own on, a subtree is worth the time of looking at it along each axis.
const LARGE_SUBTREE: usize = 8;

/// An edge that meets a triangle, by their numbers.
#[derive(Clone, Copy, Debug)]
pub(crate) struct Meeting {
    pub edge: u32,
    pub tri: u32,
}

/// The bounds of an edge, and its corners with their numbers.
#[derive(Clone, Copy, Debug)]
pub(crate) struct Reach {
    pub bounds: Bounds,
    pub m: u32,
    pub n: u32,
    pub p: Corner,
    pub q: Corner,
}

/// What was tested, and the first edge and triangle that were found to meet.
#[derive(Clone, Copy, Debug)]
pub(crate) struct SearchResult {
    pub meter: PairMeter,
    pub first: Option<Meeting>,
}

/// The first edge, by the halves, that meets a triangle in another point than a shared corner, with the first such triangle.
/// The edges are searched in their order, up to the first that meets one: the search of an edge goes over a tree of boxes and
/// leaves out each subtree whose bounds miss those of the edge, or are seen beside it, and each fan that the edge leaves at its
/// corner or goes past. So it takes the time of comparing the bounds of subtrees that meet it, and of a short test for each triangle
/// whose bounds do: up to all, where all bounds overlap.
pub(crate) fn find_meeting(
    alloc: Global,
    soup: &Soup,
    halves: &[u32],
) -> Result<SearchResult, AllocError>
    requires few_edges { length halves.now ≤ 60000 }
    requires few_triangles { length (part_of soup.now).triangles ≤ 20000 }
    requires closed { IsClosed (part_of soup.now) }
    requires are_edges { AreEdges (part_of soup.now) halves.now }
    requires halves { All (λ half. half < 3 * length (part_of soup.now).triangles) halves.now }
    ensures boxes { IfOk result (λ found. IsAtMostPairs (HaveCommonX (part_of soup.now)) halves.now found.meter.boxes) }
    ensures pairs { IfOk result (λ found. IsAtMostPairs (HaveCommonBox (part_of soup.now)) halves.now found.meter.pairs) }
    ensures first { IfOk result (λ found. IsFirst (part_of soup.now) halves.now found.first) }
    ensures few_boxes { IfOk result (λ found. found.meter.boxes < 2 ^ 62) }
    ensures few_pairs { IfOk result (λ found. found.meter.pairs < 2 ^ 62) }
{
    let placed = place_triangles(alloc, soup)?;
    let subtrees = grow_subtrees(alloc, &placed)?;
    let mut found = SearchResult {
        meter: PairMeter { boxes: 0, pairs: 0 },
        first: None,
    };
    search(soup, halves, &placed, &subtrees, &mut found);
    Ok(found)
}

/// Searches the edges in their order, up to the first that meets a triangle.
fn search(
    soup: &Soup,
    halves: &[u32],
    placed: &[Placed],
    subtrees: &[Subtree],
    found: &mut SearchResult,
)
    requires few_edges { length halves.now ≤ 60000 }
    requires few_triangles { length placed.now ≤ 20000 }
    requires halves { All (λ half. half < 3 * length (part_of soup.now).triangles) halves.now }
    requires placed { AreAllPlaced (part_of soup.now) placed.now }
    requires count { length subtrees.now ≡ length placed.now }
    requires subtrees { AreSubtrees placed.now subtrees.now }
    requires boxes { found.old.meter.boxes ≡ 0 }
    requires pairs { found.old.meter.pairs ≡ 0 }
    requires none { found.old.first ≡ None }
    ensures searched { Searched (part_of soup.now) halves.now (AtHalf (HaveCommonX (part_of soup.now)) halves.now) found.old found.new }
    ensures boxes { found.new.meter.boxes < 2 ^ 62 }
    ensures pairs { found.new.meter.pairs < 2 ^ 62 }
{
    for edge in 0..halves.len() as u32 {
        search_edge(soup, halves, edge, placed, subtrees, found);
        if found.first.is_some() {
            return;
        }
    }
}

/// Searches one edge: over the places of the triangles from the last to the first, of which each subtree is left out from which
/// bounds tell that the edge is apart.
fn search_edge(
    soup: &Soup,
    halves: &[u32],
    edge: u32,
    placed: &[Placed],
    subtrees: &[Subtree],
    found: &mut SearchResult,
)
    requires few { length placed.now ≤ 20000 }
    requires halves { All (λ half. half < 3 * length (part_of soup.now).triangles) halves.now }
    requires edge { edge < length halves.now }
    requires placed { AreAllPlaced (part_of soup.now) placed.now }
    requires count { length subtrees.now ≡ length placed.now }
    requires subtrees { AreSubtrees placed.now subtrees.now }
    requires boxes { found.old.meter.boxes < 2 ^ 61 }
    requires pairs { found.old.meter.pairs < 2 ^ 61 }
    requires none { found.old.first ≡ None }
    ensures searched { Searched (part_of soup.now) halves.now (IsOfEdge (part_of soup.now) halves.now edge) found.old found.new }
    ensures here { IfSome found.new.first (λ m. m.edge ≡ edge) }
    ensures boxes { found.new.meter.boxes ≤ found.old.meter.boxes + 20000 }
    ensures pairs { found.new.meter.pairs ≤ found.old.meter.pairs + 20000 }
{
    let reach = reach_of(soup, halves, edge);
    let mut end = subtrees.len();
    while end > 0 {
        end = visit(soup, halves, edge, &reach, placed, subtrees, end - 1, found);
    }
}

fn reach_of(soup: &Soup, halves: &[u32], edge: u32) -> Reach
    requires halves { All (λ half. half < 3 * length (part_of soup.now).triangles) halves.now }
    requires edge { edge < length halves.now }
    ensures { IsReachOf (part_of soup.now) halves.now edge result }
{
    let half = halves[edge as usize];
    let (m, n) = ends(&soup.triangles[(half / 3) as usize], half % 3);
    let p = &soup.corners[m as usize];
    let q = &soup.corners[n as usize];
    Reach {
        bounds: edge_bounds(p, q),
        m,
        n,
        p: *p,
        q: *q,
    }
}

/// Tests an edge and the triangle at a place, unless bounds tell that the edge is apart from its whole subtree.
/// From the result on nothing is left to be tested.
fn visit(
    soup: &Soup,
    halves: &[u32],
    edge: u32,
    reach: &Reach,
    placed: &[Placed],
    subtrees: &[Subtree],
    place: usize,
    found: &mut SearchResult,
) -> usize
    requires halves { All (λ half. half < 3 * length (part_of soup.now).triangles) halves.now }
    requires reach { IsReachOf (part_of soup.now) halves.now edge reach.now }
    requires placed { All (IsPlaced (part_of soup.now)) placed.now }
    requires subtrees { AreSubtrees placed.now subtrees.now }
    requires place { place < length subtrees.now }
    requires count { length subtrees.now ≡ length placed.now }
    requires boxes { found.old.meter.boxes < 2 ^ 62 }
    requires pairs { found.old.meter.pairs < 2 ^ 62 }
    ensures low { result ≤ place }
    ensures searched { Searched (part_of soup.now) halves.now (IsOfPlaces (part_of soup.now) halves.now edge placed.now result (place + 1)) found.old found.new }
    ensures here { IfSome found.old.first (λ m. m.edge ≡ edge) → IfSome found.new.first (λ m. m.edge ≡ edge) }
    ensures boxes { found.new.meter.boxes ≤ found.old.meter.boxes + 1 }
    ensures pairs { found.new.meter.pairs ≤ found.old.meter.pairs + 1 }
{
    let subtree = &subtrees[place];
    if !bounds_meet(&subtree.around, &reach.bounds) {
        return subtree.first as usize;
    }
    let large = subtree.first as usize + LARGE_SUBTREE <= place;
    if large && passes_by(&reach.p, &reach.q, &subtree.around) {
        return subtree.first as usize;
    }
    let own = &placed[place];
    if is_apart(
        reach,
        &subtree.around,
        subtree.corner,
        &own.at,
        &subtree.rim,
    ) {
        return subtree.first as usize;
    }
    test(soup, halves, edge, reach, own, found);
    place
}

/// Tests an edge and a triangle: their boxes if their ranges of x meet, and if the boxes meet, no bounds tell that the two are apart,
/// and the pair is before the one that was found, the pair.
fn test(
    soup: &Soup,
    halves: &[u32],
    edge: u32,
    reach: &Reach,
    placed: &Placed,
    found: &mut SearchResult,
)
    requires halves { All (λ half. half < 3 * length (part_of soup.now).triangles) halves.now }
    requires reach { IsReachOf (part_of soup.now) halves.now edge reach.now }
    requires placed { IsPlaced (part_of soup.now) placed.now }
    requires boxes { found.old.meter.boxes + 1 < 2 ^ 63 }
    requires pairs { found.old.meter.pairs + 1 < 2 ^ 63 }
    ensures searched { Searched (part_of soup.now) halves.now (IsPair (part_of soup.now) halves.now edge placed.now.tri) found.old found.new }
    ensures here { IfSome found.old.first (λ m. m.edge ≡ edge) → IfSome found.new.first (λ m. m.edge ≡ edge) }
    ensures boxes { found.new.meter.boxes ≤ found.old.meter.boxes + 1 }
    ensures pairs { found.new.meter.pairs ≤ found.old.meter.pairs + 1 }
{
    if !ranges_meet(&placed.bounds.x, &reach.bounds.x) {
        return;
    }
    found.meter.boxes += 1;
    if !bounds_meet(&placed.bounds, &reach.bounds) {
        return;
    }
    if is_apart(
        reach,
        &placed.bounds,
        Some(placed.corner),
        &placed.at,
        &placed.rim,
    ) {
        return;
    }
    if !comes_before(edge, placed.tri, &found.first) {
        return;
    }
    let half = halves[edge as usize];
    if pair_test(soup, half, placed.tri, &mut found.meter) {
        found.first = Some(Meeting {
            edge,
            tri: placed.tri,
        });
    }
}

/// Whether an edge and a triangle are before those that were found, if any were.
fn comes_before(edge: u32, tri: u32, first: &Option<Meeting>) -> bool
    ensures { IsTrue result ↔ ComesBefore edge tri first.now }
{
    match first {
        None => true,
        Some(m) => {
            if edge == m.edge {
                return tri < m.tri;
            }
            edge < m.edge
        }
    }
}
