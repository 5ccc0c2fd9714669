// Directed sides: which occur twice, and which goes back on which.
ghost use Rattle.std.specs.Prelude.{◌≡◌, ℕ, ◌+◌, ◌*◌, ◌/◌, ◌%◌, ◌<◌, ◌≤◌, ◌↔◌, length, slice_get, OnOk, IfOk, IfErr};
ghost use Rattle.geometry.specs.Parts.{part_of, start_of, end_of, HasNoFlatTriangle, HasNoSideTwice, IsClosed};
ghost use Rattle.solid_mesh.specs.Faults.{ShareSide, SharesEarlier};
ghost use Rattle.solid_mesh.specs.inner.Halves.{AreTwins, lower_halves_of, side_at, sides_of, first_sides};
ghost use Rattle.solid_mesh.specs.Solids.{IsRefusedFor};

use crate::faults::{MeshError, MeshFault};
use indexmap::IndexSet;
use lattice::{Soup, Tri};
use std::alloc::{AllocError, Global};

/// A directed side, by the numbers of the corner that it begins at and of the one that it ends at.
#[derive(Clone, Copy, PartialEq, Eq, Hash, Debug)]
pub(crate) struct DirectedSide {
    pub from: u32,
    pub to: u32,
}

/// The directed sides in the order of the halves, so that each stands at the number of its half.
pub(crate) fn index_sides(alloc: Global, soup: &Soup) -> Result<IndexSet<DirectedSide>, MeshError>
    requires few { length (part_of soup.now).triangles ≤ 20000 }
    requires none_flat { HasNoFlatTriangle (part_of soup.now) }
    ensures sides { IfOk result (λ sides. sides.keys ≡ sides_of (part_of soup.now).triangles) }
    ensures once { OnOk result (HasNoSideTwice (part_of soup.now)) }
    ensures refused { IfErr result (IsRefusedFor (part_of soup.now)) }
{
    let mut sides = IndexSet::new(alloc);
    for half in 0..3 * soup.triangles.len() as u32 {
        if !sides.insert(side_at(soup, half))? {
            let second = half / 3;
            let first = first_sharing(soup, &sides, second);
            return Err(MeshError::Mesh(MeshFault::SameWay(first, second)));
        }
    }
    Ok(sides)
}

/// The first triangle with a directed side of `second`, or `second` if no earlier one has any.
fn first_sharing(soup: &Soup, sides: &IndexSet<DirectedSide>, second: u32) -> u32
    requires within { second < length (part_of soup.now).triangles }
    requires few { length (part_of soup.now).triangles ≤ 20000 }
    requires sides { sides.now.keys ≡ first_sides (part_of soup.now).triangles (length sides.now.keys) }
    requires earlier { 3 * second ≤ length sides.now.keys }
    requires halves { length sides.now.keys ≤ 3 * length (part_of soup.now).triangles }
    ensures least { (i : ℕ) → SharesEarlier (part_of soup.now) second i → result ≤ i }
    ensures shares { result < second → ShareSide (part_of soup.now) result second }
{
    let mut first = second;
    for side in 0..3 {
        first = earlier(soup, sides, 3 * second + side, first);
    }
    first
}

/// The first triangle with the side of this half, or `first` if that is less.
fn earlier(soup: &Soup, sides: &IndexSet<DirectedSide>, half: u32, first: u32) -> u32
    requires within { half < 3 * length (part_of soup.now).triangles }
    requires few { length (part_of soup.now).triangles ≤ 20000 }
    requires sides { sides.now.keys ≡ first_sides (part_of soup.now).triangles (length sides.now.keys) }
    requires halves { length sides.now.keys ≤ 3 * length (part_of soup.now).triangles }
    ensures low { result ≤ first }
    ensures least { (other : ℕ) → other < length sides.now.keys
        → side_at (part_of soup.now).triangles other ≡ side_at (part_of soup.now).triangles half → result ≤ other / 3 }
    ensures shares { result < first → ShareSide (part_of soup.now) result (half / 3) }
{
    match sides.get_index_of(&side_at(soup, half)) {
        Some(place) => first.min(place as u32 / 3),
        None => first,
    }
}

/// For each half, the half that goes back.
pub(crate) fn find_twins(
    alloc: Global,
    soup: &Soup,
    sides: &IndexSet<DirectedSide>,
) -> Result<Vec<u32>, MeshError>
    requires few { length (part_of soup.now).triangles ≤ 20000 }
    requires none_flat { HasNoFlatTriangle (part_of soup.now) }
    requires once { HasNoSideTwice (part_of soup.now) }
    requires sides { sides.now.keys ≡ sides_of (part_of soup.now).triangles }
    ensures twins { IfOk result (λ twins. AreTwins (part_of soup.now).triangles twins.items) }
    ensures closed { OnOk result (IsClosed (part_of soup.now)) }
    ensures refused { IfErr result (IsRefusedFor (part_of soup.now)) }
{
    let mut twins = Vec::new(alloc);
    for half in 0..3 * soup.triangles.len() as u32 {
        let DirectedSide { from, to } = side_at(soup, half);
        match sides.get_index_of(&DirectedSide { from: to, to: from }) {
            Some(other) => twins.push(other as u32)?,
            None => return Err(MeshError::Mesh(MeshFault::Unpaired(half / 3, half % 3))),
        }
    }
    Ok(twins)
}

/// The halves that are lower than their twins, in order.
pub(crate) fn find_lower(alloc: Global, twins: &[u32]) -> Result<Vec<u32>, AllocError>
    requires { length twins.now ≤ 60000 }
    ensures { IfOk result (λ halves. halves.items ≡ lower_halves_of twins.now) }
{
    let mut halves = Vec::new(alloc);
    for half in 0..twins.len() as u32 {
        if half < twins[half as usize] {
            halves.push(half)?;
        }
    }
    Ok(halves)
}

/// The side along a half.
fn side_at(soup: &Soup, half: u32) -> DirectedSide
    requires { half < 3 * length (part_of soup.now).triangles }
    ensures { result ≡ side_at (part_of soup.now).triangles half }
{
    let (from, to) = ends(&soup.triangles[(half / 3) as usize], half % 3);
    DirectedSide { from, to }
}

/// The corners between which side 0, 1 or 2 of a triangle goes.
pub(crate) fn ends(triangle: &Tri, side: u32) -> (u32, u32)
    ensures start { result.0 ≡ start_of triangle.now side }
    ensures end { result.1 ≡ end_of triangle.now side }
{
    match side {
        0 => (triangle.a, triangle.b),
        1 => (triangle.b, triangle.c),
        _ => (triangle.c, triangle.a),
    }
}
