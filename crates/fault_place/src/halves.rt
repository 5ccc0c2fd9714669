// The half that an edge goes along. Halves are numbered in 128 bits here, in which three times any length fits.
ghost use Rattle.std.specs.Prelude.{◌≡◌, ◌*◌, ◌/◌, ◌%◌, ◌<◌, length, IfOk};
ghost use Rattle.geometry.specs.Parts.{part_of, IsHalf, IsClosed};
ghost use Rattle.fault_place.specs.inner.Halves.{HasEdge, IsHalfOfEdge};

use exact_frac::OutOfMemory;
use indexmap::IndexSet;
use lattice::{Soup, Tri};
use std::alloc::Global;

/// A directed side, by the numbers of the corner that it begins at and of the one that it ends at.
#[derive(Clone, Copy, PartialEq, Eq, Hash)]
pub(crate) struct DirectedSide {
    pub from: u32,
    pub to: u32,
}

/// The half that this edge goes along. A half is an edge's unless an earlier one goes back; so each side up to it is hashed twice.
pub(crate) fn half_of_edge(alloc: Global, soup: &Soup, edge: u32) -> Result<u128, OutOfMemory>
    requires closed { IsClosed (part_of soup.now) }
    requires there { HasEdge (part_of soup.now) edge }
    ensures half { IfOk result (IsHalfOfEdge (part_of soup.now) edge) }
    ensures within { IfOk result (λ half. half < 3 * length (part_of soup.now).triangles) }
{
    let mut sides = IndexSet::new(alloc);
    let mut edges = 0;
    for half in 0..3 * soup.triangles.len() as u128 {
        let DirectedSide { from, to } = side_at(soup, half);
        sides.insert(DirectedSide { from, to })?;
        if !sides.contains(&DirectedSide { from: to, to: from }) {
            if edges == edge {
                return Ok(half);
            }
            edges += 1;
        }
    }
    unreachable!()
}

/// The side along a half.
pub(crate) fn side_at(soup: &Soup, half: u128) -> DirectedSide
    requires { half < 3 * length (part_of soup.now).triangles }
    ensures { IsHalf (part_of soup.now) half result.from result.to }
{
    let Tri { a, b, c } = soup.triangles[(half / 3) as usize];
    match half % 3 {
        0 => DirectedSide { from: a, to: b },
        1 => DirectedSide { from: b, to: c },
        _ => DirectedSide { from: c, to: a },
    }
}
