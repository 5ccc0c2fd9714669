// The triangles of a part after flips of its slivers.
ghost use Rattle.std.specs.Prelude.{◌≡◌, ℕ, ◌*◌, ◌<◌, ◌≤◌, length, map, IfOk};
ghost use Rattle.std.specs.List.{All};
ghost use Rattle.lattice.specs.Triangles.{IsBelow};
ghost use Rattle.geometry.specs.Parts.{part_with};
ghost use Rattle.flip_slivers.specs.Near.{AreNearSurfaces};
ghost use Rattle.flip_slivers.specs.Flips.{IsGreatestBound, unmoved};
ghost use Rattle.flip_slivers.specs.Flipped.{IsFlipped};
ghost use Rattle.flip_slivers.specs.inner.Choices.{IsLaid};
ghost use Rattle.flip_slivers.specs.inner.Lists.{triangles_of};

use crate::Bounded;
use crate::lists::list_all;
use crate::making::{Mesh, flip_all};
use crate::measures::measure_all;
use crate::queue::all_waiting;
use exact_frac::OutOfMemory;
use lattice::{Corner, Tri};
use std::alloc::{AllocError, Global};

/// The triangles after flips, how many flips were made, and how far points moved at most, in 1024ths of a unit.
#[derive(Debug, Drop)]
pub struct Flipped {
    pub triangles: Vec<Tri>,
    pub flips: u64,
    pub moved: u32,
}

/// The triangles after flips of slivers, each of which stays in its place or is exchanged: while a triangle has a least height of at
/// most 2 units, the side there and a neighbour are taken, and the side is exchanged for the other diagonal of the two, if that is no
/// side yet, if the lesser height of the two rises, and if no point moves more than `limit` units from the given surface.
///
/// The surface needn't be closed. Two triangles beside each other are compared once, and again only if a flip changed one of them, or
/// took away the side that their own flip would have made. So time grows with the triangles and the flips, and with the pairs at each side:
/// where k triangles have a side in one direction and l in the other, k times l, at most 100 million for 20,000 triangles. Memory grows
/// with the triangles.
pub fn flip_slivers(
    alloc: Global,
    corners: &[Corner],
    triangles: &[Tri],
    limit: u32,
) -> Result<Flipped, OutOfMemory>
    requires few_corners { length corners.now ≤ 60000 }
    requires few_triangles { length triangles.now ≤ 20000 }
    requires in_range { All (IsBelow (length corners.now)) triangles.now }
    requires limit { limit ≤ 100 }
    ensures flips { IfOk result (λ f. IsFlipped corners.now (1024 * limit) triangles.now f.triangles.items f.flips f.moved) }
    ensures count { IfOk result (λ f. length f.triangles.items ≡ length triangles.now) }
    ensures in_range { IfOk result (λ f. All (IsBelow (length corners.now)) f.triangles.items) }
    ensures near { IfOk result (λ f. AreNearSurfaces f.moved (part_with corners.now triangles.now) (part_with corners.now f.triangles.items)) }
    ensures within { IfOk result (λ f. f.moved ≤ 1024 * limit) }
{
    let mut mesh = mesh_of(alloc, corners, triangles)?;
    let mut queue = all_waiting(alloc, triangles.len() as u32)?;
    let flips = flip_all(corners, &mut mesh, &mut queue, 1024 * limit)?;
    Ok(Flipped {
        triangles: bare(alloc, &mesh.surface)?,
        flips,
        moved: greatest(&mesh.surface),
    })
}

/// The triangles with a bound of 0 each, measured and listed.
fn mesh_of(alloc: Global, corners: &[Corner], triangles: &[Tri]) -> Result<Mesh, AllocError>
    requires few_triangles { length triangles.now ≤ 20000 }
    requires in_range { All (IsBelow (length corners.now)) triangles.now }
    ensures start { IfOk result (λ mesh. mesh.surface.items ≡ map unmoved triangles.now) }
    ensures laid { IfOk result (λ mesh. IsLaid corners.now mesh.surface.items mesh.measures.items mesh.lists.items) }
{
    Ok(Mesh {
        surface: start_of(alloc, triangles)?,
        measures: measure_all(alloc, corners, triangles)?,
        lists: list_all(alloc, triangles)?,
    })
}

/// The triangles with a bound of 0 each.
fn start_of(alloc: Global, triangles: &[Tri]) -> Result<Vec<Bounded>, AllocError>
    ensures { IfOk result (λ surface. surface.items ≡ map unmoved triangles.now) }
{
    triangles
        .iter()
        .map(|tri| Bounded {
            tri: *tri,
            bound: 0,
        })
        .collect(alloc)
}

/// The triangles without their bounds.
fn bare(alloc: Global, surface: &[Bounded]) -> Result<Vec<Tri>, AllocError>
    ensures { IfOk result (λ triangles. triangles.items ≡ triangles_of surface.now) }
{
    surface.iter().map(|x| x.tri).collect(alloc)
}

/// The greatest bound, and 0 if there is no triangle.
fn greatest(surface: &[Bounded]) -> u32
    ensures { IsGreatestBound surface.now result }
{
    let mut most = 0;
    for x in surface {
        if x.bound > most {
            most = x.bound;
        }
    }
    most
}
