// The corners and triangles of a solid, as they are written.
ghost use Rattle.std.specs.Prelude.{◌≡◌, length, IfOk};
ghost use Rattle.std.specs.List.{All};
ghost use Rattle.geometry.specs.Parts.{part_of};
ghost use Rattle.lattice.specs.Triangles.{IsBelow};
ghost use Rattle.solid_mesh.specs.Solids.{solid_part};

use exact_frac::OutOfMemory;
use lattice::{Corner, Soup, Tri};
use solid_mesh::Solid;
use std::alloc::Global;

/// The corners of a solid, in order.
fn corners_of(alloc: Global, solid: &Solid) -> Result<Vec<Corner>, OutOfMemory>
    ensures { IfOk result (λ corners. corners.items ≡ (solid_part solid.now).corners) }
{
    let mut corners = Vec::new(alloc);
    for i in 0..solid.corners() {
        corners.push(solid.corner(i))?;
    }
    Ok(corners)
}

/// The triangles of a solid, in order.
fn triangles_of(alloc: Global, solid: &Solid) -> Result<Vec<Tri>, OutOfMemory>
    ensures { IfOk result (λ triangles. triangles.items ≡ (solid_part solid.now).triangles) }
{
    let mut triangles = Vec::new(alloc);
    for i in 0..solid.triangles() {
        triangles.push(solid.triangle(i))?;
    }
    Ok(triangles)
}

/// The corners and triangles of a solid.
pub(crate) fn soup_of(alloc: Global, solid: &Solid) -> Result<Soup, OutOfMemory>
    ensures { IfOk result (λ soup. part_of soup ≡ solid_part solid.now) }
{
    let corners = corners_of(alloc, solid)?;
    let triangles = triangles_of(alloc, solid)?;
    Ok(Soup { corners, triangles })
}
