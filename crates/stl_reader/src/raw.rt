// Facets as a raw part: nothing is welded.
ghost use Rattle.std.specs.Prelude.{◌≡◌, ◌*◌, ◌≤◌, length, map, All, IfOk};
ghost use Rattle.std.specs.List.{range_with_len};
ghost use Rattle.lattice.specs.Points.{of_corner};
ghost use Rattle.lattice.specs.Triangles.{IsBelow};
ghost use Rattle.weld.specs.Raw.{seen};
ghost use Rattle.stl_reader.specs.Stl.{vertices_of, triangle_at, raw_of};
ghost use Rattle.stl_reader.specs.inner.Views.{of_facet};

use crate::facets::Facet;
use exact_frac::OutOfMemory;
use lattice::{Corner, Tri};
use std::alloc::Global;
use weld::RawPart;

/// The corners of all facets, one after the other.
fn corners_of(alloc: Global, facets: &[Facet]) -> Result<Vec<Corner>, OutOfMemory>
    ensures items { IfOk result (λ v. map of_corner v.items ≡ vertices_of (map of_facet facets.now)) }
    ensures count { IfOk result (λ v. length v.items ≡ 3 * length facets.now) }
{
    let mut corners = Vec::new(alloc);
    for facet in facets {
        corners.push(facet.a)?;
        corners.push(facet.b)?;
        corners.push(facet.c)?;
    }
    Ok(corners)
}

/// The triangles of so many facets.
fn triangles_of(alloc: Global, count: usize) -> Result<Vec<Tri>, OutOfMemory>
    requires { count ≤ 20000 }
    ensures items { IfOk result (λ v. v.items ≡ map triangle_at (range_with_len 0 count)) }
    ensures below { IfOk result (λ v. All (IsBelow (3 * count)) v.items) }
    ensures count { IfOk result (λ v. length v.items ≡ count) }
{
    let mut triangles = Vec::new(alloc);
    for i in 0..count as u32 {
        triangles.push(Tri {
            a: 3 * i,
            b: 3 * i + 1,
            c: 3 * i + 2,
        })?;
    }
    Ok(triangles)
}

/// The raw part of these facets.
pub(crate) fn raw_of(alloc: Global, facets: &[Facet]) -> Result<RawPart, OutOfMemory>
    requires { length facets.now ≤ 20000 }
    ensures { IfOk result (λ raw. seen raw ≡ raw_of (map of_facet facets.now)) }
{
    let corners = corners_of(alloc, facets)?;
    let triangles = triangles_of(alloc, facets.len())?;
    Ok(RawPart { corners, triangles })
}
