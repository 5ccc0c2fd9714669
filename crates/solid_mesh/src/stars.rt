// The triangles at each corner.
ghost use Rattle.std.specs.Prelude.{◌≡◌, ℕ, ◌<◌, ◌≤◌, List, [], ◌∷◌, ◌++◌, length, slice_index_or, slice_set, vec_len, OnOk, IfOk};
ghost use Rattle.geometry.specs.Parts.{part_of, HasNoFlatTriangle};
ghost use Rattle.solid_mesh.specs.Stars.{AreStars, lists_of};

use lattice::{Soup, Tri};
use std::alloc::{AllocError, Global};

/// For each corner, the triangles that have it, in order.
pub(crate) fn find_stars(alloc: Global, soup: &Soup) -> Result<Vec<Vec<u32>>, AllocError>
    requires corners { length (part_of soup.now).corners ≤ 60000 }
    requires triangles { length (part_of soup.now).triangles ≤ 20000 }
    requires none_flat { HasNoFlatTriangle (part_of soup.now) }
    ensures { IfOk result (λ stars. AreStars (length (part_of soup.now).corners) (part_of soup.now).triangles
        (length (part_of soup.now).triangles) (lists_of stars.items)) }
{
    let mut stars = empty_stars(alloc, soup.corners.len())?;
    for tri in 0..soup.triangles.len() as u32 {
        let Tri { a, b, c } = soup.triangles[tri as usize];
        add(&mut stars, a, tri)?;
        add(&mut stars, b, tri)?;
        add(&mut stars, c, tri)?;
    }
    Ok(stars)
}

/// A star for each corner, with no triangle yet.
fn empty_stars(alloc: Global, corners: usize) -> Result<Vec<Vec<u32>>, AllocError>
    ensures for_each { IfOk result (λ stars. vec_len stars ≡ corners) }
    ensures empty { IfOk result (λ stars. (corner : ℕ) → slice_index_or (lists_of stars.items) corner [] ≡ []) }
{
    let mut stars = Vec::new(alloc);
    for _ in 0..corners {
        stars.push(Vec::new(alloc))?;
    }
    Ok(stars)
}

/// One triangle more at a corner.
fn add(stars: &mut Vec<Vec<u32>>, corner: u32, tri: u32) -> Result<(), AllocError>
    requires { corner < vec_len stars.old }
    ensures for_each { vec_len stars.new ≡ vec_len stars.old }
    ensures added { OnOk result (lists_of stars.new.items
        ≡ slice_set (lists_of stars.old.items) corner (slice_index_or (lists_of stars.old.items) corner [] ++ tri ∷ [])) }
{
    stars[corner as usize].push(tri)?;
    Ok(())
}
