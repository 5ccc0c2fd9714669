// Of each triangle the corner with the most triangles: the one that it may have in common with a fan of them.
ghost use Rattle.std.specs.Prelude.{◌≡◌, ◌<◌, ◌≤◌, length, IfOk};
ghost use Rattle.lattice.specs.Triangles.{IsBelow};
ghost use Rattle.geometry.specs.Parts.{part_of, IsCornerOf};

use lattice::{Soup, Tri};
use std::alloc::{AllocError, Global};

/// How many triangles are at each corner. Takes constant time for each triangle and each corner.
pub(crate) fn count_triangles(alloc: Global, soup: &Soup) -> Result<Vec<u32>, AllocError>
    requires few { length (part_of soup.now).triangles ≤ 20000 }
    ensures { IfOk result (λ counts. length counts.items ≡ length (part_of soup.now).corners) }
{
    let mut counts = vec![in alloc; 0u32; soup.corners.len()]?;
    for tri in 0..soup.triangles.len() as u32 {
        let Tri { a, b, c } = soup.triangles[tri as usize];
        count(&mut counts, a);
        count(&mut counts, b);
        count(&mut counts, c);
    }
    Ok(counts)
}

/// One more at a corner.
fn count(counts: &mut [u32], corner: u32)
    requires { corner < length counts.old }
    ensures { length counts.new ≡ length counts.old }
{
    counts[corner as usize] = counts[corner as usize].saturating_add(1);
}

/// The corner of a triangle with the greatest of these counts, the first of several.
pub(crate) fn greatest_corner(counts: &[u32], triangle: &Tri) -> u32
    requires { IsBelow (length counts.now) triangle.now }
    ensures has { IsCornerOf triangle.now result }
    ensures below { result < length counts.now }
{
    let Tri { a, b, c } = *triangle;
    if counts[b as usize] > counts[a as usize] {
        if counts[c as usize] > counts[b as usize] {
            return c;
        }
        return b;
    }
    if counts[c as usize] > counts[a as usize] {
        return c;
    }
    a
}
