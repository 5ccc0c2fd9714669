// Flat triangles.
ghost use Rattle.std.specs.Prelude.{◌<◌, ◌≤◌, ◌↔◌, length, IsTrue, MatchOption};
ghost use Rattle.geometry.specs.Faces.{IsFlat};
ghost use Rattle.geometry.specs.Parts.{part_of, HasNoFlatTriangle};
ghost use Rattle.solid_mesh.specs.Faults.{IsLeast, IsFlatAt};

use lattice::{Corner, Soup, Tri, Vector, cross};

/// The first flat triangle.
pub(crate) fn find_flat(soup: &Soup) -> Option<u32>
    requires { length (part_of soup.now).triangles ≤ 20000 }
    ensures { MatchOption result (HasNoFlatTriangle (part_of soup.now)) (IsLeast (IsFlatAt (part_of soup.now))) }
{
    for tri in 0..soup.triangles.len() as u32 {
        if is_flat_at(soup, tri) {
            return Some(tri);
        }
    }
    None
}

/// The triangle with this number is flat.
fn is_flat_at(soup: &Soup, tri: u32) -> bool
    requires { tri < length (part_of soup.now).triangles }
    ensures { IsTrue result ↔ IsFlatAt (part_of soup.now) tri }
{
    let Tri { a, b, c } = soup.triangles[tri as usize];
    is_flat(
        &soup.corners[a as usize],
        &soup.corners[b as usize],
        &soup.corners[c as usize],
    )
}

/// The three corners are in one line.
fn is_flat(a: &Corner, b: &Corner, c: &Corner) -> bool
    ensures { IsTrue result ↔ IsFlat a.now b.now c.now }
{
    cross(&Vector::between(a, b), &Vector::between(a, c)).is_zero()
}
