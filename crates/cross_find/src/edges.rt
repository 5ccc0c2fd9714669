// The corners of an edge, and to which side of its line others are seen.
ghost use Rattle.std.specs.Prelude.{◌≡◌, ◌<◌, ◌^◌, length, unsigned_abs};
ghost use Rattle.lattice.specs.Points.{of_dir};
ghost use Rattle.geometry.specs.Parts.{Edge, IsNumbered};
ghost use Rattle.solid_mesh.specs.Solids.{solid_part, edge_halves};
ghost use Rattle.geometry.specs.Counts.{orientation_of};

use lattice::{Corner, Dir, Vector, view_cross};
use solid_mesh::Solid;

/// The two corners of an edge, its first one first. Takes constant time.
pub fn ends(solid: &Solid, edge: u32) -> (Corner, Corner)
    requires { edge < length (edge_halves solid.now) }
    ensures { (e : Edge (solid_part solid.now)) → IsNumbered (edge_halves solid.now) edge e → (e.a ≡ result.0) × (e.b ≡ result.1) }
{
    let numbers = solid.edge(edge);
    (solid.corner(numbers.a), solid.corner(numbers.b))
}

/// Positive where `c` is seen to the left of the line from `a` to `b`, 0 where it is seen on the line: a determinant of whole coordinates.
pub fn orientation_of(d: &Dir, a: &Corner, b: &Corner, c: &Corner) -> i128
    ensures value { result ≡ orientation_of (of_dir d.now) a.now b.now c.now }
    ensures size { unsigned_abs result < 2 ^ 48 }
{
    view_cross(d, &Vector::between(a, b), &Vector::between(a, c))
}
