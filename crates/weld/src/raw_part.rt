// The vertices and triangles that a text gives.
ghost use Rattle.std.specs.Prelude.{◌≤◌, length};
ghost use Rattle.std.specs.List.{All};
ghost use Rattle.lattice.specs.Triangles.{IsBelow};

use lattice::{Corner, Tri};

/// The vertices of a text, in units, and its triangles, as they are written: at most 60,000 and 20,000. The numbers of
/// each triangle's corners are in range.
#[derive(Debug, Drop)]
pub struct RawPart {
    pub corners: Vec<Corner>,
    pub triangles: Vec<Tri>,
    ghost in_range: { All (IsBelow (length corners.items)) triangles.items },
    ghost few_corners: { length corners.items ≤ 60000 },
    ghost few_triangles: { length triangles.items ≤ 20000 },
}
