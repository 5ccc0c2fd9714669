// Corners and the triangles between them.
ghost use Rattle.std.specs.Prelude.{◌≡◌, length, IfOk};
ghost use Rattle.std.specs.List.{All};
ghost use Rattle.lattice.specs.Triangles.{IsBelow};

use crate::points::Corner;
use exact_frac::OutOfMemory;
use std::alloc::Global;

/// A triangle, by the numbers of its corners, in order around it.
#[derive(Clone, Copy, PartialEq, Eq, Debug)]
pub struct Tri {
    pub a: u32,
    pub b: u32,
    pub c: u32,
}

/// Corners and triangles of a part, in units. The numbers of each triangle's corners are in range.
#[derive(Debug, Drop)]
pub struct Soup {
    pub corners: Vec<Corner>,
    pub triangles: Vec<Tri>,
    ghost in_range: { All (IsBelow (length corners.items)) triangles.items },
}

impl Soup {
    /// The same corners and triangles once more.
    pub fn copy(&self, alloc: Global) -> Result<Soup, OutOfMemory>
        ensures corners { IfOk result (λ copy. copy.corners.items ≡ self.now.corners.items) }
        ensures triangles { IfOk result (λ copy. copy.triangles.items ≡ self.now.triangles.items) }
    {
        Ok(Soup {
            corners: self.corners.to_vec(alloc)?,
            triangles: self.triangles.to_vec(alloc)?,
        })
    }
}
