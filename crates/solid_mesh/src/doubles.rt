// Triangles on the same three corners.
ghost use Rattle.std.specs.Prelude.{◌≤◌, length, MatchOption};
ghost use Rattle.geometry.specs.Parts.{part_of, IsClosed, HasNoDouble};
ghost use Rattle.solid_mesh.specs.Faults.{HasFault};
ghost use Rattle.solid_mesh.specs.inner.Halves.{AreTwins};
ghost use Rattle.solid_mesh.specs.declared.faults.MeshFault.TheVariants.{Double};

use lattice::Soup;

/// The first triangle that has the three corners of an earlier one, after that earlier one. As the part is closed, all sides
/// of two such triangles go back on each other, so the twins of two sides tell.
pub(crate) fn find_double(soup: &Soup, twins: &[u32]) -> Option<(u32, u32)>
    requires few { length (part_of soup.now).triangles ≤ 20000 }
    requires closed { IsClosed (part_of soup.now) }
    requires twins { AreTwins (part_of soup.now).triangles twins.now }
    ensures { MatchOption result (HasNoDouble (part_of soup.now))
        (λ pair. HasFault (part_of soup.now) (Double pair.0 pair.1)) }
{
    for second in 0..soup.triangles.len() as u32 {
        let side = 3 * second as usize;
        let first = twins[side] / 3;
        if first < second && twins[side + 1] / 3 == first {
            return Some((first, second));
        }
    }
    None
}
