// The bound of a plain view, a number of tests.
ghost use Rattle.std.specs.Prelude.{◌≡◌, ℕ, ◌+◌, ◌*◌, ◌<◌, ◌≤◌, ◌^◌, List, All, length, sum};
ghost use Rattle.std.specs.List.{AllZip};
ghost use Rattle.lattice.specs.Triple.{Triple};
ghost use Rattle.edge_pick.specs.Picked.{IsPicked};
ghost use Rattle.solid_mesh.specs.Solids.{solid_part, edge_halves, AreTrianglesAt};
ghost use Rattle.span_count.specs.Bounds.{IsRunCount, IsEndCount, IsBound};

use edge_pick::Picked;
use solid_mesh::Solid;

/// The number of runs with these numbers: one more than the greatest, and 0 where there is none.
pub fn count_runs(runs: &[u32]) -> u64
    ensures count { IsRunCount runs.now result }
    ensures size { result ≤ 2 ^ 32 }
{
    let mut count = 0;
    for run in runs {
        count = count.max(u64::from(*run) + 1);
    }
    count
}

/// The number of triangles at a corner.
fn count_at(solid: &Solid, corner: u32) -> u64
    requires { corner < length (solid_part solid.now).corners }
    ensures count { (triangles : List ℕ) × AreTrianglesAt (solid_part solid.now) corner triangles × (result ≡ length triangles) }
    ensures size { result ≤ 20000 }
{
    solid.star(corner).len() as u64
}

/// The number of triangles at one end of an edge, and at the other.
fn count_at_ends(solid: &Solid, edge: u32) -> u64
    requires { edge < length (edge_halves solid.now) }
    ensures count { IsEndCount (solid_part solid.now) (edge_halves solid.now) edge result }
    ensures size { result ≤ 40000 }
{
    let numbers = solid.edge(edge);
    count_at(solid, numbers.a) + count_at(solid, numbers.b)
}

/// The number of triangles at the ends of each of these edges.
fn count_at_all(solid: &Solid, edges: &[u32]) -> u64
    requires in_range { All (λ i. i < length (edge_halves solid.now)) edges.now }
    requires few { length edges.now ≤ 60000 }
    ensures count { (ends : List ℕ) × AllZip (IsEndCount (solid_part solid.now) (edge_halves solid.now)) edges.now ends × (result ≡ sum ends) }
    ensures size { result ≤ 2400000000 }
{
    let mut count = 0;
    for edge in edges {
        count += count_at_ends(solid, *edge);
    }
    count
}

/// The bound of what was picked for a plain view: the number of runs times that of triangles, three times the number of drawn
/// edges times that of outlines, and for each of the two ends of each drawn edge the number of triangles at that corner.
///
/// Takes no memory, and time that is linear in the drawn edges.
pub fn bound(solid: &Solid, picked: &Picked) -> u64
    requires { (d : Triple) × (fraction : ℕ) × IsPicked d fraction (solid_part solid.now) (edge_halves solid.now) picked.now }
    ensures bound { IsBound (solid_part solid.now) (edge_halves solid.now) picked.now result }
    ensures size { result < 2 ^ 48 }
{
    let runs = count_runs(&picked.runs);
    let drawn = picked.drawn.len() as u64;
    let outlines = picked.outlines.len() as u64;
    let ends = count_at_all(solid, &picked.drawn);
    runs * u64::from(solid.triangles()) + 3 * drawn * outlines + ends
}
