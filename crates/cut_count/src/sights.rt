// Where corners and ends of borders are seen from one another in the view of a cut.
ghost use Rattle.std.specs.Prelude.{◌≡◌, ◌*◌, ◌≤◌, ◌<◌, ◌^◌, ◌-ℤ◌, ◌*ℤ◌, length, unsigned_abs};
ghost use Rattle.lattice.specs.Triple.{IsWithin, dot, right_axis, up_axis};
ghost use Rattle.lattice.specs.Points.{of_spot};
ghost use Rattle.lattice.specs.Cuts.{plane_of, toward_of};
ghost use Rattle.geometry.specs.Faces.{difference};
ghost use Rattle.geometry.specs.Parts.{Edge, IsNumbered};
ghost use Rattle.hiding_laws.specs.Values.{offset, side_of};
ghost use Rattle.solid_mesh.specs.Solids.{solid_part, edge_halves};
ghost use Rattle.cut_count_laws.specs.BorderShares.{way_turn};

use cross_find::ends;
use cut_plane::EdgeAt;
use lattice::{Axis, Corner, Cut, Spot, Vector};
use solid_mesh::Solid;

/// A way in the view: across and upward.
#[derive(Clone, Copy)]
pub(crate) struct Way {
    pub(crate) across: i64,
    pub(crate) upward: i64,
    ghost across_small: { unsigned_abs across ≤ 2 ^ 46 },
    ghost upward_small: { unsigned_abs upward ≤ 2 ^ 46 },
}

/// An edge as it is seen in the view of a cut, with the way from its first corner to its second.
#[derive(Clone, Copy)]
pub(crate) struct SeenEdge {
    pub(crate) cut: Cut,
    pub(crate) at: EdgeAt,
    pub(crate) step: Way,
    ghost across: { step.across ≡ dot (right_axis (toward_of (plane_of cut))) (difference at.a at.b) },
    ghost upward: { step.upward ≡ dot (up_axis (toward_of (plane_of cut))) (difference at.a at.b) },
}

impl SeenEdge {
    /// The edge with this number.
    pub(crate) fn new(solid: &Solid, cut: &Cut, edge: u32) -> SeenEdge
        requires { edge < length (edge_halves solid.now) }
        ensures plane { plane_of result.cut ≡ plane_of cut.now }
        ensures number { result.at.number ≡ edge }
        ensures ends { (e : Edge (solid_part solid.now)) → IsNumbered (edge_halves solid.now) edge e → (e.a ≡ result.at.a) × (e.b ≡ result.at.b) }
    {
        let (a, b) = ends(solid, edge);
        SeenEdge {
            cut: *cut,
            at: EdgeAt { number: edge, a, b },
            step: step(cut, &a, &b),
        }
    }
}

/// The way from one corner to another.
pub(crate) fn step(cut: &Cut, a: &Corner, b: &Corner) -> Way
    ensures across { result.across ≡ dot (right_axis (toward_of (plane_of cut.now))) (difference a.now b.now) }
    ensures upward { result.upward ≡ dot (up_axis (toward_of (plane_of cut.now))) (difference a.now b.now) }
{
    let way = Vector::between(a, b);
    seen_way(cut, way.x, way.y, way.z)
}

/// The way from a corner to an end of a border, times the latter's divisor.
fn offset(cut: &Cut, k: &Corner, p: &Spot) -> Way
    requires { unsigned_abs p.now.w ≤ 2 ^ 24 }
    ensures across { result.across ≡ dot (right_axis (toward_of (plane_of cut.now))) (offset k.now (of_spot p.now)) }
    ensures upward { result.upward ≡ dot (up_axis (toward_of (plane_of cut.now))) (offset k.now (of_spot p.now)) }
{
    let x = short_of(p.x, p.w, k.x);
    let y = short_of(p.y, p.w, k.y);
    let z = short_of(p.z, p.w, k.z);
    seen_way(cut, x, y, z)
}

/// The way as it is seen in the view of the cut.
fn seen_way(cut: &Cut, x: i64, y: i64, z: i64) -> Way
    requires { IsWithin (2 ^ 46) (record { x = x; y = y; z = z }) }
    ensures across { result.across ≡ dot (right_axis (toward_of (plane_of cut.now))) (record { x = x; y = y; z = z }) }
    ensures upward { result.upward ≡ dot (up_axis (toward_of (plane_of cut.now))) (record { x = x; y = y; z = z }) }
{
    let (across, upward) = seen(cut, x, y, z);
    Way { across, upward }
}

/// Its components across and upward.
fn seen(cut: &Cut, x: i64, y: i64, z: i64) -> (i64, i64)
    requires { IsWithin (2 ^ 46) (record { x = x; y = y; z = z }) }
    ensures across { result.0 ≡ dot (right_axis (toward_of (plane_of cut.now))) (record { x = x; y = y; z = z }) }
    ensures upward { result.1 ≡ dot (up_axis (toward_of (plane_of cut.now))) (record { x = x; y = y; z = z }) }
    ensures across_size { unsigned_abs result.0 ≤ 2 ^ 46 }
    ensures upward_size { unsigned_abs result.1 ≤ 2 ^ 46 }
{
    match (cut.axis(), cut.from_high()) {
        (Axis::X, true) => (y, z),
        (Axis::X, false) => (-y, z),
        (Axis::Y, true) => (-x, z),
        (Axis::Y, false) => (x, z),
        (Axis::Z, true) => (x, y),
        (Axis::Z, false) => (x, -y),
    }
}

/// `x - w * k`, which fits, since `x` is a coordinate with the divisor `w`.
fn short_of(x: i128, w: i128, k: i32) -> i64
    requires near { unsigned_abs x ≤ 2 ^ 21 * unsigned_abs w }
    requires divisor { unsigned_abs w ≤ 2 ^ 24 }
    requires small { unsigned_abs k ≤ 2 ^ 20 }
    ensures value { result ≡ x -ℤ (w *ℤ k) }
    ensures size { unsigned_abs result ≤ 2 ^ 46 }
{
    (x - w * i128::from(k)) as i64
}

/// Positive where the way `y` is to the left of `x`.
pub(crate) fn turn(x: &Way, y: &Way) -> i128
    ensures value { result ≡ (x.now.across *ℤ y.now.upward) -ℤ (x.now.upward *ℤ y.now.across) }
    ensures size { unsigned_abs result ≤ 2 ^ 93 }
{
    i128::from(x.across) * i128::from(y.upward) - i128::from(x.upward) * i128::from(y.across)
}

/// Where the end of a border is seen to the edge's line: positive to its left.
pub(crate) fn side(seen: &SeenEdge, p: &Spot) -> i128
    requires { unsigned_abs p.now.w ≤ 2 ^ 24 }
    ensures { result ≡ side_of (toward_of (plane_of seen.now.cut)) seen.now.at.a seen.now.at.b (of_spot p.now) }
{
    turn(&seen.step, &offset(&seen.cut, &seen.at.a, p))
}

/// Where a corner is seen to the way from `p` to `q`: positive to its left.
pub(crate) fn corner_side(cut: &Cut, p: &Spot, q: &Spot, k: &Corner) -> i128
    requires first { unsigned_abs p.now.w ≤ 2 ^ 24 }
    requires second { unsigned_abs q.now.w ≤ 2 ^ 24 }
    ensures value { result ≡ way_turn (toward_of (plane_of cut.now)) (of_spot p.now) (of_spot q.now) k.now }
    ensures size { unsigned_abs result ≤ 2 ^ 93 }
{
    turn(&offset(cut, k, p), &offset(cut, k, q))
}
