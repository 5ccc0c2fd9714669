// Which edges are outlines, creases and seen end-on, and which are drawn.
ghost use Rattle.std.specs.Prelude.{◌≡◌, ◌≢◌, ℕ, ◌<◌, ◌≤◌, ◌^◌, ◌⊎◌, ◌↔◌, pos, ◌*ℤ◌, ◌<ℤ◌, ◌≤ℤ◌, unsigned_abs, length, vec_len, IsTrue, IfOk};
ghost use Rattle.lattice.specs.Creases.{fraction_of};
ghost use Rattle.lattice.specs.Points.{of_dir, of_normal};
ghost use Rattle.geometry.specs.Faces.{normal};
ghost use Rattle.geometry.specs.Parts.{Face};
ghost use Rattle.geometry.specs.Views.{IsOutline, IsCrease, IsEndOn, IsDrawn, AreOutlines, AreDrawnEdges};
ghost use Rattle.solid_mesh.specs.Solids.{solid_part, edge_halves};
ghost use Rattle.edge_pick.specs.Edges.{OfEdge};

use exact_frac::{Frac, OutOfMemory};
use lattice::{Crease, Dir, Normal, Spot, Vector, cross, same_sight};
use solid_mesh::Solid;
use std::alloc::Global;

fn differ(a: i8, b: i8) -> bool
    ensures { IsTrue result ↔ (a ≢ b) }
{
    a != b
}

/// The signs of the edge's two triangles differ.
fn is_outline(solid: &Solid, d: &Dir, edge: u32) -> bool
    requires { edge < length (edge_halves solid.now) }
    ensures { OfEdge solid.now edge (λ e. IsTrue result ↔ IsOutline (of_dir d.now) e) }
{
    let numbers = solid.edge(edge);
    differ(solid.sign(d, numbers.left), solid.sign(d, numbers.right))
}

/// The normal of the triangle with this number.
fn triangle_normal(solid: &Solid, triangle: u32) -> Normal
    requires { triangle < length (solid_part solid.now).triangles }
    ensures { (f : Face (solid_part solid.now)) → f.number ≡ triangle → of_normal result ≡ normal f.a f.b f.c }
{
    let corners = solid.triangle(triangle);
    let a = solid.corner(corners.a);
    let b = solid.corner(corners.b);
    let c = solid.corner(corners.c);
    cross(&Vector::between(&a, &b), &Vector::between(&a, &c))
}

/// Two normals are further apart than the angle whose squared cosine is `fraction` over 1,000,000, or by a right angle or more:
/// from their scalar product and their squared lengths. Multiplied out, both sides have about 200 bits, so two fractions are
/// compared in their place.
fn turns(product: i128, left: i128, right: i128, fraction: u32) -> bool
    requires product_in_range { unsigned_abs product < 2 ^ 88 }
    requires right_in_range { unsigned_abs right < 2 ^ 88 }
    requires left_positive { pos 0 <ℤ product → pos 0 <ℤ left }
    ensures { IsTrue result ↔ ((product ≤ℤ pos 0) ⊎ (((pos 1000000 *ℤ product) *ℤ product) <ℤ ((pos fraction *ℤ left) *ℤ right))) }
{
    if product <= 0 {
        return true;
    }
    let ratio = Frac {
        num: product,
        den: left,
    };
    let least = Frac {
        num: i128::from(fraction) * right,
        den: 1_000_000 * product,
    };
    ratio < least
}

/// The edge's two normals turn as far as the crease says.
fn is_crease(solid: &Solid, crease: Crease, edge: u32) -> bool
    requires { edge < length (edge_halves solid.now) }
    ensures { OfEdge solid.now edge (λ e. IsTrue result ↔ IsCrease (fraction_of crease) e) }
{
    let numbers = solid.edge(edge);
    let left = triangle_normal(solid, numbers.left);
    let right = triangle_normal(solid, numbers.right);
    turns(
        left.dot(&right),
        left.dot(&left),
        right.dot(&right),
        crease.fraction(),
    )
}

/// The projections of the edge's two corners agree.
fn is_end_on(solid: &Solid, d: &Dir, edge: u32) -> bool
    requires { edge < length (edge_halves solid.now) }
    ensures { OfEdge solid.now edge (λ e. IsTrue result ↔ IsEndOn (of_dir d.now) e) }
{
    let numbers = solid.edge(edge);
    let a = Spot::at(&solid.corner(numbers.a));
    let b = Spot::at(&solid.corner(numbers.b));
    same_sight(d, &a, &b)
}

fn is_drawn(solid: &Solid, d: &Dir, crease: Crease, edge: u32) -> bool
    requires { edge < length (edge_halves solid.now) }
    ensures { OfEdge solid.now edge (λ e. IsTrue result ↔ IsDrawn (of_dir d.now) (fraction_of crease) e) }
{
    if is_end_on(solid, d, edge) {
        return false;
    }
    if is_outline(solid, d, edge) {
        return true;
    }
    is_crease(solid, crease, edge)
}

/// The numbers of the edges that are drawn, in order.
pub(crate) fn drawn_edges(
    alloc: Global,
    solid: &Solid,
    d: &Dir,
    crease: Crease,
) -> Result<Vec<u32>, OutOfMemory>
    ensures few { IfOk result (λ numbers. vec_len numbers < 2 ^ 32) }
    ensures right { IfOk result (λ numbers. AreDrawnEdges (of_dir d.now) (fraction_of crease) (solid_part solid.now) (edge_halves solid.now) numbers.items) }
{
    let mut numbers = Vec::new(alloc);
    for edge in 0..solid.edges() {
        if is_drawn(solid, d, crease, edge) {
            numbers.push(edge)?;
        }
    }
    Ok(numbers)
}

/// The numbers of the edges that are outlines, in order.
pub(crate) fn outline_edges(alloc: Global, solid: &Solid, d: &Dir) -> Result<Vec<u32>, OutOfMemory>
    ensures { IfOk result (λ numbers. AreOutlines (of_dir d.now) (solid_part solid.now) (edge_halves solid.now) numbers.items) }
{
    let mut numbers = Vec::new(alloc);
    for edge in 0..solid.edges() {
        if is_outline(solid, d, edge) {
            numbers.push(edge)?;
        }
    }
    Ok(numbers)
}
