// Faces of more than three corners as fans of triangles.
ghost use Rattle.std.specs.Prelude.{◌≡◌, ℕ, ◌+◌, ◌<◌, ◌≤◌, ◌^◌, ◌↔◌, ◌+ℤ◌, ◌*ℤ◌, unsigned_abs, length, map, slice_get, All, Some, option_map, IsTrue, IfOk, IfSome};
ghost use Rattle.lattice.specs.Triple.{IsWithin, dot, cross};
ghost use Rattle.lattice.specs.Points.{of_corner, of_vector, of_normal};
ghost use Rattle.lattice.specs.Triangles.{IsBelow};
ghost use Rattle.off_reader.specs.Fans.{turned, plus, corners_at, vector_area, fan_of, HasTwoEqual, IsTurnedAs, SeesWhole, IsFan};
ghost use Rattle.off_reader.specs.inner.Fans.{twice, of_area};

use exact_frac::OutOfMemory;
use lattice::{Corner, Normal, Tri, Vector, cross};
use std::alloc::Global;

/// Twice the vector area of a face: each component is at most 2^49 in size.
#[derive(Clone, Copy)]
struct Area {
    x: i64,
    y: i64,
    z: i64,
}

/// The fan from the least corner that sees the face whole, if there is one.
pub(crate) fn fan(
    alloc: Global,
    vertices: &[Corner],
    numbers: &[u32],
) -> Result<Option<Vec<Tri>>, OutOfMemory>
    requires some { 3 < length numbers.now }
    requires few { length numbers.now ≤ 64 }
    requires within { All (λ i. i < length vertices.now) numbers.now }
    ensures fan { IfOk result (λ fan. IsFan numbers.now (corners_at (map of_corner vertices.now) numbers.now) (option_map (λ v. v.items) fan)) }
    ensures below { IfOk result (λ fan. IfSome fan (λ v. All (IsBelow (length vertices.now)) v.items)) }
    ensures count { IfOk result (λ fan. IfSome fan (λ v. length v.items + 2 ≡ length numbers.now)) }
{
    let area = vector_area(vertices, numbers);
    for j in 0..numbers.len() {
        if sees_whole(vertices, numbers, area, j) {
            return Ok(Some(fan_from(alloc, numbers, j)?));
        }
    }
    Ok(None)
}

/// The number at this place, around.
fn number_at(numbers: &[u32], place: usize) -> u32
    requires { place < length (twice numbers.now) }
    ensures { slice_get (twice numbers.now) place ≡ Some result }
{
    if place < numbers.len() {
        numbers[place]
    } else {
        numbers[place - numbers.len()]
    }
}

/// The corner at this place, around.
fn corner_at(vertices: &[Corner], numbers: &[u32], place: usize) -> Corner
    requires within { All (λ i. i < length vertices.now) numbers.now }
    requires place { place < length (twice numbers.now) }
    ensures { slice_get (twice (corners_at (map of_corner vertices.now) numbers.now)) place ≡ Some (of_corner result) }
{
    vertices[number_at(numbers, place) as usize]
}

/// The sum of the cross products of neighbouring corners.
fn vector_area(vertices: &[Corner], numbers: &[u32]) -> Area
    requires few { length numbers.now ≤ 64 }
    requires within { All (λ i. i < length vertices.now) numbers.now }
    ensures value { of_area result ≡ vector_area (corners_at (map of_corner vertices.now) numbers.now) }
    ensures size { IsWithin (2 ^ 49) (of_area result) }
{
    let mut area = Area { x: 0, y: 0, z: 0 };
    for i in 0..numbers.len() {
        let a = corner_at(vertices, numbers, i);
        let b = corner_at(vertices, numbers, i + 1);
        area = with_side(area, &a, &b);
    }
    area
}

/// One side more.
fn with_side(area: Area, a: &Corner, b: &Corner) -> Area
    requires { IsWithin (2 ^ 49) (of_area area) }
    ensures value { of_area result ≡ plus (of_area area) (cross (of_corner a.now) (of_corner b.now)) }
    ensures size { (m : ℕ) → IsWithin m (of_area area) → IsWithin (m + 2 ^ 43) (of_area result) }
{
    let side = cross(&position(a), &position(b));
    Area {
        x: sum(area.x, side.x),
        y: sum(area.y, side.y),
        z: sum(area.z, side.z),
    }
}

/// `a + b`, one component of a sum of cross products.
fn sum(a: i64, b: i64) -> i64
    requires first { unsigned_abs a ≤ 2 ^ 49 }
    requires second { unsigned_abs b ≤ 2 ^ 43 }
    ensures { result ≡ a +ℤ b }
{
    a + b
}

/// The vector from the origin to a corner.
fn position(a: &Corner) -> Vector
    ensures { of_vector result ≡ of_corner a.now }
{
    Vector {
        x: a.x.into(),
        y: a.y.into(),
        z: a.z.into(),
    }
}

/// Two of the three corners are equal.
fn has_two_equal(a: &Corner, b: &Corner, c: &Corner) -> bool
    ensures { IsTrue result ↔ HasTwoEqual (of_corner a.now) (of_corner b.now) (of_corner c.now) }
{
    is_equal(a, b) || is_equal(b, c) || is_equal(c, a)
}

/// The two corners are at one place.
fn is_equal(a: &Corner, b: &Corner) -> bool
    ensures { IsTrue result ↔ (of_corner a.now ≡ of_corner b.now) }
{
    a.x == b.x && a.y == b.y && a.z == b.z
}

/// The triangle is turned as the face is.
fn is_turned_as(area: Area, a: &Corner, b: &Corner, c: &Corner) -> bool
    requires { IsWithin (2 ^ 49) (of_area area) }
    ensures { IsTrue result ↔ IsTurnedAs (of_area area) (of_corner a.now) (of_corner b.now) (of_corner c.now) }
{
    along(area, cross(&Vector::between(a, b), &Vector::between(a, c))) > 0
}

/// The scalar product of the area with a normal.
fn along(area: Area, normal: Normal) -> i128
    requires { IsWithin (2 ^ 49) (of_area area) }
    ensures { result ≡ dot (of_area area) (of_normal normal) }
{
    summand(area.x, normal.x) + summand(area.y, normal.y) + summand(area.z, normal.z)
}

/// `a * b`, one summand of a scalar product.
fn summand(a: i64, b: i64) -> i128
    requires first { unsigned_abs a ≤ 2 ^ 49 }
    requires second { unsigned_abs b ≤ 2 ^ 43 }
    ensures value { result ≡ a *ℤ b }
    ensures size { unsigned_abs result ≤ 2 ^ 92 }
{
    i128::from(a) * i128::from(b)
}

/// The corner at place `j` sees the face whole.
fn sees_whole(vertices: &[Corner], numbers: &[u32], area: Area, j: usize) -> bool
    requires some { 3 < length numbers.now }
    requires few { length numbers.now ≤ 64 }
    requires within { All (λ i. i < length vertices.now) numbers.now }
    requires area { of_area area ≡ vector_area (corners_at (map of_corner vertices.now) numbers.now) }
    requires size { IsWithin (2 ^ 49) (of_area area) }
    requires place { j < length numbers.now }
    ensures { IsTrue result ↔ SeesWhole (corners_at (map of_corner vertices.now) numbers.now) j }
{
    let a = corner_at(vertices, numbers, j);
    let mut some = false;
    for i in 0..numbers.len() - 2 {
        let b = corner_at(vertices, numbers, j + i + 1);
        let c = corner_at(vertices, numbers, j + i + 2);
        if is_turned_as(area, &a, &b, &c) {
            some = true;
        } else if !has_two_equal(&a, &b, &c) {
            return false;
        }
    }
    some
}

/// The triangles of the fan from place `j`.
fn fan_from(alloc: Global, numbers: &[u32], j: usize) -> Result<Vec<Tri>, OutOfMemory>
    requires some { 3 < length numbers.now }
    requires few { length numbers.now ≤ 64 }
    requires place { j < length numbers.now }
    ensures { IfOk result (λ v. v.items ≡ fan_of (λ a b c. record { a = a; b = b; c = c }) (turned j numbers.now)) }
{
    let mut triangles = Vec::new(alloc);
    for i in 0..numbers.len() - 2 {
        triangles.push(Tri {
            a: number_at(numbers, j),
            b: number_at(numbers, j + i + 1),
            c: number_at(numbers, j + i + 2),
        })?;
    }
    Ok(triangles)
}
