// Points, vectors and directions.
ghost use Rattle.std.specs.Prelude.{◌≡◌, ℕ, ◌+◌, ◌*◌, ◌<◌, ◌≤◌, ◌^◌, ◌↔◌, pos, ◌-ℤ◌, ◌<ℤ◌, unsigned_abs, None, IfOk, IfSome, IsNone, IsTrue};
ghost use Rattle.lattice.specs.Triple.{IsWithin, dot, negated, right_axis, up_axis};
ghost use Rattle.lattice.specs.declared.points.Axis.{Axis};
ghost use Rattle.lattice.specs.Faults.{IsFirstOutside};

use crate::products::{minor, weighted};

/// An axis of the part's coordinates.
#[derive(Clone, Copy, PartialEq, Eq, Debug)]
pub enum Axis {
    X,
    Y,
    Z,
}

impl Axis {
    ghost use Rattle.lattice.specs.Axes.{third_of};

    /// The axis beside this one and another; of two that are the same, that one.
    pub fn third(self, other: Axis) -> Axis
        ensures { result ≡ third_of self other }
    {
        match (self, other) {
            (Axis::X, Axis::Y) | (Axis::Y, Axis::X) => Axis::Z,
            (Axis::X, Axis::Z) | (Axis::Z, Axis::X) => Axis::Y,
            (Axis::Y, Axis::Z) | (Axis::Z, Axis::Y) => Axis::X,
            (Axis::X, Axis::X) => Axis::X,
            (Axis::Y, Axis::Y) => Axis::Y,
            (Axis::Z, Axis::Z) => Axis::Z,
        }
    }
}

/// A corner of a part, in units. Each coordinate is at most 2^20 in size.
#[derive(Clone, Copy, Debug)]
pub struct Corner {
    pub x: i32,
    pub y: i32,
    pub z: i32,
    ghost x_in_range: { unsigned_abs x ≤ 2 ^ 20 },
    ghost y_in_range: { unsigned_abs y ≤ 2 ^ 20 },
    ghost z_in_range: { unsigned_abs z ≤ 2 ^ 20 },
}

/// A vector: the difference of two corners, in units, or an axis of a view. Each component is at most 2^21 in size.
#[derive(Clone, Copy, Debug)]
pub struct Vector {
    pub x: i64,
    pub y: i64,
    pub z: i64,
    ghost x_in_range: { unsigned_abs x ≤ 2 ^ 21 },
    ghost y_in_range: { unsigned_abs y ≤ 2 ^ 21 },
    ghost z_in_range: { unsigned_abs z ≤ 2 ^ 21 },
}

impl Vector {
    ghost use Rattle.lattice.specs.Points.{of_vector, difference};

    /// The vector from corner `a` to corner `b`.
    pub fn between(a: &Corner, b: &Corner) -> Vector
        ensures { of_vector result ≡ difference a.now b.now }
    {
        Vector {
            x: step(a.x, b.x),
            y: step(a.y, b.y),
            z: step(a.z, b.z),
        }
    }

    /// The scalar product of two vectors.
    pub fn dot(&self, other: &Vector) -> i128
        ensures value { result ≡ dot (of_vector self.now) (of_vector other.now) }
        ensures small { IsWithin 162 (of_vector self.now) → unsigned_abs result < 2 ^ 30 }
    {
        weighted(self, other.x.into(), other.y.into(), other.z.into())
    }

    /// The vector that goes back.
    pub fn reversed(&self) -> Vector
        ensures value { of_vector result ≡ negated (of_vector self.now) }
        ensures small { (m : ℕ) → IsWithin m (of_vector self.now) → IsWithin m (of_vector result) }
    {
        Vector {
            x: -self.x,
            y: -self.y,
            z: -self.z,
        }
    }
}

/// `b - a`, one component of a difference of corners.
fn step(a: i32, b: i32) -> i64
    requires first { unsigned_abs a ≤ 2 ^ 20 }
    requires second { unsigned_abs b ≤ 2 ^ 20 }
    ensures value { result ≡ b -ℤ a }
    ensures size { unsigned_abs result ≤ 2 ^ 21 }
{
    i64::from(b) - i64::from(a)
}

/// A point in homogeneous coordinates: `(x / w, y / w, z / w)`, in units. `w` is positive and below 2^70, and no
/// coordinate of the point is above 2^21 in size.
#[derive(Clone, Copy, Debug)]
pub struct Spot {
    pub x: i128,
    pub y: i128,
    pub z: i128,
    pub w: i128,
    ghost positive: { pos 0 <ℤ w },
    ghost w_in_range: { unsigned_abs w < 2 ^ 70 },
    ghost x_in_range: { unsigned_abs x < 2 ^ 92 },
    ghost y_in_range: { unsigned_abs y < 2 ^ 92 },
    ghost z_in_range: { unsigned_abs z < 2 ^ 92 },
    ghost x_near: { unsigned_abs x ≤ 2 ^ 21 * unsigned_abs w },
    ghost y_near: { unsigned_abs y ≤ 2 ^ 21 * unsigned_abs w },
    ghost z_near: { unsigned_abs z ≤ 2 ^ 21 * unsigned_abs w },
}

impl Spot {
    ghost use Rattle.lattice.specs.Points.{of_spot, point_of};

    /// The spot of a corner.
    pub fn at(corner: &Corner) -> Spot
        ensures { of_spot result ≡ point_of corner.now }
    {
        Spot {
            x: corner.x.into(),
            y: corner.y.into(),
            z: corner.z.into(),
            w: 1,
        }
    }
}

/// Why three numbers are no direction.
#[derive(Clone, Copy, PartialEq, Eq, Debug)]
pub enum DirFault {
    /// All three are 0.
    ZeroDirection,
    /// The first component that is outside -9 to 9.
    DirectionRange(Axis),
}

/// The direction from the part to the viewer: the view-plane normal. Its components are from -9 to 9 and not all 0.
#[derive(Clone, Copy, Debug)]
pub struct Dir {
    x: i64,
    y: i64,
    z: i64,
    ghost x_in_range: { unsigned_abs x ≤ 9 },
    ghost y_in_range: { unsigned_abs y ≤ 9 },
    ghost z_in_range: { unsigned_abs z ≤ 9 },
    ghost not_zero: { 0 < unsigned_abs x + unsigned_abs y + unsigned_abs z },
}

impl Dir {
    ghost use Rattle.lattice.specs.Axes.{IsAlong};
    ghost use Rattle.lattice.specs.Points.{of_dir, of_vector};
    ghost use Rattle.lattice.specs.Cuts.{side_of};

    /// The direction with these components. Three zeros are `ZeroDirection`; a component outside -9 to 9 is
    /// `DirectionRange`, with the first such axis.
    pub fn new(x: i64, y: i64, z: i64) -> Result<Dir, DirFault>
        ensures components { IfOk result (λ d. of_dir d ≡ record { x = x; y = y; z = z }) }
        ensures zero { (result ≡ Err DirFault.ZeroDirection) ↔ ((x ≡ pos 0) × (y ≡ pos 0) × (z ≡ pos 0)) }
        ensures range { (axis : Axis) → (result ≡ Err (DirFault.DirectionRange axis)) ↔ IsFirstOutside axis x y z }
    {
        if x == 0 && y == 0 && z == 0 {
            return Err(DirFault::ZeroDirection);
        }
        match first_outside(x, y, z) {
            Some(axis) => Err(DirFault::DirectionRange(axis)),
            None => Ok(Dir { x, y, z }),
        }
    }

    /// The direction along an axis to its high side, or against it to its low side.
    pub(crate) fn along(axis: Axis, from_high: bool) -> Dir
        ensures { of_dir result ≡ side_of axis from_high }
    {
        let step = if from_high { 1 } else { -1 };
        match axis {
            Axis::X => Dir {
                x: step,
                y: 0,
                z: 0,
            },
            Axis::Y => Dir {
                x: 0,
                y: step,
                z: 0,
            },
            Axis::Z => Dir {
                x: 0,
                y: 0,
                z: step,
            },
        }
    }

    /// The components of the direction.
    pub fn vector(&self) -> Vector
        ensures components { of_vector result ≡ of_dir self.now }
        ensures size { IsWithin 9 (of_vector result) }
    {
        Vector {
            x: self.x,
            y: self.y,
            z: self.z,
        }
    }

    /// The axis that the direction is along, if it is along one.
    pub fn axis(&self) -> Option<Axis>
        ensures some { IfSome result (λ axis. IsAlong axis (of_dir self.now)) }
        ensures none { result ≡ None → (axis : Axis) → ¬ IsAlong axis (of_dir self.now) }
    {
        if are_nothing(self.y, self.z) {
            return Some(Axis::X);
        }
        if are_nothing(self.x, self.z) {
            return Some(Axis::Y);
        }
        if are_nothing(self.x, self.y) {
            return Some(Axis::Z);
        }
        None
    }

    /// The right axis of the view, `(-y, x, 0)`: level, and to the viewer's right. For a view along z it is `(1, 0, 0)`.
    pub fn right(&self) -> Vector
        ensures axis { of_vector result ≡ right_axis (of_dir self.now) }
        ensures size { IsWithin 9 (of_vector result) }
    {
        if self.x == 0 && self.y == 0 {
            Vector { x: 1, y: 0, z: 0 }
        } else {
            Vector {
                x: -self.y,
                y: self.x,
                z: 0,
            }
        }
    }

    /// The up axis of the view: the direction cross the right axis. Its components are at most 162 in size.
    pub fn up(&self) -> Vector
        ensures axis { of_vector result ≡ up_axis (of_dir self.now) }
        ensures size { IsWithin 162 (of_vector result) }
    {
        let right = self.right();
        Vector {
            x: minor(self.y, self.z, right.y, right.z),
            y: minor(self.z, self.x, right.z, right.x),
            z: minor(self.x, self.y, right.x, right.y),
        }
    }
}

/// Both are 0.
fn are_nothing(a: i64, b: i64) -> bool
    ensures { IsTrue result ↔ ((a ≡ pos 0) × (b ≡ pos 0)) }
{
    a == 0 && b == 0
}

/// The first axis whose component no direction has.
fn first_outside(x: i64, y: i64, z: i64) -> Option<Axis>
    ensures first { (axis : Axis) → (result ≡ Some axis) ↔ IsFirstOutside axis x y z }
    ensures none { IsNone result → (unsigned_abs x ≤ 9) × (unsigned_abs y ≤ 9) × (unsigned_abs z ≤ 9) }
{
    if x.unsigned_abs() > 9 {
        Some(Axis::X)
    } else if y.unsigned_abs() > 9 {
        Some(Axis::Y)
    } else if z.unsigned_abs() > 9 {
        Some(Axis::Z)
    } else {
        None
    }
}
