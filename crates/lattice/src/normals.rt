// Normals of faces: the cross products of their sides.
ghost use Rattle.std.specs.Prelude.{◌≡◌, ◌<◌, ◌≤◌, ◌^◌, ◌*ℤ◌, ◌↔◌, unsigned_abs, IsTrue};
ghost use Rattle.lattice.specs.Triple.{dot, IsZero};

/// The cross product of two vectors, as long as twice the area of the triangle that they span. Each component is at most 2^43 in size.
#[derive(Clone, Copy, Debug)]
pub struct Normal {
    pub x: i64,
    pub y: i64,
    pub z: i64,
    ghost x_in_range: { unsigned_abs x ≤ 2 ^ 43 },
    ghost y_in_range: { unsigned_abs y ≤ 2 ^ 43 },
    ghost z_in_range: { unsigned_abs z ≤ 2 ^ 43 },
}

impl Normal {
    ghost use Rattle.lattice.specs.Points.{of_normal};

    /// The normal is the null vector: the triangle is flat.
    pub fn is_zero(&self) -> bool
        ensures { IsTrue result ↔ IsZero (of_normal self.now) }
    {
        self.x == 0 && self.y == 0 && self.z == 0
    }

    /// The scalar product of two normals.
    pub fn dot(&self, other: &Normal) -> i128
        ensures value { result ≡ dot (of_normal self.now) (of_normal other.now) }
        ensures size { unsigned_abs result < 2 ^ 88 }
    {
        summand(self.x, other.x) + summand(self.y, other.y) + summand(self.z, other.z)
    }
}

/// `a * b`, one summand of a scalar product of normals.
fn summand(a: i64, b: i64) -> i128
    requires first { unsigned_abs a ≤ 2 ^ 43 }
    requires second { unsigned_abs b ≤ 2 ^ 43 }
    ensures value { result ≡ a *ℤ b }
    ensures size { unsigned_abs result ≤ 2 ^ 86 }
{
    i128::from(a) * i128::from(b)
}
