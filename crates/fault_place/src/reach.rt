// How far figures reach along an axis, and along all three.
ghost use Rattle.std.specs.Prelude.{◌≡◌, ◌≤◌, ◌^◌, pos, ◌+ℤ◌, unsigned_abs};
ghost use Rattle.std.specs.Int.{int_min, int_max};
ghost use Rattle.integers.specs.Floors.{floor_of};

/// From a least coordinate to a greatest one, in units.
#[derive(Clone, Copy)]
pub(crate) struct Reach {
    pub least: i32,
    pub greatest: i32,
    ghost least_in_range: { unsigned_abs least ≤ 2 ^ 20 },
    ghost greatest_in_range: { unsigned_abs greatest ≤ 2 ^ 20 },
}

/// The same along all three axes.
#[derive(Clone, Copy)]
pub(crate) struct Bounds {
    pub x: Reach,
    pub y: Reach,
    pub z: Reach,
}

/// The lesser of two coordinates.
fn lesser(a: i32, b: i32) -> i32
    requires first { unsigned_abs a ≤ 2 ^ 20 }
    requires second { unsigned_abs b ≤ 2 ^ 20 }
    ensures value { result ≡ int_min a b }
    ensures size { unsigned_abs result ≤ 2 ^ 20 }
{
    a.min(b)
}

/// The greater of two coordinates.
fn greater(a: i32, b: i32) -> i32
    requires first { unsigned_abs a ≤ 2 ^ 20 }
    requires second { unsigned_abs b ≤ 2 ^ 20 }
    ensures value { result ≡ int_max a b }
    ensures size { unsigned_abs result ≤ 2 ^ 20 }
{
    a.max(b)
}

/// How far two reach together.
pub(crate) fn united(f: &Reach, g: &Reach) -> Reach
    ensures least { result.least ≡ int_min f.now.least g.now.least }
    ensures greatest { result.greatest ≡ int_max f.now.greatest g.now.greatest }
{
    Reach {
        least: lesser(f.least, g.least),
        greatest: greater(f.greatest, g.greatest),
    }
}

/// From the greater of two least coordinates to the lesser of two greatest ones: what two have in common, if they have anything.
fn shared(f: &Reach, g: &Reach) -> Reach
    ensures least { result.least ≡ int_max f.now.least g.now.least }
    ensures greatest { result.greatest ≡ int_min f.now.greatest g.now.greatest }
{
    Reach {
        least: greater(f.least, g.least),
        greatest: lesser(f.greatest, g.greatest),
    }
}

/// The middle, rounded down.
fn half_way(r: &Reach) -> i32
    ensures value { result ≡ floor_of (r.now.least +ℤ r.now.greatest) (pos 2) }
    ensures size { unsigned_abs result ≤ 2 ^ 20 }
{
    (r.least + r.greatest).div_euclid(2)
}

/// The middle of what two have in common, rounded down.
pub(crate) fn middle(f: &Reach, g: &Reach) -> i32
    ensures value { result ≡ floor_of (int_max f.now.least g.now.least +ℤ int_min f.now.greatest g.now.greatest) (pos 2) }
    ensures size { unsigned_abs result ≤ 2 ^ 20 }
{
    half_way(&shared(f, g))
}
