// Points beside the box where spots are, and the way into it.
ghost use Rattle.std.specs.Prelude.{◌≤◌, unsigned_abs};

/// A point in homogeneous coordinates, perhaps farther out than a spot.
#[derive(Clone, Copy)]
pub(crate) struct Reach {
    pub x: i128,
    pub y: i128,
    pub z: i128,
    pub w: i128,
}

/// The components of a direction, perhaps turned.
#[derive(Clone, Copy)]
pub(crate) struct Heading {
    pub x: i64,
    pub y: i64,
    pub z: i64,
    ghost x_in_range: { unsigned_abs x ≤ 9 },
    ghost y_in_range: { unsigned_abs y ≤ 9 },
    ghost z_in_range: { unsigned_abs z ≤ 9 },
}

/// By how much a point goes along a direction, after its coordinates are taken times `scale`.
#[derive(Clone, Copy)]
pub(crate) struct Push {
    pub scale: i64,
    pub by: i128,
}
