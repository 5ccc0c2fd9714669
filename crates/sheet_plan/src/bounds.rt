// The bounds of a solid in a view.
ghost use Rattle.std.specs.Prelude.{◌<◌, ◌^◌, ◌≤ℤ◌, unsigned_abs};

use lattice::Dir;

/// The least and the greatest U and V of a solid's corners, in units, as they are seen from `d`. All four are below 2^29 in size.
#[derive(Clone, Copy, Debug)]
pub struct Extent {
    pub d: Dir,
    pub u_min: i64,
    pub u_max: i64,
    pub v_min: i64,
    pub v_max: i64,
    ghost across: { u_min ≤ℤ u_max },
    ghost upward: { v_min ≤ℤ v_max },
    ghost u_min_in_range: { unsigned_abs u_min < 2 ^ 29 },
    ghost u_max_in_range: { unsigned_abs u_max < 2 ^ 29 },
    ghost v_min_in_range: { unsigned_abs v_min < 2 ^ 29 },
    ghost v_max_in_range: { unsigned_abs v_max < 2 ^ 29 },
}
