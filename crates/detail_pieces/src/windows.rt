// A window of a view.
ghost use Rattle.std.specs.Prelude.{◌≤◌, ◌^◌, ◌<ℤ◌, unsigned_abs};

/// An upright rectangle of a view, its sides included: U from `u1` to `u2` and V from `v1` to `v2`, products with the
/// right and the up axis of the view, as in a piece list. It has an inside, and no number is above 2^40 in size.
#[derive(Clone, Copy, Debug)]
pub struct Window {
    pub u1: i64,
    pub v1: i64,
    pub u2: i64,
    pub v2: i64,
    ghost wide: { u1 <ℤ u2 },
    ghost tall: { v1 <ℤ v2 },
    ghost u1_in_range: { unsigned_abs u1 ≤ 2 ^ 40 },
    ghost v1_in_range: { unsigned_abs v1 ≤ 2 ^ 40 },
    ghost u2_in_range: { unsigned_abs u2 ≤ 2 ^ 40 },
    ghost v2_in_range: { unsigned_abs v2 ≤ 2 ^ 40 },
}
