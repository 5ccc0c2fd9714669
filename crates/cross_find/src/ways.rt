// Directions of the view.
ghost use Rattle.std.specs.Prelude.{◌<◌, ◌^◌, unsigned_abs};

/// A direction of the view.
#[derive(Clone, Copy)]
pub(crate) struct Way {
    pub(crate) u: i128,
    pub(crate) v: i128,
    ghost u_small: { unsigned_abs u < 2 ^ 30 },
    ghost v_small: { unsigned_abs v < 2 ^ 30 },
}
