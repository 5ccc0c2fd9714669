// A value that is linear along an edge.
ghost use Rattle.std.specs.Prelude.{◌<◌, ◌^◌, unsigned_abs};

/// A value that is linear along an edge: `start` at its first corner, `end` at its second.
#[derive(Clone, Copy)]
pub(crate) struct Linear {
    pub start: i128,
    pub end: i128,
    ghost start_small: { unsigned_abs start < 2 ^ 68 },
    ghost end_small: { unsigned_abs end < 2 ^ 68 },
}
