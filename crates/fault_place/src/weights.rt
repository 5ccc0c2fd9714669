// Numbers that are linear along an edge, and places of the edge.
ghost use Rattle.std.specs.Prelude.{◌+◌, ◌<◌, ◌^◌, unsigned_abs};

/// What a number that is linear along an edge is at the edge's first corner and at its second.
#[derive(Clone, Copy)]
pub(crate) struct Along {
    pub start: i128,
    pub end: i128,
    ghost start_small: { unsigned_abs start < 2 ^ 88 },
    ghost end_small: { unsigned_abs end < 2 ^ 88 },
}

/// A place of an edge: the weights of its two corners, which aren't both 0.
#[derive(Clone, Copy)]
pub(crate) struct Weights {
    pub first: u128,
    pub second: u128,
    ghost first_small: { first < 2 ^ 88 },
    ghost second_small: { second < 2 ^ 88 },
    ghost some: { 0 < first + second },
}
