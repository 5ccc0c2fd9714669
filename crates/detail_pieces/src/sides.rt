// Half planes of a view.
ghost use Rattle.std.specs.Prelude.{◌≤◌, ◌^◌, unsigned_abs};

/// An axis of a view: U is measured across, V upward.
#[derive(Clone, Copy)]
pub(crate) enum ViewAxis {
    Across,
    Upward,
}

/// Whether a number is the least that is inside, or the most.
#[derive(Clone, Copy)]
pub(crate) enum Bound {
    Least,
    Most,
}

/// A half plane of a view with its border: where U, or V if the axis is `Upward`, is at least `at`, or at most `at`.
#[derive(Clone, Copy)]
pub(crate) struct Side {
    pub axis: ViewAxis,
    pub at: i64,
    pub bound: Bound,
    ghost in_range: { unsigned_abs at ≤ 2 ^ 40 },
}
