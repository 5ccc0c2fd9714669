// Places of a view.
ghost use Rattle.std.specs.Prelude.{◌≤◌, ◌^◌, pos, ◌<ℤ◌, unsigned_abs};

/// A place of a view: U is `across / den`, and V is `upward / den`.
#[derive(Clone, Copy)]
pub(crate) struct ViewPlace {
    pub across: i128,
    pub upward: i128,
    pub den: i128,
    ghost positive: { pos 0 <ℤ den },
    ghost den_in_range: { unsigned_abs den ≤ 2 ^ 44 },
    ghost across_in_range: { unsigned_abs across ≤ 2 ^ 86 },
    ghost upward_in_range: { unsigned_abs upward ≤ 2 ^ 86 },
}
