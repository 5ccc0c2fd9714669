// A range of coordinates.
ghost use Rattle.std.specs.Prelude.{◌≤ℤ◌};

/// The whole numbers from the least of some coordinates to the greatest, both included, in units.
#[derive(Clone, Copy, Debug)]
pub struct Range {
    pub from: i32,
    pub to: i32,
    ghost ordered: { from ≤ℤ to },
}
