// Where a surface is at fault.
ghost use Rattle.std.specs.Prelude.{◌≤◌};

use lattice::Corner;

/// A place in a part, in units of 10^-`decimals` mm, and whether more decimals may be tried.
#[derive(Clone, Copy, Debug)]
pub struct FaultPlace {
    pub corner: Corner,
    pub decimals: u8,
    /// The job names its number of decimals, and could name a greater one.
    pub more: bool,
    ghost few: { decimals ≤ 6 },
}
