// Borders that cross an edge, as the walk along it finds them.
ghost use Rattle.std.specs.Prelude.{◌≤◌, unsigned_abs};
ghost use Rattle.geometry.specs.Places.{IsPlace};

use exact_frac::Frac;

/// For one count: whether the section begins or ends there, and what the border changes of how many faces are counted.
#[derive(Clone, Copy)]
pub(crate) struct Share {
    pub(crate) turns: bool,
    pub(crate) own: i8,
    ghost own_small: { unsigned_abs own ≤ 2 },
}

/// A border that crosses an edge within its part beyond the plane: where, and what it changes of either count.
#[derive(Clone, Copy)]
pub(crate) struct CrossingBorder {
    pub(crate) at: Frac,
    pub(crate) left: Share,
    pub(crate) right: Share,
    ghost at_place: { IsPlace at },
}

/// A yes or no for each of the two counts.
#[derive(Clone, Copy)]
pub(crate) struct Odds {
    pub(crate) left: bool,
    pub(crate) right: bool,
}
