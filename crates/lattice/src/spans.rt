// A part of an edge that is hidden, or that is visible.
ghost use Rattle.lattice.specs.Places.{IsPlace};

use exact_frac::Frac;

/// A part of an edge, between two shares of the way along it from 0 to 1, and whether it is hidden there. The
/// denominators are below 2^69.
#[derive(Clone, Copy, Debug)]
pub struct Span {
    pub from: Frac,
    pub to: Frac,
    pub hidden: bool,
    ghost from_place: { IsPlace from },
    ghost to_place: { IsPlace to },
}
