// A line of a sheet.
ghost use Rattle.std.specs.Prelude.{◌≡◌};
ghost use Rattle.covered_paths.specs.Places.{place_of};
ghost use Rattle.covered_paths.specs.inner.Boxes.{extent_of};

use crate::extent::Extent;
use crate::legs::Leg;

/// A path of a sheet that may be left out, if it is hidden, or may cover others: its number, its legs with the box around them, and its
/// place in the order of lines.
#[derive(Drop)]
pub(crate) struct Line {
    pub number: usize,
    pub view: u32,
    pub hidden: bool,
    pub place: u128,
    pub extent: Extent,
    pub legs: Vec<Leg>,
    ghost placed: { place ≡ place_of number hidden legs.items },
    ghost around: { extent ≡ extent_of legs.items },
}
