// The boxes around sides.
ghost use Rattle.std.specs.Prelude.{◌≡◌};
ghost use Rattle.near_lines.specs.Scales.{extent_of, no_extent, widened};

use crate::sides::Side;

/// How far sides reach to the left, to the right, up and down, in hundredths of a millimetre.
#[derive(Clone, Copy)]
pub(crate) struct Extent {
    pub left: u32,
    pub right: u32,
    pub top: u32,
    pub bottom: u32,
}

/// That of no side.
fn no_extent() -> Extent
    ensures { result ≡ no_extent }
{
    Extent {
        left: 118_900,
        right: 0,
        top: 118_900,
        bottom: 0,
    }
}

/// That with one more side.
fn widened(e: Extent, s: &Side) -> Extent
    ensures { result ≡ widened e s.now }
{
    Extent {
        left: e.left.min(s.x1.min(s.x2)),
        right: e.right.max(s.x1.max(s.x2)),
        top: e.top.min(s.y1.min(s.y2)),
        bottom: e.bottom.max(s.y1.max(s.y2)),
    }
}

/// That of sides. It goes over them once.
pub(crate) fn extent_of(sides: &[Side]) -> Extent
    ensures { result ≡ extent_of sides.now }
{
    let mut extent = no_extent();
    for side in sides {
        extent = widened(extent, side);
    }
    extent
}
