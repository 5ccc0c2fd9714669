// A corner as it lies to the plane of a cut and to the line of an edge.
ghost use Rattle.std.specs.Prelude.{◌<◌, ◌^◌, ◌↔◌, pos, ◌<ℤ◌, unsigned_abs, IsTrue};

/// A corner's height above the plane, doubled, and where it is seen to the line of an edge: positive to its left.
#[derive(Clone, Copy)]
pub(crate) struct Placed {
    pub(crate) over: i64,
    pub(crate) turn: i128,
    ghost over_small: { unsigned_abs over < 2 ^ 23 },
    ghost turn_small: { unsigned_abs turn < 2 ^ 48 },
}

impl Placed {
    /// The corner is beyond the plane.
    pub(crate) fn is_beyond(&self) -> bool
        ensures { IsTrue result ↔ (self.now.over <ℤ pos 0) }
    {
        self.over < 0
    }
}
