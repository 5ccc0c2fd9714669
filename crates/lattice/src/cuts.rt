// Planes of cut views.
ghost use Rattle.std.specs.Prelude.{◌≡◌, ◌≤◌, ◌^◌, ◌↔◌, unsigned_abs, IfOk};

use crate::points::{Axis, Dir};

/// Why no plane of a cut stands at a place.
#[derive(Clone, Copy, PartialEq, Eq, Debug)]
pub enum CutFault {
    /// The place is outside -1,048,576 to 1,048,576.
    CutRange,
}

/// A plane across an axis that takes away what stands before it, as the viewer sees it. It stands at `at - 1/2` units where
/// the viewer looks from the high side of the axis, and at `at + 1/2` from the low side. So it meets no corner. `at` is at
/// most 2^20 in size.
#[derive(Clone, Copy, Debug)]
pub struct Cut {
    axis: Axis,
    at: i64,
    from_high: bool,
    ghost in_range: { unsigned_abs at ≤ 2 ^ 20 },
}

impl Cut {
    ghost use Rattle.lattice.specs.Cuts.{plane_of, toward_of, IsPastRange};
    ghost use Rattle.lattice.specs.Points.{of_dir};

    /// The cut at this place of the axis. A place outside -1,048,576 to 1,048,576 is `CutRange`.
    pub fn new(axis: Axis, at: i64, from_high: bool) -> Result<Cut, CutFault>
        ensures plane { IfOk result (λ c. plane_of c ≡ record { axis = axis; at = at; from_high = from_high }) }
        ensures range { (result ≡ Err CutFault.CutRange) ↔ IsPastRange at }
    {
        if at.unsigned_abs() > 1_048_576 {
            return Err(CutFault::CutRange);
        }
        Ok(Cut {
            axis,
            at,
            from_high,
        })
    }

    /// The axis that the plane stands across.
    pub fn axis(&self) -> Axis
        ensures { result ≡ (plane_of self.now).axis }
    {
        self.axis
    }

    /// The place on the axis, in units; the plane stands half a unit from it.
    pub fn at(&self) -> i64
        ensures place { result ≡ (plane_of self.now).at }
        ensures size { unsigned_abs result ≤ 2 ^ 20 }
    {
        self.at
    }

    /// The viewer looks from the high side of the axis.
    pub fn from_high(&self) -> bool
        ensures { result ≡ (plane_of self.now).from_high }
    {
        self.from_high
    }

    /// The direction from the part to the viewer: along the axis from the high side, against it from the low side.
    pub fn dir(&self) -> Dir
        ensures { of_dir result ≡ toward_of (plane_of self.now) }
    {
        Dir::along(self.axis, self.from_high)
    }
}
