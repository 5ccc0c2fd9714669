// The boxes of views on the sheet.
ghost use Rattle.std.specs.Prelude.{◌≡◌, ◌<◌, ◌^◌, unsigned_abs, length};
ghost use Rattle.solid_mesh.specs.Solids.{solid_part};

use crate::bounds::Extent;
use crate::extents::extent;
use crate::numbers::Ruler;
use crate::shapes::{across_at, upward_at};
use crate::sheet::{Sheet, Spread};
use solid_mesh::Solid;

/// What a view takes on the sheet, in hundredths of a millimetre. All four are below 2^61 in size.
#[derive(Clone, Copy, Debug)]
pub struct ViewBox {
    pub left: i64,
    pub top: i64,
    pub right: i64,
    pub bottom: i64,
    ghost left_in_range: { unsigned_abs left < 2 ^ 61 },
    ghost top_in_range: { unsigned_abs top < 2 ^ 61 },
    ghost right_in_range: { unsigned_abs right < 2 ^ 61 },
    ghost bottom_in_range: { unsigned_abs bottom < 2 ^ 61 },
}

impl ViewBox {
    ghost use Rattle.sheet_plan.specs.Boxes.{box_of, box_at, TakesBox};
    ghost use Rattle.sheet_plan.specs.Numbers.{measure_of};

    /// The box of the view with this number, which shows the whole solid. Goes twice over the corners.
    pub fn of(solid: &Solid, sheet: &Sheet, view: u32) -> ViewBox
        requires { view < length sheet.now.places.items }
        ensures { TakesBox sheet.now (solid_part solid.now).corners view (box_of result) }
    {
        let ruler = Ruler {
            scale: sheet.scale,
            decimals: sheet.decimals,
        };
        let place = &sheet.places[view as usize];
        ViewBox::at(&ruler, place, &extent(solid, &place.d))
    }

    /// The box of a view at this place that reaches so far.
    fn at(ruler: &Ruler, place: &Spread, reach: &Extent) -> ViewBox
        ensures { box_of result ≡ box_at (measure_of ruler.now.scale ruler.now.decimals) place.now reach.now }
    {
        ViewBox {
            left: place.x0 + across_at(ruler, &place.d, reach.u_min),
            top: place.y0 - upward_at(ruler, &place.d, reach.v_max),
            right: place.x0 + across_at(ruler, &place.d, reach.u_max),
            bottom: place.y0 - upward_at(ruler, &place.d, reach.v_min),
        }
    }
}
