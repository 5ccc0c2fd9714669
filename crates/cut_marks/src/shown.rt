// Where a view shows a corner.
ghost use Rattle.std.specs.Prelude.{◌<◌, ◌^◌, unsigned_abs, length};
ghost use Rattle.lattice.specs.Points.{point_of};
ghost use Rattle.sheet_plan.specs.declared.sheet.Spread.{Spread};
ghost use Rattle.sheet_plan.specs.Sheets.{IsPlaceOf, IsShownAt};

use lattice::{Corner, Spot};
use sheet_plan::Sheet;

/// Where a corner is shown.
#[derive(Clone, Copy)]
pub(crate) struct Shown {
    pub x: i64,
    pub y: i64,
    ghost x_in_range: { unsigned_abs x < 2 ^ 61 },
    ghost y_in_range: { unsigned_abs y < 2 ^ 61 },
}

/// Where the view with this number shows the corner.
pub(crate) fn shown_at(sheet: &Sheet, view: u32, corner: &Corner) -> Shown
    requires { view < length sheet.now.places.items }
    ensures { (place : Spread) → IsPlaceOf sheet.now view place → IsShownAt sheet.now place (point_of corner.now) result.x result.y }
{
    let (x, y) = sheet.point(view, &Spot::at(corner));
    Shown { x, y }
}
