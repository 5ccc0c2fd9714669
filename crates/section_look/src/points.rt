// Points of the sheet.
ghost use Rattle.std.specs.Prelude.{◌+◌, ◌*◌, ◌<◌, ◌≤◌, ◌↔◌, pos, ◌+ℤ◌, ◌-ℤ◌, ◌≤ℤ◌, length, IsTrue};
ghost use Rattle.lattice.specs.Points.{of_spot};
ghost use Rattle.sheet_plan.specs.Sheets.{IsPlaceOf, IsShownAt};
ghost use Rattle.sheet_plan.specs.declared.sheet.Spread.{Spread};
ghost use Rattle.section_look.specs.Thin.{squared};

use lattice::Spot;
use sheet_plan::Sheet;
use stroke_paths::Point;

/// Where the view with this number shows the spot.
pub(crate) fn shown(sheet: &Sheet, view: u32, p: &Spot) -> Point
    requires { view < length sheet.now.places.items }
    ensures { (place : Spread) → IsPlaceOf sheet.now view place → IsShownAt sheet.now place (of_spot p.now) result.x result.y }
{
    let (x, y) = sheet.point(view, p);
    Point { x, y }
}

/// The points are at most 2.15 mm apart.
pub(crate) fn are_near(a: &Point, b: &Point) -> bool
    ensures { IsTrue result ↔ ((squared (b.now.x -ℤ a.now.x) +ℤ squared (b.now.y -ℤ a.now.y)) ≤ℤ squared (pos 215)) }
{
    let across = b.x.abs_diff(a.x);
    let down = b.y.abs_diff(a.y);
    if across > 215 || down > 215 {
        return false;
    }
    is_within(across, down)
}

/// Steps of so much across and down lead at most 2.15 mm away.
fn is_within(across: u64, down: u64) -> bool
    requires across { across ≤ 215 }
    requires down { down ≤ 215 }
    ensures { IsTrue result ↔ (across * across + down * down ≤ 46225) }
{
    across * across + down * down <= 46_225
}
