// Where spots stand on a sheet, and the strokes of pieces and of hatch lines.
ghost use Rattle.std.specs.Prelude.{◌≡◌, ◌<◌, ◌≤◌, length};

use crate::numbers::Ruler;
use crate::sheet::{Mark, Sheet, Spread, Stroke};
use lattice::{HatchLine, Piece, Spot, across, upward};

impl Sheet {
    ghost use Rattle.lattice.specs.Points.{of_spot};
    ghost use Rattle.sheet_plan.specs.declared.sheet.Spread.{Spread};
    ghost use Rattle.sheet_plan.specs.Sheets.{IsPlaceOf, IsShownAt, IsStrokeBetween, IsStrokeAt, IsHatchStrokeAt, spacing_of};

    /// Where the spot stands on the sheet, in the view with this number: x and y, in hundredths of a millimetre, rounded to
    /// the nearest whole number, and halves up in the view's own directions.
    pub fn point(&self, view: u32, p: &Spot) -> (i64, i64)
        requires { view < length self.now.places.items }
        ensures { (place : Spread) → IsPlaceOf self.now view place → IsShownAt self.now place (of_spot p.now) result.0 result.1 }
    {
        self.shown(&self.places[view as usize], p)
    }

    /// The stroke of a piece, in the view with this number.
    pub fn stroke(&self, view: u32, piece: &Piece) -> Stroke
        requires { view < length self.now.places.items }
        ensures { (place : Spread) → IsPlaceOf self.now view place → IsStrokeAt self.now view place piece.now result }
    {
        let mark = Mark::of(piece.style);
        self.stroke_between(view, &self.places[view as usize], mark, &piece.a, &piece.b)
    }

    /// The stroke of a hatch line, in the view with this number.
    pub fn hatch_stroke(&self, view: u32, line: &HatchLine) -> Stroke
        requires { view < length self.now.places.items }
        ensures { (place : Spread) → IsPlaceOf self.now view place → IsHatchStrokeAt self.now view place line.now result }
    {
        self.stroke_between(
            view,
            &self.places[view as usize],
            Mark::Hatch,
            &line.a,
            &line.b,
        )
    }

    /// How far neighbouring hatch lines are apart in U, in units: 3 mm on the sheet, cut off to a whole number, and at least
    /// one.
    pub fn spacing(&self) -> u32
        ensures value { result ≡ spacing_of self.now.scale.num self.now.scale.den self.now.decimals }
        ensures some { 1 ≤ result }
    {
        let units = 3 * 10u64.pow(u32::from(self.decimals)) * u64::from(self.scale.den);
        (units / u64::from(self.scale.num)).max(1) as u32
    }

    /// Where the spot stands in a view at this place.
    fn shown(&self, place: &Spread, p: &Spot) -> (i64, i64)
        ensures { IsShownAt self.now place.now (of_spot p.now) result.0 result.1 }
    {
        let ruler = Ruler {
            scale: self.scale,
            decimals: self.decimals,
        };
        let right = ruler.across(&place.d, &across(&place.d, p));
        let up = ruler.upward(&place.d, &upward(&place.d, p));
        (place.x0 + right, place.y0 - up)
    }

    /// The stroke from one spot to the other, in a view at this place.
    fn stroke_between(&self, view: u32, place: &Spread, mark: Mark, a: &Spot, b: &Spot) -> Stroke
        ensures { IsStrokeBetween self.now view place.now mark a.now b.now result }
    {
        let (x1, y1) = self.shown(place, a);
        let (x2, y2) = self.shown(place, b);
        Stroke {
            view,
            mark,
            u1: across(&place.d, a).reduce(),
            v1: upward(&place.d, a).reduce(),
            u2: across(&place.d, b).reduce(),
            v2: upward(&place.d, b).reduce(),
            x1,
            y1,
            x2,
            y2,
        }
    }
}
