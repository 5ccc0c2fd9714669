// The strokes of a sheet: view by view, one for each piece and then one for each hatch line.
ghost use Rattle.std.specs.Prelude.{◌≡◌, ℕ, ◌<◌, ◌≤◌, List, ◌++◌, length, IfOk, OnOk};
ghost use Rattle.std.specs.List.{All, AllZip};
ghost use Rattle.sheet_plan.specs.declared.sheet.Sheet.{Sheet};
ghost use Rattle.sheet_plan.specs.declared.sheet.Stroke.{Stroke};
ghost use Rattle.drawing.specs.Strokes.{IsStrokeOn, IsHatchStrokeOn, AreStrokesOf, AreStrokes};

use exact_frac::OutOfMemory;
use lattice::{HatchLine, Piece};
use sheet_plan::{Sheet, Stroke};
use std::alloc::Global;
use view_lines::ViewDrawing;

/// What a sheet shows by one stroke.
pub trait Stroked {
    /// The stroke shows this in the view with this number.
    ghost has_stroke_on: { Sheet → ℕ → Self → Stroke → Type 0 };

    /// The stroke that shows this in the view with this number.
    fn stroke_on(&self, sheet: &Sheet, number: u32) -> Stroke
        requires { number < length sheet.now.places.items }
        ensures { has_stroke_on sheet.now number self.now result };
}

impl Stroked for Piece {
    ghost has_stroke_on = { IsStrokeOn };

    fn stroke_on(&self, sheet: &Sheet, number: u32) -> Stroke {
        sheet.stroke(number, self)
    }
}

impl Stroked for HatchLine {
    ghost has_stroke_on = { IsHatchStrokeOn };

    fn stroke_on(&self, sheet: &Sheet, number: u32) -> Stroke {
        sheet.hatch_stroke(number, self)
    }
}

/// Adds the strokes of these in the view with this number.
fn add_strokes<S: Stroked>(
    strokes: &mut Vec<Stroke>,
    sheet: &Sheet,
    number: u32,
    shown: &[S],
) -> Result<(), OutOfMemory>
    requires { number < length sheet.now.places.items }
    ensures { OnOk result ((here : List Stroke) × (strokes.new.items ≡ strokes.old.items ++ here) ×
        AllZip (S.has_stroke_on sheet.now number) shown.now here) }
{
    for one in shown {
        strokes.push(one.stroke_on(sheet, number))?;
    }
    Ok(())
}

/// Adds the strokes of the view with this number: those of its pieces, and then those of its hatch lines.
fn add_view(
    strokes: &mut Vec<Stroke>,
    sheet: &Sheet,
    number: u32,
    view: &ViewDrawing,
) -> Result<(), OutOfMemory>
    requires { number < length sheet.now.places.items }
    ensures { OnOk result ((here : List Stroke) × (strokes.new.items ≡ strokes.old.items ++ here) × AreStrokesOf sheet.now number view.now here) }
{
    add_strokes(strokes, sheet, number, &view.pieces)?;
    add_strokes(strokes, sheet, number, &view.hatches)?;
    Ok(())
}

/// The strokes of a drawing's views on its sheet: view by view, one for each piece and then one for each hatch line. Goes once over
/// the pieces and the hatch lines.
pub fn strokes_of(
    alloc: Global,
    sheet: &Sheet,
    views: &[ViewDrawing],
) -> Result<Vec<Stroke>, OutOfMemory>
    requires placed { length views.now ≤ length sheet.now.places.items }
    requires few { length views.now ≤ 12 }
    ensures strokes { IfOk result (λ strokes. AreStrokes sheet.now views.now strokes.items) }
    ensures in_range { IfOk result (λ strokes. All (λ s. s.view < length sheet.now.places.items) strokes.items) }
{
    let mut strokes = Vec::new(alloc);
    for number in 0..views.len() {
        add_view(&mut strokes, sheet, number as u32, &views[number])?;
    }
    Ok(strokes)
}
