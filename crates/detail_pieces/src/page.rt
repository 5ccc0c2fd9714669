// The text of a detail's page.
ghost use Rattle.std.specs.Prelude.{◌≡◌, ◌≤◌, [], ◌∷◌, IfOk};
ghost use Rattle.std.specs.List.{AllZip};
ghost use Rattle.sheet_plan.specs.declared.sheet.Spread.{Spread};
ghost use Rattle.sheet_plan.specs.Sheets.{IsStrokeAt};
ghost use Rattle.detail_pieces.specs.Pages.{IsDetailText};

use crate::sheet::sheet_of;
use crate::windows::Window;
use dec_text::Name;
use exact_frac::OutOfMemory;
use job_file::Scale;
use lattice::{Dir, Piece};
use sheet_plan::{Sheet, Stroke};
use std::alloc::Global;
use svg_page::svg;

/// The strokes of the pieces of a sheet's only view, in their order.
fn strokes_of(alloc: Global, sheet: &Sheet, pieces: &[Piece]) -> Result<Vec<Stroke>, OutOfMemory>
    requires { (place : Spread) × (sheet.now.places.items ≡ place ∷ []) }
    ensures { (place : Spread) → sheet.now.places.items ≡ place ∷ [] → IfOk result (λ strokes. AllZip (IsStrokeAt sheet.now 0 place) pieces.now strokes.items) }
{
    let mut strokes = Vec::new(alloc);
    for piece in pieces {
        strokes.push(sheet.stroke(0, piece))?;
    }
    Ok(strokes)
}

/// The page of a detail as SVG: the pieces of the window of a view from `d`, at this scale, with units of 10^-`decimals` mm. It has no
/// title, and is as large as the window with 20 mm around it, up to whole millimetres.
pub fn detail_text(
    alloc: Global,
    decimals: u8,
    scale: Scale,
    d: &Dir,
    window: &Window,
    pieces: &[Piece],
) -> Result<Vec<u8>, OutOfMemory>
    requires { decimals ≤ 6 }
    ensures { IfOk result (λ text. IsDetailText decimals scale d.now window.now pieces.now text.items) }
{
    let sheet = sheet_of(alloc, decimals, scale, d, window)?;
    let strokes = strokes_of(alloc, &sheet, pieces)?;
    let title = Name::new(alloc, "")?;
    svg(alloc, &sheet, &title, &strokes)
}
