// The strokes of the hatch lines by which a sheet shows sections.
ghost use Rattle.std.specs.Prelude.{◌≡◌, ◌++◌, ◌<◌, List, length, All, IfOk, OnOk};
ghost use Rattle.std.specs.List.{AllZip};
ghost use Rattle.drawing.specs.Strokes.{IsHatchStrokeOn};
ghost use Rattle.sheet_plan.specs.declared.sheet.Stroke.{Stroke};
ghost use Rattle.section_look.specs.HatchStrokes.{AreHatchStrokes};

use crate::looks::SectionLook;
use drawing::Stroked;
use exact_frac::OutOfMemory;
use lattice::HatchLine;
use sheet_plan::{Sheet, Stroke};
use std::alloc::Global;

/// Adds the strokes of these hatch lines of the view with this number.
fn add_strokes(
    strokes: &mut Vec<Stroke>,
    sheet: &Sheet,
    view: u32,
    lines: &[HatchLine],
) -> Result<(), OutOfMemory>
    requires { view < length sheet.now.places.items }
    ensures { OnOk result ((here : List Stroke) × (strokes.new.items ≡ strokes.old.items ++ here) × AllZip (IsHatchStrokeOn sheet.now view) lines.now here) }
{
    for line in lines {
        strokes.push(line.stroke_on(sheet, view))?;
    }
    Ok(())
}

/// The strokes of the hatch lines of these looks, look by look. Goes once over them.
pub fn hatch_strokes(
    alloc: Global,
    sheet: &Sheet,
    looks: &[SectionLook],
) -> Result<Vec<Stroke>, OutOfMemory>
    requires { All (λ look. look.view < length sheet.now.places.items) looks.now }
    ensures strokes { IfOk result (λ strokes. AreHatchStrokes sheet.now looks.now strokes.items) }
    ensures in_range { IfOk result (λ strokes. All (λ s. s.view < length sheet.now.places.items) strokes.items) }
{
    let mut strokes = Vec::new(alloc);
    for look in looks {
        add_strokes(&mut strokes, sheet, look.view, &look.hatches)?;
    }
    Ok(strokes)
}
