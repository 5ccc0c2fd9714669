// The SVG of a drawing, written stroke by stroke: no list of strokes is made.
ghost use Rattle.std.specs.Prelude.{◌≡◌, ◌<◌, ◌≤◌, List, ◌++◌, length, IfOk, OnOk};
ghost use Rattle.std.specs.List.{AllZip, flat_map};
ghost use Rattle.sheet_plan.specs.declared.sheet.Stroke.{Stroke};
ghost use Rattle.svg_page.specs.Svg.{stroke_line, group_begin, group_end, svg_of};
ghost use Rattle.drawing.specs.Strokes.{AreStrokesOf, AreStrokes};

use dec_text::Name;
use drawing::{Stroked, ViewDrawing};
use exact_frac::OutOfMemory;
use sheet_plan::Sheet;
use std::alloc::Global;
use svg_page::{add_line, begin_group, begin_page, end_group, end_page};

/// Adds the lines of the strokes of these in the view with this number.
fn add_lines<S: Stroked>(
    alloc: Global,
    text: &mut Vec<u8>,
    sheet: &Sheet,
    number: u32,
    shown: &[S],
) -> Result<(), OutOfMemory>
    requires { number < length sheet.now.places.items }
    ensures { OnOk result ((here : List Stroke) × (text.new.items ≡ text.old.items ++ flat_map stroke_line here) ×
        AllZip (S.has_stroke_on sheet.now number) shown.now here) }
{
    for one in shown {
        add_line(alloc, text, &one.stroke_on(sheet, number))?;
    }
    Ok(())
}

/// Adds the group of the view with this number.
fn add_view_group(
    alloc: Global,
    text: &mut Vec<u8>,
    sheet: &Sheet,
    number: u32,
    view: &ViewDrawing,
) -> Result<(), OutOfMemory>
    requires { number < length sheet.now.places.items }
    ensures { OnOk result ((here : List Stroke) × (text.new.items ≡ text.old.items ++ (group_begin ++ flat_map stroke_line here ++ group_end)) ×
        AreStrokesOf sheet.now number view.now here) }
{
    begin_group(text)?;
    add_lines(alloc, text, sheet, number, &view.pieces)?;
    add_lines(alloc, text, sheet, number, &view.hatches)?;
    end_group(text)?;
    Ok(())
}

/// The SVG of a sheet with this title and the strokes of these views. Goes once over the pieces and the hatch lines.
pub(crate) fn page_text(
    alloc: Global,
    sheet: &Sheet,
    title: &Name,
    views: &[ViewDrawing],
) -> Result<Vec<u8>, OutOfMemory>
    requires placed { length views.now ≡ length sheet.now.places.items }
    requires few { length views.now ≤ 12 }
    ensures { IfOk result (λ text. (strokes : List Stroke) × AreStrokes sheet.now views.now strokes × (text.items ≡ svg_of sheet.now title.now strokes)) }
{
    let mut text = begin_page(alloc, sheet, title)?;
    for number in 0..views.len() {
        add_view_group(alloc, &mut text, sheet, number as u32, &views[number])?;
    }
    end_page(&mut text)?;
    Ok(text)
}
