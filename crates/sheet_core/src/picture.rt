// The strokes of a picture: those of the drawing, with hatch lines as the sheet shows its sections; and what is filled of these.
ghost use Rattle.std.specs.Prelude.{◌≡◌, ◌<◌, ◌++◌, length, map, IfOk, OnOk};
ghost use Rattle.std.specs.List.{All, flat_map};
ghost use Rattle.sheet_page.specs.declared.page.Item.TheVariants as item;
ghost use Rattle.sheet_core.specs.Pages.{IsPicture, fills_of, unhatched};

use exact_frac::OutOfMemory;
use section_look::{SectionLook, hatch_strokes};
use sheet_page::{Fill, Item};
use sheet_plan::{Mark, Sheet, Stroke};
use std::alloc::Global;

/// The strokes that are no hatch lines.
fn unhatched(alloc: Global, strokes: &[Stroke]) -> Result<Vec<Stroke>, OutOfMemory>
    ensures { IfOk result (λ kept. kept.items ≡ unhatched strokes.now) }
{
    let mut kept = Vec::new(alloc);
    for stroke in strokes {
        if stroke.mark != Mark::Hatch {
            kept.push(*stroke)?;
        }
    }
    Ok(kept)
}

/// The strokes of the picture of a drawing with these strokes, on this sheet, which shows its sections so.
pub(crate) fn picture_of(
    alloc: Global,
    sheet: &Sheet,
    strokes: &[Stroke],
    sections: &[SectionLook],
) -> Result<Vec<Stroke>, OutOfMemory>
    requires placed { All (λ look. look.view < length sheet.now.places.items) sections.now }
    requires in_range { All (λ s. s.view < length sheet.now.places.items) strokes.now }
    ensures picture { IfOk result (λ picture. IsPicture sheet.now strokes.now sections.now picture.items) }
    ensures in_range { IfOk result (λ picture. All (λ s. s.view < length sheet.now.places.items) picture.items) }
{
    let mut picture = unhatched(alloc, strokes)?;
    let hatches = hatch_strokes(alloc, sheet, sections)?;
    picture.extend_from_slice(&hatches)?;
    Ok(picture)
}

/// Adds what is filled of one section.
fn add_section(items: &mut Vec<Item>, section: SectionLook) -> Result<(), OutOfMemory>
    ensures { OnOk result (items.new.items ≡ items.old.items ++ fills_of section) }
{
    let view = section.view;
    for fill in section.fills {
        items.push(Item::Fill(Fill {
            view,
            loops: fill.loops,
        }))?;
    }
    Ok(())
}

/// Adds what is filled of the sections.
pub(crate) fn add_fills(
    items: &mut Vec<Item>,
    sections: Vec<SectionLook>,
) -> Result<(), OutOfMemory>
    ensures { OnOk result (items.new.items ≡ items.old.items ++ flat_map fills_of sections.items) }
{
    for section in sections {
        add_section(items, section)?;
    }
    Ok(())
}
