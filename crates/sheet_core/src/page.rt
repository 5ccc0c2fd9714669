// The page of a drawing.
ghost use Rattle.std.specs.Prelude.{◌≡◌, ◌++◌, map, IfOk, OnOk};
ghost use Rattle.std.specs.List.{All};
ghost use Rattle.cut_marks.specs.Items.{AreHeadedWell};
ghost use Rattle.sheet_page.specs.Pages.{IsInView};
ghost use Rattle.sheet_page.specs.Blocks.{block_of};
ghost use Rattle.sheet_page.specs.Corners.{IsInCorner};
ghost use Rattle.sheet_page.specs.declared.page.Item.TheVariants as item;
ghost use Rattle.sheet_input.specs.Laid.{IsLaidDrawing};
ghost use Rattle.sheet_core.specs.Pages.{frame_of, items_of, IsPageOf, IsPageWith};

use crate::picture::{add_fills, picture_of};
use cut_marks::{ViewMarks, mark_items, marks, sides_for};
use dec_text::Name;
use drawing::{Drawing, strokes_of};
use exact_frac::OutOfMemory;
use length_text::LengthForm;
use section_look::{SectionLook, looks_of};
use sheet_input::{SheetInput, SheetLook};
use sheet_lines::lines_of;
use sheet_page::{Frame, Item, Page, title_block};
use sheet_plan::{Sheet, Stroke};
use std::alloc::Global;
use stroke_paths::{Path, paths};

/// Adds the paths that are drawn.
fn add_paths(items: &mut Vec<Item>, paths: Vec<Path>) -> Result<(), OutOfMemory>
    ensures { OnOk result (items.new.items ≡ items.old.items ++ map item.Path paths.items) }
{
    for path in paths {
        items.push(Item::Path(path))?;
    }
    Ok(())
}

/// The frame of a sheet.
fn frame_of(sheet: &Sheet) -> Item
    ensures { result ≡ frame_of sheet.now.width sheet.now.height }
{
    Item::Frame(Frame {
        x: 1000,
        y: 1000,
        width: sheet.width - 2000,
        height: sheet.height - 2000,
    })
}

/// Adds items behind others.
fn add_items(items: &mut Vec<Item>, more: Vec<Item>) -> Result<(), OutOfMemory>
    ensures { OnOk result (items.new.items ≡ items.old.items ++ more.items) }
{
    for item in more {
        items.push(item)?;
    }
    Ok(())
}

/// What stands on the page of a drawing of this part, with these sections, these paths and what tells its cuts.
fn items_of(
    alloc: Global,
    look: &SheetLook,
    part: &str,
    drawing: &Drawing,
    sections: Vec<SectionLook>,
    paths: Vec<Path>,
    marks: &[ViewMarks],
) -> Result<Vec<Item>, OutOfMemory>
    ensures items { IfOk result (λ items. items.items ≡ items_of look.now part.now drawing.now sections.items paths.items marks.now) }
    ensures headed { IfOk result (λ _. AreHeadedWell drawing.now.job.decimals drawing.now.job.unit marks.now look.now.titles.items) }
    ensures in_corner { IfOk result (λ _. All (IsInCorner drawing.now.sheet.width drawing.now.sheet.height) (block_of drawing.now.sheet drawing.now.job part.now look.now.block)) }
{
    let mut items = Vec::new(alloc);
    items.push(frame_of(&drawing.sheet))?;
    let block = title_block(alloc, &drawing.sheet, &drawing.job, part, &look.block)?;
    add_items(&mut items, block)?;
    add_fills(&mut items, sections)?;
    add_paths(&mut items, paths)?;
    let form = LengthForm {
        decimals: drawing.job.decimals,
        unit: drawing.job.unit,
    };
    add_items(&mut items, mark_items(alloc, marks, &look.titles, form)?)?;
    Ok(items)
}

/// The page of a drawing, all strokes there and which of them are drawn, how many hidden paths are covered, and what tells the cuts.
#[derive(Drop)]
pub(crate) struct Shown {
    pub(crate) page: Page,
    pub(crate) strokes: Vec<Stroke>,
    pub(crate) drawn: Vec<bool>,
    pub(crate) covered: u64,
    pub(crate) marks: Vec<ViewMarks>,
}

/// The same as `page_of`, with what it was made of.
pub(crate) fn show(alloc: Global, part: &str, input: &SheetInput) -> Result<Shown, OutOfMemory>
    requires { IsLaidDrawing input.now.drawing input.now.wish input.now.shrunk }
    ensures shows { IfOk result (λ shown. IsPageWith input.now.look part.now input.now.drawing input.now.shrunk shown.page shown.strokes.items shown.marks.items shown.drawn.items shown.covered) }
    ensures in_views { IfOk result (λ shown. All (IsInView shown.page.views) shown.page.items.items) }
{
    let drawing = &input.drawing;
    let sheet = &drawing.sheet;
    let strokes = strokes_of(alloc, sheet, &drawing.views)?;
    let sections = looks_of(alloc, &drawing.solid, sheet, &drawing.job.views)?;
    let picture = picture_of(alloc, sheet, &strokes, &sections)?;
    let all = paths(alloc, &picture)?;
    let lines = lines_of(alloc, &input.look.hidden, &strokes, all)?;
    let sides = sides_for(alloc, &drawing.job)?;
    let marks = marks(
        alloc,
        &drawing.solid,
        sheet,
        &sides,
        input.shrunk,
        &drawing.job.views,
    )?;
    let items = items_of(
        alloc,
        &input.look,
        part,
        drawing,
        sections,
        lines.paths,
        &marks,
    )?;
    let page = Page {
        width: drawing.sheet.width,
        height: drawing.sheet.height,
        title: Name::new(alloc, drawing.job.title.as_str())?,
        views: drawing.sheet.places.len(),
        items,
    };
    Ok(Shown {
        page,
        strokes,
        drawn: lines.strokes,
        covered: lines.covered,
        marks,
    })
}

/// The page of a drawing of the part with this name: the sheet's frame and its title block, what is filled of its sections, the paths of
/// its strokes, but for hidden lines where they aren't asked for or are covered, and the marks and headings of its cuts. Hatch lines are as
/// close as the sections need. The sheet is that of a layout, whose sides are shrunk or not.
///
/// The time goes with the number of strokes, and for each view and cut a few passes are made over the corners. That of a section is told
/// at `looks_of`, and what it takes to find the covered paths at `drawn_paths`.
pub fn page_of(alloc: Global, part: &str, input: &SheetInput) -> Result<Page, OutOfMemory>
    requires { IsLaidDrawing input.now.drawing input.now.wish input.now.shrunk }
    ensures page { IfOk result (IsPageOf input.now.look part.now input.now.drawing input.now.shrunk) }
    ensures in_views { IfOk result (λ page. All (IsInView page.views) page.items.items) }
{
    let shown = show(alloc, part, input)?;
    Ok(shown.page)
}
