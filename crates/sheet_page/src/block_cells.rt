// What the cells of the title block say.
ghost use Rattle.std.specs.Prelude.{OnOk};
ghost use Rattle.sheet_page.specs.BlockCells.{left_cells, upper_cells, lower_cells, cells_of};
ghost use Rattle.sheet_page.specs.inner.Spaces.{AddsCells};

use crate::block_names::{part_name, scale_text, unit_name};
use crate::cells::{low_cell, tall_cell};
use crate::labels::add_cell;
use crate::page::Item;
use crate::rules::Corner;
use exact_frac::OutOfMemory;
use job_file::Job;
use sheet_job::BlockTexts;
use sheet_plan::Sheet;
use std::alloc::Global;

/// Adds whose drawing it is, and from which file.
fn add_left(
    alloc: Global,
    items: &mut Vec<Item>,
    corner: &Corner,
    texts: &BlockTexts,
    file: &str,
) -> Result<(), OutOfMemory>
    ensures { OnOk result (AddsCells corner.now.at items.old.items (left_cells texts.now file.now) items.new.items) }
{
    let cell = low_cell(0, 0, 6000, 400, 950);
    let text = texts.company.as_str();
    add_cell(alloc, items, corner, cell, "company", text)?;
    let cell = low_cell(0, 400, 6000, 360, 950);
    let text = texts.kind.as_str();
    add_cell(alloc, items, corner, cell, "type", text)?;
    let cell = low_cell(0, 760, 3700, 360, 950);
    let text = texts.author.as_str();
    add_cell(alloc, items, corner, cell, "author", text)?;
    let cell = low_cell(3700, 760, 2300, 360, 550);
    let text = texts.date.as_str();
    add_cell(alloc, items, corner, cell, "date", text)?;
    let cell = low_cell(0, 1120, 6000, 360, 950);
    let text = texts.approved.as_str();
    add_cell(alloc, items, corner, cell, "approved", text)?;
    let cell = low_cell(0, 1480, 6000, 360, 950);
    add_cell(alloc, items, corner, cell, "file", file)?;
    let cell = low_cell(0, 1840, 6000, 360, 950);
    let text = texts.note.as_str();
    add_cell(alloc, items, corner, cell, "note", text)?;
    Ok(())
}

/// Adds what is made, of what, and how exactly.
fn add_upper(
    alloc: Global,
    items: &mut Vec<Item>,
    corner: &Corner,
    texts: &BlockTexts,
    title: &str,
    scale: &str,
) -> Result<(), OutOfMemory>
    ensures { OnOk result (AddsCells corner.now.at items.old.items (upper_cells texts.now title.now scale.now) items.new.items) }
{
    let cell = tall_cell(6000, 0, 12_000, 760, 420);
    add_cell(alloc, items, corner, cell, "title", title)?;
    let cell = tall_cell(8200, 760, 4600, 720, 350);
    let text = texts.material.as_str();
    add_cell(alloc, items, corner, cell, "material", text)?;
    let cell = tall_cell(12_800, 760, 3400, 720, 350);
    let text = texts.tolerances.as_str();
    add_cell(alloc, items, corner, cell, "tolerances", text)?;
    let cell = tall_cell(16_200, 760, 1800, 720, 350);
    add_cell(alloc, items, corner, cell, "scale", scale)?;
    Ok(())
}

/// Adds what sheet this is.
fn add_lower(
    alloc: Global,
    items: &mut Vec<Item>,
    corner: &Corner,
    texts: &BlockTexts,
    unit: &str,
    size: &str,
) -> Result<(), OutOfMemory>
    ensures { OnOk result (AddsCells corner.now.at items.old.items (lower_cells texts.now unit.now size.now) items.new.items) }
{
    let cell = tall_cell(8200, 1480, 1600, 720, 350);
    add_cell(alloc, items, corner, cell, "unit", unit)?;
    let cell = tall_cell(9800, 1480, 1500, 720, 350);
    add_cell(alloc, items, corner, cell, "size", size)?;
    let cell = tall_cell(11_300, 1480, 1500, 720, 350);
    add_cell(alloc, items, corner, cell, "sheet", "1/1")?;
    let cell = tall_cell(12_800, 1480, 3400, 720, 350);
    let text = texts.number.as_str();
    add_cell(alloc, items, corner, cell, "number", text)?;
    let cell = tall_cell(16_200, 1480, 1800, 720, 350);
    let text = texts.revision.as_str();
    add_cell(alloc, items, corner, cell, "revision", text)?;
    Ok(())
}

/// Adds what all cells say.
pub(crate) fn add_cells(
    alloc: Global,
    items: &mut Vec<Item>,
    corner: &Corner,
    sheet: &Sheet,
    job: &Job,
    part: &str,
    texts: &BlockTexts,
) -> Result<(), OutOfMemory>
    ensures { OnOk result (AddsCells corner.now.at items.old.items (cells_of sheet.now.scale job.now part.now texts.now) items.new.items) }
{
    let name = part_name(alloc, part)?;
    let scale = scale_text(alloc, &sheet.scale)?;
    add_left(alloc, items, corner, texts, name.as_str())?;
    add_upper(
        alloc,
        items,
        corner,
        texts,
        job.title.as_str(),
        scale.as_str(),
    )?;
    add_lower(
        alloc,
        items,
        corner,
        texts,
        unit_name(job.unit),
        job.paper.name(),
    )?;
    Ok(())
}
