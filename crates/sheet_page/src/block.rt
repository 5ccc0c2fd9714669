// The title block of a sheet.
ghost use Rattle.std.specs.Prelude.{◌≡◌, IfOk};
ghost use Rattle.std.specs.List.{All};
ghost use Rattle.sheet_plan.specs.Boxes.{Box};
ghost use Rattle.sheet_page.specs.BlockCells.{cells_of};
ghost use Rattle.sheet_page.specs.Blocks.{block_of};
ghost use Rattle.sheet_page.specs.Corners.{IsInCorner, KeepsToCells, EndsBefore, IsClearOf};
ghost use Rattle.sheet_page.specs.Rules.{corner_of};
ghost use Rattle.sheet_page.specs.inner.Spaces.{AreInCells};

use crate::block_cells::add_cells;
use crate::page::Item;
use crate::rules::{Corner, add_rules, rules_of};
use crate::symbol::add_symbol;
use exact_frac::OutOfMemory;
use job_file::Job;
use sheet_job::BlockTexts;
use sheet_plan::Sheet;
use std::alloc::Global;

/// All that is in the block.
fn items_of(
    alloc: Global,
    sheet: &Sheet,
    job: &Job,
    part: &str,
    texts: &BlockTexts,
) -> Result<Vec<Item>, OutOfMemory>
    ensures value { IfOk result (λ items. items.items ≡ block_of sheet.now job.now part.now texts.now) }
    ensures inside { IfOk result (λ _. AreInCells (corner_of sheet.now.width sheet.now.height) (cells_of sheet.now.scale job.now part.now texts.now)) }
{
    let corner = Corner::of(sheet);
    let mut items = Vec::new(alloc);
    add_rules(&mut items, &rules_of(&corner))?;
    add_cells(alloc, &mut items, &corner, sheet, job, part, texts)?;
    add_symbol(&mut items, &corner, job.third)?;
    Ok(items)
}

/// The title block of a job's sheet that shows the part of this name, with the fields of ISO 7200. It is in the sheet's corner, and clear
/// of each rectangle that ends to the left of that corner or above it. By the widths of Helvetica no text leaves its cell: a long one is
/// set smaller, down to 1.8 mm, and then cut. The time goes with the texts' length.
pub fn title_block(
    alloc: Global,
    sheet: &Sheet,
    job: &Job,
    part: &str,
    texts: &BlockTexts,
) -> Result<Vec<Item>, OutOfMemory>
    ensures value { IfOk result (λ items. items.items ≡ block_of sheet.now job.now part.now texts.now) }
    ensures corner { IfOk result (λ items. All (IsInCorner sheet.now.width sheet.now.height) items.items) }
    ensures cells { IfOk result (λ items. All (KeepsToCells (corner_of sheet.now.width sheet.now.height) (cells_of sheet.now.scale job.now part.now texts.now)) items.items) }
    ensures clear { (box : Box) → EndsBefore sheet.now.width sheet.now.height box → IfOk result (λ items. All (IsClearOf box) items.items) }
{
    items_of(alloc, sheet, job, part, texts)
}
