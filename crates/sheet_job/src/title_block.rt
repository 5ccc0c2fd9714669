// The title block of a table.
ghost use Rattle.std.specs.Prelude.{◌≡◌, IfOk, map, option_map};
ghost use Rattle.job_tables.specs.Seen.{entry_seen, table_seen};
ghost use Rattle.sheet_job.specs.SheetJobs.{block_of, entries_in};
ghost use Rattle.sheet_job.specs.SheetSeen.{block_seen};

use crate::block::BlockTexts;
use crate::entries::text_at;
use exact_frac::OutOfMemory;
use job_tables::{JobTable, TableEntry};
use std::alloc::Global;

/// The texts of the entries of a title block.
fn texts_in(alloc: Global, entries: &[TableEntry]) -> Result<BlockTexts, OutOfMemory>
    ensures { IfOk result (λ b. block_seen b ≡ block_of (map entry_seen entries.now)) }
{
    Ok(BlockTexts {
        number: text_at(alloc, entries, "number")?,
        kind: text_at(alloc, entries, "type")?,
        material: text_at(alloc, entries, "material")?,
        author: text_at(alloc, entries, "author")?,
        approved: text_at(alloc, entries, "approved")?,
        date: text_at(alloc, entries, "date")?,
        revision: text_at(alloc, entries, "revision")?,
        company: text_at(alloc, entries, "company")?,
        tolerances: text_at(alloc, entries, "tolerances")?,
        note: text_at(alloc, entries, "note")?,
    })
}

/// The texts of a title block, if there is one.
pub(crate) fn block_texts(
    alloc: Global,
    block: &Option<JobTable>,
) -> Result<BlockTexts, OutOfMemory>
    ensures { IfOk result (λ b. block_seen b ≡ block_of (entries_in (option_map table_seen block.now))) }
{
    match block {
        Some(table) => texts_in(alloc, &table.entries),
        None => BlockTexts::none(alloc),
    }
}
