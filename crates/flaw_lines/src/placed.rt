// What is wrong with a job of version 3, and where.
ghost use Rattle.std.specs.Prelude.{◌≡◌, IfOk, string_bytes};
ghost use Rattle.flaw_lines.specs.FlawTexts.{wrong_in_text, job_flaw_text, flaw_text};

use crate::keys::wrong_value_text;
use crate::lines::line_flaw_text;
use crate::tables::table_flaw_text;
use crate::views::{at_range_text, in_view_text, placed_view_text};
use sheet_job::{JobFlaw, PlacedFlaw, SheetKey};
use std::alloc::{AllocError, Global};

/// A value that its key doesn't have, in which view it is.
fn wrong_in_text(
    alloc: Global,
    key: SheetKey,
    quoted: bool,
    view: Option<u32>,
) -> Result<String, AllocError>
    ensures { IfOk result (λ text. string_bytes text ≡ wrong_in_text key quoted view) }
{
    let (place, text) = (
        in_view_text(alloc, view)?,
        wrong_value_text(alloc, key, quoted)?,
    );
    format!(in alloc; "{place}{text}")
}

/// What is wrong.
fn job_flaw_text(alloc: Global, flaw: &JobFlaw) -> Result<String, AllocError>
    ensures { IfOk result (λ text. string_bytes text ≡ job_flaw_text flaw.now) }
{
    match flaw {
        JobFlaw::NotUtf8 => String::from_str(alloc, "not UTF-8: save the job as UTF-8"),
        JobFlaw::Line(flaw) => String::from_str(alloc, line_flaw_text(*flaw)),
        JobFlaw::Refused => String::from_str(alloc, "this key or table is there already"),
        JobFlaw::Table(flaw) => table_flaw_text(alloc, flaw),
        JobFlaw::Wrong(key, quoted, view) => wrong_in_text(alloc, *key, *quoted, *view),
        JobFlaw::View(flaw, number, name) => placed_view_text(alloc, *flaw, *number, *name),
        JobFlaw::AtRange(number) => at_range_text(alloc, *number),
    }
}

/// The place of what is wrong, line and column, and what is wrong and what is allowed there.
pub fn flaw_text(alloc: Global, flaw: &PlacedFlaw) -> Result<String, AllocError>
    ensures { IfOk result (λ text. string_bytes text ≡ flaw_text flaw.now) }
{
    let (line, column) = (flaw.place.line, flaw.place.column);
    let text = job_flaw_text(alloc, &flaw.flaw)?;
    format!(in alloc; "{line}:{column}: {text}")
}
