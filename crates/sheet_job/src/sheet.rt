// The job that tables and texts of version 3 are.
ghost use Rattle.std.specs.Prelude.{◌≡◌, ◌<◌, ◌≤◌, ◌^◌, ◌-◌, IfOk, All, length, map, option_map};
ghost use Rattle.std.specs.List.{AllPairs};
ghost use Rattle.job_file.specs.Views.{AreNamedApart};
ghost use Rattle.job_tables.specs.Seen.{entry_seen, table_seen, tables_seen};
ghost use Rattle.sheet_job.specs.SheetFaults.{SaysSheet};
ghost use Rattle.sheet_job.specs.SheetJobs.{block_of, entries_in, values_with, sheet_job_of, sheet_job_of_text};
ghost use Rattle.sheet_job.specs.SheetSeen.{sheet_job_seen, sheet_view_seen, IsPlacedIn};
ghost use Rattle.sheet_job.specs.inner.Stops.{stop_of_lines, stop_of_tables};

use crate::flaw::{JobFlaw, SheetStop};
use crate::job::SheetJob;
use crate::settings::{
    any_paper, crease, decimals, hidden, paper, portrait, scale, third, title, unit,
};
use crate::title_block::block_texts;
use crate::view::SheetView;
use crate::views::views_of;
use crate::wrong::wrong_in;
use exact_frac::OutOfMemory;
use job_tables::{JobTable, JobTables, TableEntry, TableStop, job_tables};
use job_text::{Stop, text_lines};
use std::alloc::Global;

/// The job of some entries, with a title block and views.
fn job_with(
    alloc: Global,
    entries: &[TableEntry],
    block: &Option<JobTable>,
    views: Vec<SheetView>,
) -> Result<SheetJob, OutOfMemory>
    requires some { 1 ≤ length views.items }
    requires few { length views.items ≤ 12 }
    requires apart { AllPairs (λ v w. AreNamedApart v.named w.named) views.items }
    ensures value { IfOk result (λ job. sheet_job_seen job ≡ values_with (map entry_seen entries.now) (block_of (entries_in (option_map table_seen block.now))) (map sheet_view_seen views.items)) }
    ensures views { IfOk result (λ job. job.views.items ≡ views.items) }
{
    Ok(SheetJob {
        decimals: decimals(entries),
        third: third(entries),
        paper: paper(entries),
        any_paper: any_paper(entries),
        scale: scale(entries),
        crease: crease(entries),
        title: title(alloc, entries)?,
        unit: unit(entries),
        portrait: portrait(entries),
        hidden: hidden(entries),
        block: block_texts(alloc, block)?,
        views,
    })
}

/// The job of tables in a text, or its first wrong value, or the first fault of its views.
fn sheet_job_of(alloc: Global, text: &str, tables: &JobTables) -> Result<SheetJob, SheetStop>
    requires { length text.now < 2 ^ 31 }
    ensures value { SaysSheet sheet_job_seen result (sheet_job_of (tables_seen tables.now)) }
    ensures placed { IfOk result (λ job. All (IsPlacedIn text.now) job.views.items) }
{
    if let Some(wrong) = wrong_in(tables) {
        let flaw = JobFlaw::Wrong(wrong.key, wrong.quoted, wrong.view);
        return Err(SheetStop::At(flaw, wrong.at));
    }
    let views = match views_of(alloc, text, &tables.views) {
        Ok(views) => views,
        Err(stop) => return Err(stop),
    };
    match job_with(alloc, &tables.job.entries, &tables.block, views) {
        Ok(job) => Ok(job),
        Err(error) => Err(SheetStop::Memory(error)),
    }
}

/// The flaw of a text's lines.
pub(crate) fn stop_of_lines(text: &str, stop: Stop) -> SheetStop
    ensures { result ≡ stop_of_lines text.now stop }
{
    match stop {
        Stop::At(flaw, left) => {
            SheetStop::At(JobFlaw::Line(flaw), text.len().saturating_sub(left))
        }
        Stop::Memory(error) => SheetStop::Memory(error),
    }
}

/// The flaw of the lines' tables.
fn stop_of_tables(stop: TableStop) -> SheetStop
    ensures { result ≡ stop_of_tables stop }
{
    match stop {
        TableStop::At(flaw, at) => SheetStop::At(JobFlaw::Table(flaw), at),
        TableStop::Memory(error) => SheetStop::Memory(error),
    }
}

/// The job of a text of version 3, or its first fault.
pub(crate) fn sheet_job_of_text(alloc: Global, text: &str) -> Result<SheetJob, SheetStop>
    requires { length text.now < 2 ^ 31 }
    ensures value { SaysSheet sheet_job_seen result (sheet_job_of_text text.now) }
    ensures placed { IfOk result (λ job. All (IsPlacedIn text.now) job.views.items) }
{
    let lines = match text_lines(alloc, text) {
        Ok(lines) => lines,
        Err(stop) => return Err(stop_of_lines(text, stop)),
    };
    match job_tables(alloc, lines) {
        Ok(tables) => sheet_job_of(alloc, text, &tables),
        Err(stop) => Err(stop_of_tables(stop)),
    }
}
