// The tables of a job's lines.
ghost use Rattle.std.specs.Prelude.{◌≡◌, map};
ghost use Rattle.job_text.specs.Seen.{line_seen};
ghost use Rattle.job_tables.specs.Faults.{tables_or_fault, job_tables};
ghost use Rattle.job_tables.specs.Seen.{tables_seen, SaysTables};
ghost use Rattle.job_tables.specs.inner.Headed.{lines_seen};

use crate::faults::{check_keys, check_table};
use crate::flaw::TableStop;
use crate::headers::{Header, LinesByHeader, by_header};
use crate::table::{JobTable, JobTables, TableKind};
use exact_frac::OutOfMemory;
use job_text::TextLine;
use std::alloc::Global;

/// The tables of lines at their headers, or the first fault.
fn gathered(alloc: Global, lines: LinesByHeader) -> Result<JobTables, TableStop>
    ensures { SaysTables tables_seen result (tables_or_fault (lines_seen lines)) }
{
    let job = JobTable {
        at: 0,
        entries: lines.first,
    };
    check_keys(alloc, TableKind::Job, None, &job)?;
    let mut block = None;
    let mut views = Vec::new(alloc);
    for headed in lines.tables {
        match check_table(alloc, block.is_some(), views.len(), &headed) {
            Ok(()) => {}
            Err(stop) => return Err(stop),
        }
        match headed.header {
            Header::Single(_) => block = Some(headed.table),
            Header::Double(_) => views.push(headed.table)?,
        }
    }
    Ok(JobTables { job, block, views })
}

/// The tables of a job's lines, or the first header or key that is wrong. Time grows with the lines.
///
/// A second `[block]`, which TOML refuses in the text, is a flaw of its own here.
pub fn job_tables(alloc: Global, lines: Vec<TextLine>) -> Result<JobTables, TableStop>
    ensures { SaysTables tables_seen result (job_tables (map line_seen lines.items)) }
{
    gathered(alloc, by_header(alloc, lines)?)
}
