// Jobs of bytes.
ghost use Rattle.std.specs.Prelude.{◌≡◌, [], Ok, IfOk};
ghost use Rattle.toml.specs.View.{table_view};
ghost use Rattle.job_file.specs.Documents.{job_of, job_of_bytes};
ghost use Rattle.job_file.specs.Seen.{job_seen};
ghost use Rattle.job_file.specs.Steps.{GivesJob};

use crate::fault::{JobError, JobFault};
use crate::job::Job;
use crate::settings::{angle, crease, decimals, paper, portrait, scale, unit, version};
use crate::table::unknown_key;
use crate::texts::{outputs, title};
use crate::views::views;
use dec_text::Name;
use exact_frac::OutOfMemory;
use std::alloc::Global;
use toml::Table;

/// The job of a table.
#[tactic(auto, unfolding(crate::specs::Documents::job_of))]
fn job_of(alloc: Global, table: &Table) -> Result<Job, JobError>
    ensures { GivesJob job_seen result (job_of (table_view table.now)) }
{
    let kind = version(table)?;
    if let Some(key) = unknown_key(kind, table) {
        return Err(JobError::Job(JobFault::UnknownKey(Name::new(alloc, key)?)));
    }
    Ok(Job {
        decimals: decimals(table)?,
        third: angle(table)?,
        paper: paper(table)?,
        scale: scale(table)?,
        crease: crease(table)?,
        title: title(alloc, table)?,
        outputs: outputs(alloc, table)?,
        unit: unit(table)?,
        portrait: portrait(table)?,
        views: views(alloc, table)?,
    })
}

impl Job {
    /// The job of a text of TOML, or its first fault: the bytes are no such text, then the version, then the least key that
    /// no job of this version has, then the keys in the order of `Key`, and last the views one by one. The time is that of reading the
    /// text as TOML; the rest is linear in its length.
    pub fn read(alloc: Global, bytes: &[u8]) -> Result<Job, JobError>
        ensures { GivesJob job_seen result (job_of_bytes bytes.now) }
    {
        match toml::table_from_slice(alloc, bytes) {
            Ok(table) => job_of(alloc, &table),
            Err(error) if error.is_memory() => Err(JobError::Memory(OutOfMemory)),
            Err(_) => Err(JobError::Job(JobFault::NotToml)),
        }
    }

    /// The job of the empty text: 3 decimals, first-angle projection, A3, the greatest scale up to 1:1 that fits, the normal
    /// crease, no title, no outputs, millimetres, a lying sheet, and views from the front, from above and from the left.
    pub fn usual(alloc: Global) -> Result<Job, OutOfMemory>
        ensures { IfOk result (λ job. job_of_bytes [] ≡ Ok (job_seen job)) }
    {
        match job_of(alloc, &Table::new(alloc)) {
            Ok(job) => Ok(job),
            Err(JobError::Memory(error)) => Err(error),
            Err(JobError::Job(_)) => unreachable!(),
        }
    }
}
