// Jobs of any version.
ghost use Rattle.std.specs.Prelude.{◌≡◌, ◌<◌, ◌^◌, length, codes, option_map};
ghost use Rattle.std.specs.Str.{IsUtf8, IsValidUpTo};
ghost use Rattle.toml.specs.Data.{get_member};
ghost use Rattle.toml.specs.View.{table_view, view};
ghost use Rattle.job_file.specs.Documents.{table_of, job_of_bytes};
ghost use Rattle.job_tables.specs.Refused.{IsToml};
ghost use Rattle.job_text.specs.Places.{IsTextPlace};
ghost use Rattle.sheet_job.specs.AnyJobs.{older, own, no_toml, is_own, any_job_of_bytes, GivesAny};
ghost use Rattle.sheet_job.specs.SheetJobs.{sheet_job_of_text};
ghost use Rattle.sheet_job.specs.inner.Stops.{IsErrorOf, RefusesText};

use crate::any::{AnyJob, AnyJobError};
use crate::flaw::{JobFlaw, PlacedFlaw, SheetStop, placed};
use crate::sheet::{sheet_job_of_text, stop_of_lines};
use exact_frac::OutOfMemory;
use job_file::{Job, JobError};
use job_tables::refused_line;
use job_text::{TextPlace, text_lines, text_place};
use std::alloc::Global;
use toml::{Table, Value};

/// The value at `version`.
fn version_at(table: &Table) -> Option<&Value>
    ensures { option_map (λ v. view v.now) result ≡ get_member (codes "version") (table_view table.now) }
{
    table.get("version")
}

/// `version` is the whole number 3.
fn is_own(table: &Table) -> bool
    ensures { result ≡ is_own (table_view table.now) }
{
    match version_at(table) {
        Some(value) => value.as_integer() == Some(3),
        None => false,
    }
}

/// The stop of a text as an error, at its place.
fn error_of(text: &str, stop: SheetStop) -> AnyJobError
    requires { length text.now < 2 ^ 31 }
    ensures { IsErrorOf text.now stop result }
{
    match stop {
        SheetStop::At(flaw, at) => AnyJobError::Own(placed(text, flaw, at)),
        SheetStop::Memory(error) => AnyJobError::Memory(error),
    }
}

/// The job of version 3 that bytes are.
fn own_job(alloc: Global, bytes: &[u8]) -> Result<AnyJob, AnyJobError>
    requires text { IsUtf8 bytes.now }
    requires short { length bytes.now < 2 ^ 31 }
    ensures { GivesAny bytes.now result (own (sheet_job_of_text bytes.now)) }
{
    match str::from_utf8(bytes) {
        Ok(text) => match sheet_job_of_text(alloc, text) {
            Ok(job) => Ok(AnyJob::Own(job)),
            Err(stop) => Err(error_of(text, stop)),
        },
        Err(_) => unreachable!(),
    }
}

/// The job of another version that bytes are.
fn older_job(alloc: Global, bytes: &[u8]) -> Result<AnyJob, AnyJobError>
    ensures { GivesAny bytes.now result (older (job_of_bytes bytes.now)) }
{
    match Job::read(alloc, bytes) {
        Ok(job) => Ok(AnyJob::Older(job)),
        Err(JobError::Job(fault)) => Err(AnyJobError::Older(fault)),
        Err(JobError::Memory(error)) => Err(AnyJobError::Memory(error)),
    }
}

/// Why TOML refuses a text.
fn refused_text(alloc: Global, text: &str) -> SheetStop
    requires { ¬ IsToml text.now }
    ensures { RefusesText text.now result }
{
    let lines = match text_lines(alloc, text) {
        Ok(lines) => lines,
        Err(stop) => return stop_of_lines(text, stop),
    };
    match refused_line(alloc, text, &lines) {
        Ok(line) => SheetStop::At(JobFlaw::Refused, lines[line].at),
        Err(error) => SheetStop::Memory(error),
    }
}

/// The place of the first byte that begins no character.
fn broken_place(bytes: &[u8], at: usize) -> TextPlace
    requires broken { IsValidUpTo bytes.now at }
    requires short { length bytes.now < 2 ^ 31 }
    ensures { IsTextPlace bytes.now at result }
{
    match str::from_utf8(&bytes[..at]) {
        Ok(text) => text_place(text, at),
        Err(_) => unreachable!(),
    }
}

/// Why TOML refuses bytes.
fn refused_bytes(alloc: Global, bytes: &[u8]) -> AnyJobError
    requires refused { ¬ IsToml bytes.now }
    requires short { length bytes.now < 2 ^ 31 }
    ensures { GivesAny bytes.now (Err result) no_toml }
{
    match str::from_utf8(bytes) {
        Ok(text) => error_of(text, refused_text(alloc, text)),
        Err(error) => AnyJobError::Own(PlacedFlaw {
            place: broken_place(bytes, error.valid_up_to()),
            flaw: JobFlaw::NotUtf8,
        }),
    }
}

/// The job that bytes are, of any version, or its first fault.
///
/// TOML reads the bytes first. If it accepts them and `version` is the whole number 3, this is a job of version 3: its faults are those
/// of its lines, then of its tables and keys, then of its values, then of its views, each at its place. If TOML accepts them otherwise,
/// they are read as `job_file` reads them. If TOML refuses them, the fault is that of the lines, or the first line with which TOML
/// refuses the text.
///
/// Time grows with the bytes, for a refused text with the binary digits of its number of lines too, and by a pass for each cut's place.
pub fn read_any_job(alloc: Global, bytes: &[u8]) -> Result<AnyJob, AnyJobError>
    requires { length bytes.now < 2 ^ 31 }
    ensures { GivesAny bytes.now result (any_job_of_bytes bytes.now) }
{
    match toml::table_from_slice(alloc, bytes) {
        Ok(table) if is_own(&table) => own_job(alloc, bytes),
        Ok(_) => older_job(alloc, bytes),
        Err(error) if error.is_memory() => Err(AnyJobError::Memory(OutOfMemory)),
        Err(_) => Err(refused_bytes(alloc, bytes)),
    }
}
