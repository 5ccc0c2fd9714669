// The job of any version, taken from a desk.
ghost use Rattle.std.specs.Prelude.{◌≡◌, ◌≤◌, ◌↔◌, [], true, IsTrue, length, None, Some, IfOk, IfErr, IsErrOf};
ghost use Rattle.std.specs.Result.{result_err};
ghost use Rattle.desk.specs.Files.{DeskState, Files, OnlyReads};
ghost use Rattle.job_file.specs.Seen.{job_seen};
ghost use Rattle.job_file.specs.Texts.{is_title};
ghost use Rattle.part_input.specs.Causes.{CountsReadsOf};
ghost use Rattle.part_input.specs.Steps.{IsMissingOf};
ghost use Rattle.sheet_job.specs.SheetSeen.{sheet_job_seen};
ghost use Rattle.sheet_input.specs.Answers.{GivesSheet, IsOfAnyJob, fault_in};
ghost use Rattle.sheet_input.specs.Faults.{sheet_faults};
ghost use Rattle.sheet_input.specs.Jobs.{ReadsAnyJob, SettlesJob, TakesAnyJob, own_job, titled};
ghost use Rattle.sheet_input.specs.Seen.{any_seen};
ghost use Rattle.sheet_input.specs.inner.Taking.{IsJobTaken, IsOfOwn, IsPlacedBy, IsToldBytes, IsToldOwn, IsToldTaken};

use crate::fault::SheetFault;
use crate::refusal::{Refusal, Told, plain, short};
use dec_text::Name;
use desk::Desk;
use job_file::{Job, JobFault};
use part_input::{Fault, FetchFault, Input, fetch_all, usual_job};
use sheet_job::{AnyJob, AnyJobError, AtError, SheetJob, read_any_job};
use std::alloc::Global;

/// The most bytes that a job may have.
const JOB_LIMIT: usize = 65_536;

/// The job that these bytes say.
fn job_of(alloc: Global, bytes: &[u8]) -> Result<AnyJob, Refusal>
    requires { length bytes.now ≤ 65536 }
    ensures answer { GivesSheet any_seen (ReadsAnyJob bytes.now) result }
    ensures of_job { IfErr result (λ r. IsOfAnyJob (Some []) r.fault) }
    ensures no_read { IfErr result (λ r. r.fault ≡ SheetFault.Common (Fault.ReadFault Input.Job) → ⊥) }
    ensures placed { IfOk result (IsPlacedBy bytes.now) }
    ensures told { IfErr result (λ r. IsToldBytes bytes.now r.fault r.told) }
{
    match read_any_job(alloc, bytes) {
        Ok(job) => Ok(job),
        Err(AnyJobError::Older(fault)) => Err(plain(SheetFault::Common(Fault::Job(fault)))),
        Err(AnyJobError::Own(flaw)) => Err(Refusal {
            fault: SheetFault::OwnJob,
            told: Told::Job(flaw),
        }),
        Err(AnyJobError::Memory(_)) => Err(short()),
    }
}

/// The job of the file with this name.
fn job_of_file<D: Desk>(alloc: Global, name: &Name, desk: &mut D) -> Result<AnyJob, Refusal>
    ensures answer { (D.state desk.old).tells ≡ true → GivesSheet any_seen (TakesAnyJob (D.state desk.old).files (Some name.now)) result }
    ensures of_job { IfErr result (λ r. IsOfAnyJob (Some name.now) r.fault) }
    ensures placed { IfOk result (IsJobTaken (D.state desk.old) (Some name.now)) }
    ensures told { IfErr result (λ r. IsToldTaken (D.state desk.old) (Some name.now) r.fault r.told) }
    ensures reads { CountsReadsOf sheet_faults (result_err (fault_in result)) (D.state desk.old).read_faults (D.state desk.new).read_faults }
    ensures missing { (D.state desk.old).steady ≡ true →
        (IsErrOf (fault_in result) (SheetFault.Common (Fault.ReadFault Input.Job)) ↔ ((D.state desk.old).files name.now ≡ None)) }
    ensures changes { OnlyReads (D.state desk.old) (D.state desk.new) }
{
    match fetch_all(alloc, desk, name.as_str(), JOB_LIMIT) {
        Ok(bytes) => job_of(alloc, &bytes),
        Err(FetchFault::Failed) => Err(plain(SheetFault::Common(Fault::ReadFault(Input::Job)))),
        Err(FetchFault::TooLong) => Err(plain(SheetFault::Common(Fault::JobTooLong))),
        Err(FetchFault::Memory) => Err(short()),
    }
}

/// The usual job: that of no bytes.
fn usual(alloc: Global) -> Result<AnyJob, Refusal>
    ensures answer { (files : Files) → GivesSheet any_seen (TakesAnyJob files None) result }
    ensures of_job { IfErr result (λ r. IsOfAnyJob None r.fault) }
    ensures placed { (old : DeskState) → IfOk result (IsJobTaken old None) }
    ensures told { IfErr result (λ r. r.told ≡ Told.Nothing) }
{
    match usual_job(alloc) {
        Ok(job) => Ok(AnyJob::Older(job)),
        Err(_) => Err(short()),
    }
}

/// The job of the file with this name, or with no name the usual one.
pub(crate) fn take_any_job<D: Desk>(
    alloc: Global,
    name: &Option<Name>,
    desk: &mut D,
) -> Result<AnyJob, Refusal>
    ensures answer { (D.state desk.old).tells ≡ true → GivesSheet any_seen (TakesAnyJob (D.state desk.old).files name.now) result }
    ensures usual { name.now ≡ None → (files : Files) → GivesSheet any_seen (TakesAnyJob files name.now) result }
    ensures of_job { IfErr result (λ r. IsOfAnyJob name.now r.fault) }
    ensures placed { IfOk result (IsJobTaken (D.state desk.old) name.now) }
    ensures told { IfErr result (λ r. IsToldTaken (D.state desk.old) name.now r.fault r.told) }
    ensures reads { CountsReadsOf sheet_faults (result_err (fault_in result)) (D.state desk.old).read_faults (D.state desk.new).read_faults }
    ensures missing { (D.state desk.old).steady ≡ true →
        IfErr result (λ r. IsMissingOf sheet_faults (TakesAnyJob (D.state desk.old).files name.now) r.fault) }
    ensures changes { OnlyReads (D.state desk.old) (D.state desk.new) }
{
    match name {
        Some(name) => job_of_file(alloc, name, desk),
        None => usual(alloc),
    }
}

/// An older job with this title.
pub(crate) fn titled(job: Job, title: Name) -> Job
    requires { IsTrue (is_title title) }
    ensures { job_seen result ≡ titled title (job_seen job) }
{
    Job {
        decimals: job.decimals,
        third: job.third,
        paper: job.paper,
        scale: job.scale,
        crease: job.crease,
        title,
        outputs: job.outputs,
        unit: job.unit,
        portrait: job.portrait,
        views: job.views,
    }
}

/// The job of version 3 at a number of decimals, with this title.
pub(crate) fn settled_at(
    alloc: Global,
    job: &SheetJob,
    decimals: u8,
    title: &Name,
) -> Result<Job, Refusal>
    requires title { IsTrue (is_title title.now) }
    requires few { decimals ≤ 6 }
    ensures answer { GivesSheet job_seen (SettlesJob title.now (own_job (sheet_job_seen job.now)) decimals) result }
    ensures of_job { IfErr result (λ r. IsOfOwn r.fault) }
    ensures told { IfErr result (λ r. IsToldOwn job.now decimals r.fault r.told) }
{
    match job.job_at(alloc, decimals, title.as_str()) {
        Ok(job) => Ok(job),
        Err(AtError::Range(flaw)) => Err(Refusal {
            fault: SheetFault::OwnJob,
            told: Told::Job(flaw),
        }),
        Err(AtError::Memory(_)) => Err(short()),
    }
}
