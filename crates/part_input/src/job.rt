// Takes a job from a desk.
ghost use Rattle.std.specs.Prelude.{◌≡◌, ◌↔◌, ℕ, List, true, IsSome, None, Some, IfOk, IfErr, IsErrOf};
ghost use Rattle.std.specs.Result.{result_err};
ghost use Rattle.desk.specs.Files.{OnlyReads, Rose};
ghost use Rattle.job_file.specs.Seen.{job_seen};
ghost use Rattle.part_input.specs.Faults.{CountsReads};
ghost use Rattle.part_input.specs.Jobs.{ReadsJob, TakesReadJob, IsOfJobFile};
ghost use Rattle.part_input.specs.Steps.{GivesInput, IsAnswerOf};
ghost use Rattle.part_input.specs.Taken.{IsJobTaken};

use crate::fault::{Fault, Input};
use crate::fetch::{FetchFault, fetch_all};
use dec_text::Name;
use desk::Desk;
use job_file::{Job, JobError};
use std::alloc::Global;

/// The most bytes that a job may have.
const JOB_LIMIT: usize = 65_536;

/// The job that these bytes say.
fn job_of(alloc: Global, bytes: &[u8]) -> Result<Job, Fault>
    ensures answer { GivesInput job_seen (ReadsJob bytes.now) result }
    ensures of_job { IfErr result IsOfJobFile }
    ensures no_read { IsErrOf result (Fault.ReadFault Input.Job) → ⊥ }
{
    match Job::read(alloc, bytes) {
        Ok(job) => Ok(job),
        Err(JobError::Job(fault)) => Err(Fault::Job(fault)),
        Err(JobError::Memory(_)) => Err(Fault::Memory),
    }
}

/// The job of the file with this name, and what was answered where it was fetched.
fn job_of_file<D: Desk>(alloc: Global, name: &Name, desk: &mut D) -> Result<Job, Fault>
    ensures answer { (D.state desk.old).tells ≡ true →
        GivesInput job_seen (TakesReadJob (D.state desk.old).files (Some name.now)) result }
    ensures taken { IfOk result (λ job. (text : List ℕ) × IsJobTaken D.fetches name.now desk.old desk.new text (job_seen job)) }
    ensures of_job { IfErr result IsOfJobFile }
    ensures reads { CountsReads (result_err result) (D.state desk.old).read_faults (D.state desk.new).read_faults }
    ensures missing { (D.state desk.old).steady ≡ true →
        (IsErrOf result (Fault.ReadFault Input.Job) ↔ ((D.state desk.old).files name.now ≡ None)) }
    ensures changes { OnlyReads (D.state desk.old) (D.state desk.new) }
{
    match fetch_all(alloc, desk, name.as_str(), JOB_LIMIT) {
        Ok(bytes) => job_of(alloc, &bytes),
        Err(FetchFault::Failed) => Err(Fault::ReadFault(Input::Job)),
        Err(FetchFault::TooLong) => Err(Fault::JobTooLong),
        Err(FetchFault::Memory) => Err(Fault::Memory),
    }
}

/// The job of the file with this name. Nothing else of the desk changes than its count of the faults of reading.
pub fn fetch_job<D: Desk>(alloc: Global, name: &Name, desk: &mut D) -> Result<Job, Fault>
    // The job is that of the file at entry, and each other fault than one of reading comes only where the file has it.
    ensures answer { (D.state desk.old).tells ≡ true →
        GivesInput job_seen (TakesReadJob (D.state desk.old).files (Some name.now)) result }
    ensures of_job { IfErr result IsOfJobFile }

    // By the desk's `fetches` it is that of the bytes that the desk gave, from the first to the last, and nothing else was fetched.
    ensures taken { IfOk result (λ job. (text : List ℕ) × IsJobTaken D.fetches name.now desk.old desk.new text (job_seen job)) }

    // Where no fault of reading was counted, the answer is that of the file, or want of memory; on a steady desk always.
    ensures complete { (D.state desk.old).tells ≡ true →
        (Rose (D.state desk.old).read_faults (D.state desk.new).read_faults → ⊥) →
        IsAnswerOf (TakesReadJob (D.state desk.old).files (Some name.now)) (result_err result) }
    ensures exact { (D.state desk.old).steady ≡ true →
        IsAnswerOf (TakesReadJob (D.state desk.old).files (Some name.now)) (result_err result) }

    // A fault of reading is answered exactly where one was counted, on a steady desk exactly where the file is missing.
    ensures reads { CountsReads (result_err result) (D.state desk.old).read_faults (D.state desk.new).read_faults }
    ensures missing { (D.state desk.old).steady ≡ true →
        (IsErrOf result (Fault.ReadFault Input.Job) ↔ ((D.state desk.old).files name.now ≡ None)) }
    ensures held { (D.state desk.old).steady ≡ true → IsSome ((D.state desk.old).files name.now) →
        (D.state desk.new).read_faults ≡ (D.state desk.old).read_faults }
    ensures changes { OnlyReads (D.state desk.old) (D.state desk.new) }
{
    job_of_file(alloc, name, desk)
}
