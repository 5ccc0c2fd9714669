// Takes a job, a part and a list from a desk.
ghost use Rattle.std.specs.Prelude.{◌≡◌, ◌≤◌, ℕ, List, true, length, Some, IfOk, IfErr};
ghost use Rattle.std.specs.Result.{result_err};
ghost use Rattle.desk.specs.Files.{OnlyReads};
ghost use Rattle.job_file.specs.Seen.{job_seen};
ghost use Rattle.solid_mesh.specs.Solids.{solid_part};
ghost use Rattle.part_input.specs.Jobs.{TakesReadJob};
ghost use Rattle.part_input.specs.Causes.{unread};
ghost use Rattle.part_input.specs.Taken.{IsJobTaken, IsPartTaken};
ghost use Rattle.detail_view.specs.Faults.{cause_of, fault_of};
ghost use Rattle.detail_view.specs.inner.Steps.{CountsReads};
ghost use Rattle.detail_view.specs.Steps.{Lifted};
ghost use Rattle.detail_view.specs.inner.Steps.{GivesPieces, IsMissing};
ghost use Rattle.detail_view.specs.Run.{ReadsList, TakesPart, TakesReadList, IsOfJob, IsOfPartNamed, IsOfList};
ghost use Rattle.detail_view.specs.inner.Judging.{GivesEntries};
ghost use Rattle.detail_view.specs.inner.Taking.{IsListTaken};

use crate::fault::PiecesFault;
use dec_text::Name;
use desk::Desk;
use job_file::Job;
use part_input::{Fault, FetchFault, fetch_job, fetch_list, fetch_solid};
use piece_verify::{ListError, PieceList, read_list};
use solid_mesh::Solid;
use std::alloc::Global;

/// The fault of a job or of a part, as one of the run.
fn fault_of(fault: Fault) -> PiecesFault
    ensures { result ≡ fault_of fault }
{
    match fault {
        Fault::Memory => PiecesFault::Memory,
        fault => PiecesFault::Input(fault),
    }
}

/// The job of the file with this name.
pub(crate) fn take_job<D: Desk>(
    alloc: Global,
    name: &Name,
    desk: &mut D,
) -> Result<Job, PiecesFault>
    ensures answer { (D.state desk.old).tells ≡ true →
        GivesPieces job_seen (Lifted (TakesReadJob (D.state desk.old).files (Some name.now))) result }
    ensures taken { IfOk result (λ job. (text : List ℕ) × IsJobTaken D.fetches name.now desk.old desk.new text (job_seen job)) }
    ensures of_job { IfErr result IsOfJob }
    ensures reads { CountsReads (result_err result) (D.state desk.old).read_faults (D.state desk.new).read_faults }
    ensures missing { (D.state desk.old).steady ≡ true →
        IfErr result (IsMissing (Lifted (TakesReadJob (D.state desk.old).files (Some name.now)))) }
    ensures changes { OnlyReads (D.state desk.old) (D.state desk.new) }
{
    match fetch_job(alloc, name, desk) {
        Ok(job) => Ok(job),
        Err(fault) => Err(fault_of(fault)),
    }
}

/// The solid of the part that the name stands for, read by the job.
pub(crate) fn take_solid<D: Desk>(
    alloc: Global,
    name: &Name,
    job: &Job,
    desk: &mut D,
) -> Result<Solid, PiecesFault>
    ensures answer { (D.state desk.old).tells ≡ true →
        GivesPieces solid_part (TakesPart (D.state desk.old).files name.now (job_seen job.now)) result }
    ensures taken { IfOk result (λ solid. (text : List ℕ) × IsPartTaken D.fetches name.now job.now.decimals job.now.unit desk.old desk.new text (solid_part solid)) }
    ensures of_part { IfErr result (IsOfPartNamed name.now) }
    ensures reads { CountsReads (result_err result) (D.state desk.old).read_faults (D.state desk.new).read_faults }
    ensures missing { (D.state desk.old).steady ≡ true →
        IfErr result (IsMissing (TakesPart (D.state desk.old).files name.now (job_seen job.now))) }
    ensures changes { OnlyReads (D.state desk.old) (D.state desk.new) }
{
    match fetch_solid(alloc, name, job, desk) {
        Ok(solid) => Ok(solid),
        Err(fault) => Err(fault_of(fault)),
    }
}

/// The list that these bytes are.
fn list_of(alloc: Global, bytes: &[u8]) -> Result<PieceList, PiecesFault>
    requires { length bytes.now ≤ 16777216 }
    ensures answer { GivesEntries (ReadsList bytes.now) result }
    ensures of_list { IfErr result IsOfList }
    ensures no_read { IfErr result (λ e. cause_of e ≡ unread → ⊥) }
{
    match read_list(alloc, bytes) {
        Ok(list) => Ok(list),
        Err(ListError::List(fault)) => Err(PiecesFault::List(fault)),
        Err(ListError::Memory(_)) => Err(PiecesFault::Memory),
    }
}

/// The list of the file with this name.
pub(crate) fn take_list<D: Desk>(
    alloc: Global,
    name: &Name,
    desk: &mut D,
) -> Result<PieceList, PiecesFault>
    ensures answer { (D.state desk.old).tells ≡ true → GivesEntries (TakesReadList (D.state desk.old).files name.now) result }
    ensures taken { IfOk result (IsListTaken D.fetches name.now desk.old desk.new) }
    ensures of_list { IfErr result IsOfList }
    ensures reads { CountsReads (result_err result) (D.state desk.old).read_faults (D.state desk.new).read_faults }
    ensures missing { (D.state desk.old).steady ≡ true → IfErr result (IsMissing (TakesReadList (D.state desk.old).files name.now)) }
    ensures changes { OnlyReads (D.state desk.old) (D.state desk.new) }
{
    match fetch_list(alloc, name, desk) {
        Ok(bytes) => list_of(alloc, &bytes),
        Err(FetchFault::Failed) => Err(PiecesFault::ReadList),
        Err(FetchFault::TooLong) => Err(PiecesFault::ListTooLong),
        Err(FetchFault::Memory) => Err(PiecesFault::Memory),
    }
}
