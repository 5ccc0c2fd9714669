// Judges a list by the words of a check, and says the verdict.
ghost use Rattle.std.specs.Prelude.{◌≡◌, ◌⊎◌, true, Some, None, IfOk, IfErr, IfSome, is_some, string_bytes};
ghost use Rattle.std.specs.Result.{result_err};
ghost use Rattle.desk.specs.Files.{OnlyReads, OnlySays};
ghost use Rattle.job_file.specs.Seen.{job_seen};
ghost use Rattle.solid_mesh.specs.Solids.{solid_part};
ghost use Rattle.detail_view.specs.Faults.{status_of, verdict_status};
ghost use Rattle.detail_view.specs.inner.Steps.{CountsReads, CountsWrites, HasNoWriteFault};
ghost use Rattle.detail_view.specs.Run.{listed, TakesReadList, ChecksBy, Checks, IsVerdictOf, HasVerdict, verdict_line, Says, SaysAsked, IsOfPartNamed, IsOfList, IsOfCheck, IsRefusal, ChecksInOrder, OnlyListens, pieces_task};
ghost use Rattle.detail_view.specs.Seen.{check_seen};
ghost use Rattle.detail_view.specs.Steps.{Yields};
ghost use Rattle.detail_view.specs.inner.Steps.{IsMissing};
ghost use Rattle.detail_view.specs.Words.{checks};
ghost use Rattle.put_texts.specs.Runs.{IsAnswer};
ghost use Rattle.detail_view.specs.Taken.{ChecksTaken, IsVerdictTaken};
ghost use Rattle.detail_view.specs.inner.Judging.{Judges, ComesAfterJob, IsOfSaying, Tells};
ghost use Rattle.detail_view.specs.inner.Taking.{IsJudged, IsPartJudged};

use crate::fault::{PiecesFault, PiecesOutcome};
use crate::inputs::{take_job, take_list, take_solid};
use crate::words::CheckWords;
use desk::{Desk, DeskFault};
use job_file::Job;
use piece_verify::{Verdict, check_list};
use solid_mesh::Solid;
use std::alloc::{AllocError, Global};

/// The verdict on the list, for the solid by the job.
fn judge_list<D: Desk>(
    alloc: Global,
    words: &CheckWords,
    job: &Job,
    solid: &Solid,
    desk: &mut D,
) -> Result<Verdict, PiecesFault>
    ensures answer { (D.state desk.old).tells ≡ true →
        Judges (Yields (listed (job_seen job.now) (solid_part solid.now)) (TakesReadList (D.state desk.old).files words.now.list)) result }
    ensures taken { IfOk result (IsJudged D.fetches words.now.list (job_seen job.now) (solid_part solid.now) desk.old desk.new) }
    ensures of_list { IfErr result IsOfList }
    ensures reads { CountsReads (result_err result) (D.state desk.old).read_faults (D.state desk.new).read_faults }
    ensures missing { (D.state desk.old).steady ≡ true →
        IfErr result (IsMissing (Yields (listed (job_seen job.now) (solid_part solid.now)) (TakesReadList (D.state desk.old).files words.now.list))) }
    ensures changes { OnlyReads (D.state desk.old) (D.state desk.new) }
{
    let list = match take_list(alloc, &words.list, desk) {
        Ok(list) => list,
        Err(fault) => return Err(fault),
    };
    match check_list(alloc, solid, job, &list) {
        Ok(verdict) => Ok(verdict),
        Err(_) => Err(PiecesFault::Memory),
    }
}

/// The verdict on the list, for the part by the job.
fn judge_part<D: Desk>(
    alloc: Global,
    words: &CheckWords,
    job: &Job,
    desk: &mut D,
) -> Result<Verdict, PiecesFault>
    ensures answer { (D.state desk.old).tells ≡ true →
        Judges (ChecksBy (D.state desk.old).files (check_seen words.now) (job_seen job.now)) result }
    ensures taken { IfOk result (IsPartJudged D.fetches (check_seen words.now) (job_seen job.now) desk.old desk.new) }
    ensures of_both { IfErr result (λ e. IsOfPartNamed words.now.part e ⊎ IsOfList e) }
    ensures order { (D.state desk.old).tells ≡ true →
        IfErr result (ComesAfterJob (D.state desk.old).files (check_seen words.now) (job_seen job.now)) }
    ensures reads { CountsReads (result_err result) (D.state desk.old).read_faults (D.state desk.new).read_faults }
    ensures missing { (D.state desk.old).steady ≡ true →
        IfErr result (IsMissing (ChecksBy (D.state desk.old).files (check_seen words.now) (job_seen job.now))) }
    ensures changes { OnlyReads (D.state desk.old) (D.state desk.new) }
{
    match take_solid(alloc, &words.part, job, desk) {
        Ok(solid) => judge_list(alloc, words, job, &solid, desk),
        Err(fault) => Err(fault),
    }
}

/// The verdict on what the words name.
fn judge<D: Desk>(alloc: Global, words: &CheckWords, desk: &mut D) -> Result<Verdict, PiecesFault>
    ensures answer { (D.state desk.old).tells ≡ true → Judges (Checks (D.state desk.old).files (check_seen words.now)) result }
    ensures taken { IfOk result (ChecksTaken D.fetches (check_seen words.now) desk.old desk.new) }
    ensures of_check { IfErr result (IsOfCheck (check_seen words.now)) }
    ensures order { (D.state desk.old).tells ≡ true → IfErr result (ChecksInOrder (D.state desk.old).files (check_seen words.now)) }
    ensures reads { CountsReads (result_err result) (D.state desk.old).read_faults (D.state desk.new).read_faults }
    ensures missing { (D.state desk.old).steady ≡ true →
        IfErr result (IsMissing (Checks (D.state desk.old).files (check_seen words.now))) }
    ensures changes { OnlyReads (D.state desk.old) (D.state desk.new) }
{
    match take_job(alloc, &words.job, desk) {
        Ok(job) => judge_part(alloc, words, &job, desk),
        Err(fault) => Err(fault),
    }
}

/// An end without a verdict and a detail.
pub(crate) fn ended(fault: PiecesFault) -> PiecesOutcome
    ensures status { result.status ≡ status_of result.fault result.verdict }
    ensures fault { result.fault ≡ Some fault }
    ensures verdict { result.verdict ≡ None }
    ensures detail { result.detail ≡ None }
{
    PiecesOutcome {
        status: fault.status(),
        fault: Some(fault),
        verdict: None,
        detail: None,
    }
}

/// The status of a verdict.
fn verdict_status(verdict: Verdict) -> u8
    ensures { result ≡ verdict_status (Some verdict) }
{
    match verdict {
        Verdict::Right => 0,
        Verdict::Stranger { place: _ } => 1,
        Verdict::Differs {
            view: _,
            place: _,
            want: _,
        } => 1,
    }
}

/// The line of a verdict.
fn line_of(alloc: Global, verdict: Verdict) -> Result<String, AllocError>
    ensures { IfOk result (λ line. string_bytes line ≡ verdict_line verdict) }
{
    match verdict {
        Verdict::Right => format!(in alloc; "right\n"),
        Verdict::Stranger { place } => format!(in alloc; "stranger {place}\n"),
        Verdict::Differs {
            view,
            place,
            want: _,
        } => format!(in alloc; "view {view} piece {place}\n"),
    }
}

/// Says a verdict, with which the run ends.
fn say_verdict<D: Desk>(alloc: Global, verdict: Verdict, desk: &mut D) -> PiecesOutcome
    ensures status { result.status ≡ status_of result.fault result.verdict }
    ensures fault { IfSome result.fault IsOfSaying }
    ensures told { Tells verdict result.fault result.verdict }
    ensures none { result.detail ≡ None }
    ensures said { (D.state desk.old).tells_said ≡ true →
        Says result.fault (D.state desk.old).said (D.state desk.new).said (verdict_line verdict) }
    ensures writes { CountsWrites result.fault (D.state desk.old).write_faults (D.state desk.new).write_faults }
    ensures steady { (D.state desk.old).steady ≡ true → HasNoWriteFault result.fault }
    ensures changes { OnlySays (D.state desk.old) (D.state desk.new) }
{
    let line = match line_of(alloc, verdict) {
        Ok(line) => line,
        Err(_) => return ended(PiecesFault::Memory),
    };
    match desk.say(line.as_bytes()) {
        Ok(()) => PiecesOutcome {
            status: verdict_status(verdict),
            fault: None,
            verdict: Some(verdict),
            detail: None,
        },
        Err(DeskFault::Failed) => ended(PiecesFault::WriteFault),
        Err(DeskFault::Memory(_)) => ended(PiecesFault::Memory),
    }
}

/// Judges the list that the words name, by their part and job, and says the verdict.
pub(crate) fn check<D: Desk>(alloc: Global, words: &CheckWords, desk: &mut D) -> PiecesOutcome
    ensures run { IsAnswer (pieces_task (Some (checks (check_seen words.now)))) result.fault (D.state desk.old) (D.state desk.new) }
    ensures status { result.status ≡ status_of result.fault result.verdict }
    ensures none { result.detail ≡ None }
    ensures shown { HasVerdict (Some (checks (check_seen words.now))) result.fault (is_some result.verdict) }
    ensures verdict { (D.state desk.old).tells ≡ true → IfSome result.verdict (IsVerdictOf (Checks (D.state desk.old).files (check_seen words.now))) }
    ensures taken { IfSome result.verdict (IsVerdictTaken D.fetches D.state (Some (checks (check_seen words.now))) desk.old desk.new) }
    ensures said { (D.state desk.old).tells_said ≡ true →
        SaysAsked (D.state desk.old).tells (Some (checks (check_seen words.now))) (D.state desk.old).files result.fault result.verdict (D.state desk.old).said (D.state desk.new).said }
    ensures refused { IfSome result.fault (λ e. IsRefusal e → OnlyReads (D.state desk.old) (D.state desk.new)) }
    ensures changes { OnlyListens (D.state desk.old) (D.state desk.new) }
{
    match judge(alloc, words, desk) {
        Ok(verdict) => say_verdict(alloc, verdict, desk),
        Err(fault) => ended(fault),
    }
}
