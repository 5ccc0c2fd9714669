// Draws what of a view stands in a window, by the words of a detail.
ghost use Rattle.std.specs.Prelude.{◌≡◌, ◌⊎◌, ◌<◌, ℕ, List, true, length, Some, None, IfOk, IfErr, IfSome, is_some};
ghost use Rattle.std.specs.Result.{result_err};
ghost use Rattle.desk.specs.Files.{OnlyReads, OnlyKeeps};
ghost use Rattle.job_file.specs.Seen.{job_seen};
ghost use Rattle.detail_view.specs.Drawn.{IsDrawnOf, LeavesDrawn, pieces_told, HasDetail, KeepsPage};
ghost use Rattle.detail_view.specs.Faults.{status_of};
ghost use Rattle.detail_view.specs.inner.Steps.{CountsReads, CountsWrites, HasNoWriteFault};
ghost use Rattle.detail_view.specs.Run.{HasView, TakesViewed, Details, IsOfJob, IsOfView, IsOfDetail, IsRefusal, DetailsInOrder, OnlyDraws, pieces_task};
ghost use Rattle.detail_view.specs.Seen.{detail_seen};
ghost use Rattle.detail_view.specs.inner.Steps.{GivesPieces, IsMissing};
ghost use Rattle.detail_view.specs.Words.{details};
ghost use Rattle.put_texts.specs.Runs.{IsAnswer};
ghost use Rattle.detail_view.specs.Taken.{ArePiecesTaken};
ghost use Rattle.detail_view.specs.inner.Drawing.{LeavesPage, TellsPieces};
ghost use Rattle.detail_view.specs.inner.Taking.{IsViewedTaken, IsShownTaken};
ghost use Rattle.detail_view.specs.inner.Judging.{IsOfSaying};
ghost use Rattle.detail_view.specs.inner.Showing.{given_of};

use crate::check::ended;
use crate::fault::{PiecesFault, PiecesOutcome};
use crate::inputs::{take_job, take_solid};
use crate::words::DetailWords;
use desk::{Desk, DeskFault};
use detail_pieces::{detail_of, detail_text};
use exact_frac::OutOfMemory;
use job_file::Job;
use lattice::Piece;
use piece_verify::view_dir;
use solid_mesh::Solid;
use std::alloc::Global;

/// The job, where it has this view.
fn with_view(job: Job, view: u32) -> Result<Job, PiecesFault>
    ensures answer { GivesPieces job_seen (HasView view (job_seen job)) result }
    ensures in_range { IfOk result (λ same. view < length same.views.items) }
    ensures of_view { IfErr result (IsOfView view) }
{
    if (view as usize) < job.views.len() {
        Ok(job)
    } else {
        Err(PiecesFault::NoView(view))
    }
}

/// The job that the words name, where it has their view.
fn take_viewed<D: Desk>(
    alloc: Global,
    words: &DetailWords,
    desk: &mut D,
) -> Result<Job, PiecesFault>
    ensures answer { (D.state desk.old).tells ≡ true →
        GivesPieces job_seen (TakesViewed (D.state desk.old).files (detail_seen words.now)) result }
    ensures taken { IfOk result (λ job. IsViewedTaken D.fetches (detail_seen words.now) desk.old desk.new (job_seen job)) }
    ensures in_range { IfOk result (λ job. words.now.view < length job.views.items) }
    ensures of_job { IfErr result (λ e. IsOfJob e ⊎ IsOfView words.now.view e) }
    ensures reads { CountsReads (result_err result) (D.state desk.old).read_faults (D.state desk.new).read_faults }
    ensures missing { (D.state desk.old).steady ≡ true →
        IfErr result (IsMissing (TakesViewed (D.state desk.old).files (detail_seen words.now))) }
    ensures changes { OnlyReads (D.state desk.old) (D.state desk.new) }
{
    match take_job(alloc, &words.job, desk) {
        Ok(job) => with_view(job, words.view),
        Err(fault) => Err(fault),
    }
}

/// What a detail is made of: a part and a job.
#[derive(Drop)]
struct Shown {
    job: Job,
    solid: Solid,
}

/// The job that the words name, where it has their view, and the part.
fn take_shown<D: Desk>(
    alloc: Global,
    words: &DetailWords,
    desk: &mut D,
) -> Result<Shown, PiecesFault>
    ensures answer { (D.state desk.old).tells ≡ true →
        GivesPieces given_of (Details (D.state desk.old).files (detail_seen words.now)) result }
    ensures taken { IfOk result (IsShownTaken D.fetches (detail_seen words.now) desk.old desk.new) }
    ensures in_range { IfOk result (λ shown. words.now.view < length shown.job.views.items) }
    ensures of_detail { IfErr result (IsOfDetail (detail_seen words.now)) }
    ensures order { (D.state desk.old).tells ≡ true → IfErr result (DetailsInOrder (D.state desk.old).files (detail_seen words.now)) }
    ensures reads { CountsReads (result_err result) (D.state desk.old).read_faults (D.state desk.new).read_faults }
    ensures missing { (D.state desk.old).steady ≡ true →
        IfErr result (IsMissing (Details (D.state desk.old).files (detail_seen words.now))) }
    ensures changes { OnlyReads (D.state desk.old) (D.state desk.new) }
{
    let job = match take_viewed(alloc, words, desk) {
        Ok(job) => job,
        Err(fault) => return Err(fault),
    };
    match take_solid(alloc, &words.part, &job, desk) {
        Ok(solid) => Ok(Shown { job, solid }),
        Err(fault) => Err(fault),
    }
}

/// A detail and its page.
#[derive(Drop)]
struct Drawn {
    pieces: Vec<Piece>,
    page: Vec<u8>,
}

/// The detail of the solid's view that the words ask for.
fn draw_solid(
    alloc: Global,
    words: &DetailWords,
    job: &Job,
    solid: &Solid,
) -> Result<Drawn, OutOfMemory>
    requires { words.now.view < length job.now.views.items }
    ensures { IfOk result (λ drawn. IsDrawnOf job.now solid.now words.now.view words.now.window words.now.scale drawn.pieces.items drawn.page.items) }
{
    let pieces = detail_of(alloc, solid, job, words.view, &words.window)?;
    let d = view_dir(job, words.view);
    let page = detail_text(alloc, job.decimals, words.scale, &d, &words.window, &pieces)?;
    Ok(Drawn { pieces, page })
}

/// Keeps the page of a detail, with which the run ends.
fn keep_page<D: Desk>(words: &DetailWords, drawn: Drawn, desk: &mut D) -> PiecesOutcome
    ensures status { result.status ≡ status_of result.fault result.verdict }
    ensures none { result.verdict ≡ None }
    ensures fault { IfSome result.fault IsOfSaying }
    ensures told { TellsPieces drawn.pieces.items result.fault (pieces_told result.detail) }
    ensures files { (D.state desk.old).tells ≡ true →
        LeavesPage result.fault (D.state desk.old).files (D.state desk.new).files words.now.out drawn.page.items }
    ensures writes { CountsWrites result.fault (D.state desk.old).write_faults (D.state desk.new).write_faults }
    ensures steady { (D.state desk.old).steady ≡ true → HasNoWriteFault result.fault }
    ensures changes { OnlyKeeps (D.state desk.old) (D.state desk.new) }
{
    match desk.keep(words.out.as_str(), &drawn.page) {
        Ok(()) => PiecesOutcome {
            status: 0,
            fault: None,
            verdict: None,
            detail: Some(drawn.pieces),
        },
        Err(DeskFault::Failed) => PiecesOutcome {
            status: 8,
            fault: Some(PiecesFault::WriteFault),
            verdict: None,
            detail: Some(drawn.pieces),
        },
        Err(DeskFault::Memory(_)) => ended(PiecesFault::Memory),
    }
}

/// Draws the detail of the part, and keeps its page.
fn finish<D: Desk>(alloc: Global, words: &DetailWords, shown: &Shown, desk: &mut D) -> PiecesOutcome
    requires { words.now.view < length shown.now.job.views.items }
    ensures status { result.status ≡ status_of result.fault result.verdict }
    ensures none { result.verdict ≡ None }
    ensures fault { IfSome result.fault IsOfSaying }
    ensures drawn { HasDetail (Some (details (detail_seen words.now))) result.fault (is_some result.detail) }
    ensures made { IfSome (pieces_told result.detail) (λ pieces. (page : List ℕ) × IsDrawnOf shown.now.job shown.now.solid words.now.view words.now.window words.now.scale pieces page) }
    ensures files { (D.state desk.old).tells ≡ true →
        LeavesDrawn (IsDrawnOf shown.now.job shown.now.solid words.now.view words.now.window words.now.scale) words.now.out result.fault (pieces_told result.detail) (D.state desk.old).files (D.state desk.new).files }
    ensures writes { CountsWrites result.fault (D.state desk.old).write_faults (D.state desk.new).write_faults }
    ensures steady { (D.state desk.old).steady ≡ true → HasNoWriteFault result.fault }
    ensures changes { OnlyKeeps (D.state desk.old) (D.state desk.new) }
{
    match draw_solid(alloc, words, &shown.job, &shown.solid) {
        Ok(drawn) => keep_page(words, drawn, desk),
        Err(_) => ended(PiecesFault::Memory),
    }
}

/// Keeps the page of what of the view stands in the window.
pub(crate) fn detail<D: Desk>(alloc: Global, words: &DetailWords, desk: &mut D) -> PiecesOutcome
    ensures run { IsAnswer (pieces_task (Some (details (detail_seen words.now)))) result.fault (D.state desk.old) (D.state desk.new) }
    ensures status { result.status ≡ status_of result.fault result.verdict }
    ensures none { result.verdict ≡ None }
    ensures drawn { HasDetail (Some (details (detail_seen words.now))) result.fault (is_some result.detail) }
    ensures taken { IfSome (pieces_told result.detail) (ArePiecesTaken D.fetches D.state (Some (details (detail_seen words.now))) desk.old desk.new) }
    ensures files { (D.state desk.old).tells ≡ true →
        KeepsPage (Some (details (detail_seen words.now))) result.fault (pieces_told result.detail) (D.state desk.old).files (D.state desk.new).files }
    ensures refused { IfSome result.fault (λ e. IsRefusal e → OnlyReads (D.state desk.old) (D.state desk.new)) }
    ensures changes { OnlyDraws (D.state desk.old) (D.state desk.new) }
{
    match take_shown(alloc, words, desk) {
        Ok(shown) => finish(alloc, words, &shown, desk),
        Err(fault) => ended(fault),
    }
}
