// What a sheet is drawn from, taken from a desk.
ghost use Rattle.std.specs.Prelude.{◌≡◌, true, IfOk, IfErr, IsSome, IsTrue};
ghost use Rattle.std.specs.Result.{result_err};
ghost use Rattle.desk.specs.Files.{Files, OnlyReads};
ghost use Rattle.job_file.specs.Seen.{job_seen};
ghost use Rattle.job_file.specs.Texts.{is_title};
ghost use Rattle.part_input.specs.Causes.{CountsReadsOf};
ghost use Rattle.part_input.specs.Parts.{IsOfPart, sample_size};
ghost use Rattle.part_input.specs.Sheets.{NamesNoFile};
ghost use Rattle.part_input.specs.Steps.{IsMissingOf};
ghost use Rattle.solid_mesh.specs.Solids.{solid_part};
ghost use Rattle.sheet_words.specs.Seen.{named_seen};
ghost use Rattle.sheet_input.specs.Answers.{GivesSheet, IsOfFiles, IsOfNames, ReadsInOrder, fault_in};
ghost use Rattle.sheet_input.specs.Faults.{sheet_faults};
ghost use Rattle.sheet_input.specs.Laid.{IsLaidDrawing};
ghost use Rattle.sheet_input.specs.Places.{IsToldFor};
ghost use Rattle.sheet_input.specs.Seen.{any_seen, input_seen};
ghost use Rattle.sheet_input.specs.Sheets.{LaysSheet, wish_of};
ghost use Rattle.sheet_input.specs.Steps.{DrawsBy, DrawsSheet, DrawsText};
ghost use Rattle.sheet_input.specs.Titles.{title_of};
ghost use Rattle.sheet_input.specs.inner.Taking.{IsDrawnOf, IsOfDraw, IsOfDrawn, IsOfSheetIn, IsSettledIfRead, IsToldBy, IsToldIn, laid_in, size_in, text_seen};

use crate::fault::SheetFault;
use crate::fit::{Settled, check_last, fit_part};
use crate::jobs::take_any_job;
use crate::laid::{job_for, laid_out, wish_of};
use crate::look::{SheetLook, look_of};
use crate::refusal::{Refusal, Told, plain, short};
use crate::taken_text::PartText;
use crate::text::take_text;
use crate::title::title_of;
use dec_text::Name;
use desk::Desk;
use drawing::{Drawing, drawing_on};
use part_input::sample_size;
use sheet_job::AnyJob;
use sheet_layout::{Layout, Wish};
use sheet_words::SheetRequest;
use std::alloc::Global;

/// A drawing, how its sheet looks, what was asked of its layout, and whether the views' sides are shrunk there.
#[derive(Drop)]
pub struct SheetInput {
    pub drawing: Drawing,
    pub look: SheetLook,
    pub wish: Wish,
    pub shrunk: bool,
}

/// A drawing on its sheet, and whether the views' sides are shrunk there.
#[derive(Drop)]
pub(crate) struct LaidDrawing {
    pub(crate) drawing: Drawing,
    pub(crate) shrunk: bool,
}

/// The drawing of a solid by a job, on the sheet of its layout.
fn drawn(alloc: Global, settled: Settled, wish: Wish) -> Result<LaidDrawing, Refusal>
    ensures answer { GivesSheet laid_in (LaysSheet wish (job_seen settled.job) (solid_part settled.solid)) result }
    ensures of_sheet { IfErr result (λ r. IsOfSheetIn r.fault) }
    ensures told { IfErr result (λ r. r.told ≡ Told.Nothing) }
    ensures shows { IfOk result (λ made. IsLaidDrawing made.drawing wish made.shrunk) }
{
    let Settled { job, solid } = settled;
    let Layout {
        sheet,
        paper,
        shrunk,
    } = match laid_out(alloc, &solid, &job, wish) {
        Ok(layout) => layout,
        Err(refusal) => return Err(refusal),
    };
    let job = job_for(job, wish, paper);
    match drawing_on(alloc, solid, job, sheet) {
        Ok(made) => Ok(LaidDrawing {
            drawing: made.drawing,
            shrunk,
        }),
        Err(_) => Err(short()),
    }
}

/// The drawing of a part's text by a job.
fn draw_text(
    alloc: Global,
    request: &SheetRequest,
    job: AnyJob,
    title: Name,
    text: &PartText,
) -> Result<SheetInput, Refusal>
    requires title { title ≡ title_of (named_seen request.now).said.title (any_seen job) (named_seen request.now).part }
    requires proper { IsTrue (is_title title) }
    requires text { size_in (text_seen text.now) ≡ sample_size (named_seen request.now).part }
    ensures answer { GivesSheet input_seen (DrawsText (named_seen request.now) (any_seen job) (text_seen text.now)) result }
    ensures of_draw { IfErr result (λ r. IsOfDraw (text_seen text.now) r.fault) }
    ensures told { IfErr result (λ r. IsToldIn title job (sample_size (named_seen request.now).part) (text_seen text.now) r.fault r.told) }
    ensures shows { IfOk result (λ input. IsLaidDrawing input.drawing input.wish input.shrunk) }
{
    let look = match look_of(alloc, request, &job) {
        Ok(look) => look,
        Err(_) => return Err(short()),
    };
    let wish = wish_of(&job);
    let size = sample_size(request.part.as_str());
    let settled = match fit_part(alloc, job, title, size, text) {
        Ok(settled) => settled,
        Err(refusal) => return Err(refusal),
    };
    match drawn(alloc, settled, wish) {
        Ok(made) => Ok(SheetInput {
            drawing: made.drawing,
            look,
            wish,
            shrunk: made.shrunk,
        }),
        Err(refusal) => Err(refusal),
    }
}

/// The drawing of the part that a request names, by this job.
fn draw_by<D: Desk>(
    alloc: Global,
    request: &SheetRequest,
    job: AnyJob,
    desk: &mut D,
) -> Result<SheetInput, Refusal>
    ensures answer { (D.state desk.old).tells ≡ true →
        GivesSheet input_seen (DrawsBy (D.state desk.old).files (named_seen request.now) (any_seen job)) result }
    ensures sample { IsSome (sample_size (named_seen request.now).part) → (files : Files) →
        GivesSheet input_seen (DrawsBy files (named_seen request.now) (any_seen job)) result }
    ensures of_part { IfErr result (λ r. IsOfDrawn (named_seen request.now).part r.fault) }
    ensures told { IfErr result (λ r. IsToldBy (D.state desk.old) (named_seen request.now) job r.fault r.told) }
    ensures shows { IfOk result (λ input. IsLaidDrawing input.drawing input.wish input.shrunk) }
    ensures of_text { IfOk result (λ input. IsDrawnOf (named_seen request.now) (any_seen job) (input_seen input)) }
    ensures settled { IfErr result (λ r. IsSettledIfRead (named_seen request.now) (any_seen job) r.fault) }
    ensures reads { CountsReadsOf sheet_faults (result_err (fault_in result)) (D.state desk.old).read_faults (D.state desk.new).read_faults }
    ensures missing { (D.state desk.old).steady ≡ true →
        IfErr result (λ r. IsMissingOf sheet_faults (DrawsBy (D.state desk.old).files (named_seen request.now) (any_seen job)) r.fault) }
    ensures changes { OnlyReads (D.state desk.old) (D.state desk.new) }
{
    let title = match title_of(alloc, &request.said.title, &job, request.part.as_str()) {
        Ok(title) => title,
        Err(_) => return Err(short()),
    };
    check_last(alloc, &job, &title, sample_size(request.part.as_str()))?;
    match take_text(alloc, &request.part, desk) {
        Ok(text) => draw_text(alloc, request, job, title, &text),
        Err(fault) => Err(plain(SheetFault::Common(fault))),
    }
}

/// The drawing of the part by the job that a request names, and how its sheet looks.
///
/// The faults are looked for in this order: the job's bytes, its text, the range of its cuts, a sample's size, the part's bytes, and, for
/// each number of decimals that is tried, the part's text, whether it has a triangle, and its surface; then whether the views fit the sheet.
/// A job of version 3 that leaves the number of decimals to the program takes up to five readings and checks of the part.
pub fn take_sheet<D: Desk>(
    alloc: Global,
    request: &SheetRequest,
    desk: &mut D,
) -> Result<SheetInput, Refusal>
    // What is given and refused is that of the steps, from the files at entry; where no file is named, whatever files there are.
    ensures answer { (D.state desk.old).tells ≡ true →
        GivesSheet input_seen (DrawsSheet (D.state desk.old).files (named_seen request.now)) result }
    ensures no_file { NamesNoFile (named_seen request.now).job (named_seen request.now).part → (files : Files) →
        GivesSheet input_seen (DrawsSheet files (named_seen request.now)) result }

    // On every desk the drawing shows the part as the job asks, and the words alone say this of it.
    ensures shows { IfOk result (λ input. IsLaidDrawing input.drawing input.wish input.shrunk) }
    ensures by_words { IfOk result (λ input. IsOfNames (named_seen request.now) (input_seen input)) }

    // Each fault is one of the files that are named, and what is told beside it is so.
    ensures of_files { IfErr result (λ r. IsOfFiles (named_seen request.now).part (named_seen request.now).job r.fault) }
    ensures told { IfErr result (λ r. IsToldFor (named_seen request.now) (D.state desk.old) r.fault r.told) }

    // A fault of reading is answered exactly where one was counted, on a steady desk exactly where a file is missing.
    ensures order { (D.state desk.old).tells ≡ true →
        IfErr result (λ r. ReadsInOrder (D.state desk.old).files (named_seen request.now) r.fault) }
    ensures reads { CountsReadsOf sheet_faults (result_err (fault_in result)) (D.state desk.old).read_faults (D.state desk.new).read_faults }
    ensures missing { (D.state desk.old).steady ≡ true →
        IfErr result (λ r. IsMissingOf sheet_faults (DrawsSheet (D.state desk.old).files (named_seen request.now)) r.fault) }
    ensures changes { OnlyReads (D.state desk.old) (D.state desk.new) }
{
    let job = take_any_job(alloc, &request.job, desk)?;
    draw_by(alloc, request, job, desk)
}
