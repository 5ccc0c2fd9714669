// Takes what the words name from a desk, the job and the part, and draws it.
ghost use Rattle.std.specs.Prelude.{◌≡◌, ◌⊎◌, true, [], map, Some, None, IfOk, IfErr, IfSome, IsSomeAnd};
ghost use Rattle.std.specs.Result.{result_err};
ghost use Rattle.desk.specs.Files.{Files, OnlyReads};
ghost use Rattle.draw_words.specs.Names.{named_by};
ghost use Rattle.draw_words.specs.Seen.{named_seen, texts};
ghost use Rattle.job_file.specs.Seen.{job_seen};
ghost use Rattle.part_input.specs.Faults.{CountsReads};
ghost use Rattle.part_input.specs.Jobs.{TakesReadJob, IsOfUsualJob};
ghost use Rattle.part_input.specs.Steps.{GivesInput, IsMissing};
ghost use Rattle.plot_rack.specs.Choices.{AreChosen};
ghost use Rattle.plot_rack.specs.Racks.{boxes_of};
ghost use Rattle.solid_mesh.specs.Solids.{solid_part};
ghost use Rattle.draw_core.specs.Run.{HasPlotters, DrawsFiles, RunsDraw, AnswersDrawWords, IsOfJob, IsOfFiles, RunsInOrder};
ghost use Rattle.part_input.specs.Sheets.{PlansSheet, IsOfSheet, IsOfWords, NamesNoFile};
ghost use Rattle.draw_core.specs.inner.Faults.{IsOfOutputs, ReadsInOrder};
ghost use Rattle.draw_core.specs.inner.Taken.{drawn_of, IsDrawn, HasItsPlotters, GoesWhereNamed};
ghost use Rattle.put_texts.specs.Faults.{HasNoWriteFault};

use crate::planned::planned_drawing;
use dec_text::Name;
use desk::Desk;
use draw_words::{Words, WordsError, read_words};
use drawing::{Drawing, Numbered, ViewNumbers};
use job_file::Job;
use part_input::{Fault, fetch_job, fetch_solid, usual_job};
use plot_rack::{Plotter, Rack, RackError};
use solid_mesh::Solid;
use std::alloc::Global;

/// The drawing of what was taken, the sums of the numbers of its views, the plotters for its job's outputs, and the name that it is
/// written under.
#[derive(Drop)]
pub(crate) struct Taken {
    pub(crate) out: Name,
    pub(crate) rack: Rack,
    pub(crate) drawing: Drawing,
    pub(crate) numbers: ViewNumbers,
}

/// The plotters for the outputs of a job, out of these.
fn rack_of(alloc: Global, extras: Vec<Box<dyn Plotter>>, job: &Job) -> Result<Rack, Fault>
    ensures answer { GivesInput (λ _. job_seen job.now) (HasPlotters (map (λ b. (plot b).suffix) extras.items) (job_seen job.now)) result }
    ensures of_outputs { IfErr result IsOfOutputs }
    ensures usual { job.now.outputs.items ≡ [] → IfErr result IsOfUsualJob }
    ensures chosen { IfOk result (λ rack. AreChosen (λ b. (plot b).suffix) extras.items job.now.outputs.items (boxes_of rack)) }
{
    match Rack::choose(alloc, extras, &job.outputs) {
        Ok(rack) => Ok(rack),
        Err(RackError::NoPlotter(place)) => Err(no_plotter(alloc, &job.outputs[place as usize])),
        Err(RackError::Memory(_)) => Err(Fault::Memory),
    }
}

/// The fault of an output without a plotter.
fn no_plotter(alloc: Global, name: &Name) -> Fault
    ensures { (result ≡ Fault.NoPlotter name.now) ⊎ (result ≡ Fault.Memory) }
{
    match Name::new(alloc, name.as_str()) {
        Ok(name) => Fault::NoPlotter(name),
        Err(_) => Fault::Memory,
    }
}

/// The job of the file with this name, or with no name the usual one.
fn take_job<D: Desk>(alloc: Global, name: &Option<Name>, desk: &mut D) -> Result<Job, Fault>
    ensures answer { (D.state desk.old).tells ≡ true →
        GivesInput job_seen (TakesReadJob (D.state desk.old).files name.now) result }
    ensures usual { name.now ≡ None → (files : Files) → GivesInput job_seen (TakesReadJob files name.now) result }
    ensures of_job { IfErr result (IsOfJob name.now) }
    ensures outputs { name.now ≡ None → IfOk result (λ job. job.outputs.items ≡ []) }
    ensures reads { CountsReads (result_err result) (D.state desk.old).read_faults (D.state desk.new).read_faults }
    ensures missing { (D.state desk.old).steady ≡ true →
        IfErr result (IsMissing (TakesReadJob (D.state desk.old).files name.now)) }
    ensures changes { OnlyReads (D.state desk.old) (D.state desk.new) }
{
    match name {
        Some(name) => fetch_job(alloc, name, desk),
        None => usual_job(alloc),
    }
}

/// The drawing of the solid by the job, with what it is written by.
fn draw_solid(alloc: Global, out: Name, job: Job, rack: Rack, solid: Solid) -> Result<Taken, Fault>
    ensures answer { GivesInput drawn_of (PlansSheet (job_seen job) (solid_part solid)) result }
    ensures of_sheet { IfErr result IsOfSheet }
    ensures drawn { IfOk result IsDrawn }
    ensures out { IfOk result (λ taken. taken.out ≡ out) }
    ensures plotters { IfOk result (λ taken. (taken.drawing.job.outputs.items ≡ job.outputs.items) × (boxes_of taken.rack ≡ boxes_of rack)) }
{
    match planned_drawing(alloc, solid, job) {
        Ok(Numbered { drawing, numbers }) => Ok(Taken {
            out,
            rack,
            drawing,
            numbers,
        }),
        Err(fault) => Err(fault),
    }
}

/// The job of the files that were named, its plotters, then the part, and its drawing.
fn take_files<D: Desk>(
    alloc: Global,
    named: Words,
    desk: &mut D,
    extras: Vec<Box<dyn Plotter>>,
) -> Result<Taken, Fault>
    ensures answer { (D.state desk.old).tells ≡ true →
        GivesInput drawn_of (DrawsFiles (map (λ b. (plot b).suffix) extras.items) (D.state desk.old).files (named_seen named)) result }
    ensures no_file { NamesNoFile (named_seen named).job (named_seen named).part → (files : Files) →
        GivesInput drawn_of (DrawsFiles (map (λ b. (plot b).suffix) extras.items) files (named_seen named)) result }
    ensures by_words { IfOk result (λ taken. IsOfWords (named_seen named).job (named_seen named).part (drawn_of taken)) }
    ensures of_files { IfErr result (IsOfFiles (named_seen named)) }
    ensures drawn { IfOk result IsDrawn }
    ensures out { IfOk result (λ taken. taken.out ≡ (named_seen named).out) }
    ensures plotters { IfOk result (HasItsPlotters (λ b. (plot b).suffix) extras.items) }
    ensures order { (D.state desk.old).tells ≡ true →
        IfErr result (ReadsInOrder (map (λ b. (plot b).suffix) extras.items) (D.state desk.old).files (named_seen named)) }
    ensures reads { CountsReads (result_err result) (D.state desk.old).read_faults (D.state desk.new).read_faults }
    ensures missing { (D.state desk.old).steady ≡ true →
        IfErr result (IsMissing (DrawsFiles (map (λ b. (plot b).suffix) extras.items) (D.state desk.old).files (named_seen named))) }
    ensures changes { OnlyReads (D.state desk.old) (D.state desk.new) }
{
    let job = match take_job(alloc, &named.job, desk) {
        Ok(job) => job,
        Err(fault) => return Err(fault),
    };
    let rack = match rack_of(alloc, extras, &job) {
        Ok(rack) => rack,
        Err(fault) => return Err(fault),
    };
    match fetch_solid(alloc, &named.part, &job, desk) {
        Ok(solid) => draw_solid(alloc, named.out, job, rack, solid),
        Err(fault) => Err(fault),
    }
}

/// The drawing that the words ask for, with the plotters out of these.
pub(crate) fn take<D: Desk>(
    alloc: Global,
    words: &[String],
    desk: &mut D,
    extras: Vec<Box<dyn Plotter>>,
) -> Result<Taken, Fault>
    ensures answer { (D.state desk.old).tells ≡ true →
        GivesInput drawn_of (RunsDraw (map (λ b. (plot b).suffix) extras.items) (texts words.now) (D.state desk.old).files) result }
    ensures no_file { IfSome (named_by (texts words.now)) (λ named. NamesNoFile named.job named.part) → (files : Files) →
        GivesInput drawn_of (RunsDraw (map (λ b. (plot b).suffix) extras.items) (texts words.now) files) result }
    ensures by_words { IfOk result (λ taken. IsSomeAnd (named_by (texts words.now)) (λ named. IsOfWords named.job named.part (drawn_of taken))) }
    ensures words { AnswersDrawWords (named_by (texts words.now)) (result_err result) }
    ensures drawn { IfOk result IsDrawn }
    ensures out { IfOk result (GoesWhereNamed (named_by (texts words.now))) }
    ensures plotters { IfOk result (HasItsPlotters (λ b. (plot b).suffix) extras.items) }
    ensures order { (D.state desk.old).tells ≡ true →
        IfErr result (RunsInOrder (map (λ b. (plot b).suffix) extras.items) (texts words.now) (D.state desk.old).files) }
    ensures no_write { HasNoWriteFault (result_err result) }
    ensures reads { CountsReads (result_err result) (D.state desk.old).read_faults (D.state desk.new).read_faults }
    ensures missing { (D.state desk.old).steady ≡ true →
        IfErr result (IsMissing (RunsDraw (map (λ b. (plot b).suffix) extras.items) (texts words.now) (D.state desk.old).files)) }
    ensures changes { OnlyReads (D.state desk.old) (D.state desk.new) }
{
    match read_words(alloc, words) {
        Ok(named) => take_files(alloc, named, desk, extras),
        Err(WordsError::Usage) => Err(Fault::Usage),
        Err(WordsError::Memory(_)) => Err(Fault::Memory),
    }
}
