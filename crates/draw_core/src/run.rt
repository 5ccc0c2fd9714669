// The top call: from the words and a desk to a drawing.
ghost use Rattle.std.specs.Prelude.{◌≡◌, ◌⊎◌, true, None, Some, map, IfOk, IfSome, IfNone, is_some, string_bytes};
ghost use Rattle.desk.specs.Files.{OnlyWarns};
ghost use Rattle.draw_words.specs.Names.{named_by};
ghost use Rattle.draw_words.specs.Seen.{texts};
ghost use Rattle.draw_core.specs.inner.Taken.{drawn_of, IsDrawn};
ghost use Rattle.plot_rack.specs.Racks.{boxes_of};
ghost use Rattle.part_input.specs.Causes.{common};
ghost use Rattle.part_input.specs.Faults.{status_of};
ghost use Rattle.draw_core.specs.Run.{draw_run};
ghost use Rattle.draw_core.specs.inner.Faults.{IsWriteOutcome};
ghost use Rattle.draw_core.specs.Lines.{IsSilent};
ghost use Rattle.draw_core.specs.inner.Warned.{Warns, WarnsWhole};
ghost use Rattle.fault_lines.specs.Lines.{NamesNothing};
ghost use Rattle.drawing.specs.Drawing.{drawn_in, IsPlannedDrawing};
ghost use Rattle.draw_core.specs.Drawing.{WritesNamed};
ghost use Rattle.draw_core.specs.inner.Kept.{AreRackFiles, WritesRack};
ghost use Rattle.draw_core.specs.Summary.{IsSummaryOf, SaysMade, SaysSummary};
ghost use Rattle.put_texts.specs.Desks.{HearsAll, OnlyWrites};
ghost use Rattle.put_texts.specs.Faults.{CountsWrites, HasNoWriteFault, IsThereOf};
ghost use Rattle.put_texts.specs.Runs.{IsRun};

use crate::keep::write_all;
use crate::lines::{MEMORY_LINE, draw_line};
use crate::made::outputs_of;
use crate::outcome::Outcome;
use crate::outputs::Output;
use crate::pages::page_text;
use crate::summary::{Summary, summary_of};
use crate::take::{Taken, take};
use dec_text::Name;
use desk::Desk;
use drawing::{Drawing, strokes_of};
use exact_frac::OutOfMemory;
use part_input::Fault;
use plot_rack::{Plotter, Rack};
use put_texts::warn;
use std::alloc::Global;
use svg_page::svg;

/// A drawing, its files and its summary.
#[derive(Drop)]
struct Made {
    drawing: Drawing,
    outputs: Vec<Output>,
    summary: Summary,
}

/// The files of a drawing with this name, from its strokes, which the plotters draw.
fn plotted_files(
    alloc: Global,
    out: Name,
    rack: Rack,
    drawing: &Drawing,
) -> Result<Vec<Output>, OutOfMemory>
    requires { IsPlannedDrawing drawing.now }
    ensures { IfOk result (λ outputs. AreRackFiles (λ b. plot (b.vtable, b.value)) (boxes_of rack) drawing.now out outputs.items) }
{
    let mut rack = rack;
    let strokes = strokes_of(alloc, &drawing.sheet, &drawing.views)?;
    rack.draw(drawing.sheet.width, drawing.sheet.height, &strokes)?;
    let text = svg(alloc, &drawing.sheet, &drawing.job.title, &strokes)?;
    let outputs = outputs_of(alloc, out, text, &rack)?;
    Ok(outputs)
}

/// The files of a drawing with this name. Where no plotter draws, no list of its strokes is made.
fn files_of(
    alloc: Global,
    out: Name,
    rack: Rack,
    drawing: &Drawing,
) -> Result<Vec<Output>, OutOfMemory>
    requires { IsPlannedDrawing drawing.now }
    ensures { IfOk result (λ outputs. AreRackFiles (λ b. plot (b.vtable, b.value)) (boxes_of rack) drawing.now out outputs.items) }
{
    if rack.len() != 0 {
        return plotted_files(alloc, out, rack, drawing);
    }
    let text = page_text(alloc, &drawing.sheet, &drawing.job.title, &drawing.views)?;
    let outputs = outputs_of(alloc, out, text, &rack)?;
    Ok(outputs)
}

/// The files and the summary of the drawing of what was taken.
fn made_of(alloc: Global, taken: Taken) -> Result<Made, OutOfMemory>
    requires { IsDrawn taken }
    ensures drawn { IfOk result (λ made. drawn_in made.drawing ≡ drawn_of taken) }
    ensures shows { IfOk result (λ made. IsPlannedDrawing made.drawing) }
    ensures summary { IfOk result (λ made. IsSummaryOf made.drawing (string_bytes made.summary.text)) }
    ensures files { IfOk result (λ made. AreRackFiles (λ b. plot (b.vtable, b.value)) (boxes_of taken.rack) made.drawing taken.out made.outputs.items) }
{
    let Taken {
        out,
        rack,
        drawing,
        numbers,
    } = taken;
    let outputs = files_of(alloc, out, rack, &drawing)?;
    let summary = summary_of(alloc, &drawing, &numbers)?;
    Ok(Made {
        drawing,
        outputs,
        summary,
    })
}

/// An end without a drawing.
fn ended(fault: Fault) -> Outcome
    ensures status { result.status ≡ status_of result.fault }
    ensures fault { result.fault ≡ Some fault }
    ensures none { result.drawing ≡ None }
{
    Outcome {
        status: fault.status(),
        fault: Some(fault),
        drawing: None,
    }
}

/// Ends a run with a fault, and warns of it. Where its line finds no memory, the fault is want of memory.
fn refuse<D: Desk>(alloc: Global, fault: Fault, desk: &mut D) -> Outcome
    ensures status { result.status ≡ status_of result.fault }
    ensures none { result.drawing ≡ None }
    ensures fault { (result.fault ≡ Some fault) ⊎ (result.fault ≡ Some Fault.Memory) }
    ensures told { NamesNothing fault → result.fault ≡ Some fault }
    ensures warned { (D.state desk.old).tells_warned ≡ true →
        Warns result.fault (D.state desk.old).warned (D.state desk.new).warned }
    ensures whole { HearsAll (D.state desk.old) (D.state desk.new) →
        WarnsWhole result.fault (D.state desk.old).warned (D.state desk.new).warned }
    ensures changes { OnlyWarns (D.state desk.old) (D.state desk.new) }
{
    match draw_line(alloc, &fault) {
        Ok(line) => {
            warn(line.as_str(), desk);
            ended(fault)
        }
        Err(_) => {
            warn(MEMORY_LINE, desk);
            ended(Fault::Memory)
        }
    }
}

/// Writes the drawing of what was taken, and says its summary.
fn write_drawing<D: Desk>(alloc: Global, taken: Taken, desk: &mut D) -> Outcome
    requires { IsDrawn taken }
    ensures status { result.status ≡ status_of result.fault }
    ensures fault { IfSome result.fault IsWriteOutcome }
    ensures drawn { IsThereOf common result.fault (is_some result.drawing) }
    ensures made { IfSome result.drawing (λ d. drawn_in d ≡ drawn_of taken) }
    ensures shows { IfSome result.drawing IsPlannedDrawing }
    ensures files { (D.state desk.old).tells ≡ true →
        IfSome result.drawing (WritesRack (λ b. plot (b.vtable, b.value)) (boxes_of taken.rack) result.fault (D.state desk.old).files (D.state desk.new).files taken.out) }
    ensures untouched { IfNone result.drawing ((D.state desk.new).files ≡ (D.state desk.old).files) }
    ensures said { (D.state desk.old).tells_said ≡ true →
        IfSome result.drawing (SaysSummary result.fault (D.state desk.old).said (D.state desk.new).said) }
    ensures unsaid { IfNone result.drawing ((D.state desk.new).said ≡ (D.state desk.old).said) }
    ensures firm { (D.state desk.old).firm ≡ true → result.fault ≡ Some Fault.Memory → result.drawing ≡ None }
    ensures writes { CountsWrites result.fault (D.state desk.old).write_faults (D.state desk.new).write_faults }
    ensures steady { (D.state desk.old).steady ≡ true → HasNoWriteFault result.fault }
    ensures warned { (D.state desk.old).tells_warned ≡ true →
        Warns result.fault (D.state desk.old).warned (D.state desk.new).warned }
    ensures whole { HearsAll (D.state desk.old) (D.state desk.new) →
        WarnsWhole result.fault (D.state desk.old).warned (D.state desk.new).warned }
    ensures quiet { IfNone result.fault ((D.state desk.new).warn_faults ≡ (D.state desk.old).warn_faults) }
    ensures changes { OnlyWrites (D.state desk.old) (D.state desk.new) }
{
    let made = match made_of(alloc, taken) {
        Ok(made) => made,
        Err(_) => return refuse(alloc, Fault::Memory, desk),
    };
    let fault = write_all(&made.outputs, &made.summary, desk);
    Outcome {
        status: Fault::end_status(&fault),
        fault,
        drawing: Some(made.drawing),
    }
}

/// Reads the job and the part that the words name, draws the job's views on their sheet and writes it under the name that they
/// give, or `drawing.svg`, and beside it the texts of the plotters that the job's outputs choose out of `extras`; all others
/// are dropped. The cuts of a job are chain lines in its plain views. At the end it says the summary, a line with the drawing's
/// numbers. Without a job it is the usual one: front, above and left. Of a fault it warns once, by one line.
///
/// The faults are looked for in this order: the words, the job's bytes, its text, its outputs, a sample's size, the part's bytes, its
/// text, whether it has a triangle, its surface, whether the views fit the sheet, the drawing's files, in their order, the summary.
/// Want of memory may be answered at any place; then some first files stand whole, perhaps none, and the others are as before,
/// nothing is said, and where there is no drawing no file has changed. Time is about linear in the bytes of the job and of the
/// part; for the check that of sorting, and for each edge of a walk over a tree of the triangles' bounds, which is short where few
/// triangles are near and goes over all of them where all bounds overlap; and for each view, for its spans that of the cells that are
/// counted for its grid of outlines, at most its cell bound, of the tests, and of sorting each edge's crossings, and for the pieces
/// and the hatch lines that of sorting the spans and the crossings of borders with hatch lines. In a plain view the tests are at most
/// its bound, and few where a cell has few outlines, in the view of a cut at most its cut bound.
pub fn draw<D: Desk>(
    alloc: Global,
    words: &[String],
    desk: &mut D,
    extras: Vec<Box<dyn Plotter>>,
) -> Outcome
    // It is a run of the steps that the words ask for, from the files at entry, with the plotters that are handed in.
    ensures run { IsRun (draw_run (map (λ b. (plot b).suffix) extras.items) (texts words.now)) result.status result.fault result.drawing (D.state desk.old) (D.state desk.new) }

    // The drawing shows the part by the job; its text is what its file holds, and beside it stand those of the plotters.
    ensures shows { IfSome result.drawing IsPlannedDrawing }
    ensures files { (D.state desk.old).tells ≡ true →
        IfSome result.drawing (WritesNamed (map (λ b. plot b) extras.items) (named_by (texts words.now)) result.fault (D.state desk.old).files (D.state desk.new).files) }

    // Of a drawing it says the summary, after its files, and else nothing.
    ensures said { SaysMade result.drawing result.fault (D.state desk.old) (D.state desk.new) }

    // Without a fault it doesn't warn.
    ensures quiet { IfNone result.fault (IsSilent (D.state desk.old) (D.state desk.new)) }
{
    match take(alloc, words, desk, extras) {
        Ok(taken) => write_drawing(alloc, taken, desk),
        Err(fault) => refuse(alloc, fault, desk),
    }
}
