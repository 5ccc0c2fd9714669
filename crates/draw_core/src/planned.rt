// The drawing of a solid by a job, on the sheet that is planned for both.
ghost use Rattle.std.specs.Prelude.{◌≡◌, IfOk, IfErr};
ghost use Rattle.std.specs.Result.{result_err};
ghost use Rattle.job_file.specs.Seen.{job_seen};
ghost use Rattle.part_input.specs.Sheets.{PlansSheet, IsOfSheet};
ghost use Rattle.part_input.specs.Steps.{GivesInput, IsAnswerOf};
ghost use Rattle.solid_mesh.specs.Solids.{solid_part};
ghost use Rattle.drawing.specs.Drawing.{IsPlannedDrawing, drawn_in};
ghost use Rattle.drawing.specs.Numbers.{SumsViews};

use drawing::{Drawing, Numbered, drawing_on};
use job_file::Job;
use part_input::{Fault, sheet_of};
use solid_mesh::Solid;
use std::alloc::Global;

/// The drawing of the solid by the job, with its numbers. The views may not fit the job's sheet, and memory may run out.
pub(crate) fn planned_drawing(alloc: Global, solid: Solid, job: Job) -> Result<Numbered, Fault>
    ensures answer { GivesInput (λ made. drawn_in made.drawing) (PlansSheet (job_seen job) (solid_part solid)) result }
    ensures of_sheet { IfErr result IsOfSheet }
    ensures outputs { IfOk result (λ made. made.drawing.job.outputs.items ≡ job.outputs.items) }
    ensures shows { IfOk result (λ made. IsPlannedDrawing made.drawing) }
    ensures sums { IfOk result (λ made. SumsViews made.drawing.solid made.drawing.job.crease made.drawing.job.views.items made.numbers) }
{
    let sheet = match sheet_of(alloc, &job, &solid) {
        Ok(sheet) => sheet,
        Err(fault) => return Err(fault),
    };
    match drawing_on(alloc, solid, job, sheet) {
        Ok(made) => Ok(made),
        Err(_) => Err(Fault::Memory),
    }
}

/// The drawing of the solid by the job, as a run makes it, for programs that publish drawings in another form. It needs no desk.
/// The views may not fit the job's sheet, and memory may run out.
pub fn drawing_of(alloc: Global, solid: Solid, job: Job) -> Result<Drawing, Fault>
    // It is of the job and the part, or is refused as the views don't fit their sheet.
    ensures answer { GivesInput drawn_in (PlansSheet (job_seen job) (solid_part solid)) result }
    ensures of_sheet { IfErr result IsOfSheet }
    ensures complete { IsAnswerOf (PlansSheet (job_seen job) (solid_part solid)) (result_err result) }
    ensures shows { IfOk result IsPlannedDrawing }
{
    match planned_drawing(alloc, solid, job) {
        Ok(made) => Ok(made.drawing),
        Err(fault) => Err(fault),
    }
}
