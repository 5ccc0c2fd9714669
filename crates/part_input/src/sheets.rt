// The sheet on which the views of a job stand.
ghost use Rattle.std.specs.Prelude.{IfOk, IfErr};
ghost use Rattle.solid_mesh.specs.Solids.{solid_part};
ghost use Rattle.sheet_plan.specs.Extents.{AreExtents};
ghost use Rattle.sheet_plan.specs.JobSheets.{IsSheetOf};
ghost use Rattle.part_input.specs.Sheets.{IsNoSheetOf};

use crate::fault::Fault;
use exact_frac::OutOfMemory;
use job_file::{Job, JobView};
use sheet_plan::{Extent, PlanError, Sheet, extent, plan};
use solid_mesh::Solid;
use std::alloc::Global;

/// How far the solid reaches in each view. Goes twice over the corners for each view.
fn extents_of(alloc: Global, solid: &Solid, views: &[JobView]) -> Result<Vec<Extent>, OutOfMemory>
    ensures { IfOk result (λ extents. AreExtents (solid_part solid.now).corners views.now extents.items) }
{
    let mut extents = Vec::new(alloc);
    for view in views {
        extents.push(extent(solid, &view.dir()))?;
    }
    Ok(extents)
}

/// The job's sheet for the solid, on which its views stand apart, within the margins and in line. They may not fit it, and memory may run out.
pub fn sheet_of(alloc: Global, job: &Job, solid: &Solid) -> Result<Sheet, Fault>
    ensures sheet { IfOk result (IsSheetOf job.now (solid_part solid.now).corners) }
    ensures none { IfErr result (IsNoSheetOf job.now (solid_part solid.now).corners) }
{
    let extents = match extents_of(alloc, solid, &job.views) {
        Ok(extents) => extents,
        Err(_) => return Err(Fault::Memory),
    };
    match plan(alloc, job, &extents) {
        Ok(sheet) => Ok(sheet),
        Err(
            PlanError::DoesNotFit {
                need_w,
                need_h,
                have_w,
                have_h,
            },
        ) => Err(Fault::DoesNotFit {
            need_w,
            need_h,
            have_w,
            have_h,
        }),
        Err(PlanError::Memory(_)) => Err(Fault::Memory),
    }
}
