// The layout of a job's views of a solid.
ghost use Rattle.std.specs.Prelude.{◌≡◌, IfOk, IfErr};
ghost use Rattle.job_file.specs.Seen.{job_seen};
ghost use Rattle.solid_mesh.specs.Solids.{solid_part};
ghost use Rattle.sheet_input.specs.Seen.{any_seen};
ghost use Rattle.sheet_input.specs.Sheets.{job_on, on_paper, wish_of};
ghost use Rattle.sheet_input.specs.inner.Taking.{IsDrawnFor, IsLaidFor, IsOnOwnPaper, IsSameButPaper, IsUnlaid};

use crate::fault::SheetFault;
use crate::refusal::{Refusal, Told, plain, short};
use cut_marks::sides_for;
use job_file::{Job, Paper};
use sheet_job::AnyJob;
use sheet_layout::{Layout, LayoutError, Wish, lay_out};
use solid_mesh::Solid;
use std::alloc::Global;

/// What a job asks of its layout. One of version 3 may leave the paper to it.
pub(crate) fn wish_of(job: &AnyJob) -> Wish
    ensures { result ≡ wish_of (any_seen job.now) }
{
    match job {
        AnyJob::Older(_) => Wish {
            any_paper: false,
            older: true,
        },
        AnyJob::Own(job) => Wish {
            any_paper: job.any_paper,
            older: false,
        },
    }
}

/// The layout of a job's views of a solid.
pub(crate) fn laid_out(
    alloc: Global,
    solid: &Solid,
    job: &Job,
    wish: Wish,
) -> Result<Layout, Refusal>
    ensures laid { IfOk result (IsLaidFor job.now (solid_part solid.now).corners wish) }
    ensures on_paper { IfOk result (IsOnOwnPaper job.now wish) }
    ensures refused { IfErr result (λ r. IsUnlaid job.now (solid_part solid.now).corners wish r.fault) }
    ensures told { IfErr result (λ r. r.told ≡ Told.Nothing) }
{
    let sides = match sides_for(alloc, job) {
        Ok(sides) => sides,
        Err(_) => return Err(short()),
    };
    match lay_out(alloc, solid, job, &sides, wish) {
        Ok(layout) => Ok(layout),
        Err(LayoutError::NoRoom(lack)) => Err(plain(SheetFault::NoRoom(lack))),
        Err(LayoutError::Memory(_)) => Err(short()),
    }
}

/// The job on another paper.
fn on_paper(job: Job, paper: Paper) -> Job
    ensures value { job_seen result ≡ on_paper paper (job_seen job) }
    ensures paper { result.paper ≡ paper }
    ensures same { IsSameButPaper job result }
{
    Job {
        decimals: job.decimals,
        third: job.third,
        paper,
        scale: job.scale,
        crease: job.crease,
        title: job.title,
        outputs: job.outputs,
        unit: job.unit,
        portrait: job.portrait,
        views: job.views,
    }
}

/// The job that is drawn: where any paper will do, it has that of its sheet.
pub(crate) fn job_for(job: Job, wish: Wish, paper: Paper) -> Job
    ensures value { job_seen result ≡ job_on wish paper (job_seen job) }
    ensures same { IsDrawnFor wish paper job result }
{
    if wish.any_paper {
        on_paper(job, paper)
    } else {
        job
    }
}
