// The detail of a view of a job.
ghost use Rattle.std.specs.Prelude.{◌<◌, length, IfOk};
ghost use Rattle.lattice.specs.Creases.{fraction_of};
ghost use Rattle.job_file.specs.declared.view.JobView.{JobView};
ghost use Rattle.solid_mesh.specs.Solids.{solid_part};
ghost use Rattle.job_file.specs.ShownCuts.{planes_in};
ghost use Rattle.drawing_laws.specs.Views.{IsOrderedView};
ghost use Rattle.piece_verify.specs.Checked.{IsViewOf};
ghost use Rattle.detail_pieces.specs.Details.{IsDetailView};

use crate::clipping::clip;
use crate::windows::Window;
use exact_frac::OutOfMemory;
use job_file::Job;
use lattice::Piece;
use line_merge::merge;
use piece_verify::{view_dir, view_strips};
use solid_mesh::Solid;
use std::alloc::Global;

/// The pieces of what a view of the job shows in the window, in their order: the view's strips, found by a direct test of all
/// faces along each edge, clipped and then put together.
pub fn detail_of(
    alloc: Global,
    solid: &Solid,
    job: &Job,
    view: u32,
    window: &Window,
) -> Result<Vec<Piece>, OutOfMemory>
    requires { view < length job.now.views.items }
    ensures detail { (asked : JobView) → IsViewOf job.now view asked →
        IfOk result (λ pieces. IsDetailView asked.spec window.now (fraction_of job.now.crease) (solid_part solid.now) (planes_in job.now.views.items) pieces.items) }
    ensures order { (asked : JobView) → IsViewOf job.now view asked → IfOk result (λ pieces. IsOrderedView asked.spec pieces.items) }
{
    let strips = view_strips(alloc, solid, job, view)?;
    let d = view_dir(job, view);
    let clipped = clip(alloc, &d, &strips, window)?;
    merge(alloc, &d, &clipped)
}
