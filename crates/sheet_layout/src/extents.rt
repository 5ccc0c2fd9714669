// How far a solid reaches in each view of a job.
ghost use Rattle.std.specs.Prelude.{IfOk};
ghost use Rattle.solid_mesh.specs.Solids.{solid_part};
ghost use Rattle.sheet_plan.specs.Extents.{AreExtents};

use exact_frac::OutOfMemory;
use job_file::JobView;
use sheet_plan::{Extent, extent};
use solid_mesh::Solid;
use std::alloc::Global;

/// How far the solid reaches in each view. Goes twice over the corners for each view.
pub(crate) fn extents_of(
    alloc: Global,
    solid: &Solid,
    views: &[JobView],
) -> Result<Vec<Extent>, OutOfMemory>
    ensures { IfOk result (λ extents. AreExtents (solid_part solid.now).corners views.now extents.items) }
{
    let mut extents = Vec::new(alloc);
    for view in views {
        extents.push(extent(solid, &view.dir()))?;
    }
    Ok(extents)
}
