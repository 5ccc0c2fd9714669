// Which cuts of a job go through a solid.
ghost use Rattle.std.specs.Prelude.{◌≡◌, ◌↔◌, ◌≤◌, ◌^◌, ◌<ℤ◌, ◌≤ℤ◌, unsigned_abs, IsTrue, IfOk};
ghost use Rattle.std.specs.List.{AllZip};
ghost use Rattle.lattice.specs.Cuts.{level_of, plane_of};
ghost use Rattle.geometry.specs.Traces.{GoesThrough};
ghost use Rattle.solid_mesh.specs.Solids.{solid_part};
ghost use Rattle.sheet_layout.specs.Layouts.{AreThrough, IsThrough};

use exact_frac::OutOfMemory;
use job_file::JobView;
use lattice::{Cut, ViewSpec};
use sheet_plan::reach_along;
use solid_mesh::Solid;
use std::alloc::Global;

/// The height of the cut's place, as its viewer sees it.
fn level(cut: &Cut) -> i64
    ensures value { result ≡ level_of (plane_of cut.now) }
    ensures size { unsigned_abs result ≤ 2 ^ 20 }
{
    if cut.from_high() { cut.at() } else { -cut.at() }
}

/// The plane is right below its level: there are corners on both of its sides.
fn is_amid(lowest: i64, level: i64, topmost: i64) -> bool
    ensures { IsTrue result ↔ ((lowest <ℤ level) × (level ≤ℤ topmost)) }
{
    lowest < level && level <= topmost
}

/// The plane of the cut goes through the solid: corners are on both sides of it. Goes once over them.
pub fn goes_through(solid: &Solid, cut: &Cut) -> bool
    ensures { IsTrue result ↔ GoesThrough (plane_of cut.now) (solid_part solid.now).corners }
{
    let height = reach_along(solid, &cut.dir().vector());
    is_amid(height.least, level(cut), height.greatest)
}

/// A view shows a cut that goes through the solid.
fn is_through(solid: &Solid, spec: &ViewSpec) -> bool
    ensures { IsThrough (solid_part solid.now).corners spec.now result }
{
    match spec {
        ViewSpec::Plain(_) => false,
        ViewSpec::Section(cut) => goes_through(solid, cut),
    }
}

/// Which views show such cuts. Goes once over the corners for each cut.
pub(crate) fn through_of(
    alloc: Global,
    solid: &Solid,
    views: &[JobView],
) -> Result<Vec<bool>, OutOfMemory>
    ensures { IfOk result (λ through. AreThrough (solid_part solid.now).corners views.now through.items) }
{
    let mut through = Vec::new(alloc);
    for view in views {
        through.push(is_through(solid, &view.spec))?;
    }
    Ok(through)
}
