// The views of a job, drawn.
ghost use Rattle.std.specs.Prelude.{◌≤◌, length, map, IfOk};
ghost use Rattle.std.specs.List.{AllZip};
ghost use Rattle.lattice.specs.Cuts.{plane_of};
ghost use Rattle.job_file.specs.ShownCuts.{planes_in};
ghost use Rattle.drawing.specs.Drawing.{ShowsJobView};
ghost use Rattle.drawing.specs.Numbers.{SumsViews};

use exact_frac::OutOfMemory;
use job_file::{JobView, cuts_in};
use lattice::{Crease, Cut};
use solid_mesh::Solid;
use std::alloc::Global;
use view_lines::{ViewDrawing, ViewLines, ViewNumbers, view_lines};

/// Views, and the sums of their numbers.
#[derive(Drop)]
pub(crate) struct Views {
    pub views: Vec<ViewDrawing>,
    pub numbers: ViewNumbers,
}

/// The views that are asked for, in their order, with the traces of these cuts.
fn views_with(
    alloc: Global,
    solid: &Solid,
    crease: Crease,
    cuts: &[Cut],
    spacing: u32,
    asked: &[JobView],
) -> Result<Views, OutOfMemory>
    requires spacing { 1 ≤ spacing }
    requires few { length asked.now ≤ 12 }
    ensures shows { IfOk result (λ x. AllZip (ShowsJobView solid.now crease (map plane_of cuts.now) spacing) asked.now x.views.items) }
    ensures sums { IfOk result (λ x. SumsViews solid.now crease asked.now x.numbers) }
    ensures tested { IfOk result (λ x. x.numbers.tests ≤ x.numbers.bound) }
    ensures cut_tested { IfOk result (λ x. x.numbers.cut_tests ≤ x.numbers.cut_bound) }
    ensures celled { IfOk result (λ x. x.numbers.cells ≤ x.numbers.cell_bound) }
{
    let mut views = Vec::new(alloc);
    let mut sums = ViewNumbers::none();
    for view in asked {
        let ViewLines { view, numbers } = view_lines(
            alloc, solid, &view.spec, crease, cuts, spacing,
        )?;
        sums = sums.plus(numbers);
        views.push(view)?;
    }
    Ok(Views {
        views,
        numbers: sums,
    })
}

/// All views that are asked for, in their order, with the traces of the cuts among them.
pub(crate) fn views_of(
    alloc: Global,
    solid: &Solid,
    crease: Crease,
    spacing: u32,
    asked: &[JobView],
) -> Result<Views, OutOfMemory>
    requires spacing { 1 ≤ spacing }
    requires few { length asked.now ≤ 12 }
    ensures shows { IfOk result (λ x. AllZip (ShowsJobView solid.now crease (planes_in asked.now) spacing) asked.now x.views.items) }
    ensures sums { IfOk result (λ x. SumsViews solid.now crease asked.now x.numbers) }
    ensures tested { IfOk result (λ x. x.numbers.tests ≤ x.numbers.bound) }
    ensures cut_tested { IfOk result (λ x. x.numbers.cut_tests ≤ x.numbers.cut_bound) }
    ensures celled { IfOk result (λ x. x.numbers.cells ≤ x.numbers.cell_bound) }
{
    let cuts = cuts_in(alloc, asked)?;
    views_with(alloc, solid, crease, &cuts, spacing, asked)
}
