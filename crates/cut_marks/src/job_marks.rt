// The marks of a drawing's cuts, view by view.
ghost use Rattle.std.specs.Prelude.{◌≡◌, ◌<◌, ◌≤◌, length, take, IfOk};
ghost use Rattle.job_file.specs.declared.view.JobView.{JobView};
ghost use Rattle.solid_mesh.specs.Solids.{solid_part};
ghost use Rattle.lattice.specs.ShownCuts.{cuts_of};
ghost use Rattle.job_file.specs.ShownCuts.{cuts_in};
ghost use Rattle.cut_marks.specs.Marks.{IsHeaded, ArePlainMarks, IsMarked, AreMarked};
ghost use Rattle.cut_marks.specs.Reach.{AreInReach, NoneTouch};

use crate::areas::room_area;
use crate::figures::{Heading, heading_over, marks_in};
use crate::heading_rooms::room_over;
use crate::lanes::{Told, laned};
use crate::letters::letter_of;
use crate::traces::traces_in;
use crate::views::ViewMarks;
use cut_plane::has_segment;
use exact_frac::OutOfMemory;
use job_file::{JobView, cuts_in};
use lattice::{Cut, ViewSpec};
use sheet_layout::Sides;
use sheet_plan::{Sheet, ViewBox};
use solid_mesh::Solid;
use std::alloc::Global;

/// The marks in the plain view with this number.
fn plain_marks(
    alloc: Global,
    solid: &Solid,
    sheet: &Sheet,
    sides: &[Sides],
    shrunk: bool,
    view: u32,
    cuts: &[Cut],
) -> Result<ViewMarks, OutOfMemory>
    requires placed { view < length sheet.now.places.items }
    requires asked { view < length sides.now }
    requires few { length cuts.now ≤ 12 }
    ensures { IfOk result (ArePlainMarks sheet.now sides.now shrunk (solid_part solid.now) cuts.now view) }
{
    let b = ViewBox::of(solid, sheet, view);
    let room = room_area(shrunk, &sides[view as usize], &b);
    let traces = traces_in(alloc, solid, sheet, view, cuts)?;
    let Told { laned, left_out } = laned(alloc, &b, &room, &traces)?;
    let marks = marks_in(alloc, &b, &laned)?;
    Ok(ViewMarks {
        heading: None,
        marks,
        left_out,
    })
}

/// The heading of the cut view with this number, which shows the cut with the other number.
fn heading_of(
    solid: &Solid,
    sheet: &Sheet,
    sides: &[Sides],
    shrunk: bool,
    view: u32,
    number: usize,
    cut: &Cut,
) -> Heading
    requires placed { view < length sheet.now.places.items }
    requires asked { view < length sides.now }
    requires few { number < 12 }
    ensures { IsHeaded sheet.now sides.now shrunk (solid_part solid.now) view number cut.now result }
{
    let b = ViewBox::of(solid, sheet, view);
    let asked = &sides[view as usize];
    let room = room_over(shrunk, asked, &b);
    heading_over(&b, room, letter_of(number), cut, has_segment(solid, cut))
}

/// What tells the cuts in the view with this number, which shows this, where so many cuts are shown before it.
fn view_marks(
    alloc: Global,
    solid: &Solid,
    sheet: &Sheet,
    sides: &[Sides],
    shrunk: bool,
    view: u32,
    cuts: &[Cut],
    number: usize,
    spec: &ViewSpec,
) -> Result<ViewMarks, OutOfMemory>
    requires placed { view < length sheet.now.places.items }
    requires asked { view < length sides.now }
    requires few { length cuts.now ≤ 12 }
    requires fewer { number < 12 }
    ensures { IfOk result (IsMarked sheet.now sides.now shrunk (solid_part solid.now) cuts.now view number spec.now) }
{
    match spec {
        ViewSpec::Plain(_) => plain_marks(alloc, solid, sheet, sides, shrunk, view, cuts),
        ViewSpec::Section(cut) => Ok(ViewMarks {
            heading: Some(heading_of(solid, sheet, sides, shrunk, view, number, cut)),
            marks: Vec::new(alloc),
            left_out: Vec::new(alloc),
        }),
    }
}

/// How many cuts the first so many views show.
fn count_below(views: &[JobView], end: usize) -> usize
    requires { end ≤ length views.now }
    ensures value { result ≡ length (cuts_in (take end views.now)) }
    ensures size { result ≤ end }
{
    let mut count = 0;
    for i in 0..end {
        count += views[i].spec.cuts();
    }
    count
}

/// What tells the cuts of a job in each of its views, in their order, on this sheet of the solid. Each view has on its sides what it asks
/// for, or 7.5 mm if they are shrunk. It costs a few passes over the corners for each view and cut.
pub fn marks(
    alloc: Global,
    solid: &Solid,
    sheet: &Sheet,
    sides: &[Sides],
    shrunk: bool,
    views: &[JobView],
) -> Result<Vec<ViewMarks>, OutOfMemory>
    requires placed { length views.now ≤ length sheet.now.places.items }
    requires asked { length views.now ≤ length sides.now }
    requires few { length views.now ≤ 12 }
    ensures marked { IfOk result (λ marks. AreMarked sheet.now sides.now shrunk (solid_part solid.now) (cuts_in views.now) views.now marks.items) }
    ensures in_reach { IfOk result (λ marks. AreInReach sheet.now (solid_part solid.now).corners sides.now shrunk marks.items) }
    ensures none_touch { IfOk result (λ marks. NoneTouch marks.items) }
{
    let cuts = cuts_in(alloc, views)?;
    let mut marks = Vec::new(alloc);
    for view in 0..views.len() {
        let number = count_below(views, view);
        marks.push(view_marks(
            alloc,
            solid,
            sheet,
            sides,
            shrunk,
            view as u32,
            &cuts,
            number,
            &views[view].spec,
        )?)?;
    }
    Ok(marks)
}
