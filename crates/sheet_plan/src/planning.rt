// How the sheet of a job is planned: at the scale that it asks for, or at the first that fits.
ghost use Rattle.std.specs.Prelude.{◌≡◌, ◌↔◌, ◌<◌, IsTrue, length, IfOk, IfErr, slice_get, None, Some};
ghost use Rattle.sheet_plan.specs.Boxes.{ViewsAreApart, ViewsAreWithinMargins, StandInColumn, StandInRow};
ghost use Rattle.sheet_plan.specs.Layout.{HaveRoom};
ghost use Rattle.sheet_plan.specs.Numbers.{measure_of};
ghost use Rattle.sheet_plan.specs.inner.Sizes.{AreShapes};
ghost use Rattle.sheet_plan.specs.Plans.{paper_width, paper_height, sheet_width, sheet_height, fit_dens, IsSheetAt, IsPlanned, IsSheetRefused};
ghost use Rattle.sheet_plan.specs.inner.Refusals.{IsRefusedAt};

use crate::bounds::Extent;
use crate::cells::Shape;
use crate::errors::PlanError;
use crate::formats::Format;
use crate::layout::{Need, need_of, places};
use crate::numbers::Ruler;
use crate::shapes::shapes;
use crate::sheet::Sheet;
use job_file::{Job, Paper, Scale};
use std::alloc::Global;

/// The sheet of a job, whose views reach as far as `extents` say, in their order: those that `extent` gives for one solid and
/// the directions of the views. Named views stand in a grid, in first-angle or in third-angle projection, and all others in
/// one row beneath it. Where the job asks for no scale, it is the first of 1:1, 1:2, 1:5, 1:10, 1:20, 1:50 and 1:100 at which
/// the views fit. They don't fit where they need more than the sheet has, beside its margins and its title.
///
/// Of the boxes of two views one is at least 15 mm to the left of the other, or so far above it. All are at least 20 mm from
/// the sheet's edges, and 40 mm from the lower one. The front view and those above and below it have equal `x0`, and the
/// front view and those beside it equal `y0`.
///
/// Takes time that grows with the number of views.
pub fn plan(alloc: Global, job: &Job, extents: &[Extent]) -> Result<Sheet, PlanError>
    requires { length job.now.views.items ≡ length extents.now }
    ensures planned { IfOk result (IsPlanned job.now extents.now) }
    ensures refused { IfErr result (IsSheetRefused job.now extents.now) }
    ensures apart { IfOk result (ViewsAreApart extents.now) }
    ensures within_margins { IfOk result (ViewsAreWithinMargins extents.now) }
    ensures columns { IfOk result (StandInColumn job.now extents.now) }
    ensures rows { IfOk result (StandInRow job.now extents.now) }
{
    match job.scale {
        Some(scale) => plan_at(alloc, job, extents, scale),
        None => fit(alloc, job, extents),
    }
}

/// The sheet at the first scale that fits.
fn fit(alloc: Global, job: &Job, extents: &[Extent]) -> Result<Sheet, PlanError>
    requires none { job.now.scale ≡ None }
    requires count { length job.now.views.items ≡ length extents.now }
    ensures planned { IfOk result (IsPlanned job.now extents.now) }
    ensures refused { IfErr result (IsSheetRefused job.now extents.now) }
{
    for i in 0..6 {
        match plan_at(alloc, job, extents, fit_scale(i)) {
            Ok(sheet) => return Ok(sheet),
            Err(PlanError::Memory(error)) => return Err(PlanError::Memory(error)),
            Err(
                PlanError::DoesNotFit {
                    need_w: _,
                    need_h: _,
                    have_w: _,
                    have_h: _,
                },
            ) => {}
        }
    }
    plan_at(alloc, job, extents, fit_scale(6))
}

/// The scales that are tried, one after the other.
fn fit_scale(i: u32) -> Scale
    requires { i < 7 }
    ensures num { result.num ≡ 1 }
    ensures den { slice_get fit_dens i ≡ Some result.den }
{
    match i {
        0 => Scale { num: 1, den: 1 },
        1 => Scale { num: 1, den: 2 },
        2 => Scale { num: 1, den: 5 },
        3 => Scale { num: 1, den: 10 },
        4 => Scale { num: 1, den: 20 },
        5 => Scale { num: 1, den: 50 },
        _ => Scale { num: 1, den: 100 },
    }
}

/// The sheet at this scale.
fn plan_at(alloc: Global, job: &Job, extents: &[Extent], scale: Scale) -> Result<Sheet, PlanError>
    requires { length job.now.views.items ≡ length extents.now }
    ensures planned { IfOk result (IsSheetAt job.now extents.now scale.num scale.den) }
    ensures refused { IfErr result (IsRefusedAt job.now extents.now scale.num scale.den) }
{
    let ruler = Ruler {
        scale,
        decimals: job.decimals,
    };
    let shapes = match shapes(alloc, job.third, &ruler, &job.views, extents) {
        Ok(shapes) => shapes,
        Err(error) => return Err(PlanError::Memory(error)),
    };
    sheet_with(alloc, job, extents, scale, &shapes)
}

/// The sheet with the views of these shapes.
fn sheet_with(
    alloc: Global,
    job: &Job,
    extents: &[Extent],
    scale: Scale,
    shapes: &[Shape],
) -> Result<Sheet, PlanError>
    requires count { length job.now.views.items ≡ length extents.now }
    requires shapes { AreShapes job.now.third (measure_of scale job.now.decimals) job.now.views.items extents.now shapes.now }
    ensures planned { IfOk result (IsSheetAt job.now extents.now scale.num scale.den) }
    ensures refused { IfErr result (IsRefusedAt job.now extents.now scale.num scale.den) }
{
    let need = need_of(shapes);
    let format = format_of(job.paper, job.portrait);
    if !fits(&need, &format) {
        return Err(PlanError::DoesNotFit {
            need_w: need.width,
            need_h: need.height,
            have_w: format.width - 4000,
            have_h: format.height - 6000,
        });
    }
    match places(alloc, shapes, extents) {
        Ok(places) => Ok(Sheet {
            width: format.width,
            height: format.height,
            decimals: job.decimals,
            scale,
            places,
        }),
        Err(error) => Err(PlanError::Memory(error)),
    }
}

/// What is needed is there, beside the margins and the title.
fn fits(need: &Need, format: &Format) -> bool
    ensures { IsTrue result ↔ HaveRoom need.now.width need.now.height format.now.width format.now.height }
{
    need.width <= format.width - 4000 && need.height <= format.height - 6000
}

/// Width and height of a sheet of this paper, which lies, or stands upright.
fn format_of(paper: Paper, portrait: bool) -> Format
    ensures width { result.width ≡ sheet_width paper portrait }
    ensures height { result.height ≡ sheet_height paper portrait }
{
    let lying = lying(paper);
    if portrait {
        Format {
            width: lying.height,
            height: lying.width,
        }
    } else {
        lying
    }
}

/// Width and height of a sheet that lies.
fn lying(paper: Paper) -> Format
    ensures width { result.width ≡ paper_width paper }
    ensures height { result.height ≡ paper_height paper }
{
    match paper {
        Paper::A0 => Format {
            width: 118_900,
            height: 84_100,
        },
        Paper::A1 => Format {
            width: 84_100,
            height: 59_400,
        },
        Paper::A2 => Format {
            width: 59_400,
            height: 42_000,
        },
        Paper::A3 => Format {
            width: 42_000,
            height: 29_700,
        },
        Paper::A4 => Format {
            width: 29_700,
            height: 21_000,
        },
    }
}
