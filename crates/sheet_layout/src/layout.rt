// The layout of a job's views, or why there is none.
ghost use Rattle.std.specs.Prelude.{◌≡◌, ◌≤◌, pos, length, false, IfOk, IfErr, find, None};
ghost use Rattle.job_file.specs.ShownCuts.{cuts_in};
ghost use Rattle.solid_mesh.specs.Solids.{solid_part};
ghost use Rattle.sheet_layout.specs.Keeps.{HasPlaceForEach, KeepsApart, KeepsInLine, KeepsSides, StandsInFrame};
ghost use Rattle.sheet_layout.specs.Layouts.{IsLaidBy, IsLaidOut, IsNotLaidBy, IsNotLaidOut, LacksRoom, fits, larger_than, last_plan, last_scale, paper_of, plans_for, scale_of, scales_after, seats_on};
ghost use Rattle.sheet_layout.specs.Plans.{all_scales, at_scales, on_papers};
ghost use Rattle.sheet_layout.specs.Rooms.{height_of, width_of};
ghost use Rattle.sheet_layout.specs.inner.Sizes.{case_seen};

use crate::extents::extents_of;
use crate::plans::{Plan, add_at_scales, add_on_papers, all_scales, plans_of};
use crate::rooms::{height_of, width_of};
use crate::sides::Sides;
use crate::through::through_of;
use crate::trials::{Case, Found, first_plan, more_on};
use exact_frac::OutOfMemory;
use job_file::{Job, JobView, Paper, Scale};
use sheet_plan::{Sheet, Spread};
use solid_mesh::Solid;
use std::alloc::Global;

/// What a layout may choose beside the scale: any paper, the least that has room; and whether the job is an older one, of version 1 or 2,
/// for which no scale above 1:1 is chosen, and for whose own scale sides shrink to 7.5 mm before it is refused.
#[derive(Clone, Copy, Debug)]
pub struct Wish {
    pub any_paper: bool,
    pub older: bool,
}

/// A sheet with its views in place, the paper that was chosen, and whether the views' sides are shrunk.
#[derive(Drop)]
pub struct Layout {
    pub sheet: Sheet,
    pub paper: Paper,
    pub shrunk: bool,
}

/// What is missing: the last plan that was tried, how much more it needs above the title block, in hundredths of a millimetre, and the
/// next smaller scale and the next larger paper with which the job would have room, if there is one.
#[derive(Clone, Copy, Debug)]
pub struct NoRoom {
    pub paper: Paper,
    pub scale: Scale,
    pub more_across: u64,
    pub more_down: u64,
    pub smaller: Option<Scale>,
    pub larger: Option<Paper>,
}

/// Why there is no layout.
#[derive(Clone, Copy, Debug)]
pub enum LayoutError {
    /// No plan has room for the views.
    NoRoom(NoRoom),
    Memory(OutOfMemory),
}

impl From<OutOfMemory> for LayoutError {
    ghost use Rattle.sheet_layout.specs.declared.layout.LayoutError.TheVariants.{Memory};

    ghost from_gives = { λ _ e. e ≡ Memory (record {}) };

    fn from(_: OutOfMemory) -> Self {
        LayoutError::Memory(OutOfMemory)
    }
}

/// How many cuts views show.
fn cuts_among(views: &[JobView]) -> u32
    requires { length views.now ≤ 12 }
    ensures value { result ≡ length (cuts_in views.now) }
    ensures size { result ≤ length views.now }
{
    match views {
        [] => 0,
        [view, rest @ ..] => view.spec.cuts() as u32 + cuts_among(rest),
    }
}

/// The sheet of a plan, with the views in these places.
fn sheet_by(job: &Job, plan: &Plan, places: Vec<Spread>) -> Sheet
    ensures width { result.width ≡ pos (width_of plan.now.paper job.now.portrait) }
    ensures height { result.height ≡ pos (height_of plan.now.paper job.now.portrait) }
    ensures decimals { result.decimals ≡ job.now.decimals }
    ensures scale { result.scale ≡ plan.now.scale }
    ensures places { result.places ≡ places }
{
    Sheet {
        width: width_of(plan.paper, job.portrait) as i64,
        height: height_of(plan.paper, job.portrait) as i64,
        decimals: job.decimals,
        scale: plan.scale,
        places,
    }
}

/// The scales after this one.
fn scales_after(scale: Scale, scales: &[Scale]) -> &[Scale]
    ensures { result.now ≡ scales_after scale scales.now }
{
    match scales {
        [] => scales,
        [first, rest @ ..] => {
            if first.num == scale.num && first.den == scale.den {
                rest
            } else {
                scales_after(scale, rest)
            }
        }
    }
}

/// Papers that are larger than this one.
fn larger_than(paper: Paper) -> &'static [Paper]
    ensures { result.now ≡ larger_than paper }
{
    match paper {
        Paper::A4 => &[Paper::A3, Paper::A2, Paper::A1, Paper::A0],
        Paper::A3 => &[Paper::A2, Paper::A1, Paper::A0],
        Paper::A2 => &[Paper::A1, Paper::A0],
        Paper::A1 => &[Paper::A0],
        Paper::A0 => &[],
    }
}

/// The scale of the last plan that is tried.
fn last_scale(any_paper: bool, scale: Option<Scale>) -> Scale
    ensures { result ≡ last_scale any_paper scale }
{
    match (scale, any_paper) {
        (Some(scale), _) => scale,
        (None, true) => Scale { num: 1, den: 1 },
        (None, false) => Scale { num: 1, den: 100 },
    }
}

/// The last plan that is tried, above the title block.
fn last_plan(wish: Wish, job: &Job) -> Plan
    ensures { result ≡ last_plan wish job.now }
{
    Plan {
        paper: if wish.any_paper { Paper::A0 } else { job.paper },
        scale: last_scale(wish.any_paper, job.scale),
        shrunk: !wish.any_paper && wish.older && job.scale.is_some(),
        kept: 0,
        corner: false,
        beside: false,
    }
}

/// The next smaller scale that the job could say.
fn smaller_for(
    alloc: Global,
    case: &Case,
    wish: Wish,
    scale: Scale,
    cuts: u32,
) -> Result<Option<Scale>, OutOfMemory>
    ensures { IfOk result (λ s. s ≡ scale_of (find (fits (case_seen case.now)) (at_scales wish.any_paper wish.older case.now.job.now.paper (scales_after scale all_scales) cuts))) }
{
    let all = all_scales();
    let mut plans = Vec::new(alloc);
    add_at_scales(
        &mut plans,
        wish.any_paper,
        wish.older,
        case.job.paper,
        scales_after(scale, &all),
        cuts,
    )?;
    match first_plan(alloc, case, &plans)? {
        Some(found) => Ok(Some(found.plan.scale)),
        None => Ok(None),
    }
}

/// The next larger paper that the job could say.
fn larger_for(
    alloc: Global,
    case: &Case,
    older: bool,
    paper: Paper,
    cuts: u32,
) -> Result<Option<Paper>, OutOfMemory>
    ensures { IfOk result (λ p. p ≡ paper_of (find (fits (case_seen case.now)) (on_papers older (larger_than paper) case.now.job.now.scale cuts))) }
{
    let mut plans = Vec::new(alloc);
    add_on_papers(&mut plans, older, larger_than(paper), case.job.scale, cuts)?;
    match first_plan(alloc, case, &plans)? {
        Some(found) => Ok(Some(found.plan.paper)),
        None => Ok(None),
    }
}

/// What is missing where no plan has room.
fn lacking(alloc: Global, case: &Case, wish: Wish, cuts: u32) -> Result<NoRoom, OutOfMemory>
    requires none { find (fits (case_seen case.now)) (plans_for wish case.now.job.now) ≡ None }
    requires cuts { cuts ≡ length (cuts_in case.now.job.now.views.items) }
    ensures { IfOk result (LacksRoom (case_seen case.now) wish) }
{
    let plan = last_plan(wish, case.job);
    let more = more_on(alloc, case, &plan)?;
    Ok(NoRoom {
        paper: plan.paper,
        scale: plan.scale,
        more_across: more.across,
        more_down: more.down,
        smaller: smaller_for(alloc, case, wish, plan.scale, cuts)?,
        larger: larger_for(alloc, case, wish.older, plan.paper, cuts)?,
    })
}

/// The layout of the first plan that has room.
fn laid_out(alloc: Global, case: &Case, wish: Wish) -> Result<Layout, LayoutError>
    ensures laid { IfOk result (IsLaidBy (case_seen case.now) wish) }
    ensures refused { IfErr result (IsNotLaidBy (case_seen case.now) wish) }
{
    let cuts = cuts_among(&case.job.views);
    let plans = plans_of(
        alloc,
        wish.any_paper,
        wish.older,
        case.job.paper,
        case.job.scale,
        cuts,
    )?;
    match first_plan(alloc, case, &plans)? {
        Some(Found { plan, places }) => Ok(Layout {
            sheet: sheet_by(case.job, &plan, places),
            paper: plan.paper,
            shrunk: plan.shrunk,
        }),
        None => Err(LayoutError::NoRoom(lacking(alloc, case, wish, cuts)?)),
    }
}

/// The layout of a job's views of a solid: the first plan that has room for them. Named views stand as the angle of projection demands. A cut
/// whose plane a plain view sees edge-on, and with which it shares an axis of the sheet, stands beside it, on the side of its direction. All other
/// views fill rows below the named ones, or the corner below their row and to the right of their column. Boxes with their sides are apart, within the frame and clear of the title block.
///
/// Goes twice over the corners for each view. Up to 800 plans are tried, and up to 3,000 more for what would do if none has room. Each takes a
/// time that goes with the cube of the number of views.
pub fn lay_out(
    alloc: Global,
    solid: &Solid,
    job: &Job,
    sides: &[Sides],
    wish: Wish,
) -> Result<Layout, LayoutError>
    requires { length sides.now ≡ length job.now.views.items }
    ensures laid { IfOk result (IsLaidOut job.now (solid_part solid.now).corners sides.now wish) }
    ensures refused { IfErr result (IsNotLaidOut job.now (solid_part solid.now).corners sides.now wish) }
    ensures places { IfOk result (HasPlaceForEach job.now.views.items) }

    // Where no other paper may be chosen, it is the job's.
    ensures on_paper { wish.any_paper ≡ false → IfOk result (λ layout. layout.paper ≡ job.now.paper) }
    ensures apart { IfOk result (KeepsApart (solid_part solid.now).corners sides.now) }
    ensures in_frame { IfOk result (StandsInFrame (solid_part solid.now).corners sides.now) }

    // Whichever case and plan it is laid out by: views of one row or column are in line, and those beside others on their sides.
    ensures in_line { IfOk result (λ layout. (l : IsLaidOut job.now (solid_part solid.now).corners sides.now wish layout) → KeepsInLine (seats_on l.laid l.plan) layout) }
    ensures beside { IfOk result (λ layout. (l : IsLaidOut job.now (solid_part solid.now).corners sides.now wish layout) → KeepsSides (solid_part solid.now).corners sides.now (seats_on l.laid l.plan) layout) }
{
    let extents = extents_of(alloc, solid, &job.views)?;
    let through = through_of(alloc, solid, &job.views)?;
    let case = Case {
        job,
        through: &through,
        sides,
        extents: &extents,
    };
    laid_out(alloc, &case, wish)
}
