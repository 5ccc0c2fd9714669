// The plans that are tried for a sheet, one after the other.
ghost use Rattle.std.specs.Prelude.{◌≡◌, ◌≤◌, ◌++◌, ◌∷◌, [], true, false, IfOk, OnOk};
ghost use Rattle.sheet_layout.specs.Plans.{all_rooms, all_scales, at_scales, falling, from_one, on_each, on_papers, papers, plan_in, plans_of, plans_on, scale_or_one, stated, whole_at, with_fewer};

use exact_frac::OutOfMemory;
use job_file::{Paper, Scale};
use std::alloc::Global;

/// A way to lay out views: on this paper, at this scale, with sides shrunk or not, with the first `kept` cuts in projection with other
/// views, with other views below the named ones or in the corner beside their column, and above the title block or beside it.
#[derive(Clone, Copy)]
pub(crate) struct Plan {
    pub paper: Paper,
    pub scale: Scale,
    pub shrunk: bool,
    pub kept: u32,
    pub corner: bool,
    pub beside: bool,
}

/// Adds a plan above the title block, and one beside it.
fn add_both(
    plans: &mut Vec<Plan>,
    paper: Paper,
    scale: Scale,
    shrunk: bool,
    kept: u32,
    corner: bool,
) -> Result<(), OutOfMemory>
    ensures { OnOk result (plans.new.items ≡ plans.old.items ++ plan_in paper scale shrunk kept corner false ∷ plan_in paper scale shrunk kept corner true ∷ []) }
{
    plans.push(Plan {
        paper,
        scale,
        shrunk,
        kept,
        corner,
        beside: false,
    })?;
    plans.push(Plan {
        paper,
        scale,
        shrunk,
        kept,
        corner,
        beside: true,
    })?;
    Ok(())
}

/// Adds a plan for each place of other views and each room.
fn add_rooms(
    plans: &mut Vec<Plan>,
    paper: Paper,
    scale: Scale,
    shrunk: bool,
    kept: u32,
) -> Result<(), OutOfMemory>
    ensures { OnOk result (plans.new.items ≡ plans.old.items ++ all_rooms paper scale shrunk kept) }
{
    add_both(plans, paper, scale, shrunk, kept, false)?;
    add_both(plans, paper, scale, shrunk, kept, true)
}

/// Adds those with fewer cuts in projection.
fn add_fewer(
    plans: &mut Vec<Plan>,
    paper: Paper,
    scale: Scale,
    shrunk: bool,
    cuts: u32,
) -> Result<(), OutOfMemory>
    ensures { OnOk result (plans.new.items ≡ plans.old.items ++ with_fewer paper scale shrunk cuts) }
{
    if cuts == 0 {
        return Ok(());
    }
    add_rooms(plans, paper, scale, shrunk, cuts - 1)?;
    add_fewer(plans, paper, scale, shrunk, cuts - 1)
}

/// Adds those at one scale.
fn add_stated(
    plans: &mut Vec<Plan>,
    paper: Paper,
    scale: Scale,
    shrunk: bool,
    cuts: u32,
) -> Result<(), OutOfMemory>
    ensures { OnOk result (plans.new.items ≡ plans.old.items ++ stated paper scale shrunk cuts) }
{
    add_rooms(plans, paper, scale, shrunk, cuts)?;
    add_fewer(plans, paper, scale, shrunk, cuts)
}

/// Adds those with all cuts in projection at the first of these scales.
fn add_whole(
    plans: &mut Vec<Plan>,
    paper: Paper,
    cuts: u32,
    scales: &[Scale],
) -> Result<(), OutOfMemory>
    ensures { OnOk result (plans.new.items ≡ plans.old.items ++ whole_at paper cuts scales.now) }
{
    match scales {
        [] => Ok(()),
        [scale, ..] => add_rooms(plans, paper, *scale, false, cuts),
    }
}

/// Adds those at each of these scales.
fn add_falling(
    plans: &mut Vec<Plan>,
    paper: Paper,
    cuts: u32,
    scales: &[Scale],
) -> Result<(), OutOfMemory>
    ensures { OnOk result (plans.new.items ≡ plans.old.items ++ falling paper cuts scales.now) }
{
    match scales {
        [] => Ok(()),
        [scale, smaller @ ..] => {
            add_rooms(plans, paper, *scale, false, cuts)?;
            add_whole(plans, paper, cuts, smaller)?;
            add_fewer(plans, paper, *scale, false, cuts)?;
            add_falling(plans, paper, cuts, smaller)
        }
    }
}

/// Adds those on each of these papers.
fn add_each(
    plans: &mut Vec<Plan>,
    papers: &[Paper],
    scale: Scale,
    cuts: u32,
) -> Result<(), OutOfMemory>
    ensures { OnOk result (plans.new.items ≡ plans.old.items ++ on_each papers.now scale cuts) }
{
    match papers {
        [] => Ok(()),
        [paper, larger @ ..] => {
            add_stated(plans, *paper, scale, false, cuts)?;
            add_each(plans, larger, scale, cuts)
        }
    }
}

/// The scales from 1:1 on.
fn from_one() -> [Scale; 7]
    ensures { result ≡ from_one }
{
    [
        Scale { num: 1, den: 1 },
        Scale { num: 1, den: 2 },
        Scale { num: 1, den: 5 },
        Scale { num: 1, den: 10 },
        Scale { num: 1, den: 20 },
        Scale { num: 1, den: 50 },
        Scale { num: 1, den: 100 },
    ]
}

/// All scales, from the greatest on.
pub(crate) fn all_scales() -> [Scale; 12]
    ensures { result ≡ all_scales }
{
    [
        Scale { num: 50, den: 1 },
        Scale { num: 20, den: 1 },
        Scale { num: 10, den: 1 },
        Scale { num: 5, den: 1 },
        Scale { num: 2, den: 1 },
        Scale { num: 1, den: 1 },
        Scale { num: 1, den: 2 },
        Scale { num: 1, den: 5 },
        Scale { num: 1, den: 10 },
        Scale { num: 1, den: 20 },
        Scale { num: 1, den: 50 },
        Scale { num: 1, den: 100 },
    ]
}

/// The papers, from the smallest on.
fn papers() -> [Paper; 5]
    ensures { result ≡ papers }
{
    [Paper::A4, Paper::A3, Paper::A2, Paper::A1, Paper::A0]
}

/// The scale, or 1:1.
fn scale_or_one(scale: Option<Scale>) -> Scale
    ensures { result ≡ scale_or_one scale }
{
    match scale {
        Some(scale) => scale,
        None => Scale { num: 1, den: 1 },
    }
}

/// Adds the plans on one paper.
fn add_on(
    plans: &mut Vec<Plan>,
    older: bool,
    paper: Paper,
    scale: Option<Scale>,
    cuts: u32,
) -> Result<(), OutOfMemory>
    ensures { OnOk result (plans.new.items ≡ plans.old.items ++ plans_on older paper scale cuts) }
{
    match (older, scale) {
        (true, Some(scale)) => {
            add_stated(plans, paper, scale, false, cuts)?;
            add_stated(plans, paper, scale, true, cuts)
        }
        (false, Some(scale)) => add_stated(plans, paper, scale, false, cuts),
        (true, None) => add_falling(plans, paper, cuts, &from_one()),
        (false, None) => add_falling(plans, paper, cuts, &all_scales()),
    }
}

/// Adds the plans that are tried for a job.
fn add_plans(
    plans: &mut Vec<Plan>,
    any_paper: bool,
    older: bool,
    paper: Paper,
    scale: Option<Scale>,
    cuts: u32,
) -> Result<(), OutOfMemory>
    ensures { OnOk result (plans.new.items ≡ plans.old.items ++ plans_of any_paper older paper scale cuts) }
{
    if any_paper {
        add_each(plans, &papers(), scale_or_one(scale), cuts)
    } else {
        add_on(plans, older, paper, scale, cuts)
    }
}

/// Adds those for a job that says one of these scales.
pub(crate) fn add_at_scales(
    plans: &mut Vec<Plan>,
    any_paper: bool,
    older: bool,
    paper: Paper,
    scales: &[Scale],
    cuts: u32,
) -> Result<(), OutOfMemory>
    ensures { OnOk result (plans.new.items ≡ plans.old.items ++ at_scales any_paper older paper scales.now cuts) }
{
    match scales {
        [] => Ok(()),
        [scale, rest @ ..] => {
            add_plans(plans, any_paper, older, paper, Some(*scale), cuts)?;
            add_at_scales(plans, any_paper, older, paper, rest, cuts)
        }
    }
}

/// Adds those for a job that says one of these papers.
pub(crate) fn add_on_papers(
    plans: &mut Vec<Plan>,
    older: bool,
    papers: &[Paper],
    scale: Option<Scale>,
    cuts: u32,
) -> Result<(), OutOfMemory>
    ensures { OnOk result (plans.new.items ≡ plans.old.items ++ on_papers older papers.now scale cuts) }
{
    match papers {
        [] => Ok(()),
        [paper, rest @ ..] => {
            add_on(plans, older, *paper, scale, cuts)?;
            add_on_papers(plans, older, rest, scale, cuts)
        }
    }
}

/// The plans that are tried, one after the other. Their number is below 800.
pub(crate) fn plans_of(
    alloc: Global,
    any_paper: bool,
    older: bool,
    paper: Paper,
    scale: Option<Scale>,
    cuts: u32,
) -> Result<Vec<Plan>, OutOfMemory>
    ensures { IfOk result (λ plans. plans.items ≡ plans_of any_paper older paper scale cuts) }
{
    let mut plans = Vec::new(alloc);
    add_plans(&mut plans, any_paper, older, paper, scale, cuts)?;
    Ok(plans)
}
