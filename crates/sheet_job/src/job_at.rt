// A job of version 3 at a number of decimals.
ghost use Rattle.std.specs.Prelude.{◌≡◌, ◌≤◌, ◌^◌, IsTrue, unsigned_abs, IfOk, IfErr, IfSome, MatchOption, MatchResult, length, map};
ghost use Rattle.std.specs.List.{AllZip};
ghost use Rattle.lattice.specs.Cuts.{plane_of};
ghost use Rattle.job_file.specs.Seen.{job_seen, shown, view_seen};
ghost use Rattle.job_file.specs.Texts.{is_title};
ghost use Rattle.job_file.specs.ViewValues.{behind};
ghost use Rattle.sheet_job.specs.JobsAt.{IsUnitsAt, StandsAt, IsNumberTooFar, IsShownAt, IsShownTooFar, IsCutPlace, IsViewAt, IsTooFar, IsJobAt};
ghost use Rattle.sheet_job.specs.SheetSeen.{shown_seen, sheet_view_seen, sheet_job_seen};
ghost use Rattle.sheet_job.specs.WrittenValues.{is_length};
ghost use Rattle.sheet_job.specs.inner.ViewsAt.{GivesViewsAt};

use crate::cut::SheetCut;
use crate::flaw::{JobFlaw, PlacedFlaw};
use crate::job::SheetJob;
use crate::shown::SheetShown;
use crate::view::SheetView;
use dec_text::{Length, Name, NumberFault, fixed};
use exact_frac::OutOfMemory;
use job_file::{Job, JobView};
use job_text::TextPlace;
use lattice::{Axis, Cut, CutFault, ViewSpec};
use std::alloc::Global;

/// Why there is no job at a number of decimals.
#[derive(Debug, Drop)]
pub enum AtError {
    /// A cut is at more than 1,048,576 units.
    Range(PlacedFlaw),
    /// Memory ran out.
    Memory(OutOfMemory),
}

/// The number in units, if it isn't too far away.
fn units_at(word: &[u8], decimals: u8, unit: Length) -> Option<i32>
    requires decimals { decimals ≤ 6 }
    requires number { IsTrue (is_length word.now) }
    ensures value { MatchOption result (IsNumberTooFar decimals unit word.now) (λ units. IsUnitsAt decimals unit word.now units) }
    ensures near { IfSome result (λ units. ¬ IsNumberTooFar decimals unit word.now) }
    ensures size { IfSome result (λ units. unsigned_abs units ≤ 2 ^ 20) }
{
    match fixed(word, decimals, unit) {
        Ok(units) => Some(units),
        Err(NumberFault::TooLarge) => None,
        Err(NumberFault::NotANumber(_)) => unreachable!(),
    }
}

/// The cut at so many units.
fn plane_at(axis: Axis, units: i32, from_high: bool) -> Cut
    requires { unsigned_abs units ≤ 2 ^ 20 }
    ensures { plane_of result ≡ record { axis = axis; at = units; from_high = from_high } }
{
    match Cut::new(axis, i64::from(units), from_high) {
        Ok(plane) => plane,
        Err(CutFault::CutRange) => unreachable!(),
    }
}

/// The cut at this number of decimals, if it isn't too far away.
fn cut_at(cut: &SheetCut, decimals: u8, unit: Length) -> Option<Cut>
    requires { decimals ≤ 6 }
    ensures value { MatchOption result (IsNumberTooFar decimals unit cut.now.at.items) (λ c. StandsAt decimals unit cut.now.axis cut.now.at.items cut.now.from_high (behind (plane_of c))) }
    ensures near { IfSome result (λ c. ¬ IsNumberTooFar decimals unit cut.now.at.items) }
{
    match units_at(&cut.at, decimals, unit) {
        Some(units) => Some(plane_at(cut.axis, units, cut.from_high)),
        None => None,
    }
}

/// What a view shows at this number of decimals; or the place of its cut's number, if the cut is too far away.
fn shown_at(shows: &SheetShown, decimals: u8, unit: Length) -> Result<ViewSpec, TextPlace>
    requires { decimals ≤ 6 }
    ensures value { MatchResult result (λ spec. IsShownAt decimals unit (shown_seen shows.now) (shown spec)) (λ place. IsShownTooFar decimals unit (shown_seen shows.now)) }
    ensures place { IfErr result (λ place. IsCutPlace shows.now place) }
    ensures near { IfOk result (λ spec. ¬ IsShownTooFar decimals unit (shown_seen shows.now)) }
{
    match shows {
        SheetShown::Plain(direction) => Ok(ViewSpec::Plain(*direction)),
        SheetShown::Cut(cut) => match cut_at(cut, decimals, unit) {
            Some(plane) => Ok(ViewSpec::Section(plane)),
            None => Err(cut.place),
        },
    }
}

/// The view at this number of decimals, or the place of its cut's number.
fn view_at(view: &SheetView, decimals: u8, unit: Length) -> Result<JobView, TextPlace>
    requires { decimals ≤ 6 }
    ensures value { MatchResult result (λ v. IsViewAt decimals unit (sheet_view_seen view.now) (view_seen v)) (λ place. IsTooFar decimals unit (sheet_view_seen view.now)) }
    ensures place { IfErr result (λ place. IsCutPlace view.now.shows place) }
    ensures near { IfOk result (λ v. ¬ IsTooFar decimals unit (sheet_view_seen view.now)) }
{
    match shown_at(&view.shows, decimals, unit) {
        Ok(spec) => Ok(JobView {
            spec,
            named: view.named,
        }),
        Err(place) => Err(place),
    }
}

/// The views at this number of decimals, or the first one that is too far away.
fn views_at(
    alloc: Global,
    views: &[SheetView],
    decimals: u8,
    unit: Length,
) -> Result<Vec<JobView>, AtError>
    requires decimals { decimals ≤ 6 }
    requires few { length views.now ≤ 12 }
    ensures { GivesViewsAt decimals unit views.now result }
{
    let mut found = Vec::new(alloc);
    for view in views {
        let next = match view_at(view, decimals, unit) {
            Ok(next) => next,
            Err(place) => {
                return Err(AtError::Range(PlacedFlaw {
                    place,
                    flaw: JobFlaw::AtRange(found.len() as u32),
                }));
            }
        };
        match found.push(next) {
            Ok(()) => {}
            Err(_) => return Err(AtError::Memory(OutOfMemory)),
        }
    }
    Ok(found)
}

/// The job with these views and this title.
fn job_with(
    alloc: Global,
    job: &SheetJob,
    decimals: u8,
    title: &str,
    views: Vec<JobView>,
) -> Result<Job, OutOfMemory>
    requires decimals { decimals ≤ 6 }
    requires title { IsTrue (is_title title.now) }
    requires views { AllZip (IsViewAt decimals job.now.unit) (map sheet_view_seen job.now.views.items) (map view_seen views.items) }
    ensures { IfOk result (λ made. IsJobAt decimals title.now (sheet_job_seen job.now) (job_seen made)) }
{
    Ok(Job {
        decimals,
        third: job.third,
        paper: job.paper,
        scale: job.scale,
        crease: job.crease,
        title: Name::new(alloc, title)?,
        outputs: Vec::new(alloc),
        unit: job.unit,
        portrait: job.portrait,
        views,
    })
}

impl SheetJob {
    ghost use Rattle.sheet_job.specs.JobsAt.{GivesJobAt};

    /// The job at this number of decimals, with this title and no outputs: each cut's plane is at its number, rounded to whole units,
    /// halves away from zero. Or the first view whose cut is at more than 1,048,576 units.
    ///
    /// Time grows with the bytes of the cuts' numbers.
    pub fn job_at(&self, alloc: Global, decimals: u8, title: &str) -> Result<Job, AtError>
        requires decimals { decimals ≤ 6 }
        requires title { IsTrue (is_title title.now) }
        ensures { GivesJobAt decimals title.now self.now result }
    {
        let views = match views_at(alloc, &self.views, decimals, self.unit) {
            Ok(views) => views,
            Err(error) => return Err(error),
        };
        match job_with(alloc, self, decimals, title, views) {
            Ok(job) => Ok(job),
            Err(error) => Err(AtError::Memory(error)),
        }
    }
}
