// Judges a piece list by the right pieces of each view.
ghost use Rattle.std.specs.Prelude.{◌≡◌, ◌↔◌, ℕ, ◌<◌, ◌≤◌, ◌^◌, length, IfOk, IsTrue, MatchOption, Some, slice_get};
ghost use Rattle.std.specs.List.{AllZip};
ghost use Rattle.lattice.specs.Creases.{fraction_of};
ghost use Rattle.lattice.specs.Points.{of_dir};
ghost use Rattle.job_file.specs.Seen.{direction_seen};
ghost use Rattle.job_file.specs.declared.view.JobView.{JobView};
ghost use Rattle.solid_mesh.specs.Solids.{solid_part};
ghost use Rattle.drawn_strips.specs.Scenes.{AreViewStrips};
ghost use Rattle.job_file.specs.ShownCuts.{planes_in};
ghost use Rattle.piece_verify.specs.Checked.{IsViewOf, AreKnown, IsRightList, IsGoodIn, IsGoodList, IsFirstStranger, DiffersAt, IsVerdict};
ghost use Rattle.piece_verify.specs.Stands.{StandsFor, is_piece_in, pieces_in};
ghost use Rattle.piece_verify.specs.inner.Comparing.{IsFirstUnlike};

use crate::compare::first_unlike;
use crate::line::Entry;
use crate::list::PieceList;
use crate::slow_views::slow_strips;
use exact_frac::OutOfMemory;
use job_file::{Job, cuts_in};
use lattice::{Dir, Piece, Strip};
use line_merge::merge;
use sheet_plan::Mark;
use solid_mesh::Solid;
use std::alloc::Global;

/// What a piece list comes to.
#[derive(Clone, Copy, Debug)]
pub enum Verdict {
    /// It is the one right list.
    Right,
    /// The first entry whose view isn't one of the job's, counted from 0 among all entries.
    Stranger {
        place: u32,
    },
    /// The first view whose pieces aren't right, the first place among them, counted from 0, where they differ from those that are, and
    /// the piece that is wanted there; none where the list should have ended. Entries of hatch lines aren't counted.
    Differs {
        view: u32,
        place: u32,
        want: Option<Piece>,
    },
}

/// Where the pieces of a view first differ from those that are right, and the piece that is wanted there.
#[derive(Clone, Copy)]
struct Difference {
    place: u32,
    want: Option<Piece>,
}

/// The strips of what a view of the job shows, by the slow spans: of each drawn edge, of a section's borders, and of traces.
pub fn view_strips(
    alloc: Global,
    solid: &Solid,
    job: &Job,
    view: u32,
) -> Result<Vec<Strip>, OutOfMemory>
    requires { view < length job.now.views.items }
    ensures { (asked : JobView) → IsViewOf job.now view asked →
        IfOk result (λ strips. AreViewStrips asked.spec (fraction_of job.now.crease) (solid_part solid.now) (planes_in job.now.views.items) strips.items) }
{
    let cuts = cuts_in(alloc, &job.views)?;
    slow_strips(
        alloc,
        solid,
        &job.views[view as usize].spec,
        job.crease,
        &cuts,
    )
}

/// From where a view of the job is seen.
pub fn view_dir(job: &Job, view: u32) -> Dir
    requires { view < length job.now.views.items }
    ensures { (asked : JobView) → IsViewOf job.now view asked → of_dir result ≡ direction_seen asked.spec }
{
    job.views[view as usize].dir()
}

/// The right pieces of a view of the job, in their order.
fn right_pieces(
    alloc: Global,
    solid: &Solid,
    job: &Job,
    view: u32,
) -> Result<Vec<Piece>, OutOfMemory>
    requires { view < length job.now.views.items }
    ensures { (asked : JobView) → IsViewOf job.now view asked → IfOk result (λ pieces. IsRightList solid.now job.now asked.spec pieces.items) }
{
    let strips = view_strips(alloc, solid, job, view)?;
    merge(alloc, &view_dir(job, view), &strips)
}

/// The entry is one of a view's pieces.
fn is_piece_in(entry: &Entry, view: u32) -> bool
    ensures { result ≡ is_piece_in view entry.now }
{
    entry.view == view && !matches!(entry.mark, Mark::Hatch)
}

/// The entries of a view's pieces, in their order.
fn given_in(alloc: Global, entries: &[Entry], view: u32) -> Result<Vec<Entry>, OutOfMemory>
    ensures { IfOk result (λ given. given.items ≡ pieces_in view entries.now) }
{
    let mut given = Vec::new(alloc);
    for entry in entries {
        if is_piece_in(entry, view) {
            given.push(*entry)?;
        }
    }
    Ok(given)
}

/// Where the one list first has an entry that doesn't stand for the other's piece there, and that piece.
fn difference_of(d: &Dir, given: &[Entry], pieces: &[Piece]) -> Option<Difference>
    requires { length given.now < 2 ^ 32 }
    ensures { MatchOption result (AllZip (StandsFor (of_dir d.now)) given.now pieces.now)
        (λ x. IsFirstUnlike (of_dir d.now) given.now pieces.now x.place × (x.want ≡ slice_get pieces.now x.place)) }
{
    let place = first_unlike(d, given, pieces)?;
    Some(Difference {
        place: place as u32,
        want: pieces.get(place).copied(),
    })
}

/// Where a view of the job isn't good, if it isn't. Finds its right pieces, and compares each with one entry.
fn difference_in(
    alloc: Global,
    solid: &Solid,
    job: &Job,
    entries: &[Entry],
    view: u32,
) -> Result<Option<Difference>, OutOfMemory>
    requires few { length entries.now < 2 ^ 32 }
    requires in_range { view < length job.now.views.items }
    ensures { (asked : JobView) → IsViewOf job.now view asked → IfOk result (λ found. MatchOption found (IsGoodIn solid.now job.now asked.spec (pieces_in view entries.now))
        (λ x. DiffersAt solid.now job.now asked.spec (pieces_in view entries.now) x.place x.want)) }
{
    let given = given_in(alloc, entries, view)?;
    let pieces = right_pieces(alloc, solid, job, view)?;
    Ok(difference_of(&view_dir(job, view), &given, &pieces))
}

/// The first entry whose view isn't one of the job's, if there is one.
fn first_stranger(job: &Job, entries: &[Entry]) -> Option<usize>
    ensures { MatchOption result (AreKnown job.now entries.now) (IsFirstStranger job.now entries.now) }
{
    for (place, entry) in entries.iter().enumerate() {
        if entry.view as usize >= job.views.len() {
            return Some(place);
        }
    }
    None
}

/// The verdict on entries whose views are all the job's.
fn verdict_on(
    alloc: Global,
    solid: &Solid,
    job: &Job,
    entries: &[Entry],
) -> Result<Verdict, OutOfMemory>
    requires few { length entries.now < 2 ^ 32 }
    requires known { AreKnown job.now entries.now }
    ensures { IfOk result (IsVerdict solid.now job.now entries.now) }
{
    for view in 0..job.views.len() as u32 {
        if let Some(found) = difference_in(alloc, solid, job, entries, view)? {
            return Ok(Verdict::Differs {
                view,
                place: found.place,
                want: found.want,
            });
        }
    }
    Ok(Verdict::Right)
}

/// Whether the list is the one right list of pieces for the solid by the job, and else where it first isn't. Entries of hatch lines are
/// read over.
///
/// Each view is drawn by the slow spans: each drawn edge is tested against all faces, so the time goes with the product of both.
pub fn check_list(
    alloc: Global,
    solid: &Solid,
    job: &Job,
    list: &PieceList,
) -> Result<Verdict, OutOfMemory>
    // The verdict is so ..
    ensures verdict { IfOk result (IsVerdict solid.now job.now list.now.entries.items) }

    // .. and comes wherever it is: a good list is right, and the first stranger is told, whatever else is wrong.
    ensures right { IfOk result (λ v. IsGoodList solid.now job.now list.now.entries.items → v ≡ Verdict.Right) }
    ensures stranger { (place : ℕ) → IfOk result (λ v. IsFirstStranger job.now list.now.entries.items place → v ≡ Verdict.Stranger place) }
{
    match first_stranger(job, &list.entries) {
        Some(place) => Ok(Verdict::Stranger {
            place: place as u32,
        }),
        None => verdict_on(alloc, solid, job, &list.entries),
    }
}
