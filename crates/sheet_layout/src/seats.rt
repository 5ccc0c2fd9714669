// How much room each view takes at a scale: its box, and what it needs on the sides of that.
ghost use Rattle.std.specs.Prelude.{◌≡◌, ◌<◌, ◌≤◌, ◌^◌, ◌-ℤ◌, unsigned_abs, nat_lt, if◌then◌else◌, false, length, ◌+◌, ◌++◌, ◌∷◌, [], IfOk, OnOk, All};
ghost use Rattle.lattice.specs.Points.{of_dir};
ghost use Rattle.sheet_plan.specs.Layout.{across_at, upward_at};
ghost use Rattle.sheet_plan.specs.Numbers.{measure_of};
ghost use Rattle.sheet_layout.specs.Seats.{half_lacking, height_at, level_side, seat_of, seats_from, side_or_least, width_at};
ghost use Rattle.sheet_layout.specs.inner.Sizes.{IsSmall};

use crate::anchors::cell_of;
use crate::cells::Cell;
use crate::sides::Sides;
use exact_frac::OutOfMemory;
use job_file::{Job, JobView};
use lattice::Dir;
use sheet_plan::{Extent, Ruler};
use std::alloc::Global;

/// A view in its cell: the size of its box, what it needs on each side of it, and how far the box begins to the right of the view's origin
/// and above it.
#[derive(Clone, Copy)]
pub(crate) struct Seat {
    pub cell: Cell,
    pub d: Dir,
    pub width: u64,
    pub height: u64,
    pub left: u32,
    pub right: u32,
    pub top: u32,
    pub bottom: u32,
    pub from_left: i64,
    pub above: i64,
}

/// Half of what is between two boxes.
const LEAST: u32 = 750;

/// U of a corner, on the sheet.
fn across_at(ruler: &Ruler, d: &Dir, u: i64) -> i64
    requires { unsigned_abs u < 2 ^ 29 }
    ensures value { result ≡ across_at (measure_of ruler.now.scale ruler.now.decimals) (of_dir d.now) u }
    ensures size { unsigned_abs result ≤ 2 ^ 45 }
{
    ruler.whole_across(d, u)
}

/// V of a corner, on the sheet.
fn upward_at(ruler: &Ruler, d: &Dir, v: i64) -> i64
    requires { unsigned_abs v < 2 ^ 29 }
    ensures value { result ≡ upward_at (measure_of ruler.now.scale ruler.now.decimals) (of_dir d.now) v }
    ensures size { unsigned_abs result ≤ 2 ^ 45 }
{
    ruler.whole_upward(d, v)
}

/// The distance of two places.
fn distance(a: i64, b: i64) -> u64
    requires first { unsigned_abs a ≤ 2 ^ 45 }
    requires second { unsigned_abs b ≤ 2 ^ 45 }
    ensures value { result ≡ unsigned_abs (a -ℤ b) }
    ensures size { result ≤ 2 ^ 46 }
{
    (a - b).unsigned_abs()
}

/// A side that is asked for, or the least one if sides are shrunk.
fn side_or_least(shrunk: bool, asked: u32) -> u32
    ensures { result ≡ side_or_least shrunk asked }
{
    if shrunk { LEAST } else { LEAST.max(asked) }
}

/// Half of what a box of this width lacks of another width, rounded up.
fn half_lacking(asked: u32, width: u64) -> u32
    ensures { result ≡ half_lacking asked width }
{
    ((u64::from(asked).saturating_sub(width) + 1) / 2) as u32
}

/// A side to the left or to the right: the box and both sides are to be as wide as is asked.
fn level_side(shrunk: bool, asked: u32, whole: u32, width: u64) -> u32
    ensures { result ≡ level_side shrunk asked whole width }
{
    side_or_least(shrunk, asked.max(half_lacking(whole, width)))
}

/// How wide a view's box is.
fn width_at(ruler: &Ruler, e: &Extent) -> u64
    ensures value { result ≡ width_at (measure_of ruler.now.scale ruler.now.decimals) e.now }
    ensures size { result ≤ 2 ^ 46 }
{
    distance(
        across_at(ruler, &e.d, e.u_max),
        across_at(ruler, &e.d, e.u_min),
    )
}

/// And how high.
fn height_at(ruler: &Ruler, e: &Extent) -> u64
    ensures value { result ≡ height_at (measure_of ruler.now.scale ruler.now.decimals) e.now }
    ensures size { result ≤ 2 ^ 46 }
{
    distance(
        upward_at(ruler, &e.d, e.v_max),
        upward_at(ruler, &e.d, e.v_min),
    )
}

/// The view in its cell, with these sides.
fn seat_of(shrunk: bool, ruler: &Ruler, cell: Cell, sides: &Sides, e: &Extent) -> Seat
    ensures value { result ≡ seat_of shrunk (measure_of ruler.now.scale ruler.now.decimals) cell sides.now e.now }
    ensures small { IsSmall result }
{
    let width = width_at(ruler, e);
    Seat {
        cell,
        d: e.d,
        width,
        height: height_at(ruler, e),
        left: level_side(shrunk, sides.left, sides.width, width),
        right: level_side(shrunk, sides.right, sides.width, width),
        top: side_or_least(shrunk, sides.top),
        bottom: side_or_least(shrunk, sides.bottom),
        from_left: across_at(ruler, &e.d, e.u_min),
        above: upward_at(ruler, &e.d, e.v_max),
    }
}

/// A cut may stand beside other views: it goes through the part, and is one of the first so many.
fn may_stand(through: bool, cuts: u32, kept: u32) -> bool
    ensures { result ≡ (if through then nat_lt cuts kept else false) }
{
    through && cuts < kept
}

/// Adds a view.
fn push_seat(seats: &mut Vec<Seat>, seat: Seat) -> Result<(), OutOfMemory>
    requires own { IsSmall seat }
    requires small { All IsSmall seats.old.items }
    ensures items { OnOk result (seats.new.items ≡ seats.old.items ++ seat ∷ []) }
    ensures small { OnOk result (All IsSmall seats.new.items) }
{
    seats.push(seat)?;
    Ok(())
}

/// Adds these views in their cells; the first of them has this number, and so many cuts are shown before it.
fn add_seats(
    seats: &mut Vec<Seat>,
    job: &Job,
    ruler: &Ruler,
    shrunk: bool,
    kept: u32,
    number: u32,
    cuts: u32,
    views: &[JobView],
    through: &[bool],
    sides: &[Sides],
    extents: &[Extent],
) -> Result<(), OutOfMemory>
    requires number { number + length views.now ≤ 12 }
    requires cuts { cuts ≤ number }
    requires small { All IsSmall seats.old.items }
    ensures value { OnOk result (seats.new.items ≡ seats.old.items ++ seats_from job.now.third shrunk (measure_of ruler.now.scale ruler.now.decimals) job.now.views.items kept number cuts views.now through.now sides.now extents.now) }
    ensures small { OnOk result (All IsSmall seats.new.items) }
    ensures count { OnOk result (length seats.new.items ≤ length seats.old.items + length views.now) }
{
    let [v, vs @ ..] = views else {
        return Ok(());
    };
    let [t, ts @ ..] = through else {
        return Ok(());
    };
    let [s, ss @ ..] = sides else {
        return Ok(());
    };
    let [e, es @ ..] = extents else {
        return Ok(());
    };
    let beside = may_stand(*t, cuts, kept);
    let cell = cell_of(job.third, &job.views, beside, number, v);
    push_seat(seats, seat_of(shrunk, ruler, cell, s, e))?;
    let cuts = cuts + v.spec.cuts() as u32;
    add_seats(
        seats,
        job,
        ruler,
        shrunk,
        kept,
        number + 1,
        cuts,
        vs,
        ts,
        ss,
        es,
    )
}

/// All views in their cells.
pub(crate) fn seats_of(
    alloc: Global,
    job: &Job,
    ruler: &Ruler,
    shrunk: bool,
    kept: u32,
    through: &[bool],
    sides: &[Sides],
    extents: &[Extent],
) -> Result<Vec<Seat>, OutOfMemory>
    ensures value { IfOk result (λ seats. seats.items ≡ seats_from job.now.third shrunk (measure_of ruler.now.scale ruler.now.decimals) job.now.views.items kept 0 0 job.now.views.items through.now sides.now extents.now) }
    ensures small { IfOk result (λ seats. All IsSmall seats.items) }
    ensures few { IfOk result (λ seats. length seats.items ≤ 12) }
{
    let mut seats = Vec::new(alloc);
    add_seats(
        &mut seats, job, ruler, shrunk, kept, 0, 0, &job.views, through, sides, extents,
    )?;
    Ok(seats)
}
