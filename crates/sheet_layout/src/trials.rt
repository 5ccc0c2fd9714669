// Whether a plan has room for the views, and where they stand then.
ghost use Rattle.std.specs.Prelude.{◌≡◌, ◌≤◌, ◌-◌, ◌&&◌, ◌++◌, ◌∷◌, [], length, All, IfOk, OnOk, IfSome, is_some, option_map, find};
ghost use Rattle.std.specs.List.{AllZip};
ghost use Rattle.sheet_layout.specs.Layouts.{IsOriginOf, fits, room_on, rows_on, seats_on, standings_on, tries_on};
ghost use Rattle.sheet_layout.specs.Trials.{half_left, has_room, stand_well, standing_of, standings_in};
ghost use Rattle.sheet_layout.specs.inner.Sizes.{IsFar, IsNear, IsSmall, case_seen, plan_found, rows_seen};

use crate::blocks::{seat_x, seat_y};
use crate::plans::Plan;
use crate::rects::{Standing, stand_well};
use crate::rooms::{Room, room_of};
use crate::rows::{Rows, rows_of, spot_of};
use crate::seats::{Seat, seats_of};
use crate::sides::Sides;
use exact_frac::OutOfMemory;
use job_file::Job;
use sheet_plan::{Extent, Ruler, Spread};
use std::alloc::Global;

/// Half of what is left of a room in one direction.
fn half_left(room: u64, need: u64) -> u64
    ensures { result ≡ half_left room need }
{
    room.saturating_sub(need) / 2
}

/// Where a view's box begins on the sheet: the rows are in the middle of the room.
fn standing_of(room: &Room, seats: &[Seat], rows: &Rows, s: &Seat) -> Standing
    requires across { room.now.left ≤ room.now.right }
    requires down { room.now.top ≤ room.now.bottom }
    requires small { All IsSmall seats.now }
    requires own { IsSmall s.now }
    requires few { length seats.now ≤ 12 }
    ensures value { result ≡ standing_of room.now seats.now (rows_seen rows.now) s.now }
    ensures far { IsFar result }
{
    let spot = spot_of(&rows.spots, s.cell.block);
    let right = half_left(room.right - room.left, rows.width);
    let down = half_left(room.bottom - room.top, rows.bottom);
    let x = u128::from(spot.x) + u128::from(seat_x(seats, s));
    let y = u128::from(spot.y) + u128::from(seat_y(seats, s));
    Standing {
        x: u128::from(room.left) + u128::from(right) + x,
        y: u128::from(room.top) + u128::from(down) + y,
        seat: *s,
    }
}

/// Adds where these views stand.
fn add_standings(
    standings: &mut Vec<Standing>,
    room: &Room,
    seats: &[Seat],
    rows: &Rows,
    left: &[Seat],
) -> Result<(), OutOfMemory>
    requires across { room.now.left ≤ room.now.right }
    requires down { room.now.top ≤ room.now.bottom }
    requires small { All IsSmall seats.now }
    requires own { All IsSmall left.now }
    requires few { length seats.now ≤ 12 }
    requires far { All IsFar standings.old.items }
    ensures value { OnOk result (standings.new.items ≡ standings.old.items ++ standings_in room.now seats.now (rows_seen rows.now) left.now) }
    ensures far { OnOk result (All IsFar standings.new.items) }
{
    match left {
        [] => Ok(()),
        [s, rest @ ..] => {
            push_standing(standings, standing_of(room, seats, rows, s))?;
            add_standings(standings, room, seats, rows, rest)
        }
    }
}

/// Adds a view that stands.
fn push_standing(standings: &mut Vec<Standing>, t: Standing) -> Result<(), OutOfMemory>
    requires own { IsFar t }
    requires far { All IsFar standings.old.items }
    ensures items { OnOk result (standings.new.items ≡ standings.old.items ++ t ∷ []) }
    ensures far { OnOk result (All IsFar standings.new.items) }
{
    standings.push(t)?;
    Ok(())
}

/// The rows have room.
fn has_room(room: &Room, rows: &Rows) -> bool
    requires across { room.now.left ≤ room.now.right }
    requires down { room.now.top ≤ room.now.bottom }
    ensures { result ≡ has_room room.now (rows_seen rows.now) }
{
    rows.width <= room.right - room.left && rows.bottom <= room.bottom - room.top
}

/// Where no box is moved for being in line with another: where sides are shrunk.
fn tries_on(plan: &Plan) -> u32
    ensures value { result ≡ tries_on plan.now }
    ensures few { result ≤ 12 }
{
    if plan.shrunk { 0 } else { 12 }
}

/// The view with its origin in its place.
fn place_of(t: &Standing) -> Spread
    requires { IsNear t.now }
    ensures { IsOriginOf t.now result }
{
    Spread {
        d: t.seat.d,
        x0: t.x as i64 - t.seat.from_left,
        y0: t.y as i64 + t.seat.above,
    }
}

/// All views with their origins in their places.
fn places_of(alloc: Global, standings: &[Standing]) -> Result<Vec<Spread>, OutOfMemory>
    requires { All IsNear standings.now }
    ensures { IfOk result (λ places. AllZip IsOriginOf standings.now places.items) }
{
    let mut places = Vec::new(alloc);
    for t in standings {
        places.push(place_of(t))?;
    }
    Ok(places)
}

/// What is laid out: the job, which of its views show cuts that go through the part, what each view needs on its sides, and how far the part
/// reaches in it.
#[derive(Clone, Copy)]
pub(crate) struct Case<'a> {
    pub job: &'a Job,
    pub through: &'a [bool],
    pub sides: &'a [Sides],
    pub extents: &'a [Extent],
}

/// The views in their cells at the scale of a plan.
fn seats_on(alloc: Global, case: &Case, plan: &Plan) -> Result<Vec<Seat>, OutOfMemory>
    ensures value { IfOk result (λ seats. seats.items ≡ seats_on (case_seen case.now) plan.now) }
    ensures small { IfOk result (λ seats. All IsSmall seats.items) }
    ensures few { IfOk result (λ seats. length seats.items ≤ 12) }
{
    let ruler = Ruler {
        scale: plan.scale,
        decimals: case.job.decimals,
    };
    seats_of(
        alloc,
        case.job,
        &ruler,
        plan.shrunk,
        plan.kept,
        case.through,
        case.sides,
        case.extents,
    )
}

/// The rows of a plan in its room.
pub(crate) fn rows_on(
    alloc: Global,
    case: &Case,
    plan: &Plan,
    room: &Room,
    seats: &[Seat],
) -> Result<Rows, OutOfMemory>
    requires small { All IsSmall seats.now }
    requires few { length seats.now ≤ 12 }
    requires across { room.now.left ≤ room.now.right }
    requires room { room.now ≡ room_on (case_seen case.now) plan.now }
    requires seats { seats.now ≡ seats_on (case_seen case.now) plan.now }
    ensures { IfOk result (λ rows. rows_seen rows ≡ rows_on (case_seen case.now) plan.now) }
{
    rows_of(
        alloc,
        plan.corner,
        tries_on(plan),
        room.right - room.left,
        seats,
    )
}

/// The room of a plan.
pub(crate) fn room_on(case: &Case, plan: &Plan) -> Room
    ensures value { result ≡ room_on (case_seen case.now) plan.now }
    ensures across { result.left ≤ result.right }
    ensures down { result.top ≤ result.bottom }
    ensures wide { result.right ≤ 118900 }
    ensures high { result.bottom ≤ 118900 }
{
    room_of(plan.paper, case.job.portrait, plan.beside)
}

/// Where the views stand, if the plan's rows have room there and they stand well.
fn places_on(
    alloc: Global,
    room: &Room,
    rows: &Rows,
    seats: &[Seat],
) -> Result<Option<Vec<Spread>>, OutOfMemory>
    requires small { All IsSmall seats.now }
    requires few { length seats.now ≤ 12 }
    requires across { room.now.left ≤ room.now.right }
    requires down { room.now.top ≤ room.now.bottom }
    requires wide { room.now.right ≤ 118900 }
    requires high { room.now.bottom ≤ 118900 }
    ensures fits { IfOk result (λ p. is_some p ≡ (has_room room.now (rows_seen rows.now) && stand_well room.now (standings_in room.now seats.now (rows_seen rows.now) seats.now))) }
    ensures places { IfOk result (λ p. IfSome p (λ places. AllZip IsOriginOf (standings_in room.now seats.now (rows_seen rows.now) seats.now) places.items)) }
{
    if !has_room(room, rows) {
        return Ok(None);
    }
    let mut standings = Vec::new(alloc);
    add_standings(&mut standings, room, seats, rows, seats)?;
    if !stand_well(room, &standings) {
        return Ok(None);
    }
    Ok(Some(places_of(alloc, &standings)?))
}

/// Where the views stand by a plan, if it has room for them. The time goes with the cube of the number of views, which is at most 12.
fn try_plan(alloc: Global, case: &Case, plan: &Plan) -> Result<Option<Vec<Spread>>, OutOfMemory>
    ensures fits { IfOk result (λ p. is_some p ≡ fits (case_seen case.now) plan.now) }
    ensures places { IfOk result (λ p. IfSome p (λ places. AllZip IsOriginOf (standings_on (case_seen case.now) plan.now) places.items)) }
{
    let seats = seats_on(alloc, case, plan)?;
    let room = room_on(case, plan);
    let rows = rows_on(alloc, case, plan, &room, &seats)?;
    places_on(alloc, &room, &rows, &seats)
}

/// A plan that has room, and where the views stand by it.
#[derive(Drop)]
pub(crate) struct Found {
    pub plan: Plan,
    pub places: Vec<Spread>,
}

/// The first of these plans that has room.
pub(crate) fn first_plan(
    alloc: Global,
    case: &Case,
    plans: &[Plan],
) -> Result<Option<Found>, OutOfMemory>
    ensures first { IfOk result (λ f. option_map plan_found f ≡ find (fits (case_seen case.now)) plans.now) }
    ensures places { IfOk result (λ f. IfSome f (λ found. AllZip IsOriginOf (standings_on (case_seen case.now) found.plan) found.places.items)) }
{
    match plans {
        [] => Ok(None),
        [plan, rest @ ..] => match try_plan(alloc, case, plan)? {
            Some(places) => Ok(Some(Found {
                plan: *plan,
                places,
            })),
            None => first_plan(alloc, case, rest),
        },
    }
}

/// How much more a plan needs than its room has.
#[derive(Clone, Copy)]
pub(crate) struct More {
    pub across: u64,
    pub down: u64,
}

/// How much more this plan needs.
pub(crate) fn more_on(alloc: Global, case: &Case, plan: &Plan) -> Result<More, OutOfMemory>
    ensures across { IfOk result (λ m. m.across ≡ (rows_on (case_seen case.now) plan.now).width - ((room_on (case_seen case.now) plan.now).right - (room_on (case_seen case.now) plan.now).left)) }
    ensures down { IfOk result (λ m. m.down ≡ (rows_on (case_seen case.now) plan.now).bottom - ((room_on (case_seen case.now) plan.now).bottom - (room_on (case_seen case.now) plan.now).top)) }
{
    let seats = seats_on(alloc, case, plan)?;
    let room = room_on(case, plan);
    let rows = rows_on(alloc, case, plan, &room, &seats)?;
    Ok(More {
        across: rows.width.saturating_sub(room.right - room.left),
        down: rows.bottom.saturating_sub(room.bottom - room.top),
    })
}
