// How the blocks of a layout fill a room: that of the named views stands first, and the others fill rows below it, in their order.
ghost use Rattle.std.specs.Prelude.{◌≡◌, ◌<◌, ◌≤◌, ◌+◌, ◌*◌, ◌^◌, ◌++◌, max, length, All, IfOk, OnOk};
ghost use Rattle.std.specs.List.{list_any};
ghost use Rattle.lattice.specs.Points.{of_dir};
ghost use Rattle.lattice.specs.Triple.{up_axis};
ghost use Rattle.sheet_layout.specs.Rows.{begin_x, begin_y, block_in, clear_left, clear_top, first_rows, has_place, is_center, is_left_at, is_own, is_top_at, left_in, next_row, no_spot, passed_by, row_for, rows_from, rows_of, spot_of, stood_at, stood_in, top_in, with_block, with_next};
ghost use Rattle.sheet_layout.specs.inner.Sizes.{IsSmall, IsLow, rows_seen};

use crate::anchors::share_up;
use crate::blocks::{
    across_middle, block_height, block_width, column_before, down_middle, in_block, left_of,
    row_before, seat_x, seat_y, top_of,
};
use crate::cells::{Line, MIDDLE};
use crate::seats::Seat;
use exact_frac::OutOfMemory;
use lattice::Dir;
use std::alloc::Global;

/// The upper left corner of a block, and in which row it stands.
#[derive(Clone, Copy)]
pub(crate) struct Spot {
    pub row: u32,
    pub x: u64,
    pub y: u64,
}

/// A view that stands: in which row, and the left side and the top of its box.
#[derive(Clone, Copy)]
pub(crate) struct Stood {
    pub row: u32,
    pub left: u64,
    pub top: u64,
    pub d: Dir,
}

/// What stands so far: the corners of blocks, in the order of the views in their middles, the views that stand, in which row the next block
/// stands and how much of it is taken, where it begins and where it ends, from above, how wide the widest row is, and where rows begin, from
/// the left.
#[derive(Drop)]
pub(crate) struct Rows {
    pub spots: Vec<Spot>,
    pub stood: Vec<Stood>,
    pub row: u32,
    pub x: u64,
    pub y: u64,
    pub bottom: u64,
    pub width: u64,
    pub from: u64,
}

/// A view stands in another row with its left side there.
fn is_left_at(row: u32, x: u64, t: &Stood) -> bool
    ensures { result ≡ is_left_at row x t.now }
{
    !(t.row == row) && t.left == x
}

/// A view stands in this row or in the block of the named views with its top there, and doesn't share V.
fn is_top_at(row: u32, up: &Dir, y: u64, t: &Stood) -> bool
    ensures { result ≡ is_top_at row (up_axis (of_dir up.now)) y t.now }
{
    if t.row == row || t.row == 0 {
        !share_up(&t.d, up) && t.top == y
    } else {
        false
    }
}

fn is_left_in_line(stood: &[Stood], row: u32, x: u64) -> bool
    ensures { result ≡ list_any (is_left_at row x) stood.now }
{
    match stood {
        [] => false,
        [t, rest @ ..] => is_left_at(row, x, t) || is_left_in_line(rest, row, x),
    }
}

fn is_top_in_line(stood: &[Stood], row: u32, up: &Dir, y: u64) -> bool
    ensures { result ≡ list_any (is_top_at row (up_axis (of_dir up.now)) y) stood.now }
{
    match stood {
        [] => false,
        [t, rest @ ..] => is_top_at(row, up, y, t) || is_top_in_line(rest, row, up, y),
    }
}

/// From `x` in steps of 3 mm, so many at most, to where no view of another row has its left side.
fn clear_left(stood: &[Stood], row: u32, offset: u64, tries: u32, x: u64) -> u64
    requires few { tries ≤ 12 }
    requires small { x + 300 * tries ≤ 2 ^ 60 }
    requires small_offset { offset ≤ 2 ^ 60 }
    ensures value { result ≡ clear_left stood.now row offset tries x }
    ensures size { result ≤ x + 300 * tries }
{
    if tries == 0 {
        return x;
    }
    if !is_left_in_line(stood, row, x + offset) {
        return x;
    }
    clear_left(stood, row, offset, tries - 1, x + 300)
}

/// From `y` in such steps to where no view of this row has its top that doesn't share V.
fn clear_top(stood: &[Stood], row: u32, up: &Dir, offset: u64, tries: u32, y: u64) -> u64
    requires few { tries ≤ 12 }
    requires small { y + 300 * tries ≤ 2 ^ 60 }
    requires small_offset { offset ≤ 2 ^ 60 }
    ensures value { result ≡ clear_top stood.now row (up_axis (of_dir up.now)) offset tries y }
    ensures size { result ≤ y + 300 * tries }
{
    if tries == 0 {
        return y;
    }
    if !is_top_in_line(stood, row, up, y + offset) {
        return y;
    }
    clear_top(stood, row, up, offset, tries - 1, y + 300)
}

/// The view where it stands, if the corner of its block is there.
fn stood_at(all: &[Seat], spot: &Spot, s: &Seat) -> Stood
    requires small { All IsSmall all.now }
    requires own { IsSmall s.now }
    requires few { length all.now ≤ 12 }
    requires near_x { spot.now.x ≤ 2 ^ 60 }
    requires near_y { spot.now.y ≤ 2 ^ 60 }
    ensures { result ≡ stood_at all.now spot.now s.now }
{
    Stood {
        row: spot.row,
        left: spot.x + seat_x(all, s),
        top: spot.y + seat_y(all, s),
        d: s.d,
    }
}

/// Adds the views of a block whose corner is there.
fn add_stood(
    stood: &mut Vec<Stood>,
    all: &[Seat],
    block: u32,
    spot: &Spot,
    seats: &[Seat],
) -> Result<(), OutOfMemory>
    requires small { All IsSmall all.now }
    requires own { All IsSmall seats.now }
    requires few { length all.now ≤ 12 }
    requires near_x { spot.now.x ≤ 2 ^ 60 }
    requires near_y { spot.now.y ≤ 2 ^ 60 }
    ensures { OnOk result (stood.new.items ≡ stood.old.items ++ stood_in all.now block spot.now seats.now) }
{
    match seats {
        [] => Ok(()),
        [s, rest @ ..] => {
            if in_block(block, s) {
                stood.push(stood_at(all, spot, s))?;
            }
            add_stood(stood, all, block, spot, rest)
        }
    }
}

/// Where a block begins that is to stand in the row from x on.
fn left_in(seats: &[Seat], tries: u32, block: u32, row: u32, x: u64, rows: &Rows) -> u64
    requires small { All IsSmall seats.now }
    requires few { length seats.now ≤ 12 }
    requires few_tries { tries ≤ 12 }
    requires near { x ≤ 2 ^ 58 }
    ensures value { result ≡ left_in seats.now tries block row x (rows_seen rows.now) }
    ensures size { result ≤ x + 3600 }
{
    let offset = row_before(seats, block, MIDDLE) + left_of(seats, block);
    clear_left(&rows.stood, row, offset, tries, x)
}

/// How far from above it begins.
fn top_in(seats: &[Seat], tries: u32, block: u32, up: &Dir, rows: &Rows) -> u64
    requires small { All IsSmall seats.now }
    requires few { length seats.now ≤ 12 }
    requires few_tries { tries ≤ 12 }
    requires near { rows.now.y ≤ 2 ^ 58 }
    ensures value { result ≡ top_in seats.now tries block (up_axis (of_dir up.now)) (rows_seen rows.now) }
    ensures size { result ≤ rows.now.y + 3600 }
{
    let offset = column_before(seats, block, MIDDLE) + top_of(seats, block);
    clear_top(&rows.stood, rows.row, up, offset, tries, rows.y)
}

/// A block has room in a row, or it is the first there.
fn has_place(room: u64, x: u64, width: u64, begun: u64, from: u64) -> bool
    requires near { x ≤ 2 ^ 60 }
    requires narrow { width ≤ 2 ^ 60 }
    ensures { result ≡ has_place room x width begun from }
{
    begun == from || x + width <= room
}

/// The row in which the next block stands.
fn to_row(room: u64, seats: &[Seat], tries: u32, block: u32, rows: &mut Rows)
    requires small { All IsSmall seats.now }
    requires few { length seats.now ≤ 12 }
    requires few_tries { tries ≤ 12 }
    requires near { rows.old.x ≤ 2 ^ 58 }
    requires few_rows { rows.old.row ≤ 12 }
    ensures value { rows_seen rows.new ≡ row_for room seats.now tries block (rows_seen rows.old) }
    ensures row { rows.new.row ≤ rows.old.row + 1 }
    ensures x { rows.new.x ≤ max rows.old.x rows.old.from }
    ensures y { rows.new.y ≤ max rows.old.y rows.old.bottom }
    ensures bottom { rows.new.bottom ≤ rows.old.bottom }
    ensures width { rows.new.width ≤ rows.old.width }
    ensures from { rows.new.from ≤ rows.old.from }
{
    let x = left_in(seats, tries, block, rows.row, rows.x, rows);
    if has_place(room, x, block_width(seats, block), rows.x, rows.from) {
        return;
    }
    rows.row += 1;
    rows.x = rows.from;
    rows.y = rows.bottom;
}

/// The block stands at this corner.
fn stand_at(seats: &[Seat], block: u32, spot: Spot, rows: &mut Rows) -> Result<(), OutOfMemory>
    requires small { All IsSmall seats.now }
    requires few { length seats.now ≤ 12 }
    requires near_x { spot.x ≤ 2 ^ 59 }
    requires near_y { spot.y ≤ 2 ^ 59 }
    ensures value { OnOk result (rows_seen rows.new ≡ with_block seats.now block spot (rows_seen rows.old)) }
    ensures row { OnOk result (rows.new.row ≤ spot.row) }
    ensures x { OnOk result (rows.new.x ≤ spot.x + 2 ^ 51) }
    ensures y { OnOk result (rows.new.y ≤ rows.old.y) }
    ensures bottom { OnOk result (rows.new.bottom ≤ max rows.old.bottom (spot.y + 2 ^ 51)) }
    ensures width { OnOk result (rows.new.width ≤ max rows.old.width (spot.x + 2 ^ 51)) }
    ensures from { OnOk result (rows.new.from ≤ rows.old.from) }
{
    add_stood(&mut rows.stood, seats, block, &spot, seats)?;
    rows.spots.push(spot)?;
    rows.row = spot.row;
    rows.x = spot.x + block_width(seats, block);
    rows.bottom = rows.bottom.max(spot.y + block_height(seats, block));
    rows.width = rows.width.max(rows.x);
    Ok(())
}

/// The block stands in the row.
fn add_block(
    seats: &[Seat],
    tries: u32,
    block: u32,
    up: &Dir,
    rows: &mut Rows,
) -> Result<(), OutOfMemory>
    requires small { All IsSmall seats.now }
    requires few { length seats.now ≤ 12 }
    requires few_tries { tries ≤ 12 }
    requires near_x { rows.old.x ≤ 2 ^ 58 }
    requires near_y { rows.old.y ≤ 2 ^ 58 }
    ensures value { OnOk result (rows_seen rows.new ≡ block_in seats.now tries block (up_axis (of_dir up.now)) (rows_seen rows.old)) }
    ensures row { OnOk result (rows.new.row ≤ rows.old.row) }
    ensures x { OnOk result (rows.new.x ≤ rows.old.x + 3600 + 2 ^ 51) }
    ensures y { OnOk result (rows.new.y ≤ rows.old.y) }
    ensures bottom { OnOk result (rows.new.bottom ≤ max rows.old.bottom (rows.old.y + 3600 + 2 ^ 51)) }
    ensures width { OnOk result (rows.new.width ≤ max rows.old.width (rows.old.x + 3600 + 2 ^ 51)) }
    ensures from { OnOk result (rows.new.from ≤ rows.old.from) }
{
    let x = left_in(seats, tries, block, rows.row, rows.x, rows);
    let y = top_in(seats, tries, block, up, rows);
    let spot = Spot {
        row: rows.row,
        x,
        y,
    };
    stand_at(seats, block, spot, rows)
}

fn is_center(line: Line) -> bool
    ensures { result ≡ is_center line }
{
    match line {
        Line::Center => true,
        Line::Row | Line::Column => false,
    }
}

/// The view with this number stands in the middle of a block of its own.
fn is_own(number: u32, s: &Seat) -> bool
    requires { number < 12 }
    ensures { result ≡ is_own number s.now }
{
    is_center(s.cell.line) && s.cell.block == number + 1
}

const NO_SPOT: Spot = Spot { row: 0, x: 0, y: 0 };

/// The next view stands, if it is in the middle of a block of its own.
fn add_next(
    room: u64,
    seats: &[Seat],
    tries: u32,
    rows: &mut Rows,
    number: u32,
    s: &Seat,
) -> Result<(), OutOfMemory>
    requires small { All IsSmall seats.now }
    requires few { length seats.now ≤ 12 }
    requires few_tries { tries ≤ 12 }
    requires number { number < 12 }
    requires low { IsLow (number + 1) (rows_seen rows.old) }
    ensures value { OnOk result (rows_seen rows.new ≡ with_next room seats.now tries (rows_seen rows.old) number s.now) }
    ensures low { OnOk result (IsLow (number + 2) (rows_seen rows.new)) }
{
    if is_own(number, s) {
        to_row(room, seats, tries, number + 1, rows);
        return add_block(seats, tries, number + 1, &s.d, rows);
    }
    rows.spots.push(NO_SPOT)?;
    Ok(())
}

/// Where rows of other views begin, from the left: in the corner beside the column of the named views, or at the left.
fn begin_x(corner: bool, seats: &[Seat]) -> u64
    requires small { All IsSmall seats.now }
    requires few { length seats.now ≤ 12 }
    ensures value { result ≡ begin_x corner seats.now }
    ensures size { result ≤ 2 ^ 51 }
{
    if corner {
        row_before(seats, 0, MIDDLE) + across_middle(seats, 0)
    } else {
        0
    }
}

/// And from above: below the row of the named views, or below all of them.
fn begin_y(corner: bool, seats: &[Seat]) -> u64
    requires small { All IsSmall seats.now }
    requires few { length seats.now ≤ 12 }
    ensures value { result ≡ begin_y corner seats.now }
    ensures size { result ≤ 2 ^ 51 }
{
    if corner {
        column_before(seats, 0, MIDDLE) + down_middle(seats, 0)
    } else {
        block_height(seats, 0)
    }
}

/// The block of the named views alone.
fn first_rows(alloc: Global, corner: bool, seats: &[Seat]) -> Result<Rows, OutOfMemory>
    requires small { All IsSmall seats.now }
    requires few { length seats.now ≤ 12 }
    ensures value { IfOk result (λ rows. rows_seen rows ≡ first_rows corner seats.now) }
    ensures low { IfOk result (λ rows. IsLow 1 (rows_seen rows)) }
{
    let mut stood = Vec::new(alloc);
    add_stood(&mut stood, seats, 0, &NO_SPOT, seats)?;
    let from = begin_x(corner, seats);
    Ok(Rows {
        spots: Vec::new(alloc),
        stood,
        row: 1,
        x: from,
        y: begin_y(corner, seats),
        bottom: block_height(seats, 0),
        width: block_width(seats, 0),
        from,
    })
}

/// All of these views stand, in their order; the first has this number.
fn add_all(
    room: u64,
    seats: &[Seat],
    tries: u32,
    rows: &mut Rows,
    number: u32,
    left: &[Seat],
) -> Result<(), OutOfMemory>
    requires small { All IsSmall seats.now }
    requires few { length seats.now ≤ 12 }
    requires few_tries { tries ≤ 12 }
    requires number { number + length left.now ≤ 12 }
    requires low { IsLow (number + 1) (rows_seen rows.old) }
    ensures value { OnOk result (rows_seen rows.new ≡ rows_from room seats.now tries (rows_seen rows.old) number left.now) }
    ensures low { OnOk result (IsLow 13 (rows_seen rows.new)) }
{
    match left {
        [] => Ok(()),
        [s, rest @ ..] => {
            add_next(room, seats, tries, rows, number, s)?;
            add_all(room, seats, tries, rows, number + 1, rest)
        }
    }
}

/// All blocks in a room of this width. The time goes with the cube of the number of views.
pub(crate) fn rows_of(
    alloc: Global,
    corner: bool,
    tries: u32,
    room: u64,
    seats: &[Seat],
) -> Result<Rows, OutOfMemory>
    requires small { All IsSmall seats.now }
    requires few { length seats.now ≤ 12 }
    requires few_tries { tries ≤ 12 }
    ensures value { IfOk result (λ rows. rows_seen rows ≡ rows_of corner tries room seats.now) }
    ensures low { IfOk result (λ rows. IsLow 13 (rows_seen rows)) }
{
    let mut rows = first_rows(alloc, corner, seats)?;
    add_all(room, seats, tries, &mut rows, 0, seats)?;
    Ok(rows)
}

/// The upper left corner of a block.
pub(crate) fn spot_of(spots: &[Spot], block: u32) -> Spot
    ensures { result ≡ spot_of spots.now block }
{
    if block == 0 {
        return NO_SPOT;
    }
    match spots.get((block - 1) as usize) {
        Some(spot) => *spot,
        None => NO_SPOT,
    }
}
