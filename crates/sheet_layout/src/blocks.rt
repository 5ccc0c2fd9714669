// Where the views of a block stand in it.
ghost use Rattle.std.specs.Prelude.{◌≡◌, ◌<◌, ◌≤◌, ◌*◌, ◌^◌, length, All};
ghost use Rattle.sheet_layout.specs.Blocks.{across_middle, block_height, block_width, bottom_part, column_before, column_part, down_middle, greatest_of, in_block, in_column, in_row, left_of, left_part, outer_height, outer_width, part_if, past_middle, right_part, row_before, row_part, seat_x, seat_y, stands_before, sum_of, top_of, top_part};
ghost use Rattle.sheet_layout.specs.inner.Sizes.{IsSmall};

use crate::cells::{Line, MIDDLE};
use crate::seats::Seat;

/// All of a line has a lower rank than this.
const LAST: u32 = 2000;

fn outer_width(s: &Seat) -> u64
    requires { IsSmall s.now }
    ensures value { result ≡ outer_width s.now }
    ensures size { result ≤ 2 ^ 47 }
{
    u64::from(s.left) + s.width + u64::from(s.right)
}

fn outer_height(s: &Seat) -> u64
    requires { IsSmall s.now }
    ensures value { result ≡ outer_height s.now }
    ensures size { result ≤ 2 ^ 47 }
{
    u64::from(s.top) + s.height + u64::from(s.bottom)
}

/// A view of the row stands beside others along it.
pub(crate) fn in_row(line: Line) -> bool
    ensures { result ≡ in_row line }
{
    match line {
        Line::Row => true,
        Line::Center | Line::Column => false,
    }
}

/// A view of the column stands beside others down it.
pub(crate) fn in_column(line: Line) -> bool
    ensures { result ≡ in_column line }
{
    match line {
        Line::Column => true,
        Line::Center | Line::Row => false,
    }
}

/// The number, or nothing.
fn part_if(stands: bool, n: u64) -> u64
    ensures { result ≡ part_if stands n }
{
    if stands { n } else { 0 }
}

fn stands_before(block: u32, rank: u32, s: &Seat) -> bool
    ensures { result ≡ stands_before block rank s.now }
{
    s.cell.block == block && s.cell.rank < rank
}

/// What the view takes of the row of a block before this rank.
fn row_part(block: u32, rank: u32, s: &Seat) -> u64
    requires { IsSmall s.now }
    ensures value { result ≡ row_part block rank s.now }
    ensures size { result ≤ 2 ^ 47 }
{
    part_if(
        stands_before(block, rank, s) && in_row(s.cell.line),
        outer_width(s),
    )
}

/// The same of its column.
fn column_part(block: u32, rank: u32, s: &Seat) -> u64
    requires { IsSmall s.now }
    ensures value { result ≡ column_part block rank s.now }
    ensures size { result ≤ 2 ^ 47 }
{
    part_if(
        stands_before(block, rank, s) && in_column(s.cell.line),
        outer_height(s),
    )
}

/// What the views of a block's row take that have a lower rank.
pub(crate) fn row_before(seats: &[Seat], block: u32, rank: u32) -> u64
    requires small { All IsSmall seats.now }
    requires few { length seats.now ≤ 12 }
    ensures value { result ≡ row_before seats.now block rank }
    ensures size { result ≤ length seats.now * 2 ^ 47 }
{
    match seats {
        [] => 0,
        [s, rest @ ..] => row_part(block, rank, s) + row_before(rest, block, rank),
    }
}

/// The same of its column.
pub(crate) fn column_before(seats: &[Seat], block: u32, rank: u32) -> u64
    requires small { All IsSmall seats.now }
    requires few { length seats.now ≤ 12 }
    ensures value { result ≡ column_before seats.now block rank }
    ensures size { result ≤ length seats.now * 2 ^ 47 }
{
    match seats {
        [] => 0,
        [s, rest @ ..] => column_part(block, rank, s) + column_before(rest, block, rank),
    }
}

/// The view stands in this block.
pub(crate) fn in_block(block: u32, s: &Seat) -> bool
    ensures { result ≡ in_block block s.now }
{
    s.cell.block == block
}

/// The left side of a view of a block's column.
fn left_part(block: u32, s: &Seat) -> u64
    ensures value { result ≡ left_part block s.now }
    ensures size { result ≤ 2 ^ 47 }
{
    if in_row(s.cell.line) {
        return 0;
    }
    part_if(in_block(block, s), u64::from(s.left))
}

/// Its box and its right side.
fn right_part(block: u32, s: &Seat) -> u64
    requires { IsSmall s.now }
    ensures value { result ≡ right_part block s.now }
    ensures size { result ≤ 2 ^ 47 }
{
    if in_row(s.cell.line) {
        return 0;
    }
    part_if(in_block(block, s), s.width + u64::from(s.right))
}

/// The upper side of a view of a block's row.
fn top_part(block: u32, s: &Seat) -> u64
    ensures value { result ≡ top_part block s.now }
    ensures size { result ≤ 2 ^ 47 }
{
    if in_column(s.cell.line) {
        return 0;
    }
    part_if(in_block(block, s), u64::from(s.top))
}

/// Its box and its lower side.
fn bottom_part(block: u32, s: &Seat) -> u64
    requires { IsSmall s.now }
    ensures value { result ≡ bottom_part block s.now }
    ensures size { result ≤ 2 ^ 47 }
{
    if in_column(s.cell.line) {
        return 0;
    }
    part_if(in_block(block, s), s.height + u64::from(s.bottom))
}

/// How far the left sides of the boxes of a block's column are from where it begins.
pub(crate) fn left_of(seats: &[Seat], block: u32) -> u64
    ensures value { result ≡ left_of seats.now block }
    ensures size { result ≤ 2 ^ 47 }
{
    match seats {
        [] => 0,
        [s, rest @ ..] => left_part(block, s).max(left_of(rest, block)),
    }
}

/// How far its end is from there.
fn right_of(seats: &[Seat], block: u32) -> u64
    requires { All IsSmall seats.now }
    ensures value { result ≡ greatest_of (right_part block) seats.now }
    ensures size { result ≤ 2 ^ 47 }
{
    match seats {
        [] => 0,
        [s, rest @ ..] => right_part(block, s).max(right_of(rest, block)),
    }
}

/// How far the tops of the boxes of a block's row are from where it begins.
pub(crate) fn top_of(seats: &[Seat], block: u32) -> u64
    ensures value { result ≡ top_of seats.now block }
    ensures size { result ≤ 2 ^ 47 }
{
    match seats {
        [] => 0,
        [s, rest @ ..] => top_part(block, s).max(top_of(rest, block)),
    }
}

/// How far its end is from there.
fn bottom_of(seats: &[Seat], block: u32) -> u64
    requires { All IsSmall seats.now }
    ensures value { result ≡ greatest_of (bottom_part block) seats.now }
    ensures size { result ≤ 2 ^ 47 }
{
    match seats {
        [] => 0,
        [s, rest @ ..] => bottom_part(block, s).max(bottom_of(rest, block)),
    }
}

/// How wide the middle of a block is.
pub(crate) fn across_middle(seats: &[Seat], block: u32) -> u64
    requires { All IsSmall seats.now }
    ensures value { result ≡ across_middle seats.now block }
    ensures size { result ≤ 2 ^ 48 }
{
    left_of(seats, block) + right_of(seats, block)
}

/// And how high.
pub(crate) fn down_middle(seats: &[Seat], block: u32) -> u64
    requires { All IsSmall seats.now }
    ensures value { result ≡ down_middle seats.now block }
    ensures size { result ≤ 2 ^ 48 }
{
    top_of(seats, block) + bottom_of(seats, block)
}

/// How wide a block is. Goes three times over the views.
pub(crate) fn block_width(seats: &[Seat], block: u32) -> u64
    requires small { All IsSmall seats.now }
    requires few { length seats.now ≤ 12 }
    ensures value { result ≡ block_width seats.now block }
    ensures size { result ≤ 2 ^ 51 }
{
    row_before(seats, block, LAST) + across_middle(seats, block)
}

/// And how high.
pub(crate) fn block_height(seats: &[Seat], block: u32) -> u64
    requires small { All IsSmall seats.now }
    requires few { length seats.now ≤ 12 }
    ensures value { result ≡ block_height seats.now block }
    ensures size { result ≤ 2 ^ 51 }
{
    column_before(seats, block, LAST) + down_middle(seats, block)
}

/// The length, if the rank is past the middle.
fn past_middle(rank: u32, length: u64) -> u64
    ensures value { result ≡ past_middle rank length }
    ensures size { result ≤ length }
{
    if MIDDLE < rank { length } else { 0 }
}

/// Where a view's box begins in its block, from the left.
pub(crate) fn seat_x(seats: &[Seat], s: &Seat) -> u64
    requires small { All IsSmall seats.now }
    requires few { length seats.now ≤ 12 }
    requires own { IsSmall s.now }
    ensures value { result ≡ seat_x seats.now s.now }
    ensures size { result ≤ 2 ^ 51 }
{
    let block = s.cell.block;
    if in_row(s.cell.line) {
        let middle = past_middle(s.cell.rank, across_middle(seats, block));
        return row_before(seats, block, s.cell.rank) + middle + u64::from(s.left);
    }
    row_before(seats, block, MIDDLE) + left_of(seats, block)
}

/// And from above.
pub(crate) fn seat_y(seats: &[Seat], s: &Seat) -> u64
    requires small { All IsSmall seats.now }
    requires few { length seats.now ≤ 12 }
    requires own { IsSmall s.now }
    ensures value { result ≡ seat_y seats.now s.now }
    ensures size { result ≤ 2 ^ 51 }
{
    let block = s.cell.block;
    if in_column(s.cell.line) {
        let middle = past_middle(s.cell.rank, down_middle(seats, block));
        return column_before(seats, block, s.cell.rank) + middle + u64::from(s.top);
    }
    column_before(seats, block, MIDDLE) + top_of(seats, block)
}
