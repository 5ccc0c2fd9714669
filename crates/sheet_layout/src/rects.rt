// The boxes of views on a sheet, with their sides, and what is asked of them.
ghost use Rattle.std.specs.Prelude.{◌≡◌, ◌≤◌, IsTrue, All};
ghost use Rattle.std.specs.List.{list_all};
ghost use Rattle.sheet_layout.specs.Trials.{all_pairs_well, are_apart, are_in_line, are_level, are_upright, are_well, is_beside, is_inside, is_on_side, is_side_of, rect_of, share_block, stand_well, stands_beside};
ghost use Rattle.sheet_layout.specs.inner.Sizes.{IsFar, IsNear};

use crate::anchors::is_equal;
use crate::blocks::{in_column, in_row};
use crate::cells::{Beside, Side};
use crate::rooms::Room;
use crate::seats::Seat;

/// A rectangle on a sheet, in hundredths of a millimetre.
#[derive(Clone, Copy)]
pub(crate) struct Rect {
    pub left: u128,
    pub right: u128,
    pub top: u128,
    pub bottom: u128,
}

/// A view on a sheet: where its box begins, from the left and from above. Both are below 2^80.
#[derive(Clone, Copy)]
pub(crate) struct Standing {
    pub x: u128,
    pub y: u128,
    pub seat: Seat,
}

/// A box with its sides.
fn rect_of(t: &Standing) -> Rect
    requires { IsFar t.now }
    ensures { result ≡ rect_of t.now }
{
    let width = u128::from(t.seat.width) + u128::from(t.seat.right);
    let height = u128::from(t.seat.height) + u128::from(t.seat.bottom);
    Rect {
        left: t.x.saturating_sub(t.seat.left.into()),
        right: t.x + width,
        top: t.y.saturating_sub(t.seat.top.into()),
        bottom: t.y + height,
    }
}

/// A box with its sides is in the room.
fn is_inside(room: &Room, t: &Standing) -> bool
    requires { IsFar t.now }
    ensures { result ≡ is_inside room.now t.now }
{
    let rect = rect_of(t);
    if !(u128::from(room.left) <= rect.left) {
        return false;
    }
    if !(rect.right <= u128::from(room.right)) {
        return false;
    }
    u128::from(room.top) <= rect.top && rect.bottom <= u128::from(room.bottom)
}

/// Two boxes with their sides don't overlap.
fn are_apart(t: &Standing, u: &Standing) -> bool
    requires first { IsFar t.now }
    requires second { IsFar u.now }
    ensures { result ≡ are_apart t.now u.now }
{
    let a = rect_of(t);
    let b = rect_of(u);
    if a.right <= b.left {
        return true;
    }
    if b.right <= a.left {
        return true;
    }
    a.bottom <= b.top || b.bottom <= a.top
}

/// Two views stand in one block.
fn share_block(t: &Standing, u: &Standing) -> bool
    ensures { result ≡ share_block t.now u.now }
{
    t.seat.cell.block == u.seat.cell.block
}

/// If both stand in the row of a block, their origins are equally high.
fn are_level(t: &Standing, u: &Standing) -> bool
    ensures { result ≡ are_level t.now u.now }
{
    if in_column(t.seat.cell.line) || in_column(u.seat.cell.line) {
        return true;
    }
    t.y == u.y && is_equal(t.seat.above, u.seat.above)
}

/// If both stand in its column, their origins are equally far to the right.
fn are_upright(t: &Standing, u: &Standing) -> bool
    ensures { result ≡ are_upright t.now u.now }
{
    if in_row(t.seat.cell.line) || in_row(u.seat.cell.line) {
        return true;
    }
    t.x == u.x && is_equal(t.seat.from_left, u.seat.from_left)
}

/// Views of one row or column of a block are in line.
fn are_in_line(t: &Standing, u: &Standing) -> bool
    ensures { result ≡ are_in_line t.now u.now }
{
    if !share_block(t, u) {
        return true;
    }
    are_level(t, u) && are_upright(t, u)
}

/// Two views are apart, and in line if they share a block's row or column.
fn are_well(t: &Standing, u: &Standing) -> bool
    requires first { IsFar t.now }
    requires second { IsFar u.now }
    ensures { result ≡ are_well t.now u.now }
{
    are_apart(t, u) && are_in_line(t, u)
}

/// The view is so with each of the others.
fn is_well_with(t: &Standing, others: &[Standing]) -> bool
    requires own { IsFar t.now }
    requires far { All IsFar others.now }
    ensures { result ≡ list_all (are_well t.now) others.now }
{
    match others {
        [] => true,
        [u, rest @ ..] => are_well(t, u) && is_well_with(t, rest),
    }
}

/// All pairs of views are so. The time goes with the square of their number.
fn all_pairs_well(all: &[Standing]) -> bool
    requires { All IsFar all.now }
    ensures { result ≡ all_pairs_well all.now }
{
    match all {
        [] => true,
        [t, rest @ ..] => is_well_with(t, rest) && all_pairs_well(rest),
    }
}

/// The second view is on that side of the first.
fn is_on_side(side: Side, t: &Standing, u: &Standing) -> bool
    requires first { IsFar t.now }
    requires second { IsFar u.now }
    ensures { result ≡ is_on_side side t.now u.now }
{
    let a = rect_of(t);
    let b = rect_of(u);
    match side {
        Side::Left => b.right <= a.left,
        Side::Right => a.right <= b.left,
        Side::Top => b.bottom <= a.top,
        Side::Bottom => a.bottom <= b.top,
    }
}

/// A view is on its side of another, if it stands beside it.
fn is_beside(all: &[Standing], beside: Option<Beside>, u: &Standing) -> bool
    requires own { IsFar u.now }
    requires far { All IsFar all.now }
    ensures { result ≡ is_beside all.now beside u.now }
{
    let Some(at) = beside else {
        return true;
    };
    match all.get(at.view as usize) {
        Some(t) => is_on_side(at.side, t, u),
        None => false,
    }
}

/// Each of these views is on its side.
fn all_stand_beside(all: &[Standing], left: &[Standing]) -> bool
    requires far { All IsFar all.now }
    requires own { All IsFar left.now }
    ensures { result ≡ list_all (stands_beside all.now) left.now }
{
    match left {
        [] => true,
        [u, rest @ ..] => is_beside(all, u.seat.cell.beside, u) && all_stand_beside(all, rest),
    }
}

/// Each of these boxes with its sides is in the room.
fn all_inside(room: &Room, all: &[Standing]) -> bool
    requires { All IsFar all.now }
    ensures { result ≡ list_all (is_inside room.now) all.now }
{
    match all {
        [] => true,
        [t, rest @ ..] => is_inside(room, t) && all_inside(room, rest),
    }
}

/// Each box with its sides is in the room, no two overlap, views of one row or column are in line, and each cut in projection is on its side.
pub(crate) fn stand_well(room: &Room, all: &[Standing]) -> bool
    requires far { All IsFar all.now }
    requires wide { room.now.right ≤ 118900 }
    requires high { room.now.bottom ≤ 118900 }
    ensures value { result ≡ stand_well room.now all.now }
    ensures near { IsTrue result → All IsNear all.now }
{
    if !all_inside(room, all) {
        return false;
    }
    all_pairs_well(all) && all_stand_beside(all, all)
}
