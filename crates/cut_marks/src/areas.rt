// What the ends of marks take on the sheet, and which marks stand well.
ghost use Rattle.std.specs.Prelude.{◌≡◌, ◌<◌, ◌^◌, pos, ◌+ℤ◌, ◌-ℤ◌, unsigned_abs, int_lt};
ghost use Rattle.std.specs.List.{list_all};
ghost use Rattle.sheet_plan.specs.Boxes.{box_of};
ghost use Rattle.sheet_layout.specs.Keeps.{with_sides};
ghost use Rattle.cut_marks.specs.Areas.{letter_area, spot_area, around, strong_area, arrow_area, letters_area, line_area, areas_of, letters_of, are_separate, is_clear, are_apart, none_touch, area_of, is_between, is_inside, is_off, is_placed_well, stand_well, is_free_of, none_crossed};

use crate::figures::{CutMark, MarkEnd, SheetPoint};
use crate::heading_rooms::{box_width, level_side, side_or_least};
use sheet_layout::Sides;
use sheet_plan::ViewBox;

/// A rectangle on the sheet. No sum in it wraps, wherever the places are.
#[derive(Clone, Copy)]
pub(crate) struct Area {
    pub left: i128,
    pub right: i128,
    pub top: i128,
    pub bottom: i128,
}

/// What a letter takes at this place.
fn letter_area(place: &SheetPoint) -> Area
    ensures { result ≡ letter_area place.now }
{
    let x = i128::from(place.x);
    let y = i128::from(place.y);
    Area {
        left: x - 240,
        right: x + 240,
        top: y - 400,
        bottom: y + 40,
    }
}

/// What a strong end takes around its beginning, or its end.
fn strong_spot(place: &SheetPoint) -> Area
    ensures { result ≡ spot_area 55 place.now }
{
    let x = i128::from(place.x);
    let y = i128::from(place.y);
    Area {
        left: x - 55,
        right: x + 55,
        top: y - 55,
        bottom: y + 55,
    }
}

/// What an arrow takes around its tail, or its tip.
fn arrow_spot(place: &SheetPoint) -> Area
    ensures { result ≡ spot_area 85 place.now }
{
    let x = i128::from(place.x);
    let y = i128::from(place.y);
    Area {
        left: x - 85,
        right: x + 85,
        top: y - 85,
        bottom: y + 85,
    }
}

/// What a chain line takes around one of its ends.
fn line_spot(place: &SheetPoint) -> Area
    ensures { result ≡ spot_area 20 place.now }
{
    let x = i128::from(place.x);
    let y = i128::from(place.y);
    Area {
        left: x - 20,
        right: x + 20,
        top: y - 20,
        bottom: y + 20,
    }
}

/// The least rectangle around both.
fn around(a: &Area, b: &Area) -> Area
    ensures { result ≡ around a.now b.now }
{
    Area {
        left: a.left.min(b.left),
        right: a.right.max(b.right),
        top: a.top.min(b.top),
        bottom: a.bottom.max(b.bottom),
    }
}

/// What the strong end takes at this end.
fn strong_area(end: &MarkEnd) -> Area
    ensures { result ≡ strong_area end.now }
{
    around(&strong_spot(&end.start), &strong_spot(&end.tip))
}

/// What the arrow takes at this end.
fn arrow_area(end: &MarkEnd) -> Area
    ensures { result ≡ arrow_area end.now }
{
    around(&arrow_spot(&end.tail), &arrow_spot(&end.tip))
}

/// What the letters take at this end.
fn letters_area(beside: Option<u8>, end: &MarkEnd) -> Area
    ensures { result ≡ letters_area beside end.now }
{
    match beside {
        Some(_) => around(&letter_area(&end.letter), &letter_area(&end.beside)),
        None => letter_area(&end.letter),
    }
}

/// What the chain line of a mark takes.
fn line_area(mark: &CutMark) -> Area
    ensures { result ≡ line_area mark.now }
{
    around(&line_spot(&mark.first.tip), &line_spot(&mark.second.tip))
}

/// What a mark takes at its two ends.
fn areas_of(mark: &CutMark) -> [Area; 6]
    ensures { result ≡ areas_of mark.now }
{
    [
        strong_area(&mark.first),
        arrow_area(&mark.first),
        letters_area(mark.beside, &mark.first),
        strong_area(&mark.second),
        arrow_area(&mark.second),
        letters_area(mark.beside, &mark.second),
    ]
}

/// What its letters take.
fn letters_of(mark: &CutMark) -> [Area; 2]
    ensures { result ≡ letters_of mark.now }
{
    [
        letters_area(mark.beside, &mark.first),
        letters_area(mark.beside, &mark.second),
    ]
}

fn is_less(a: i128, b: i128) -> bool
    ensures { result ≡ int_lt a b }
{
    a < b
}

/// Of two stretches one ends before the other begins.
fn are_separate(from: i128, to: i128, other_from: i128, other_to: i128) -> bool
    ensures { result ≡ are_separate from to other_from other_to }
{
    is_less(to, other_from) || is_less(other_to, from)
}

/// Of two areas one ends before the other begins, across or downward.
fn is_clear(a: &Area, b: &Area) -> bool
    ensures { result ≡ is_clear a.now b.now }
{
    are_separate(a.left, a.right, b.left, b.right) || are_separate(a.top, a.bottom, b.top, b.bottom)
}

/// An area is clear of each of these.
fn is_clear_of(area: &Area, others: &[Area]) -> bool
    ensures { result ≡ list_all (is_clear area.now) others.now }
{
    others.iter().all(|other| is_clear(area, other))
}

/// Each of the first areas is clear of each of the others.
fn are_clear(areas: &[Area], others: &[Area]) -> bool
    ensures { result ≡ list_all (λ a. list_all (is_clear a) others.now) areas.now }
{
    areas.iter().all(|area| is_clear_of(area, others))
}

/// The strong ends, the arrows and the letters of one mark are clear of those of the other.
fn are_apart(a: &CutMark, b: &CutMark) -> bool
    ensures { result ≡ are_apart a.now b.now }
{
    are_clear(&areas_of(a), &areas_of(b))
}

/// The mark touches none of these.
fn is_apart_from(mark: &CutMark, others: &[CutMark]) -> bool
    ensures { result ≡ list_all (are_apart mark.now) others.now }
{
    others.iter().all(|other| are_apart(mark, other))
}

/// No two of the marks touch. The time goes with the square of their number.
fn none_touch(marks: &[CutMark]) -> bool
    ensures { result ≡ none_touch marks.now }
{
    match marks {
        [] => true,
        [mark, rest @ ..] => is_apart_from(mark, rest) && none_touch(rest),
    }
}

/// So far before a place of the sheet.
fn before(at: i64, by: u64) -> i128
    requires here { unsigned_abs at < 2 ^ 61 }
    requires near { by < 2 ^ 32 }
    ensures { result ≡ at -ℤ pos by }
{
    i128::from(at) - i128::from(by)
}

/// So far behind one.
fn behind(at: i64, by: u64) -> i128
    requires here { unsigned_abs at < 2 ^ 61 }
    requires near { by < 2 ^ 32 }
    ensures { result ≡ at +ℤ pos by }
{
    i128::from(at) + i128::from(by)
}

/// The box of a view.
pub(crate) fn box_area(b: &ViewBox) -> Area
    ensures { result ≡ area_of (box_of b.now) }
{
    Area {
        left: i128::from(b.left),
        right: i128::from(b.right),
        top: i128::from(b.top),
        bottom: i128::from(b.bottom),
    }
}

/// The box of a view with its sides, which are shrunk or not.
pub(crate) fn room_area(shrunk: bool, sides: &Sides, b: &ViewBox) -> Area
    ensures { result ≡ area_of (with_sides shrunk sides.now (box_of b.now)) }
{
    let width = box_width(b);
    let left = level_side(shrunk, sides.left, sides.width, width);
    let right = level_side(shrunk, sides.right, sides.width, width);
    Area {
        left: before(b.left, left),
        right: behind(b.right, right),
        top: before(b.top, side_or_least(shrunk, sides.top)),
        bottom: behind(b.bottom, side_or_least(shrunk, sides.bottom)),
    }
}

/// A stretch is within another.
fn is_between(outer_from: i128, outer_to: i128, from: i128, to: i128) -> bool
    ensures { result ≡ is_between outer_from outer_to from to }
{
    is_less(outer_from, from) && is_less(to, outer_to)
}

/// An area is within another.
fn is_inside(room: &Area, a: &Area) -> bool
    ensures { result ≡ is_inside room.now a.now }
{
    is_between(room.left, room.right, a.left, a.right)
        && is_between(room.top, room.bottom, a.top, a.bottom)
}

/// An area is within a view's room, and clear of its box.
fn is_off(own: &Area, room: &Area, a: &Area) -> bool
    ensures { result ≡ is_off own.now room.now a.now }
{
    is_inside(room, a) && is_clear(a, own)
}

/// Each of these is so.
fn are_off(own: &Area, room: &Area, areas: &[Area]) -> bool
    ensures { result ≡ list_all (is_off own.now room.now) areas.now }
{
    areas.iter().all(|a| is_off(own, room, a))
}

/// All that a mark takes is within the view's room, and clear of its box.
fn is_placed_well(own: &Area, room: &Area, mark: &CutMark) -> bool
    ensures { result ≡ is_placed_well own.now room.now mark.now }
{
    are_off(own, room, &areas_of(mark))
}

fn all_placed_well(own: &Area, room: &Area, marks: &[CutMark]) -> bool
    ensures { result ≡ list_all (is_placed_well own.now room.now) marks.now }
{
    marks.iter().all(|mark| is_placed_well(own, room, mark))
}

/// Each mark is placed well in the view with this box and this room, and no two touch.
pub(crate) fn stand_well(own: &Area, room: &Area, marks: &[CutMark]) -> bool
    ensures { result ≡ stand_well own.now room.now marks.now }
{
    all_placed_well(own, room, marks) && none_touch(marks)
}

/// The chain line of a mark crosses no letter of the other.
fn is_free_of(mark: &CutMark, other: &CutMark) -> bool
    ensures { result ≡ is_free_of mark.now other.now }
{
    is_clear_of(&line_area(mark), &letters_of(other))
}

fn is_free_of_all(mark: &CutMark, others: &[CutMark]) -> bool
    ensures { result ≡ list_all (is_free_of mark.now) others.now }
{
    others.iter().all(|other| is_free_of(mark, other))
}

/// No chain line crosses a letter.
pub(crate) fn none_crossed(marks: &[CutMark]) -> bool
    ensures { result ≡ none_crossed marks.now }
{
    marks.iter().all(|mark| is_free_of_all(mark, marks))
}
