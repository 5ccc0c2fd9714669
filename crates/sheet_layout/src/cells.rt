// In which block of a layout a view stands, and in which line of the block.
ghost use Rattle.std.specs.Prelude.{◌≡◌, ◌<◌, ◌≤◌};
ghost use Rattle.sheet_layout.specs.Cells.{are_next, is_around_front, is_beside_back, is_next, line_of, named_cell, rank_of};

use job_file::Principal;

/// The lines of a block: a row and a column, and what is in both.
#[derive(Clone, Copy, PartialEq, Eq, Debug)]
pub enum Line {
    Center,
    Row,
    Column,
}

/// A side of a view on the sheet.
#[derive(Clone, Copy, PartialEq, Eq, Debug)]
pub enum Side {
    Left,
    Right,
    Top,
    Bottom,
}

/// A side of the view with this number.
#[derive(Clone, Copy, Debug)]
pub struct Beside {
    pub view: u32,
    pub side: Side,
}

/// Where a view stands: in which block, in which line of it, and at which rank, which grows to the right or downward. A cut may stand
/// beside another view, in projection with it.
#[derive(Clone, Copy, Debug)]
pub struct Cell {
    pub block: u32,
    pub line: Line,
    pub rank: u32,
    pub beside: Option<Beside>,
}

/// The rank of what is in the middle of a block.
pub(crate) const MIDDLE: u32 = 1000;

/// The line of a named view.
fn line_of(name: Principal) -> Line
    ensures { result ≡ line_of name }
{
    match name {
        Principal::Front => Line::Center,
        Principal::Back | Principal::Left | Principal::Right => Line::Row,
        Principal::Above | Principal::Below => Line::Column,
    }
}

/// The rank of a named view, in third-angle or in first-angle projection.
fn rank_of(third: bool, name: Principal) -> u32
    ensures value { result ≡ rank_of third name }
    ensures least { 900 ≤ result }
    ensures most { result ≤ 1200 }
{
    match (name, third) {
        (Principal::Front, _) => MIDDLE,
        (Principal::Back, _) => 1200,
        (Principal::Left, false) | (Principal::Right, true) => 1100,
        (Principal::Left, true) | (Principal::Right, false) => 900,
        (Principal::Above, false) | (Principal::Below, true) => 1100,
        (Principal::Above, true) | (Principal::Below, false) => 900,
    }
}

/// Where a named view stands.
pub(crate) fn named_cell(third: bool, name: Principal) -> Cell
    ensures value { result ≡ named_cell third name }
    ensures least { 900 ≤ result.rank }
    ensures most { result.rank ≤ 1200 }
{
    Cell {
        block: 0,
        line: line_of(name),
        rank: rank_of(third, name),
        beside: None,
    }
}

/// The view of this name is next to front.
fn is_around_front(name: Principal) -> bool
    ensures { result ≡ is_around_front name }
{
    match name {
        Principal::Front | Principal::Back => false,
        Principal::Left | Principal::Right | Principal::Above | Principal::Below => true,
    }
}

/// The view of this name is next to back.
fn is_beside_back(third: bool, name: Principal) -> bool
    ensures { result ≡ is_beside_back third name }
{
    match name {
        Principal::Left => !third,
        Principal::Right => third,
        Principal::Front | Principal::Back | Principal::Above | Principal::Below => false,
    }
}

/// The first view is front or back, and the other one next to it.
fn is_next(third: bool, name: Principal, other: Principal) -> bool
    ensures { result ≡ is_next third name other }
{
    match name {
        Principal::Front => is_around_front(other),
        Principal::Back => is_beside_back(third, other),
        _ => false,
    }
}

/// Two named views are next to one another.
pub(crate) fn are_next(third: bool, name: Principal, other: Principal) -> bool
    ensures { result ≡ are_next third name other }
{
    is_next(third, name, other) || is_next(third, other, name)
}
