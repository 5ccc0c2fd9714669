// Beside which view a cut stands, and at which of its sides.
ghost use Rattle.std.specs.Prelude.{◌≡◌, ◌<◌, ◌≤◌, ◌+◌, length, List, IfSome};
ghost use Rattle.lattice.specs.Cuts.{plane_of, toward_of};
ghost use Rattle.lattice.specs.Points.{of_dir, of_vector};
ghost use Rattle.lattice.specs.Triple.{dot, right_axis, up_axis};
ghost use Rattle.job_file.specs.Seen.{direction_seen};
ghost use Rattle.sheet_layout.specs.Anchors.{anchor_in, anchor_of, anchor_on, anchored, anchored_cell, cell_at, cell_of, first_anchor, is_along, is_equal, is_next_along, is_next_named, is_same, line_at, next_along, or_else, own_cell, plain_cell, rank_at, sees_edge, side_by, side_in, side_of, taker_of};

use crate::cells::{Beside, Cell, Line, MIDDLE, Side, are_next, named_cell};
use job_file::{JobView, Principal};
use lattice::{Axis, Cut, Dir, Vector, ViewSpec};

/// Beside which view a cut stands, and outwards of which cell.
#[derive(Clone, Copy)]
pub(crate) struct Anchor {
    pub cell: Cell,
    pub at: Beside,
}

pub(crate) fn is_equal(a: i64, b: i64) -> bool
    ensures { result ≡ is_equal a b }
{
    !(a < b) && !(b < a)
}

fn is_same(a: &Vector, b: &Vector) -> bool
    ensures { result ≡ is_same (of_vector a.now) (of_vector b.now) }
{
    if !is_equal(a.x, b.x) {
        return false;
    }
    if !is_equal(a.y, b.y) {
        return false;
    }
    is_equal(a.z, b.z)
}

fn is_along(axis: Axis, d: &Vector) -> bool
    ensures { result ≡ is_along axis (of_vector d.now) }
{
    match axis {
        Axis::X => is_equal(d.y, 0) && is_equal(d.z, 0),
        Axis::Y => is_equal(d.x, 0) && is_equal(d.z, 0),
        Axis::Z => is_equal(d.x, 0) && is_equal(d.y, 0),
    }
}

/// A view along `d` sees planes across this axis edge-on.
fn sees_edge(axis: Axis, d: &Vector) -> bool
    ensures { result ≡ sees_edge axis (of_vector d.now) }
{
    match axis {
        Axis::X => is_along(Axis::Y, d) || is_along(Axis::Z, d),
        Axis::Y => is_along(Axis::X, d) || is_along(Axis::Z, d),
        Axis::Z => is_along(Axis::X, d) || is_along(Axis::Y, d),
    }
}

/// The side on which a view stands whose viewer is so far to the right, or so far up.
fn side_by(third: bool, lower: Side, upper: Side, n: i128) -> Option<Side>
    ensures { result ≡ side_by third lower upper n }
{
    if n < 0 {
        return Some(if third { lower } else { upper });
    }
    if 0 < n {
        return Some(if third { upper } else { lower });
    }
    None
}

/// Two views have V in common.
pub(crate) fn share_up(d: &Dir, c: &Dir) -> bool
    ensures { result ≡ is_same (up_axis (of_dir d.now)) (up_axis (of_dir c.now)) }
{
    is_same(&d.up(), &c.up())
}

/// Two views have U in common.
fn share_right(d: &Dir, c: &Dir) -> bool
    ensures { result ≡ is_same (right_axis (of_dir d.now)) (right_axis (of_dir c.now)) }
{
    is_same(&d.right(), &c.right())
}

/// How far to the right of a view along `d` the viewer of one along `c` is.
fn rightward(d: &Dir, c: &Dir) -> i128
    ensures { result ≡ dot (right_axis (of_dir d.now)) (of_dir c.now) }
{
    d.right().dot(&c.vector())
}

/// And how far up.
fn upward(d: &Dir, c: &Dir) -> i128
    ensures { result ≡ dot (up_axis (of_dir d.now)) (of_dir c.now) }
{
    d.up().dot(&c.vector())
}

/// The side of a view along `d` at which the view along `c` stands: in one row if they share V, in one column if they share U.
fn side_of(third: bool, d: &Dir, c: &Dir) -> Option<Side>
    ensures { result ≡ side_of third (of_dir d.now) (of_dir c.now) }
{
    if share_up(d, c) {
        return side_by(third, Side::Left, Side::Right, rightward(d, c));
    }
    if share_right(d, c) {
        return side_by(third, Side::Bottom, Side::Top, upward(d, c));
    }
    None
}

/// The side of a plain view at which a cut stands whose plane the view sees edge-on.
fn side_in(third: bool, cut: &Cut, spec: &ViewSpec) -> Option<Side>
    ensures { result ≡ side_in third (plane_of cut.now) spec.now }
{
    match spec {
        ViewSpec::Plain(d) => {
            if sees_edge(cut.axis(), &d.vector()) {
                side_of(third, d, &cut.dir())
            } else {
                None
            }
        }
        ViewSpec::Section(_) => None,
    }
}

/// A view with this name or none stands next to that of the other name, and looks along `c`.
fn is_next_along(third: bool, name: Principal, c: &Dir, view: &JobView) -> bool
    ensures { result ≡ is_next_along third name (of_dir c.now) view.now }
{
    match view.named {
        Some(other) => {
            are_next(third, name, other) && is_same(&view.dir().vector(), &c.vector())
        }
        None => false,
    }
}

/// The first view that stands next to that of the name and looks along `c`, by its name.
fn next_along(third: bool, name: Principal, c: &Dir, views: &[JobView]) -> Option<Principal>
    ensures { result ≡ next_along third name (of_dir c.now) views.now }
{
    match views {
        [] => None,
        [view, rest @ ..] => {
            if is_next_along(third, name, c, view) {
                view.named
            } else {
                next_along(third, name, c, rest)
            }
        }
    }
}

/// What takes the place at the side of a view at which a cut along `c` would stand.
fn taker_of(third: bool, all: &[JobView], c: &Dir, named: Option<Principal>) -> Option<Principal>
    ensures { result ≡ taker_of third all.now (of_dir c.now) named }
{
    match named {
        Some(name) => next_along(third, name, c, all),
        None => None,
    }
}

/// Where a plain view stands.
fn plain_cell(third: bool, view: u32, named: Option<Principal>) -> Cell
    requires { view < 12 }
    ensures value { result ≡ plain_cell third view named }
    ensures least { 900 ≤ result.rank }
    ensures most { result.rank ≤ 1200 }
{
    match named {
        Some(name) => named_cell(third, name),
        None => own_cell(view),
    }
}

/// A cut at the side of the view with this number, outwards of the view itself or of the named view that takes its side.
fn anchored(
    third: bool,
    taken: bool,
    view: u32,
    named: Option<Principal>,
    taker: Option<Principal>,
    side: Side,
) -> Option<Anchor>
    requires { view < 12 }
    ensures value { result ≡ anchored third taken view named taker side }
    ensures least { IfSome result (λ a. 900 ≤ a.cell.rank) }
    ensures most { IfSome result (λ a. a.cell.rank ≤ 1200) }
{
    let at = Beside { view, side };
    match (taken, taker) {
        (false, None) => Some(Anchor {
            cell: plain_cell(third, view, named),
            at,
        }),
        (true, Some(name)) => Some(Anchor {
            cell: named_cell(third, name),
            at,
        }),
        _ => None,
    }
}

/// The same if the cut stands at a side of this view at all.
fn anchor_in(
    third: bool,
    taken: bool,
    all: &[JobView],
    cut: &Cut,
    number: u32,
    view: &JobView,
) -> Option<Anchor>
    requires { number < 12 }
    ensures value { result ≡ anchor_in third taken all.now (plane_of cut.now) number view.now }
    ensures least { IfSome result (λ a. 900 ≤ a.cell.rank) }
    ensures most { IfSome result (λ a. a.cell.rank ≤ 1200) }
{
    match side_in(third, cut, &view.spec) {
        Some(side) => {
            let taker = taker_of(third, all, &cut.dir(), view.named);
            anchored(third, taken, number, view.named, taker, side)
        }
        None => None,
    }
}

/// The first of these views at which the cut stands so; the first of them has this number.
fn first_anchor(
    third: bool,
    taken: bool,
    all: &[JobView],
    cut: &Cut,
    number: u32,
    views: &[JobView],
) -> Option<Anchor>
    requires { number + length views.now ≤ 12 }
    ensures value { result ≡ first_anchor third taken all.now (plane_of cut.now) number views.now }
    ensures least { IfSome result (λ a. 900 ≤ a.cell.rank) }
    ensures most { IfSome result (λ a. a.cell.rank ≤ 1200) }
{
    match views {
        [] => None,
        [view, rest @ ..] => match anchor_in(third, taken, all, cut, number, view) {
            Some(anchor) => Some(anchor),
            None => first_anchor(third, taken, all, cut, number + 1, rest),
        },
    }
}

/// Beside which view the cut stands: the first in the job's order whose side is free, or else the first whose side is taken.
fn anchor_of(third: bool, all: &[JobView], cut: &Cut) -> Option<Anchor>
    requires { length all.now ≤ 12 }
    ensures value { result ≡ anchor_of third all.now (plane_of cut.now) }
    ensures least { IfSome result (λ a. 900 ≤ a.cell.rank) }
    ensures most { IfSome result (λ a. a.cell.rank ≤ 1200) }
{
    match first_anchor(third, false, all, cut, 0, all) {
        Some(anchor) => Some(anchor),
        None => first_anchor(third, true, all, cut, 0, all),
    }
}

fn line_at(side: Side) -> Line
    ensures { result ≡ line_at side }
{
    match side {
        Side::Left | Side::Right => Line::Row,
        Side::Top | Side::Bottom => Line::Column,
    }
}

/// The rank of a cut outwards of those of lesser number.
fn rank_at(side: Side, rank: u32, view: u32) -> u32
    requires few { view < 12 }
    requires least { 900 ≤ rank }
    requires most { rank ≤ 1200 }
    ensures { result ≡ rank_at side rank view }
{
    match side {
        Side::Left | Side::Top => rank - (view + 1),
        Side::Right | Side::Bottom => rank + (view + 1),
    }
}

/// In a block of its own.
fn own_cell(view: u32) -> Cell
    requires { view < 12 }
    ensures { result ≡ own_cell view }
{
    Cell {
        block: view + 1,
        line: Line::Center,
        rank: MIDDLE,
        beside: None,
    }
}

/// Where a cut stands: beside another view or in a block of its own.
fn cut_cell(third: bool, all: &[JobView], view: u32, cut: &Cut) -> Cell
    requires few { view < 12 }
    requires all_few { length all.now ≤ 12 }
    ensures { result ≡ cell_at view (anchor_of third all.now (plane_of cut.now)) }
{
    match anchor_of(third, all, cut) {
        Some(anchor) => Cell {
            block: anchor.cell.block,
            line: line_at(anchor.at.side),
            rank: rank_at(anchor.at.side, anchor.cell.rank, view),
            beside: Some(anchor.at),
        },
        None => own_cell(view),
    }
}

/// The cell of the view with this number; a cut stands beside another view only if it may.
pub(crate) fn cell_of(
    third: bool,
    all: &[JobView],
    beside: bool,
    number: u32,
    view: &JobView,
) -> Cell
    requires few { number < 12 }
    requires all_few { length all.now ≤ 12 }
    ensures { result ≡ cell_of third all.now beside number view.now.named view.now.spec }
{
    match &view.spec {
        ViewSpec::Plain(_) => plain_cell(third, number, view.named),
        ViewSpec::Section(cut) => {
            if beside {
                cut_cell(third, all, number, cut)
            } else {
                own_cell(number)
            }
        }
    }
}
