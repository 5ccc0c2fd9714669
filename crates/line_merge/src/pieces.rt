// Pieces of intervals, and their order.
ghost use Rattle.std.specs.Prelude.{◌≡◌, IsPermutation, IsSorted};
ghost use Rattle.lattice.specs.Points.{of_dir, of_spot};
ghost use Rattle.geometry.specs.Pieces.{rank_of};
ghost use Rattle.line_merge.specs.inner.Pieces.{view_order, piece_order, piece_over};

use crate::ends::SeenEnd;
use intervals::Interval;
use lattice::{Dir, Piece, Spot, Style, across, upward};
use std::cmp::Ordering;

/// The piece over an interval, in this style.
pub(crate) fn piece_over(style: Style, interval: &Interval<SeenEnd>) -> Piece
    ensures { result ≡ piece_over style interval.now }
{
    Piece {
        a: interval.from.spot,
        b: interval.to.spot,
        style,
    }
}

/// The place of a style in the order.
fn rank(style: Style) -> u8
    ensures { result ≡ rank_of style }
{
    match style {
        Style::Solid => 0,
        Style::Dashed => 1,
        Style::Chain => 2,
    }
}

/// The order in which two spots are seen: of U, and then of V.
fn compare_spots(d: &Dir, s: &Spot, t: &Spot) -> Ordering
    ensures { result ≡ view_order (of_dir d.now) (of_spot s.now) (of_spot t.now) }
{
    match across(d, s).cmp(&across(d, t)) {
        Ordering::Equal => upward(d, s).cmp(&upward(d, t)),
        different => different,
    }
}

/// The order of two pieces: solid ones first, then dashed ones, then chain ones, and then by where they begin, then by where they
/// end.
fn compare_pieces(d: &Dir, x: &Piece, y: &Piece) -> Ordering
    ensures { result ≡ piece_order (of_dir d.now) x.now y.now }
{
    match rank(x.style).cmp(&rank(y.style)) {
        Ordering::Equal => match compare_spots(d, &x.a, &y.a) {
            Ordering::Equal => compare_spots(d, &x.b, &y.b),
            different => different,
        },
        different => different,
    }
}

/// The pieces in their order. They are sorted in place.
pub(crate) fn sorted(d: &Dir, mut pieces: Vec<Piece>) -> Vec<Piece>
    ensures same { IsPermutation pieces.items result.items }
    ensures sorted { IsSorted (piece_order (of_dir d.now)) result.items }
{
    pieces.sort_unstable_by(|x, y| compare_pieces(d, x, y));
    pieces
}
