// Where entries of a list first differ from pieces.
ghost use Rattle.std.specs.Prelude.{◌≡◌, ◌↔◌, ◌≤◌, length, IsTrue, MatchOption};
ghost use Rattle.std.specs.List.{AllZip};
ghost use Rattle.exact_frac.specs.Frac.{IsSameValue};
ghost use Rattle.lattice.specs.Points.{of_dir, of_spot, across_of, upward_of};
ghost use Rattle.sheet_plan.specs.Sheets.{mark_of, HasValue};
ghost use Rattle.piece_verify.specs.Stands.{StandsFor};
ghost use Rattle.piece_verify.specs.inner.Comparing.{IsFirstUnlike};

use crate::line::Entry;
use exact_frac::Frac;
use lattice::{Dir, Piece, Spot, Style, across, upward};
use sheet_plan::Mark;

/// The mark is that of the style.
fn is_mark_of(mark: Mark, style: Style) -> bool
    ensures { IsTrue result ↔ (mark ≡ mark_of style) }
{
    mark == Mark::of(style)
}

/// The two fractions have one value.
fn is_same(f: &Frac, g: &Frac) -> bool
    ensures { IsTrue result ↔ IsSameValue f.now g.now }
{
    f == g
}

/// The spot is seen at U and V.
fn is_seen_at(d: &Dir, u: &Frac, v: &Frac, spot: &Spot) -> bool
    ensures { IsTrue result ↔ (HasValue u.now (across_of (of_dir d.now) (of_spot spot.now)) spot.now.w × HasValue v.now (upward_of (of_dir d.now) (of_spot spot.now)) spot.now.w) }
{
    is_same(u, &across(d, spot)) && is_same(v, &upward(d, spot))
}

/// The entry stands for the piece.
fn stands_for(d: &Dir, entry: &Entry, piece: &Piece) -> bool
    ensures { IsTrue result ↔ StandsFor (of_dir d.now) entry.now piece.now }
{
    is_mark_of(entry.mark, piece.style)
        && is_seen_at(d, &entry.u1, &entry.v1, &piece.a)
        && is_seen_at(d, &entry.u2, &entry.v2, &piece.b)
}

/// The first place, counted from 0, where the one list has an entry that doesn't stand for the other's piece there, or where only one
/// of them has one. Each comparison takes four of fractions.
pub(crate) fn first_unlike(d: &Dir, given: &[Entry], pieces: &[Piece]) -> Option<usize>
    ensures { MatchOption result (AllZip (StandsFor (of_dir d.now)) given.now pieces.now) (IsFirstUnlike (of_dir d.now) given.now pieces.now) }
{
    let both = given.len().min(pieces.len());
    for place in 0..both {
        if !stands_for(d, &given[place], &pieces[place]) {
            return Some(place);
        }
    }
    if given.len() == pieces.len() {
        None
    } else {
        Some(both)
    }
}
