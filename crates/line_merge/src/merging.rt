// From the strips of one line to its pieces.
ghost use Rattle.std.specs.Prelude.{◌≡◌, List, ◌++◌, map, IfOk, OnOk};
ghost use Rattle.std.specs.List.{All, AllZip, filter, list_any};
ghost use Rattle.lattice.specs.Points.{of_dir};
ghost use Rattle.lattice.specs.Lines.{AreStripEnds};
ghost use Rattle.lattice.specs.declared.pieces.Piece.{Piece};
ghost use Rattle.lattice.specs.declared.pieces.StripKind.{StripKind};
ghost use Rattle.line_merge.specs.inner.Kinds.{is_up_to, is_trace};
ghost use Rattle.line_merge.specs.inner.Ends.{IsIntervalOf, AreUnitedOf, IsLeftOfAll};
ghost use Rattle.line_merge.specs.inner.Pieces.{piece_over, ArePiecesOf};

use crate::ends::{SeenEnd, interval_of};
use crate::numbering::Numbered;
use crate::pieces::piece_over;
use exact_frac::OutOfMemory;
use intervals::{Interval, rest, united};
use lattice::{Dir, Piece, StripKind, Style};
use std::alloc::Global;

/// Adds the pieces of these strips, which are on one line.
pub(crate) fn add_pieces(
    alloc: Global,
    d: &Dir,
    pieces: &mut Vec<Piece>,
    numbered: &[Numbered],
) -> Result<(), OutOfMemory>
    requires { All (λ x. AreStripEnds (of_dir d.now) x.strip.line x.strip.a x.strip.b) numbered.now }
    ensures { OnOk result ((here : List Piece) × (pieces.new.items ≡ pieces.old.items ++ here) × ArePiecesOf (of_dir d.now) numbered.now here) }
{
    let visible = united_up_to(alloc, d, numbered, StripKind::Seen)?;
    let drawn = united_up_to(alloc, d, numbered, StripKind::Hidden)?;
    let hidden = rest(alloc, &drawn, &visible)?;
    let traces = traces_beside(alloc, d, numbered, &drawn)?;
    add(pieces, &visible, Style::Solid)?;
    add(pieces, &hidden, Style::Dashed)?;
    add(pieces, &traces, Style::Chain)?;
    Ok(())
}

/// Some strip is one of a trace.
fn has_trace(numbered: &[Numbered]) -> bool
    ensures { result ≡ list_any (λ x. is_trace x.strip.kind) numbered.now }
{
    numbered
        .iter()
        .any(|x| matches!(x.strip.kind, StripKind::Trace))
}

/// What the strips of all kinds, put together, leave beside those that are drawn. Where there is no trace it is nothing, and no
/// list of all is made.
fn traces_beside(
    alloc: Global,
    d: &Dir,
    numbered: &[Numbered],
    drawn: &[Interval<SeenEnd>],
) -> Result<Vec<Interval<SeenEnd>>, OutOfMemory>
    requires ends { All (λ x. AreStripEnds (of_dir d.now) x.strip.line x.strip.a x.strip.b) numbered.now }
    requires drawn { AreUnitedOf (of_dir d.now) (filter (λ x. is_up_to StripKind.Hidden x.strip.kind) numbered.now) drawn.now }
    ensures { IfOk result (λ traces. IsLeftOfAll (of_dir d.now) numbered.now drawn.now traces.items) }
{
    if !has_trace(numbered) {
        return Ok(Vec::new(alloc));
    }
    let all = united_up_to(alloc, d, numbered, StripKind::Trace)?;
    let traces = rest(alloc, &all, drawn)?;
    Ok(traces)
}

/// The intervals of the strips of the kinds up to this one, put together.
fn united_up_to(
    alloc: Global,
    d: &Dir,
    numbered: &[Numbered],
    last: StripKind,
) -> Result<Vec<Interval<SeenEnd>>, OutOfMemory>
    requires { All (λ x. AreStripEnds (of_dir d.now) x.strip.line x.strip.a x.strip.b) numbered.now }
    ensures { IfOk result (λ united. AreUnitedOf (of_dir d.now) (filter (λ x. is_up_to last x.strip.kind) numbered.now) united.items) }
{
    united(alloc, intervals_up_to(alloc, d, numbered, last)?)
}

/// The kind is the last one or goes before it: seen, hidden, trace.
fn is_up_to(last: StripKind, kind: StripKind) -> bool
    ensures { result ≡ is_up_to last kind }
{
    match last {
        StripKind::Seen => matches!(kind, StripKind::Seen),
        StripKind::Hidden => !matches!(kind, StripKind::Trace),
        StripKind::Trace => true,
    }
}

/// The interval of each strip of the kinds up to this one.
fn intervals_up_to(
    alloc: Global,
    d: &Dir,
    numbered: &[Numbered],
    last: StripKind,
) -> Result<Vec<Interval<SeenEnd>>, OutOfMemory>
    requires { All (λ x. AreStripEnds (of_dir d.now) x.strip.line x.strip.a x.strip.b) numbered.now }
    ensures { IfOk result (λ intervals. AllZip (IsIntervalOf (of_dir d.now)) (filter (λ x. is_up_to last x.strip.kind) numbered.now) intervals.items) }
{
    let mut intervals = Vec::new(alloc);
    for x in numbered {
        if is_up_to(last, x.strip.kind) {
            intervals.push(interval_of(d, x))?;
        }
    }
    Ok(intervals)
}

/// Adds the pieces over the intervals, in this style.
fn add(
    pieces: &mut Vec<Piece>,
    intervals: &[Interval<SeenEnd>],
    style: Style,
) -> Result<(), OutOfMemory>
    ensures { OnOk result (pieces.new.items ≡ pieces.old.items ++ map (piece_over style) intervals.now) }
{
    for x in intervals {
        pieces.push(piece_over(style, x))?;
    }
    Ok(())
}
