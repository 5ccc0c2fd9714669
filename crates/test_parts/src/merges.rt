// Worked rows in the front view, where U is x and V is z: strips put together to pieces.
ghost use Rattle.std.specs.Prelude.{IfOk, IfSome};
ghost use Rattle.lattice.specs.Lines.{AreStripEnds};
ghost use Rattle.lattice.specs.Points.{of_dir};
ghost use Rattle.line_merge.specs.Merging.{AreStrips};

use exact_frac::OutOfMemory;
use lattice::{Corner, Dir, Line, Piece, Spot, Strip, StripKind, Style, same_sight};
use line_merge::merge;
use std::alloc::Global;
use std::process::Abort;

// U and V of the one end and of the other, and the kind of a strip or the style of a piece.
type Row<T> = (i8, i8, i8, i8, T);

type Case = (&'static [Row<StripKind>], &'static [Row<Style>]);

const SEEN: StripKind = StripKind::Seen;

const HIDDEN: StripKind = StripKind::Hidden;

const TRACE: StripKind = StripKind::Trace;

const SOLID: Style = Style::Solid;

const DASHED: Style = Style::Dashed;

const CHAIN: Style = Style::Chain;

// A corner at this place, so far away.
fn corner(u: i8, away: u8, v: i8) -> Corner {
    Corner {
        x: u.into(),
        y: away.into(),
        z: v.into(),
    }
}

// The strip between two corners, if they aren't seen at one place.
fn strip(d: &Dir, p: &Corner, q: &Corner, kind: StripKind) -> Option<Strip>
    ensures { IfSome result (λ x. AreStripEnds (of_dir d.now) x.line x.a x.b) }
{
    let (a, b) = (Spot::at(p), Spot::at(q));
    if same_sight(d, &a, &b) {
        return None;
    }
    let line = Line::through(d, p, q);
    Some(Strip { line, a, b, kind })
}

// The strips of the rows, each farther away than the one before.
fn strips(
    rt: &impl Abort,
    alloc: Global,
    d: &Dir,
    rows: &[Row<StripKind>],
) -> Result<Vec<Strip>, OutOfMemory>
    ensures { IfOk result (λ strips. AreStrips (of_dir d.now) strips.items) }
{
    let mut strips = Vec::new(alloc);
    let mut away: u8 = 0;
    for (u, v, s, t, kind) in rows {
        let Some(x) = strip(d, &corner(*u, away, *v), &corner(*s, 0, *t), *kind) else {
            panic!(rt; "a dot");
        };
        strips.push(x)?;
        away = away.wrapping_add(1);
    }
    Ok(strips)
}

// The spot is seen at this place.
fn is_at(spot: &Spot, u: i8, v: i8) -> bool {
    spot.x == i128::from(u) && spot.z == i128::from(v) && spot.w == 1
}

fn is_piece(piece: &Piece, row: &Row<Style>) -> bool {
    let (u, v, s, t, style) = *row;
    is_at(&piece.a, u, v) && is_at(&piece.b, s, t) && piece.style == style
}

// The pieces are those of the rows, in their order.
fn are_pieces(pieces: &[Piece], rows: &[Row<Style>]) -> bool {
    for (piece, row) in pieces.iter().zip(rows) {
        if !is_piece(piece, row) {
            return false;
        }
    }
    pieces.len() == rows.len()
}

fn check(rt: &impl Abort, alloc: Global, case: &Case) {
    let Ok(front) = Dir::new(0, -1, 0) else {
        panic!(rt; "no direction");
    };
    let Ok(strips) = strips(rt, alloc, &front, case.0) else {
        panic!(rt; "no memory");
    };
    match merge(alloc, &front, &strips) {
        Ok(pieces) => assert!(rt; are_pieces(&pieces, case.1), "{pieces:?}"),
        Err(_) => panic!(rt; "no memory"),
    }
}

fn check_all(rt: &impl Abort, alloc: Global, cases: &[Case]) {
    for case in cases {
        check(rt, alloc, case);
    }
}

// Strips of one line.
const ONE_LINE: [Case; 10] = [
    (&[], &[]),
    (
        &[(0, 0, 6, 0, SEEN), (4, 0, 10, 0, SEEN)],
        &[(0, 0, 10, 0, SOLID)],
    ),
    (
        &[(0, 0, 5, 0, SEEN), (9, 0, 5, 0, SEEN)],
        &[(0, 0, 9, 0, SOLID)],
    ),
    (
        &[(0, 3, 9, 3, HIDDEN), (3, 3, 6, 3, SEEN)],
        &[
            (3, 3, 6, 3, SOLID),
            (0, 3, 3, 3, DASHED),
            (6, 3, 9, 3, DASHED),
        ],
    ),
    (
        &[(2, 2, 4, 4, HIDDEN), (0, 0, 8, 8, SEEN)],
        &[(0, 0, 8, 8, SOLID)],
    ),
    (
        &[(6, 6, 8, 8, SEEN), (0, 0, 2, 2, SEEN)],
        &[(0, 0, 2, 2, SOLID), (6, 6, 8, 8, SOLID)],
    ),
    (
        &[(1, 1, 3, 5, HIDDEN), (3, 5, 1, 1, HIDDEN)],
        &[(1, 1, 3, 5, DASHED)],
    ),
    (
        &[(2, 7, 2, 1, SEEN), (2, 7, 2, 9, HIDDEN)],
        &[(2, 1, 2, 7, SOLID), (2, 7, 2, 9, DASHED)],
    ),
    (
        &[
            (0, 0, 4, 0, HIDDEN),
            (4, 0, 8, 0, HIDDEN),
            (2, 0, 6, 0, SEEN),
        ],
        &[
            (2, 0, 6, 0, SOLID),
            (0, 0, 2, 0, DASHED),
            (6, 0, 8, 0, DASHED),
        ],
    ),
    (
        &[(9, -9, 0, 0, HIDDEN), (-2, 2, 3, -3, SEEN)],
        &[(-2, 2, 3, -3, SOLID), (3, -3, 9, -9, DASHED)],
    ),
];

#[test]
fn one_line(rt: HostRuntime) {
    check_all(&rt, rt.alloc(), &ONE_LINE);
}

// Strips of different lines, and the order of pieces.
const SEVERAL_LINES: [Case; 6] = [
    (
        &[(0, 1, 4, 1, SEEN), (0, 0, 4, 0, SEEN)],
        &[(0, 0, 4, 0, SOLID), (0, 1, 4, 1, SOLID)],
    ),
    (
        &[(0, 4, 4, 0, SEEN), (0, 0, 4, 4, SEEN)],
        &[(0, 0, 4, 4, SOLID), (0, 4, 4, 0, SOLID)],
    ),
    (
        &[(4, 0, 4, 4, SEEN), (0, 0, 4, 0, SEEN)],
        &[(0, 0, 4, 0, SOLID), (4, 0, 4, 4, SOLID)],
    ),
    (
        &[(0, 0, 1, 0, HIDDEN), (5, 5, 9, 9, SEEN), (5, 5, 9, 7, SEEN)],
        &[
            (5, 5, 9, 7, SOLID),
            (5, 5, 9, 9, SOLID),
            (0, 0, 1, 0, DASHED),
        ],
    ),
    (
        &[(0, 0, 5, 1, SEEN), (0, 0, 3, 9, SEEN)],
        &[(0, 0, 3, 9, SOLID), (0, 0, 5, 1, SOLID)],
    ),
    (
        &[
            (0, 0, 4, 0, SEEN),
            (0, 0, 4, 0, HIDDEN),
            (0, 1, 4, 1, HIDDEN),
            (2, 1, 3, 1, SEEN),
        ],
        &[
            (0, 0, 4, 0, SOLID),
            (2, 1, 3, 1, SOLID),
            (0, 1, 2, 1, DASHED),
            (3, 1, 4, 1, DASHED),
        ],
    ),
];

#[test]
fn several_lines(rt: HostRuntime) {
    check_all(&rt, rt.alloc(), &SEVERAL_LINES);
}

// Traces: whole where nothing else is drawn, and nowhere else.
const TRACES: [Case; 4] = [
    (
        &[(9, 2, 0, 2, TRACE), (4, 0, 4, 9, SEEN)],
        &[(4, 0, 4, 9, SOLID), (0, 2, 9, 2, CHAIN)],
    ),
    (
        &[
            (0, 0, 9, 0, TRACE),
            (2, 0, 4, 0, SEEN),
            (4, 0, 7, 0, HIDDEN),
        ],
        &[
            (2, 0, 4, 0, SOLID),
            (4, 0, 7, 0, DASHED),
            (0, 0, 2, 0, CHAIN),
            (7, 0, 9, 0, CHAIN),
        ],
    ),
    (
        &[
            (0, 0, 5, 0, TRACE),
            (5, 0, 9, 0, TRACE),
            (1, 1, 3, 1, HIDDEN),
        ],
        &[(1, 1, 3, 1, DASHED), (0, 0, 9, 0, CHAIN)],
    ),
    (
        &[
            (2, 0, 5, 0, TRACE),
            (0, 0, 3, 0, SEEN),
            (3, 0, 9, 0, HIDDEN),
        ],
        &[(0, 0, 3, 0, SOLID), (3, 0, 9, 0, DASHED)],
    ),
];

#[test]
fn traces(rt: HostRuntime) {
    check_all(&rt, rt.alloc(), &TRACES);
}
