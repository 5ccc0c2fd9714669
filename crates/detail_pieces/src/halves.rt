// What of a strip is left in a half plane of a view.
ghost use Rattle.std.specs.Prelude.{◌≡◌, ◌≤◌, ◌<◌, ◌^◌, pos, ◌-ℤ◌, ◌*ℤ◌, ◌<ℤ◌, ◌≤ℤ◌, unsigned_abs, IfSome, IsNone};
ghost use Rattle.lattice.specs.Points.{of_dir, of_spot, OnOneSight};
ghost use Rattle.lattice.specs.Lines.{IsOnLine, AreStripEnds};
ghost use Rattle.detail_pieces.specs.inner.Sides.{seen_of, over_of, meeting_of, IsLeftOf, IsOut};

use crate::crossings::crossing;
use crate::sides::{Bound, Side, ViewAxis};
use crate::spots::spot_at;
use lattice::{Dir, Line, Spot, Strip, across, upward};

/// What of the strip is not outside. Where only an end of it isn't, nothing is left.
pub(crate) fn left_of(d: &Dir, side: &Side, strip: &Strip) -> Option<Strip>
    requires { AreStripEnds (of_dir d.now) strip.now.line strip.now.a strip.now.b }
    ensures some { IfSome result (IsLeftOf (of_dir d.now) side.now strip.now) }
    ensures none { IsNone result → IsOut (of_dir d.now) side.now strip.now }
{
    let a = over(d, side, &strip.a);
    let b = over(d, side, &strip.b);
    if a >= 0 && b >= 0 {
        return Some(*strip);
    }
    if a > 0 {
        let end = meeting(d, side, &strip.line, &strip.a, &strip.b);
        return Some(Strip {
            line: strip.line,
            a: strip.a,
            b: end,
            kind: strip.kind,
        });
    }
    if b > 0 {
        let end = meeting(d, side, &strip.line, &strip.b, &strip.a);
        return Some(Strip {
            line: strip.line,
            a: end,
            b: strip.b,
            kind: strip.kind,
        });
    }
    None
}

/// A spot that is seen where the way from the spot inside to that outside meets the border.
fn meeting(d: &Dir, side: &Side, line: &Line, inside: &Spot, outside: &Spot) -> Spot
    requires first { IsOnLine (of_dir d.now) line.now (of_spot inside.now) }
    requires second { IsOnLine (of_dir d.now) line.now (of_spot outside.now) }
    requires inside { pos 0 <ℤ over_of (of_dir d.now) side.now (of_spot inside.now) }
    requires outside { over_of (of_dir d.now) side.now (of_spot outside.now) <ℤ pos 0 }
    ensures { OnOneSight (of_dir d.now) (meeting_of (of_dir d.now) side.now inside.now outside.now) (of_spot result) }
{
    spot_at(d, &crossing(line, side.axis, side.at))
}

/// How far the spot is over the border, times its divisor.
fn over(d: &Dir, side: &Side, p: &Spot) -> i128
    ensures { result ≡ over_of (of_dir d.now) side.now (of_spot p.now) }
{
    let seen = seen(d, side.axis, p);
    let border = border(side.at, p.w);
    match side.bound {
        Bound::Least => seen - border,
        Bound::Most => border - seen,
    }
}

/// U of the spot, or V, times its divisor.
fn seen(d: &Dir, axis: ViewAxis, p: &Spot) -> i128
    ensures value { result ≡ seen_of (of_dir d.now) axis (of_spot p.now) }
    ensures size { unsigned_abs result ≤ 2 ^ 100 }
{
    match axis {
        ViewAxis::Across => across(d, p).num,
        ViewAxis::Upward => upward(d, p).num,
    }
}

/// `at * w`.
fn border(at: i64, w: i128) -> i128
    requires first { unsigned_abs at ≤ 2 ^ 40 }
    requires second { unsigned_abs w < 2 ^ 70 }
    ensures value { result ≡ at *ℤ w }
    ensures size { unsigned_abs result ≤ 2 ^ 110 }
{
    i128::from(at) * w
}
