// What of strips is seen in a window.
ghost use Rattle.std.specs.Prelude.{◌≤◌, ◌^◌, unsigned_abs, IfOk, IfSome, IsNone};
ghost use Rattle.lattice.specs.Points.{of_dir};
ghost use Rattle.lattice.specs.Lines.{AreStripEnds};
ghost use Rattle.line_merge.specs.Merging.{AreStrips};
ghost use Rattle.detail_pieces.specs.Windows.{AreClipped};
ghost use Rattle.detail_pieces.specs.inner.Parts.{IsPartIn, IsUnseen, IsLeftBetween, IsOutBetween};

use crate::halves::left_of;
use crate::sides::{Bound, Side, ViewAxis};
use crate::windows::Window;
use exact_frac::OutOfMemory;
use lattice::{Dir, Strip};
use std::alloc::Global;

/// What of the strips is seen in the window, in their order. A strip along a side is kept; one that only touches the window
/// from outside gives nothing. Takes constant time for each strip, and memory as what is left.
pub fn clip(
    alloc: Global,
    d: &Dir,
    strips: &[Strip],
    window: &Window,
) -> Result<Vec<Strip>, OutOfMemory>
    requires { AreStrips (of_dir d.now) strips.now }
    ensures { IfOk result (λ clipped. AreClipped (of_dir d.now) window.now strips.now clipped.items) }
{
    let mut clipped = Vec::new(alloc);
    for strip in strips {
        if let Some(part) = part_in(d, window, strip) {
            clipped.push(part)?;
        }
    }
    Ok(clipped)
}

/// What of the strip is seen in the window.
fn part_in(d: &Dir, window: &Window, strip: &Strip) -> Option<Strip>
    requires { AreStripEnds (of_dir d.now) strip.now.line strip.now.a strip.now.b }
    ensures some { IfSome result (IsPartIn (of_dir d.now) window.now strip.now) }
    ensures none { IsNone result → IsUnseen (of_dir d.now) window.now strip.now }
{
    match between(d, strip, ViewAxis::Across, window.u1, window.u2) {
        Some(part) => between(d, &part, ViewAxis::Upward, window.v1, window.v2),
        None => None,
    }
}

/// What of the strip has its U, or its V, from the one number to the other.
fn between(d: &Dir, strip: &Strip, axis: ViewAxis, least: i64, most: i64) -> Option<Strip>
    requires strip { AreStripEnds (of_dir d.now) strip.now.line strip.now.a strip.now.b }
    requires least { unsigned_abs least ≤ 2 ^ 40 }
    requires most { unsigned_abs most ≤ 2 ^ 40 }
    ensures some { IfSome result (IsLeftBetween (of_dir d.now) axis least most strip.now) }
    ensures none { IsNone result → IsOutBetween (of_dir d.now) axis least most strip.now }
{
    let above = Side {
        axis,
        at: least,
        bound: Bound::Least,
    };
    let below = Side {
        axis,
        at: most,
        bound: Bound::Most,
    };
    match left_of(d, &above, strip) {
        Some(part) => left_of(d, &below, &part),
        None => None,
    }
}
