// Hatch lines in the plane of a cut.
ghost use Rattle.std.specs.Prelude.{◌≡◌, ℕ, ◌*◌, ◌<◌, ◌≤◌, ◌^◌, pos, ◌*ℤ◌, unsigned_abs, IfOk};
ghost use Rattle.std.specs.List.{AllZip};
ghost use Rattle.lattice.specs.Triple.{IsWithin};
ghost use Rattle.lattice.specs.Cuts.{plane_of, plane_height};
ghost use Rattle.hatch_fill.specs.inner.Lines.{IsSpotAt, IsLineOver, triple_seen};

use crate::places::HatchPlace;
use exact_frac::OutOfMemory;
use intervals::Interval;
use lattice::{Axis, Cut, HatchLine, Spot};
use std::alloc::Global;

/// The hatch line of each interval.
pub(crate) fn hatch_lines(
    alloc: Global,
    cut: &Cut,
    intervals: &[Interval<HatchPlace>],
) -> Result<Vec<HatchLine>, OutOfMemory>
    ensures { IfOk result (λ lines. AllZip (IsLineOver (plane_of cut.now)) intervals.now lines.items) }
{
    let mut lines = Vec::new(alloc);
    for x in intervals {
        lines.push(hatch_line(cut, x))?;
    }
    Ok(lines)
}

/// The hatch line from the one end of the interval to the other.
fn hatch_line(cut: &Cut, x: &Interval<HatchPlace>) -> HatchLine
    ensures { IsLineOver (plane_of cut.now) x.now result }
{
    HatchLine {
        a: spot_at(cut, &x.from),
        b: spot_at(cut, &x.to),
    }
}

/// The spot of the plane at this place, with the doubled divisor of the place.
fn spot_at(cut: &Cut, place: &HatchPlace) -> Spot
    ensures { IsSpotAt (plane_of cut.now) place.now result }
{
    let den = place.across.den;
    let InSpace { x, y, z } = in_space(
        cut,
        doubled(place.across.num),
        doubled(place.upward()),
        height(cut, den),
    );
    Spot {
        x,
        y,
        z,
        w: doubled(den),
    }
}

/// `2 * n`.
fn doubled(n: i128) -> i128
    requires { unsigned_abs n ≤ 2 ^ 90 }
    ensures { result ≡ pos 2 *ℤ n }
{
    2 * n
}

/// The height of the plane, with twice this divisor.
fn height(cut: &Cut, den: i128) -> i128
    requires { unsigned_abs den < 2 ^ 69 }
    ensures value { result ≡ plane_height (plane_of cut.now) *ℤ den }
    ensures near { unsigned_abs result ≤ 2 ^ 22 * unsigned_abs den }
{
    i128::from(twice_height(cut)) * den
}

/// Twice the height of the plane, which stands half a unit below the level.
fn twice_height(cut: &Cut) -> i64
    ensures value { result ≡ plane_height (plane_of cut.now) }
    ensures size { unsigned_abs result ≤ 2 ^ 22 }
{
    if cut.from_high() {
        2 * cut.at() - 1
    } else {
        -2 * cut.at() - 1
    }
}

/// Three coordinates, over one divisor.
struct InSpace {
    x: i128,
    y: i128,
    z: i128,
}

/// The coordinates of what is seen at U, V and this height.
fn in_space(cut: &Cut, across: i128, upward: i128, height: i128) -> InSpace
    requires { IsWithin (2 ^ 92) (record { x = across; y = upward; z = height }) }
    ensures x { result.x ≡ (triple_seen (plane_of cut.now) across upward height).x }
    ensures y { result.y ≡ (triple_seen (plane_of cut.now) across upward height).y }
    ensures z { result.z ≡ (triple_seen (plane_of cut.now) across upward height).z }
    ensures size { (m : ℕ) → IsWithin m (record { x = across; y = upward; z = height }) → IsWithin m (record { x = result.x; y = result.y; z = result.z }) }
{
    match (cut.axis(), cut.from_high()) {
        (Axis::X, true) => InSpace {
            x: height,
            y: across,
            z: upward,
        },
        (Axis::X, false) => InSpace {
            x: -height,
            y: -across,
            z: upward,
        },
        (Axis::Y, true) => InSpace {
            x: -across,
            y: height,
            z: upward,
        },
        (Axis::Y, false) => InSpace {
            x: across,
            y: -height,
            z: upward,
        },
        (Axis::Z, true) => InSpace {
            x: across,
            y: upward,
            z: height,
        },
        (Axis::Z, false) => InSpace {
            x: across,
            y: -upward,
            z: -height,
        },
    }
}
