// The traces of cuts in a plain view, as strips: where the plane of a cut is seen edge-on.
ghost use Rattle.std.specs.Prelude.{◌≡◌, ◌≢◌, ◌⊎◌, ◌↔◌, ◌≤◌, ◌^◌, ◌<ℤ◌, ◌≤ℤ◌, pos, true, false, None, List, [], ◌∷◌, ◌++◌, map, unsigned_abs, IfSome, OnOk, IsTrue};
ghost use Rattle.lattice.specs.declared.points.Axis.{Axis};
ghost use Rattle.lattice.specs.declared.pieces.Strip.{Strip};
ghost use Rattle.lattice.specs.Cuts.{plane_of};
ghost use Rattle.lattice.specs.Points.{of_dir, point_of};
ghost use Rattle.solid_mesh.specs.Solids.{solid_part};
ghost use Rattle.lattice.specs.Axes.{coordinate_of, third_of, IsAlong};
ghost use Rattle.geometry.specs.Traces.{HasTrace};
ghost use Rattle.geometry.specs.Traces.{GoesThrough};
ghost use Rattle.drawn_strips.specs.Traces.{IsFirstOn, IsLastOn, IsTraceStrip, AreTraceStrips};

use exact_frac::OutOfMemory;
use lattice::{Axis, Corner, Cut, Dir, Line, Spot, Strip, StripKind};
use solid_mesh::Solid;

/// The coordinate of a corner on an axis.
fn coordinate(corner: &Corner, axis: Axis) -> i32
    ensures value { result ≡ coordinate_of axis (point_of corner.now) }
    ensures size { unsigned_abs result ≤ 2 ^ 20 }
{
    match axis {
        Axis::X => corner.x,
        Axis::Y => corner.y,
        Axis::Z => corner.z,
    }
}

/// The corner at this place of an axis, and else where the given one is.
fn moved(corner: &Corner, axis: Axis, to: i32) -> Corner
    requires { unsigned_abs to ≤ 2 ^ 20 }
    ensures there { coordinate_of axis (point_of result) ≡ to }
    ensures else_where { (other : Axis) → other ≢ axis → coordinate_of other (point_of result) ≡ coordinate_of other (point_of corner.now) }
{
    let Corner { x, y, z } = *corner;
    match axis {
        Axis::X => Corner { x: to, y, z },
        Axis::Y => Corner { x, y: to, z },
        Axis::Z => Corner { x, y, z: to },
    }
}

/// Of two corners the one that comes first on the axis.
fn first_of(axis: Axis, a: Corner, b: Corner) -> Corner
    ensures one { (result ≡ a) ⊎ (result ≡ b) }
    ensures before_a { coordinate_of axis (point_of result) ≤ℤ coordinate_of axis (point_of a) }
    ensures before_b { coordinate_of axis (point_of result) ≤ℤ coordinate_of axis (point_of b) }
{
    if coordinate(&b, axis) < coordinate(&a, axis) {
        b
    } else {
        a
    }
}

/// Of two corners the one that comes last on the axis.
fn last_of(axis: Axis, a: Corner, b: Corner) -> Corner
    ensures one { (result ≡ a) ⊎ (result ≡ b) }
    ensures behind_a { coordinate_of axis (point_of a) ≤ℤ coordinate_of axis (point_of result) }
    ensures behind_b { coordinate_of axis (point_of b) ≤ℤ coordinate_of axis (point_of result) }
{
    if coordinate(&a, axis) < coordinate(&b, axis) {
        b
    } else {
        a
    }
}

/// The corners of a solid that come first and last on an axis.
#[derive(Clone, Copy)]
struct Ends {
    first: Corner,
    last: Corner,
}

/// The ends of a solid on an axis. Goes once over the corners.
fn ends_on(solid: &Solid, axis: Axis) -> Ends
    ensures first { IsFirstOn axis (solid_part solid.now).corners result.first }
    ensures last { IsLastOn axis (solid_part solid.now).corners result.last }
{
    let mut first = solid.corner(0);
    let mut last = solid.corner(0);
    for i in 0..solid.corners() {
        first = first_of(axis, first, solid.corner(i));
        last = last_of(axis, last, solid.corner(i));
    }
    Ends { first, last }
}

/// The ends are not at one place of the axis.
fn are_apart(ends: &Ends, axis: Axis) -> bool
    ensures { IsTrue result ↔ (coordinate_of axis (point_of ends.now.first) <ℤ coordinate_of axis (point_of ends.now.last)) }
{
    coordinate(&ends.first, axis) < coordinate(&ends.last, axis)
}

/// From the high side the plane stands right below `at`: there are corners on both of its sides.
fn is_amid_from_high(least: i64, at: i64, most: i64) -> bool
    ensures { IsTrue result ↔ ((least <ℤ at) × (at ≤ℤ most)) }
{
    least < at && at <= most
}

/// From the low side it stands right above.
fn is_amid_from_low(least: i64, at: i64, most: i64) -> bool
    ensures { IsTrue result ↔ ((least ≤ℤ at) × (at <ℤ most)) }
{
    least <= at && at < most
}

/// Corners are on both sides of the plane of the cut. Goes once over them.
fn is_cut(solid: &Solid, cut: &Cut) -> bool
    ensures { IsTrue result ↔ GoesThrough (plane_of cut.now) (solid_part solid.now).corners }
{
    let axis = cut.axis();
    let ends = ends_on(solid, axis);
    let least = i64::from(coordinate(&ends.first, axis));
    let most = i64::from(coordinate(&ends.last, axis));
    if cut.from_high() {
        is_amid_from_high(least, cut.at(), most)
    } else {
        is_amid_from_low(least, cut.at(), most)
    }
}

/// The trace of a cut that the view has: it runs along an axis between the solid's ends there.
fn trace_strip(solid: &Solid, d: &Dir, cut: &Cut, sight: Axis, run: Axis, ends: &Ends) -> Strip
    requires has { HasTrace (of_dir d.now) (solid_part solid.now) (plane_of cut.now) sight }
    requires third { run ≡ third_of (plane_of cut.now).axis sight }
    requires first { IsFirstOn run (solid_part solid.now).corners ends.now.first }
    requires last { IsLastOn run (solid_part solid.now).corners ends.now.last }
    ensures { IsTraceStrip (of_dir d.now) (solid_part solid.now) (plane_of cut.now) sight result }
{
    let from = moved(&ends.first, cut.axis(), cut.at() as i32);
    let to = moved(&from, run, coordinate(&ends.last, run));
    Strip {
        line: Line::through(d, &from, &to),
        a: Spot::at(&from),
        b: Spot::at(&to),
        kind: StripKind::Trace,
    }
}

/// The trace of a cut in the view along an axis, if it has one.
fn trace_along(solid: &Solid, d: &Dir, cut: &Cut, sight: Axis) -> Option<Strip>
    requires { IsAlong sight (of_dir d.now) }
    ensures some { IfSome result (IsTraceStrip (of_dir d.now) (solid_part solid.now) (plane_of cut.now) sight) }
    ensures none { result ≡ None → ¬ HasTrace (of_dir d.now) (solid_part solid.now) (plane_of cut.now) sight }
{
    if sight == cut.axis() {
        return None;
    }
    if !is_cut(solid, cut) {
        return None;
    }
    let run = cut.axis().third(sight);
    let ends = ends_on(solid, run);
    if !are_apart(&ends, run) {
        return None;
    }
    Some(trace_strip(solid, d, cut, sight, run, &ends))
}

/// The trace of a cut in the view along a direction, if it has one: the view looks along an axis other than the cut's, the plane
/// goes through the part, and the part isn't all at one place along the trace.
fn trace_of(solid: &Solid, d: &Dir, cut: &Cut) -> Option<Strip>
    ensures some { IfSome result (λ y. (sight : Axis) × IsTraceStrip (of_dir d.now) (solid_part solid.now) (plane_of cut.now) sight y) }
    ensures none { result ≡ None → (sight : Axis) → ¬ HasTrace (of_dir d.now) (solid_part solid.now) (plane_of cut.now) sight }
{
    match d.axis() {
        Some(sight) => trace_along(solid, d, cut, sight),
        None => None,
    }
}

/// Adds the trace of a cut, if the view along a direction has it.
fn add_trace(strips: &mut Vec<Strip>, solid: &Solid, d: &Dir, cut: &Cut) -> Result<(), OutOfMemory>
    ensures { OnOk result ((here : List Strip) × (strips.new.items ≡ strips.old.items ++ here) ×
        AreTraceStrips (of_dir d.now) (solid_part solid.now) (plane_of cut.now ∷ []) here) }
{
    if let Some(strip) = trace_of(solid, d, cut) {
        strips.push(strip)?;
    }
    Ok(())
}

/// Adds the traces of these cuts that the view along a direction has. Goes twice over the corners for each.
pub fn add_traces(
    strips: &mut Vec<Strip>,
    solid: &Solid,
    d: &Dir,
    cuts: &[Cut],
) -> Result<(), OutOfMemory>
    ensures { OnOk result ((here : List Strip) × (strips.new.items ≡ strips.old.items ++ here) ×
        AreTraceStrips (of_dir d.now) (solid_part solid.now) (map plane_of cuts.now) here) }
{
    for cut in cuts {
        add_trace(strips, solid, d, cut)?;
    }
    Ok(())
}
