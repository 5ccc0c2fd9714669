// The traces of cuts in a view, on the sheet.
ghost use Rattle.std.specs.Prelude.{◌≡◌, ◌<◌, ◌≤◌, ◌^◌, pos, ◌↔◌, None, List, ◌++◌, [], ◌∷◌, unsigned_abs, length, map, IfSome, IsTrue, IsFalse, OnOk, IfOk};
ghost use Rattle.lattice.specs.declared.cuts.Cut.{Cut};
ghost use Rattle.lattice.specs.declared.points.Axis.{Axis};
ghost use Rattle.lattice.specs.Cuts.{plane_of};
ghost use Rattle.lattice.specs.Points.{of_dir, point_of};
ghost use Rattle.lattice.specs.Axes.{third_of, IsAlong};
ghost use Rattle.geometry.specs.Traces.{HasTrace};
ghost use Rattle.sheet_plan.specs.declared.sheet.Spread.{Spread};
ghost use Rattle.sheet_plan.specs.Sheets.{IsPlaceOf};
ghost use Rattle.solid_mesh.specs.Solids.{solid_part};
ghost use Rattle.cut_marks.specs.Letters.{IsLetterOf};
ghost use Rattle.cut_marks.specs.Traces.{foot_of, way_of, looks, is_upright, is_forward, IsTraceOn, AreTraces};

use crate::letters::letter_of;
use crate::sections::is_spread;
use crate::shown::shown_at;
use crate::ways::{Trace, Way};
use exact_frac::OutOfMemory;
use lattice::{Axis, Corner, Cut, Dir};
use sheet_layout::goes_through;
use sheet_plan::Sheet;
use solid_mesh::Solid;
use std::alloc::Global;

/// A trace runs upright where its cut's viewer looks to the right or to the left.
pub(crate) fn is_upright(way: Way) -> bool
    ensures { result ≡ is_upright way }
{
    match way {
        Way::Right | Way::Left => true,
        Way::Down | Way::Up => false,
    }
}

/// The way is toward greater x or greater y.
pub(crate) fn is_forward(way: Way) -> bool
    ensures { result ≡ is_forward way }
{
    match way {
        Way::Right | Way::Down => true,
        Way::Left | Way::Up => false,
    }
}

/// The view along an axis has the trace of the cut.
fn is_seen_along(solid: &Solid, d: &Dir, cut: &Cut, sight: Axis) -> bool
    requires { IsAlong sight (of_dir d.now) }
    ensures { IsTrue result ↔ HasTrace (of_dir d.now) (solid_part solid.now) (plane_of cut.now) sight }
{
    if sight == cut.axis() {
        return false;
    }
    if !goes_through(solid, cut) {
        return false;
    }
    is_spread(solid, cut.axis().third(sight))
}

/// The view has the trace of the cut. Goes twice over the corners.
fn is_seen(solid: &Solid, d: &Dir, cut: &Cut) -> bool
    ensures seen { IsTrue result → (sight : Axis) × HasTrace (of_dir d.now) (solid_part solid.now) (plane_of cut.now) sight }
    ensures unseen { IsFalse result → (sight : Axis) → ¬ HasTrace (of_dir d.now) (solid_part solid.now) (plane_of cut.now) sight }
{
    match d.axis() {
        Some(sight) => is_seen_along(solid, d, cut, sight),
        None => false,
    }
}

/// The way in which one looks against a direction that goes so far across and upward.
fn way_of(across: i128, upward: i128) -> Way
    ensures { result ≡ way_of across upward }
{
    if across < 0 {
        return Way::Right;
    }
    if across > 0 {
        return Way::Left;
    }
    if upward > 0 { Way::Down } else { Way::Up }
}

/// The way in which the cut's viewer looks, as the view along `d` shows it.
pub(crate) fn looks(d: &Dir, cut: &Cut) -> Way
    ensures { result ≡ looks (of_dir d.now) (plane_of cut.now) }
{
    let toward = cut.dir().vector();
    way_of(d.right().dot(&toward), d.up().dot(&toward))
}

/// The point of the axis at the cut's place.
fn foot(cut: &Cut) -> Corner
    ensures { point_of result ≡ foot_of (plane_of cut.now) }
{
    let at = cut.at() as i32;
    match cut.axis() {
        Axis::X => Corner { x: at, y: 0, z: 0 },
        Axis::Y => Corner { x: 0, y: at, z: 0 },
        Axis::Z => Corner { x: 0, y: 0, z: at },
    }
}

/// The trace of the cut with this letter in the view with this number.
fn trace_on(sheet: &Sheet, view: u32, cut: &Cut, letter: u8) -> Trace
    requires { view < length sheet.now.places.items }
    ensures { (place : Spread) → IsPlaceOf sheet.now view place → IsTraceOn sheet.now place (plane_of cut.now) letter result }
{
    let way = looks(&sheet.places[view as usize].d, cut);
    let shown = shown_at(sheet, view, &foot(cut));
    let at = if is_upright(way) { shown.x } else { shown.y };
    Trace { letter, way, at }
}

/// Adds the trace of the cut with this number, if the view has it.
fn add_trace(
    traces: &mut Vec<Trace>,
    solid: &Solid,
    sheet: &Sheet,
    view: u32,
    cut: &Cut,
    number: usize,
) -> Result<(), OutOfMemory>
    requires placed { view < length sheet.now.places.items }
    requires few { number < 12 }
    ensures { OnOk result ((cuts : List Cut) → number ≡ length cuts → AreTraces sheet.now (solid_part solid.now) view cuts traces.old.items →
        AreTraces sheet.now (solid_part solid.now) view (cuts ++ cut.now ∷ []) traces.new.items) }
{
    if is_seen(solid, &sheet.places[view as usize].d, cut) {
        traces.push(trace_on(sheet, view, cut, letter_of(number)))?;
    }
    Ok(())
}

/// The traces of the cuts that the view has, in their order. Goes twice over the corners for each cut.
pub(crate) fn traces_in(
    alloc: Global,
    solid: &Solid,
    sheet: &Sheet,
    view: u32,
    cuts: &[Cut],
) -> Result<Vec<Trace>, OutOfMemory>
    requires placed { view < length sheet.now.places.items }
    requires few { length cuts.now ≤ 12 }
    ensures { IfOk result (λ traces. AreTraces sheet.now (solid_part solid.now) view cuts.now traces.items) }
{
    let mut traces = Vec::new(alloc);
    for number in 0..cuts.len() {
        add_trace(&mut traces, solid, sheet, view, &cuts[number], number)?;
    }
    Ok(traces)
}
