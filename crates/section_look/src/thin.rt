// Which regions of a section are thin on the sheet.
ghost use Rattle.std.specs.Prelude.{◌≤◌, ◌<◌, ◌↔◌, length, All, IsTrue, IfOk};
ghost use Rattle.std.specs.List.{AllZip};
ghost use Rattle.lattice.specs.Cuts.{plane_of};
ghost use Rattle.hatch_fill.specs.Chords.{AreChords};
ghost use Rattle.sheet_plan.specs.Sheets.{IsPlaceOf};
ghost use Rattle.sheet_plan.specs.declared.sheet.Spread.{Spread};
ghost use Rattle.section_look.specs.Regions.{segments_in};
ghost use Rattle.section_look.specs.Thin.{IsMarked, IsShort};

use crate::loops::joined;
use crate::points::{are_near, shown};
use crate::regions::Region;
use exact_frac::OutOfMemory;
use hatch_fill::chords;
use lattice::{Cut, HatchLine};
use sheet_plan::Sheet;
use std::alloc::Global;

/// The chords of the region.
pub(crate) fn chords_of(
    alloc: Global,
    cut: &Cut,
    region: &Region,
    spacing: u32,
) -> Result<Vec<HatchLine>, OutOfMemory>
    requires { 1 ≤ spacing }
    ensures { IfOk result (λ lines. AreChords (plane_of cut.now) spacing (segments_in region.now) lines.items) }
{
    let segments = joined(alloc, &region.loops)?;
    chords(alloc, cut, &segments, spacing)
}

/// The hatch line is at most 2.15 mm long on the sheet.
fn is_short(sheet: &Sheet, view: u32, line: &HatchLine) -> bool
    requires { view < length sheet.now.places.items }
    ensures { (place : Spread) → IsPlaceOf sheet.now view place → IsTrue result ↔ IsShort sheet.now place line.now }
{
    let a = shown(sheet, view, &line.a);
    let b = shown(sheet, view, &line.b);
    are_near(&a, &b)
}

/// Each of the hatch lines is.
fn are_short(sheet: &Sheet, view: u32, lines: &[HatchLine]) -> bool
    requires { view < length sheet.now.places.items }
    ensures { (place : Spread) → IsPlaceOf sheet.now view place → IsTrue result ↔ All (IsShort sheet.now place) lines.now }
{
    for line in lines {
        if !is_short(sheet, view, line) {
            return false;
        }
    }
    true
}

/// The region is thin: its hatch lines, so far apart, are all short.
fn is_thin(
    alloc: Global,
    sheet: &Sheet,
    view: u32,
    cut: &Cut,
    region: &Region,
    spacing: u32,
) -> Result<bool, OutOfMemory>
    requires there { view < length sheet.now.places.items }
    requires some { 1 ≤ spacing }
    ensures { (place : Spread) → IsPlaceOf sheet.now view place → IfOk result (IsMarked sheet.now place (plane_of cut.now) spacing region.now) }
{
    let lines = chords_of(alloc, cut, region, spacing)?;
    Ok(are_short(sheet, view, &lines))
}

/// For each region whether it is thin.
pub(crate) fn thin_marks(
    alloc: Global,
    sheet: &Sheet,
    view: u32,
    cut: &Cut,
    regions: &[Region],
    spacing: u32,
) -> Result<Vec<bool>, OutOfMemory>
    requires there { view < length sheet.now.places.items }
    requires some { 1 ≤ spacing }
    ensures { (place : Spread) → IsPlaceOf sheet.now view place
        → IfOk result (λ marks. AllZip (IsMarked sheet.now place (plane_of cut.now) spacing) regions.now marks.items) }
{
    let mut marks = Vec::new(alloc);
    for region in regions {
        marks.push(is_thin(alloc, sheet, view, cut, region, spacing)?)?;
    }
    Ok(marks)
}
