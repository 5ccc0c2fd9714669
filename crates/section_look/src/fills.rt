// What is filled of a section on the sheet.
ghost use Rattle.std.specs.Prelude.{◌≡◌, ◌<◌, length, IfOk, OnOk};
ghost use Rattle.sheet_plan.specs.Sheets.{IsPlaceOf};
ghost use Rattle.sheet_plan.specs.declared.sheet.Spread.{Spread};
ghost use Rattle.section_look.specs.Looks.{AreFills, AreOutlines, IsFillOf, IsOutline};
ghost use Rattle.section_look.specs.inner.Parts.{IsFillAdded};

use crate::points::shown;
use crate::regions::Region;
use cut_plane::Segment;
use exact_frac::OutOfMemory;
use sheet_plan::Sheet;
use std::alloc::Global;
use stroke_paths::Point;

/// Loops of points of the sheet. What is within an odd number of them is filled.
#[derive(Drop)]
pub struct Fill {
    pub loops: Vec<Vec<Point>>,
}

/// Where the segments of the loop begin on the sheet.
fn outline(
    alloc: Global,
    sheet: &Sheet,
    view: u32,
    loop_segments: &[Segment],
) -> Result<Vec<Point>, OutOfMemory>
    requires { view < length sheet.now.places.items }
    ensures { (place : Spread) → IsPlaceOf sheet.now view place → IfOk result (λ points. IsOutline sheet.now place loop_segments.now points.items) }
{
    let mut points = Vec::new(alloc);
    for segment in loop_segments {
        points.push(shown(sheet, view, &segment.a))?;
    }
    Ok(points)
}

/// Where the segments of each loop begin.
fn outlines(
    alloc: Global,
    sheet: &Sheet,
    view: u32,
    loops: &[Vec<Segment>],
) -> Result<Vec<Vec<Point>>, OutOfMemory>
    requires { view < length sheet.now.places.items }
    ensures { (place : Spread) → IsPlaceOf sheet.now view place → IfOk result (λ all. AreOutlines sheet.now place loops.now all.items) }
{
    let mut all = Vec::new(alloc);
    for loop_segments in loops {
        all.push(outline(alloc, sheet, view, loop_segments)?)?;
    }
    Ok(all)
}

/// What is filled of the region.
fn fill_of(alloc: Global, sheet: &Sheet, view: u32, region: &Region) -> Result<Fill, OutOfMemory>
    requires { view < length sheet.now.places.items }
    ensures { (place : Spread) → IsPlaceOf sheet.now view place → IfOk result (IsFillOf sheet.now place region.now) }
{
    let loops = outlines(alloc, sheet, view, &region.loops)?;
    Ok(Fill { loops })
}

/// Adds a fill of the region, if it is thin.
fn add_fill(
    alloc: Global,
    fills: &mut Vec<Fill>,
    sheet: &Sheet,
    view: u32,
    region: &Region,
    thin: bool,
) -> Result<(), OutOfMemory>
    requires { view < length sheet.now.places.items }
    ensures { (place : Spread) → IsPlaceOf sheet.now view place → OnOk result (IsFillAdded sheet.now place region.now thin fills.old.items fills.new.items) }
{
    if !thin {
        return Ok(());
    }
    fills.push(fill_of(alloc, sheet, view, region)?)?;
    Ok(())
}

/// A fill for each region that is marked as thin, in order.
pub(crate) fn fills_of(
    alloc: Global,
    sheet: &Sheet,
    view: u32,
    regions: &[Region],
    marks: &[bool],
) -> Result<Vec<Fill>, OutOfMemory>
    requires there { view < length sheet.now.places.items }
    requires marked { length marks.now ≡ length regions.now }
    ensures { (place : Spread) → IsPlaceOf sheet.now view place → IfOk result (λ fills. AreFills sheet.now place regions.now marks.now fills.items) }
{
    let mut fills = Vec::new(alloc);
    for k in 0..regions.len() {
        add_fill(alloc, &mut fills, sheet, view, &regions[k], marks[k])?;
    }
    Ok(fills)
}
