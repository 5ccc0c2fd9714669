// How far apart the hatch lines of a cut view are.
ghost use Rattle.std.specs.Prelude.{◌≡◌, ◌≤◌, false, length, MatchBool, IfOk};
ghost use Rattle.lattice.specs.Cuts.{plane_of};
ghost use Rattle.section_look.specs.Spacings.{AreHatched, HasFewer, HasFour, IsChosen, IsHatched, LacksLines, spacing_at, spacings};

use crate::regions::Region;
use crate::thin::chords_of;
use exact_frac::OutOfMemory;
use lattice::Cut;
use sheet_plan::Sheet;
use std::alloc::Global;

/// So many tenths of a millimetre on the sheet, in whole units, cut off, and at least one.
pub(crate) fn spacing_at(sheet: &Sheet, tenths: u32) -> u32
    requires { tenths ≤ 30 }
    ensures value { result ≡ spacing_at sheet.now tenths }
    ensures some { 1 ≤ result }
{
    let units = u64::from(tenths)
        * 10u64.pow(u32::from(sheet.decimals))
        * u64::from(sheet.scale.den);
    (units / (10 * u64::from(sheet.scale.num))).max(1) as u32
}

/// The region has at least four chords.
fn has_four(alloc: Global, cut: &Cut, region: &Region, spacing: u32) -> Result<bool, OutOfMemory>
    requires { 1 ≤ spacing }
    ensures { IfOk result (λ four. MatchBool four (HasFour (plane_of cut.now) spacing region.now) (HasFewer (plane_of cut.now) spacing region.now)) }
{
    let lines = chords_of(alloc, cut, region, spacing)?;
    Ok(lines.len() >= 4)
}

/// The region is thin, or has at least four chords.
fn is_hatched(
    alloc: Global,
    cut: &Cut,
    region: &Region,
    thin: bool,
    spacing: u32,
) -> Result<bool, OutOfMemory>
    requires { 1 ≤ spacing }
    ensures { IfOk result (λ hatched. MatchBool hatched (IsHatched (plane_of cut.now) spacing region.now thin) ((thin ≡ false) × HasFewer (plane_of cut.now) spacing region.now)) }
{
    if thin {
        return Ok(true);
    }
    has_four(alloc, cut, region, spacing)
}

/// Each region that isn't marked as thin has at least four chords.
fn are_hatched(
    alloc: Global,
    cut: &Cut,
    regions: &[Region],
    marks: &[bool],
    spacing: u32,
) -> Result<bool, OutOfMemory>
    requires some { 1 ≤ spacing }
    requires marked { length marks.now ≡ length regions.now }
    ensures { IfOk result (λ hatched. MatchBool hatched (AreHatched (plane_of cut.now) regions.now marks.now spacing) (LacksLines (plane_of cut.now) regions.now marks.now spacing)) }
{
    for k in 0..regions.len() {
        let hatched = is_hatched(alloc, cut, &regions[k], marks[k], spacing)?;
        if !hatched {
            return Ok(false);
        }
    }
    Ok(true)
}

/// The spacing of the hatch lines of a view: the first of 3, 2, 1.5 and 1 mm at which each region that isn't marked as thin has at
/// least four, or else the last. Finds the chords of each such region at most three times.
pub(crate) fn chosen_spacing(
    alloc: Global,
    sheet: &Sheet,
    cut: &Cut,
    regions: &[Region],
    marks: &[bool],
) -> Result<u32, OutOfMemory>
    requires { length marks.now ≡ length regions.now }
    ensures chosen { IfOk result (IsChosen (plane_of cut.now) regions.now marks.now (spacings sheet.now)) }
    ensures some { IfOk result (λ spacing. 1 ≤ spacing) }
{
    let wide = spacing_at(sheet, 30);
    let wide_does = are_hatched(alloc, cut, regions, marks, wide)?;
    if wide_does {
        return Ok(wide);
    }
    let close = spacing_at(sheet, 20);
    let close_does = are_hatched(alloc, cut, regions, marks, close)?;
    if close_does {
        return Ok(close);
    }
    let closer = spacing_at(sheet, 15);
    let closer_does = are_hatched(alloc, cut, regions, marks, closer)?;
    if closer_does {
        return Ok(closer);
    }
    Ok(spacing_at(sheet, 10))
}
