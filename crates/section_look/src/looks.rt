// How a sheet shows the sections of a job's cut views.
ghost use Rattle.std.specs.Prelude.{◌≡◌, ◌++◌, ◌<◌, ◌≤◌, All, List, length, IfOk, OnOk};
ghost use Rattle.lattice.specs.Cuts.{plane_of};
ghost use Rattle.solid_mesh.specs.Solids.{solid_part};
ghost use Rattle.section_look.specs.Looks.{AreLooks, IsLook, LooksOfView};
ghost use Rattle.section_look.specs.declared.looks.SectionLook.{SectionLook};

use crate::fills::{Fill, fills_of};
use crate::loops::loops_of;
use crate::regions::regions_of;
use crate::spacings::{chosen_spacing, spacing_at};
use crate::thin::thin_marks;
use cut_plane::borders;
use exact_frac::OutOfMemory;
use hatch_fill::hatch;
use job_file::JobView;
use lattice::{Cut, HatchLine, ViewSpec};
use sheet_plan::Sheet;
use solid_mesh::Solid;
use std::alloc::Global;

/// How a sheet shows the section of the view with this number: what is filled, and the hatch lines, so many units apart in U. These
/// are those of the whole section; where it is filled they don't show.
#[derive(Drop)]
pub struct SectionLook {
    pub view: u32,
    pub spacing: u32,
    pub fills: Vec<Fill>,
    pub hatches: Vec<HatchLine>,
}

/// How the sheet shows the section of this view of a cut.
///
/// Finds the border of the section, and its hatch lines at most five times. To find what loops are in which takes constant time for
/// each loop and each segment.
fn look_of(
    alloc: Global,
    solid: &Solid,
    sheet: &Sheet,
    view: u32,
    cut: &Cut,
) -> Result<SectionLook, OutOfMemory>
    requires { view < length sheet.now.places.items }
    ensures { IfOk result (IsLook sheet.now (solid_part solid.now) view (plane_of cut.now)) }
{
    let section = borders(alloc, solid, cut)?;
    let loops = loops_of(alloc, &section)?;
    let regions = regions_of(alloc, &cut.dir(), &loops)?;
    let marks = thin_marks(alloc, sheet, view, cut, &regions, spacing_at(sheet, 30))?;
    let fills = fills_of(alloc, sheet, view, &regions, &marks)?;
    let spacing = chosen_spacing(alloc, sheet, cut, &regions, &marks)?;
    let hatches = hatch(alloc, &section, spacing)?;
    Ok(SectionLook {
        view,
        spacing,
        fills,
        hatches,
    })
}

/// Adds how the sheet shows the section of this view, if it is one of a cut.
fn add_look(
    alloc: Global,
    looks: &mut Vec<SectionLook>,
    solid: &Solid,
    sheet: &Sheet,
    view: u32,
    spec: &ViewSpec,
) -> Result<(), OutOfMemory>
    requires { view < length sheet.now.places.items }
    ensures { OnOk result ((here : List SectionLook) × (looks.new.items ≡ looks.old.items ++ here) × LooksOfView sheet.now (solid_part solid.now) view spec.now here) }
{
    match spec {
        ViewSpec::Plain(_) => Ok(()),
        ViewSpec::Section(cut) => {
            looks.push(look_of(alloc, solid, sheet, view, cut)?)?;
            Ok(())
        }
    }
}

/// How the sheet shows the sections of the solid in the cut views among these, in their order. Only want of memory is refused.
pub fn looks_of(
    alloc: Global,
    solid: &Solid,
    sheet: &Sheet,
    views: &[JobView],
) -> Result<Vec<SectionLook>, OutOfMemory>
    requires placed { length views.now ≤ length sheet.now.places.items }
    requires few { length views.now ≤ 12 }
    ensures looks { IfOk result (λ looks. AreLooks sheet.now (solid_part solid.now) views.now looks.items) }
    ensures in_range { IfOk result (λ looks. All (λ look. look.view < length sheet.now.places.items) looks.items) }
{
    let mut looks = Vec::new(alloc);
    for number in 0..views.len() {
        add_look(
            alloc,
            &mut looks,
            solid,
            sheet,
            number as u32,
            &views[number].spec,
        )?;
    }
    Ok(looks)
}
