// The outlines that pass nearer over an edge in the view of a cut.
ghost use Rattle.std.specs.Prelude.{◌≡◌, ◌≤◌, ◌+◌, ◌<◌, ◌^◌, List, ◌++◌, length, vec_len, OnOk, All};
ghost use Rattle.std.specs.List.{AllZip};
ghost use Rattle.lattice.specs.Cuts.{plane_of};
ghost use Rattle.geometry.specs.Parts.{Edge, IsNumbered};
ghost use Rattle.solid_mesh.specs.Solids.{solid_part, edge_halves};
ghost use Rattle.cross_find.specs.declared.meter.Crossing.{Crossing};
ghost use Rattle.cut_count.specs.inner.Walks.{AreOutlineCrossings};

use crate::cross::cut_cross;
use cross_find::{Crossing, Meter};
use cut_plane::Section;
use exact_frac::OutOfMemory;
use solid_mesh::Solid;
use span_count::Finder;

/// Adds the crossings with the outlines that the finder lists along the edge: a test of each.
pub(crate) fn add_outlines<F: Finder>(
    crossings: &mut Vec<Crossing>,
    solid: &Solid,
    section: &Section,
    finder: &F,
    edge: u32,
    meter: &mut Meter,
) -> Result<(), OutOfMemory>
    requires in_range { edge < length (edge_halves solid.now) }
    requires outlines { All (λ i. i < length (edge_halves solid.now)) (F.list_along finder.now edge) }
    requires few { length (F.list_along finder.now edge) < 2 ^ 32 }
    requires room { meter.old.tests + length (F.list_along finder.now edge) < 2 ^ 64 }
    ensures added { (e : Edge (solid_part solid.now)) → IsNumbered (edge_halves solid.now) edge e →
        OnOk result ((here : List Crossing) × (crossings.new.items ≡ crossings.old.items ++ here)
        × AreOutlineCrossings (plane_of section.now.cut) e (edge_halves solid.now) (F.list_along finder.now edge) here) }
    ensures most { OnOk result (vec_len crossings.new ≤ vec_len crossings.old + length (F.list_along finder.now edge)) }
    ensures tested { (meter.old.tests ≤ meter.new.tests) × (meter.new.tests ≤ meter.old.tests + length (F.list_along finder.now edge)) }
    ensures all_tested { OnOk result (meter.new.tests ≡ meter.old.tests + length (F.list_along finder.now edge)) }
{
    let mut i = 0;
    while let Some(outline) = finder.along(edge, i) {
        if let Some(crossing) = cut_cross(solid, section, edge, outline, meter) {
            crossings.push(crossing)?;
        }
        i += 1;
    }
    Ok(())
}
