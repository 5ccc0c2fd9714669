// The borders of a section as strips.
ghost use Rattle.std.specs.Prelude.{◌≡◌, List, ◌++◌, OnOk};
ghost use Rattle.std.specs.List.{AllZip};
ghost use Rattle.lattice.specs.Cuts.{Plane, plane_of};
ghost use Rattle.lattice.specs.declared.pieces.Strip.{Strip};
ghost use Rattle.geometry.specs.Parts.{Part, IsClosed};
ghost use Rattle.cut_plane.specs.Loops.{IsSegmentOf, AreBorders};
ghost use Rattle.drawn_strips.specs.Strips.{IsBorderStrip};

use cut_plane::{Section, Segment};
use exact_frac::OutOfMemory;
use lattice::{Strip, StripKind};

/// The segment as a strip: a border is never hidden.
fn border_strip(segment: &Segment) -> Strip
    requires { (c : Plane) × (s : Part) × IsClosed s × IsSegmentOf c s segment.now }
    ensures { IsBorderStrip segment.now result }
{
    Strip {
        line: segment.line,
        a: segment.a,
        b: segment.b,
        kind: StripKind::Seen,
    }
}

/// Adds the borders of the section.
pub fn add_borders(strips: &mut Vec<Strip>, section: &Section) -> Result<(), OutOfMemory>
    requires { (s : Part) × IsClosed s × AreBorders (plane_of section.now.cut) s section.now.segments.items section.now.loops.items }
    ensures { OnOk result ((here : List Strip) × (strips.new.items ≡ strips.old.items ++ here) × AllZip IsBorderStrip section.now.segments.items here) }
{
    for segment in &section.segments {
        strips.push(border_strip(segment))?;
    }
    Ok(())
}
