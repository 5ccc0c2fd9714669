// The view of what a cut leaves of the solid: the spans of its drawn edges by their counts and the section's borders, as strips that
// are put together to pieces, and the hatch lines of the section.
ghost use Rattle.std.specs.Prelude.{◌≡◌, ℕ, ◌≤◌, ◌^◌, IfOk};
ghost use Rattle.lattice.specs.Creases.{fraction_of};
ghost use Rattle.lattice.specs.Cuts.{plane_of, toward_of};
ghost use Rattle.geometry.specs.Pieces.{AreInOrder};
ghost use Rattle.geometry.specs.Scenes.{AreRightInCut};
ghost use Rattle.solid_mesh.specs.Solids.{solid_part};
ghost use Rattle.cut_plane.specs.Loops.{AreBorders};
ghost use Rattle.hatch_fill.specs.Hatching.{IsHatching};
ghost use Rattle.view_lines.specs.Counts.{AreCountsBeyond};
ghost use Rattle.view_lines.specs.Numbers.{CountsView, AreBelow};

use crate::counts::{Counts, counts_beyond};
use crate::merged::merged_pieces;
use crate::view::{ViewDrawing, ViewLines};
use cut_plane::{Section, borders};
use drawn_strips::add_borders;
use edge_pick::{Crease, pick};
use exact_frac::OutOfMemory;
use hatch_fill::hatch;
use lattice::{Cut, Piece, ViewSpec};
use solid_mesh::Solid;
use span_count::EdgeSpans;
use std::alloc::Global;

/// The pieces of a cut view, visible lines solid and hidden ones dashed, in their order: what the cut leaves of the drawn edges, by
/// these counts, and the border of the section.
fn cut_pieces(
    alloc: Global,
    solid: &Solid,
    section: &Section,
    entries: &[EdgeSpans],
) -> Result<Vec<Piece>, OutOfMemory>
    requires borders { AreBorders (plane_of section.now.cut) (solid_part solid.now) section.now.segments.items section.now.loops.items }
    requires counts { (fraction : ℕ) × AreCountsBeyond (plane_of section.now.cut) fraction solid.now entries.now }
    ensures right { IfOk result (λ pieces. (fraction : ℕ) → AreCountsBeyond (plane_of section.now.cut) fraction solid.now entries.now →
        AreRightInCut (plane_of section.now.cut) fraction (solid_part solid.now) pieces.items) }
    ensures order { IfOk result (λ pieces. AreInOrder (toward_of (plane_of section.now.cut)) pieces.items) }
{
    let mut strips = Vec::new(alloc);
    add_borders(&mut strips, section)?;
    let pieces = merged_pieces(alloc, solid, &section.cut.dir(), entries, &strips)?;
    Ok(pieces)
}

/// The view of what a cut leaves of the solid, with hatch lines so many units apart in U, and its counts and numbers.
///
/// Puts the outlines into a grid, where it counts as many cells as the cell bound at most, carries the counts along the parts of the
/// drawn edges beyond the plane, by as many tests as the bound of the cut at most, and then puts the strips together, line by line.
pub(crate) fn cut_lines(
    alloc: Global,
    solid: &Solid,
    cut: &Cut,
    crease: Crease,
    spacing: u32,
) -> Result<ViewLines, OutOfMemory>
    requires { 1 ≤ spacing }
    ensures spec { IfOk result (λ x. x.view.spec ≡ ViewSpec.Section cut.now) }
    ensures right { IfOk result (λ x. AreRightInCut (plane_of cut.now) (fraction_of crease) (solid_part solid.now) x.view.pieces.items) }
    ensures order { IfOk result (λ x. AreInOrder (toward_of (plane_of cut.now)) x.view.pieces.items) }
    ensures hatched { IfOk result (λ x. IsHatching (plane_of cut.now) (solid_part solid.now) spacing x.view.hatches.items) }
    ensures counts { IfOk result (λ x. AreCountsBeyond (plane_of cut.now) (fraction_of crease) solid.now x.view.counts.items) }
    ensures tested { IfOk result (λ x. x.numbers.tests ≤ x.numbers.bound) }
    ensures cut_tested { IfOk result (λ x. x.numbers.cut_tests ≤ x.numbers.cut_bound) }
    ensures celled { IfOk result (λ x. x.numbers.cells ≤ x.numbers.cell_bound) }
    ensures counted { IfOk result (λ x. CountsView solid.now crease (ViewSpec.Section cut.now) x.numbers) }
    ensures small { IfOk result (λ x. AreBelow (2 ^ 48) x.numbers) }
{
    let section = borders(alloc, solid, cut)?;
    let picked = pick(alloc, solid, &section.cut.dir(), crease)?;
    let Counts { entries, numbers } = counts_beyond(alloc, solid, &section, crease, &picked)?;
    let pieces = cut_pieces(alloc, solid, &section, &entries)?;
    let hatches = hatch(alloc, &section, spacing)?;
    let view = ViewDrawing {
        spec: ViewSpec::Section(*cut),
        pieces,
        hatches,
        counts: entries,
    };
    Ok(ViewLines { view, numbers })
}
