// The view of the whole solid: the spans of its drawn edges by their counts, as strips that are put together to pieces.
ghost use Rattle.std.specs.Prelude.{◌≡◌, ℕ, ◌≤◌, ◌^◌, List, [], map, IfOk};
ghost use Rattle.lattice.specs.Creases.{fraction_of};
ghost use Rattle.lattice.specs.Cuts.{plane_of};
ghost use Rattle.lattice.specs.Points.{of_dir};
ghost use Rattle.geometry.specs.Pieces.{AreInOrder};
ghost use Rattle.geometry.specs.Scenes.{AreRight};
ghost use Rattle.solid_mesh.specs.Solids.{solid_part};
ghost use Rattle.view_lines.specs.Counts.{AreCountsAlong};
ghost use Rattle.view_lines.specs.Numbers.{CountsView, AreBelow};
ghost use Rattle.drawn_strips.specs.Traces.{AreTraceStrips};
ghost use Rattle.lattice.specs.declared.pieces.Strip.{Strip};
ghost use Rattle.view_lines.specs.inner.Merged.{AreMergedWith};

use crate::counts::{Counts, counts_along};
use crate::merged::merged_pieces;
use crate::view::{ViewDrawing, ViewLines};
use drawn_strips::add_traces;
use edge_pick::{Crease, pick};
use exact_frac::OutOfMemory;
use lattice::{Cut, Dir, Piece, ViewSpec};
use solid_mesh::Solid;
use span_count::EdgeSpans;
use std::alloc::Global;

/// The pieces of a plain view: the strips of the drawn edges with these counts and the traces of these cuts, put together.
fn plain_pieces(
    alloc: Global,
    solid: &Solid,
    d: &Dir,
    entries: &[EdgeSpans],
    cuts: &[Cut],
) -> Result<Vec<Piece>, OutOfMemory>
    requires { (fraction : ℕ) × AreCountsAlong (of_dir d.now) fraction solid.now entries.now }
    ensures { IfOk result (λ pieces. (traces : List Strip) × AreTraceStrips (of_dir d.now) (solid_part solid.now) (map plane_of cuts.now) traces ×
        AreMergedWith (of_dir d.now) solid.now entries.now traces pieces.items) }
{
    let mut traces = Vec::new(alloc);
    add_traces(&mut traces, solid, d, cuts)?;
    let pieces = merged_pieces(alloc, solid, d, entries, &traces)?;
    Ok(pieces)
}

/// The plain view along a direction: visible lines solid, hidden ones dashed and traces of cuts chain lines, in their order, and its
/// counts and numbers.
///
/// Puts the outlines into a grid, where it counts as many cells as the cell bound at most, carries the counts along the drawn edges
/// and around corners, by as many tests as the bound at most, and then puts the strips together, line by line.
pub(crate) fn plain_lines(
    alloc: Global,
    solid: &Solid,
    d: &Dir,
    crease: Crease,
    cuts: &[Cut],
) -> Result<ViewLines, OutOfMemory>
    ensures spec { IfOk result (λ x. x.view.spec ≡ ViewSpec.Plain d.now) }
    ensures right { IfOk result (λ x. AreRight (of_dir d.now) (fraction_of crease) (solid_part solid.now) (map plane_of cuts.now) x.view.pieces.items) }
    ensures order { IfOk result (λ x. AreInOrder (of_dir d.now) x.view.pieces.items) }
    ensures hatched { IfOk result (λ x. x.view.hatches.items ≡ []) }
    ensures counts { IfOk result (λ x. AreCountsAlong (of_dir d.now) (fraction_of crease) solid.now x.view.counts.items) }
    ensures tested { IfOk result (λ x. x.numbers.tests ≤ x.numbers.bound) }
    ensures cut_tested { IfOk result (λ x. x.numbers.cut_tests ≤ x.numbers.cut_bound) }
    ensures celled { IfOk result (λ x. x.numbers.cells ≤ x.numbers.cell_bound) }
    ensures counted { IfOk result (λ x. CountsView solid.now crease (ViewSpec.Plain d.now) x.numbers) }
    ensures small { IfOk result (λ x. AreBelow (2 ^ 48) x.numbers) }
{
    let picked = pick(alloc, solid, d, crease)?;
    let Counts { entries, numbers } = counts_along(alloc, solid, d, crease, &picked)?;
    let pieces = plain_pieces(alloc, solid, d, &entries, cuts)?;
    let view = ViewDrawing {
        spec: ViewSpec::Plain(*d),
        pieces,
        hatches: Vec::new(alloc),
        counts: entries,
    };
    Ok(ViewLines { view, numbers })
}
