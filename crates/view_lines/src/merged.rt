// The strips of a view, put together line by line.
ghost use Rattle.std.specs.Prelude.{◌≡◌, ℕ, List, [], ◌∷◌, map, All, IfOk};
ghost use Rattle.std.specs.List.Sorted.{IsNonDecreasingBy};
ghost use Rattle.lattice.specs.Points.{of_dir};
ghost use Rattle.lattice.specs.declared.lines.Line.{Line};
ghost use Rattle.geometry.specs.Views.{AreDrawnEdges};
ghost use Rattle.line_merge.specs.Merging.{AreStrips};
ghost use Rattle.solid_mesh.specs.Solids.{solid_part, edge_halves};
ghost use Rattle.view_lines.specs.inner.Merged.{AreMergedWith};
ghost use Rattle.view_lines.specs.inner.Chained.{AreChained};
ghost use Rattle.view_lines.specs.inner.Sources.{origin_of, CanBeDrawn, AreOriginStrips, IsPlaced, AreTakenOf};

use crate::sources::{Placed, Source, by_line};
use crate::strips::entry_strips;
use exact_frac::OutOfMemory;
use lattice::{Dir, Piece, Strip};
use line_merge::LineMerge;
use solid_mesh::Solid;
use span_count::EdgeSpans;
use std::alloc::Global;

/// A list of this strip alone.
fn one_strip(alloc: Global, strip: &Strip) -> Result<Vec<Strip>, OutOfMemory>
    ensures { IfOk result (λ strips. strips.items ≡ strip.now ∷ []) }
{
    let mut strips = Vec::new(alloc);
    strips.push(*strip)?;
    Ok(strips)
}

/// The strips of an edge, or the strip itself.
fn source_strips(
    alloc: Global,
    solid: &Solid,
    d: &Dir,
    source: Source<'_>,
) -> Result<Vec<Strip>, OutOfMemory>
    requires { CanBeDrawn (of_dir d.now) solid.now (origin_of source) }
    ensures { IfOk result (λ strips. AreOriginStrips (of_dir d.now) solid.now (origin_of source.entry) strips.items) }
{
    match source {
        Source::Edge(entry) => entry_strips(alloc, solid, d, entry),
        Source::Other(strip) => one_strip(alloc, strip),
    }
}

/// Takes the strips of edges, and others, that stand in the order of the numbers of their lines. Those of one edge are there at a
/// time.
fn take_by_line(
    alloc: Global,
    solid: &Solid,
    d: &Dir,
    placed: &[Placed<'_>],
) -> Result<LineMerge, OutOfMemory>
    requires drawable { All (λ x. CanBeDrawn (of_dir d.now) solid.now (origin_of x.source)) placed.now }
    requires numbered { (table : List Line) × All (IsPlaced (of_dir d.now) solid.now table) placed.now }
    requires ascending { IsNonDecreasingBy (λ x. x.line) placed.now }
    ensures { IfOk result (λ lines. (table : List Line) × AreTakenOf (of_dir d.now) solid.now table (map (λ x. origin_of x.source) placed.now) lines) }
{
    let mut lines = LineMerge::new(alloc);
    for x in placed {
        let strips = source_strips(alloc, solid, d, x.source)?;
        lines.take(alloc, d, x.line, &strips)?;
    }
    Ok(lines)
}

/// The pieces of the strips that these counts of drawn edges tell, and of other strips, put together.
///
/// The strips are made line by line, since those of all lines take more memory than the pieces. Each edge's line is hashed once.
/// Memory beside the pieces: 24 bytes for each edge, once more while these are sorted, the table of lines, and the strips of one line.
pub(crate) fn merged_pieces(
    alloc: Global,
    solid: &Solid,
    d: &Dir,
    entries: &[EdgeSpans],
    others: &[Strip],
) -> Result<Vec<Piece>, OutOfMemory>
    requires drawn { (fraction : ℕ) × AreDrawnEdges (of_dir d.now) fraction (solid_part solid.now) (edge_halves solid.now) (map (λ x. x.edge) entries.now) }
    requires chained { All (λ x. AreChained x.spans.items) entries.now }
    requires others { AreStrips (of_dir d.now) others.now }
    ensures { IfOk result (λ pieces. AreMergedWith (of_dir d.now) solid.now entries.now others.now pieces.items) }
{
    let placed = by_line(alloc, solid, d, entries, others)?;
    let lines = take_by_line(alloc, solid, d, &placed)?;
    let pieces = lines.pieces(alloc, d)?;
    Ok(pieces)
}
