// What the strips of a view come from, in the order of the numbers of their lines.
ghost use Rattle.std.proofs.Common.{inl, inr};
ghost use Rattle.std.specs.Prelude.{◌++◌, ◌∷◌, ◌<◌, [], List, map, length, All, IfOk, OnOk, IsPermutation};
ghost use Rattle.std.specs.List.Sorted.{IsNonDecreasingBy};
ghost use Rattle.lattice.specs.Points.{of_dir};
ghost use Rattle.lattice.specs.Triple.{Triple};
ghost use Rattle.geometry.specs.Views.{IsEndOn};
ghost use Rattle.edge_pick.specs.Edges.{OfEdge};
ghost use Rattle.solid_mesh.specs.Solids.{edge_halves};
ghost use Rattle.solid_mesh.specs.declared.solid.Solid.{Solid};
ghost use Rattle.view_lines.specs.inner.Sources.{Origin, origin_of, origins, HasLine, ArePlaced, AreByLine};

use drawn_strips::edge_line;
use exact_frac::OutOfMemory;
use indexmap::IndexSet;
use lattice::{Dir, Line, Strip};
use solid_mesh::Solid;
use span_count::EdgeSpans;
use std::alloc::Global;

/// What strips come from: the counts of an edge, or a strip beside those of the edges.
#[derive(Clone, Copy)]
pub(crate) enum Source<'s> {
    Edge(&'s EdgeSpans),
    Other(&'s Strip),
}

/// What strips come from, and the number of their line: far less than the strips take.
#[derive(Clone, Copy)]
pub(crate) struct Placed<'s> {
    pub source: Source<'s>,
    pub line: usize,
}

/// Adds what is on this line, with the line's number.
fn place<'s>(
    table: &mut IndexSet<Line>,
    placed: &mut Vec<Placed<'s>>,
    source: Source<'s>,
    line: Line,
) -> Result<(), OutOfMemory>
    ensures { OnOk result ((d : Triple) → (solid : Solid) → (all : List Origin) → HasLine d solid (origin_of source.entry) line → ArePlaced d solid table.old.keys all placed.old.items →
        ArePlaced d solid table.new.keys (all ++ origin_of source.entry ∷ []) placed.new.items) }
{
    let (number, _) = table.insert_full(line)?;
    placed.push(Placed {
        source,
        line: number,
    })?;
    Ok(())
}

/// Adds the edges.
fn place_edges<'s>(
    table: &mut IndexSet<Line>,
    placed: &mut Vec<Placed<'s>>,
    solid: &Solid,
    d: &Dir,
    entries: &'s [EdgeSpans],
) -> Result<(), OutOfMemory>
    requires in_range { All (λ x. x.edge < length (edge_halves solid.now)) entries.now }
    requires seen { All (λ x. OfEdge solid.now x.edge (λ e. ¬ IsEndOn (of_dir d.now) e)) entries.now }
    ensures { OnOk result ((all : List Origin) → ArePlaced (of_dir d.now) solid.now table.old.keys all placed.old.items →
        ArePlaced (of_dir d.now) solid.now table.new.keys (all ++ map inl entries.now) placed.new.items) }
{
    for entry in entries {
        place(
            table,
            placed,
            Source::Edge(entry),
            edge_line(solid, d, entry.edge),
        )?;
    }
    Ok(())
}

/// Adds the other strips.
fn place_others<'s>(
    table: &mut IndexSet<Line>,
    placed: &mut Vec<Placed<'s>>,
    others: &'s [Strip],
) -> Result<(), OutOfMemory>
    ensures { OnOk result ((d : Triple) → (solid : Solid) → (all : List Origin) → ArePlaced d solid table.old.keys all placed.old.items →
        ArePlaced d solid table.new.keys (all ++ map inr others.now) placed.new.items) }
{
    for strip in others {
        place(table, placed, Source::Other(strip), strip.line)?;
    }
    Ok(())
}

/// These in the order of the numbers of their lines.
fn sorted_by_line(mut placed: Vec<Placed<'_>>) -> Result<Vec<Placed<'_>>, OutOfMemory>
    ensures same { IfOk result (λ sorted. IsPermutation placed.entry.items sorted.items) }
    ensures sorted { IfOk result (λ sorted. IsNonDecreasingBy (λ x. x.line) sorted.items) }
{
    placed.sort_by_key(|x| x.line)?;
    Ok(placed)
}

/// The edges and the other strips in the order of the numbers of their lines, which are numbered in the order in which they are first
/// seen.
pub(crate) fn by_line<'s>(
    alloc: Global,
    solid: &Solid,
    d: &Dir,
    entries: &'s [EdgeSpans],
    others: &'s [Strip],
) -> Result<Vec<Placed<'s>>, OutOfMemory>
    requires in_range { All (λ x. x.edge < length (edge_halves solid.now)) entries.now }
    requires seen { All (λ x. OfEdge solid.now x.edge (λ e. ¬ IsEndOn (of_dir d.now) e)) entries.now }
    ensures { IfOk result (λ placed. AreByLine (of_dir d.now) solid.now (origins entries.now others.now) placed.items) }
{
    let mut table = IndexSet::new(alloc);
    let mut placed = Vec::with_capacity(alloc, entries.len())?;
    place_edges(&mut table, &mut placed, solid, d, entries)?;
    place_others(&mut table, &mut placed, others)?;
    let sorted = sorted_by_line(placed)?;
    Ok(sorted)
}
