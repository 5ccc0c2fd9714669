// The spans of an edge as strips of the line on which it is seen.
ghost use Rattle.std.specs.Prelude.{◌≡◌, ◌<◌, List, ◌++◌, length, All, OnOk};
ghost use Rattle.std.specs.List.{AllZip};
ghost use Rattle.lattice.specs.declared.pieces.Strip.{Strip};
ghost use Rattle.lattice.specs.Points.{of_dir};
ghost use Rattle.geometry.specs.Places.{IsEarlier};
ghost use Rattle.geometry.specs.Views.{IsEndOn};
ghost use Rattle.solid_mesh.specs.Solids.{edge_halves};
ghost use Rattle.edge_pick.specs.Edges.{OfEdge};
ghost use Rattle.drawn_strips.specs.Strips.{strip_kind, IsEdgeLine, IsStripOf};

use exact_frac::OutOfMemory;
use lattice::{Dir, Line, Span, Strip, StripKind};
use solid_mesh::Solid;

/// The line that the edge is seen on. It takes what `Line::through` takes.
pub fn edge_line(solid: &Solid, d: &Dir, edge: u32) -> Line
    requires in_range { edge < length (edge_halves solid.now) }
    requires seen { OfEdge solid.now edge (λ e. ¬ IsEndOn (of_dir d.now) e) }
    ensures { OfEdge solid.now edge (λ e. IsEdgeLine (of_dir d.now) e result) }
{
    let numbers = solid.edge(edge);
    Line::through(d, &solid.corner(numbers.a), &solid.corner(numbers.b))
}

/// The span as a strip of the edge's line.
fn strip_of(solid: &Solid, d: &Dir, edge: u32, line: &Line, span: &Span) -> Strip
    requires in_range { edge < length (edge_halves solid.now) }
    requires seen { OfEdge solid.now edge (λ e. ¬ IsEndOn (of_dir d.now) e) }
    requires on_line { OfEdge solid.now edge (λ e. IsEdgeLine (of_dir d.now) e line.now) }
    requires ordered { IsEarlier span.now.from span.now.to }
    ensures { OfEdge solid.now edge (λ e. IsStripOf (of_dir d.now) e span.now result) }
{
    Strip {
        line: *line,
        a: solid.spot(edge, &span.from),
        b: solid.spot(edge, &span.to),
        kind: strip_kind(span.hidden),
    }
}

/// The kind of the strip of a span that is hidden, or visible.
fn strip_kind(hidden: bool) -> StripKind
    ensures { result ≡ strip_kind hidden }
{
    if hidden {
        StripKind::Hidden
    } else {
        StripKind::Seen
    }
}

/// Adds the spans of an edge as strips.
pub fn add_strips(
    strips: &mut Vec<Strip>,
    solid: &Solid,
    d: &Dir,
    edge: u32,
    spans: &[Span],
) -> Result<(), OutOfMemory>
    requires in_range { edge < length (edge_halves solid.now) }
    requires seen { OfEdge solid.now edge (λ e. ¬ IsEndOn (of_dir d.now) e) }
    requires ordered { All (λ x. IsEarlier x.from x.to) spans.now }
    ensures { OnOk result ((here : List Strip) × (strips.new.items ≡ strips.old.items ++ here) ×
        OfEdge solid.now edge (λ e. AllZip (IsStripOf (of_dir d.now) e) spans.now here)) }
{
    let line = edge_line(solid, d, edge);
    for span in spans {
        strips.push(strip_of(solid, d, edge, &line, span))?;
    }
    Ok(())
}
