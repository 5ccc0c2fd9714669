// The strips of what a view shows, by the spans of all faces.
ghost use Rattle.std.specs.Prelude.{◌≡◌, ℕ, map, IfOk};
ghost use Rattle.lattice.specs.Creases.{fraction_of};
ghost use Rattle.lattice.specs.Cuts.{plane_of};
ghost use Rattle.lattice.specs.Points.{of_dir};
ghost use Rattle.geometry.specs.Views.{AreDrawnEdges};
ghost use Rattle.solid_mesh.specs.Solids.{solid_part, edge_halves};
ghost use Rattle.span_slow.specs.Views.{direction_in, IsViewOf, AreSpansIn};
ghost use Rattle.drawn_strips.specs.Scenes.{AreStripsAlong, AreStripsBeyond, AreViewStrips};
ghost use Rattle.drawn_strips.specs.Strips.{AreEdgeStrips};

use cut_plane::borders;
use drawn_strips::{add_borders, add_strips, add_traces};
use edge_pick::pick;
use exact_frac::OutOfMemory;
use lattice::{Crease, Cut, Dir, Strip, ViewSpec};
use solid_mesh::Solid;
use span_slow::{View, spans_slow};
use std::alloc::Global;

/// The strips of these drawn edges, edge by edge.
fn slow_edges(
    alloc: Global,
    solid: &Solid,
    view: &View,
    d: &Dir,
    drawn: &[u32],
) -> Result<Vec<Strip>, OutOfMemory>
    requires direction { of_dir d.now ≡ direction_in view.now }
    requires section { IsViewOf view.now (solid_part solid.now) }
    requires drawn { (fraction : ℕ) × AreDrawnEdges (of_dir d.now) fraction (solid_part solid.now) (edge_halves solid.now) drawn.now }
    ensures { IfOk result (λ strips. AreEdgeStrips (of_dir d.now) {s = solid_part solid.now} (AreSpansIn view.now) (edge_halves solid.now) drawn.now strips.items) }
{
    let mut strips = Vec::new(alloc);
    for edge in drawn {
        let spans = spans_slow(alloc, solid, view, *edge)?;
        add_strips(&mut strips, solid, d, *edge, &spans)?;
    }
    Ok(strips)
}

/// The strips of the plain view along a direction, with the traces of these cuts.
fn plain_strips(
    alloc: Global,
    solid: &Solid,
    d: &Dir,
    crease: Crease,
    cuts: &[Cut],
) -> Result<Vec<Strip>, OutOfMemory>
    ensures { IfOk result (λ strips. AreStripsAlong (of_dir d.now) (fraction_of crease) (solid_part solid.now) (map plane_of cuts.now) strips.items) }
{
    let picked = pick(alloc, solid, d, crease)?;
    let mut strips = slow_edges(alloc, solid, &View::Plain(*d), d, &picked.drawn)?;
    add_traces(&mut strips, solid, d, cuts)?;
    Ok(strips)
}

/// The strips of what a cut leaves of the solid, with the borders of its section.
fn cut_strips(
    alloc: Global,
    solid: &Solid,
    cut: &Cut,
    crease: Crease,
) -> Result<Vec<Strip>, OutOfMemory>
    ensures { IfOk result (λ strips. AreStripsBeyond (plane_of cut.now) (fraction_of crease) (solid_part solid.now) strips.items) }
{
    let section = borders(alloc, solid, cut)?;
    let d = section.cut.dir();
    let picked = pick(alloc, solid, &d, crease)?;
    let mut strips = slow_edges(alloc, solid, &View::Section(&section), &d, &picked.drawn)?;
    add_borders(&mut strips, &section)?;
    Ok(strips)
}

/// The strips of what a view shows: of its drawn edges, each tested against all faces with no counts carried from another edge, of a
/// section's borders, and of the traces of these cuts, which only a view of the whole solid has.
///
/// Cost: for each drawn edge what `spans_slow` takes, at least a few products for each face; beside it a pass over the edges, one over
/// the faces for a section, and two over the corners for each trace.
pub(crate) fn slow_strips(
    alloc: Global,
    solid: &Solid,
    asked: &ViewSpec,
    crease: Crease,
    cuts: &[Cut],
) -> Result<Vec<Strip>, OutOfMemory>
    ensures { IfOk result (λ strips. AreViewStrips asked.now (fraction_of crease) (solid_part solid.now) (map plane_of cuts.now) strips.items) }
{
    match asked {
        ViewSpec::Plain(d) => plain_strips(alloc, solid, d, crease, cuts),
        ViewSpec::Section(cut) => cut_strips(alloc, solid, cut, crease),
    }
}
