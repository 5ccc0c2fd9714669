//! Which edges of a solid are drawn, which are outlines, and which drawn edges are connected.
//!
//! An edge is drawn where it is an outline or a crease and isn't seen end-on. The runs are the connected parts of the graph of
//! corners and drawn edges. They are read off the order in which a search reaches the drawn edges, breadth first; `breadth_first`
//! hands the same order to what is carried from edge to edge.
#![tactic(auto)]

ghost use Rattle.std.specs.Prelude.{IfOk};
ghost use Rattle.lattice.specs.Points.{of_dir};
ghost use Rattle.lattice.specs.Creases.{fraction_of};
ghost use Rattle.solid_mesh.specs.Solids.{solid_part, edge_halves};
ghost use Rattle.edge_pick.specs.Picked.{IsPicked};

mod edges;
mod order;
mod order_ends;
mod order_search;
mod runs;

use crate::edges::{drawn_edges, outline_edges};
use crate::runs::find_runs;
use exact_frac::OutOfMemory;
pub use lattice::Crease;
use lattice::Dir;
pub use order::{DrawnEnd, EdgeCorners, Step, breadth_first};
use solid_mesh::Solid;
use std::alloc::Global;

/// Edges of a solid by their numbers, for one direction. `drawn` and `outlines` ascend; an outline that is seen end-on is listed
/// and not drawn. `runs[k]` is the run that `drawn[k]` is in; runs are numbered from 0 by their first edge.
#[derive(Debug, Drop)]
pub struct Picked {
    pub drawn: Vec<u32>,
    pub outlines: Vec<u32>,
    pub runs: Vec<u32>,
}

/// The drawn edges, the outlines, and the runs of the drawn edges. Fails only where memory runs out.
///
/// Cost: two passes over the edges, with a few products and at most three comparisons of fractions each, and then time and
/// memory that are linear in the corners and the drawn edges: each end of a drawn edge is gone over once.
pub fn pick(alloc: Global, solid: &Solid, d: &Dir, crease: Crease) -> Result<Picked, OutOfMemory>
    ensures { IfOk result (IsPicked (of_dir d.now) (fraction_of crease) (solid_part solid.now) (edge_halves solid.now)) }
{
    let drawn = drawn_edges(alloc, solid, d, crease)?;
    let outlines = outline_edges(alloc, solid, d)?;
    let runs = find_runs(alloc, solid, &drawn)?;
    Ok(Picked {
        drawn,
        outlines,
        runs,
    })
}
