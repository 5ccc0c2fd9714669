// The order in which edges are reached from corner to corner, each run from its first edge on.
ghost use Rattle.std.specs.Prelude.{◌<◌, ◌^◌, length, IfOk};
ghost use Rattle.edge_pick.specs.Orders.{AreWalked};

use crate::order_ends::find_ends;
use crate::order_search::steps_over;
use exact_frac::OutOfMemory;
use std::alloc::Global;

/// The numbers of the two corners of an edge.
#[derive(Clone, Copy, PartialEq, Eq, Debug)]
pub struct EdgeCorners {
    pub a: u32,
    pub b: u32,
}

/// An end of an edge, by the place of the edge in a list: its corner `a`, or its corner `b`.
#[derive(Clone, Copy, PartialEq, Eq, Default, Debug)]
pub struct DrawnEnd {
    pub place: u32,
    pub at_b: bool,
}

/// An edge to go to, by the end that is come to, and the end at the same corner, of an edge before it, that is come from; none
/// where a run begins.
#[derive(Clone, Copy, PartialEq, Eq, Debug)]
pub struct Step {
    pub to: DrawnEnd,
    pub from: Option<DrawnEnd>,
}

/// Steps over all these edges, each once, breadth first: a step goes on at a corner of an edge before it, but where a run begins,
/// which it does at the first edge that was not reached before.
///
/// Cost: time and memory that are linear in the edges and the greatest number of a corner. Each end of an edge is gone over once,
/// in the list of its corner.
pub fn breadth_first(alloc: Global, edges: &[EdgeCorners]) -> Result<Vec<Step>, OutOfMemory>
    requires { length edges.now < 2 ^ 32 }
    ensures { IfOk result (λ steps. AreWalked edges.now steps.items) }
{
    let lists = find_ends(alloc, edges)?;
    let steps = steps_over(alloc, edges, lists)?;
    Ok(steps)
}
