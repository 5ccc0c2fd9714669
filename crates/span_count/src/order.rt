// The order in which drawn edges are walked: each run from its first edge on, from corner to corner.
ghost use Rattle.std.specs.Prelude.{◌≡◌, ◌<◌, All, length, IfOk};
ghost use Rattle.cross_find.specs.Sights.{IsSeen};
ghost use Rattle.edge_pick.specs.inner.Numberings.{AreCornersOf};
ghost use Rattle.span_count.specs.Finders.{IsPickedIn};
ghost use Rattle.span_count.specs.Orders.{AreSteps};

use cross_find::Sight;
use edge_pick::{EdgeCorners, Picked, Step, breadth_first};
use exact_frac::OutOfMemory;
use std::alloc::Global;

/// Steps over all drawn edges, each once. Each goes on at a corner of an edge before it, but for the first one of each run.
///
/// Cost: no test, and time and memory that are linear in the drawn edges and the greatest number of a corner. Each edge is asked
/// for once, and each of its ends is gone over once, in the list of its corner.
pub(crate) fn steps_of<S: Sight>(
    alloc: Global,
    sight: &S,
    picked: &Picked,
) -> Result<Vec<Step>, OutOfMemory>
    requires seen { IsSeen (S.sight sight.now) }
    requires picked { IsPickedIn (S.sight sight.now) picked.now }
    ensures { IfOk result (λ steps. AreSteps (S.sight sight.now) picked.now steps.items) }
{
    let edges = corners_of(alloc, sight, &picked.drawn)?;
    let steps = breadth_first(alloc, &edges)?;
    Ok(steps)
}

/// The corners of the drawn edges: the search knows nothing else of them.
fn corners_of<S: Sight>(
    alloc: Global,
    sight: &S,
    drawn: &[u32],
) -> Result<Vec<EdgeCorners>, OutOfMemory>
    requires { All (λ i. i < length (S.sight sight.now).halves) drawn.now }
    ensures for_each { IfOk result (λ edges. length edges.items ≡ length drawn.now) }
    ensures right { IfOk result (λ edges. AreCornersOf (S.sight sight.now).part (S.sight sight.now).halves drawn.now edges.items) }
{
    let mut edges = Vec::new(alloc);
    for edge in drawn {
        let numbers = sight.edge(*edge);
        edges.push(EdgeCorners {
            a: numbers.a,
            b: numbers.b,
        })?;
    }
    Ok(edges)
}
