// The runs of the drawn edges, read off the order in which they are reached.
ghost use Rattle.std.specs.Prelude.{◌≡◌, ◌<◌, ◌^◌, length, IfOk};
ghost use Rattle.std.specs.List.{All};
ghost use Rattle.std.specs.List.Sorted.{IsStrictlyIncreasing};
ghost use Rattle.geometry.specs.Runs.{AreRuns};
ghost use Rattle.solid_mesh.specs.Solids.{solid_part, edge_halves};
ghost use Rattle.edge_pick.specs.Orders.{AreWalked};
ghost use Rattle.edge_pick.specs.inner.Numberings.{AreCornersOf, HasEdge, IsWithin, number_from, AreNumbered};

use crate::order::{EdgeCorners, Step, breadth_first};
use exact_frac::OutOfMemory;
use solid_mesh::Solid;
use std::alloc::Global;

/// The number of its run for each drawn edge.
pub(crate) fn find_runs(
    alloc: Global,
    solid: &Solid,
    drawn: &[u32],
) -> Result<Vec<u32>, OutOfMemory>
    requires in_range { All (λ i. i < length (edge_halves solid.now)) drawn.now }
    requires few { length drawn.now < 2 ^ 32 }
    requires rising { IsStrictlyIncreasing drawn.now }
    ensures { IfOk result (λ runs. AreRuns (solid_part solid.now) (edge_halves solid.now) drawn.now runs.items) }
{
    let edges = corners_of(alloc, solid, drawn)?;
    let steps = breadth_first(alloc, &edges)?;
    let runs = numbers_by(alloc, &edges, &steps)?;
    Ok(runs)
}

/// The corners of the drawn edges: the search knows nothing else of them.
fn corners_of(alloc: Global, solid: &Solid, drawn: &[u32]) -> Result<Vec<EdgeCorners>, OutOfMemory>
    requires { All (λ i. i < length (edge_halves solid.now)) drawn.now }
    ensures for_each { IfOk result (λ edges. length edges.items ≡ length drawn.now) }
    ensures edges { IfOk result (λ edges. All (HasEdge (solid_part solid.now) (edge_halves solid.now)) drawn.now) }
    ensures right { IfOk result (λ edges. AreCornersOf (solid_part solid.now) (edge_halves solid.now) drawn.now edges.items) }
{
    let mut edges = Vec::new(alloc);
    for edge in drawn {
        let numbers = solid.edge(*edge);
        edges.push(EdgeCorners {
            a: numbers.a,
            b: numbers.b,
        })?;
    }
    Ok(edges)
}

/// The number of its run for each edge, by the steps over the edges: runs are numbered as they begin.
fn numbers_by(alloc: Global, edges: &[EdgeCorners], steps: &[Step]) -> Result<Vec<u32>, OutOfMemory>
    requires few { length edges.now < 2 ^ 32 }
    requires walked { AreWalked edges.now steps.now }
    ensures { IfOk result (λ runs. AreNumbered edges.now steps.now runs.items) }
{
    let mut runs = no_numbers(alloc, edges.len())?;
    let mut next = 0;
    for step in steps {
        let run = number_at(*step, &runs, next);
        runs[step.to.place as usize] = run;
        next = next.max(run + 1);
    }
    Ok(runs)
}

/// The number of the run that a step goes on in, or that it begins.
fn number_at(step: Step, runs: &[u32], next: u32) -> u32
    requires { IsWithin step.from (length runs.now) }
    ensures { result ≡ number_from step.from runs.now next }
{
    match step.from {
        None => next,
        Some(from) => runs[from.place as usize],
    }
}

/// 0 for each edge.
fn no_numbers(alloc: Global, edges: usize) -> Result<Vec<u32>, OutOfMemory>
    ensures { IfOk result (λ runs. length runs.items ≡ edges) }
{
    let mut runs = Vec::new(alloc);
    for _ in 0..edges {
        runs.push(0)?;
    }
    Ok(runs)
}
