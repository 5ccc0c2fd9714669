// Drawn edges are reached from corner to corner, each run from its first edge on. The steps are their own queue.
ghost use Rattle.std.specs.Prelude.{◌≡◌, ℕ, ◌+◌, ◌<◌, ◌^◌, false, length, slice_index_or, OnOk, IfOk};
ghost use Rattle.edge_pick.specs.Orders.{corner_of, AreWalked};
ghost use Rattle.edge_pick.specs.inner.Searches.{lists_of, AreEndsAt, AreEndsLeft, IsReached, IsClosed, IsSearch, IsSpread, IsAround, IsRun};

use crate::order::{DrawnEnd, EdgeCorners, Step};
use exact_frac::OutOfMemory;
use smallvec::SmallVec;
use std::alloc::Global;

/// Steps over all these edges, which have these ends at each corner.
pub(crate) fn steps_over(
    alloc: Global,
    edges: &[EdgeCorners],
    mut lists: Vec<SmallVec<DrawnEnd, 6>>,
) -> Result<Vec<Step>, OutOfMemory>
    requires few { length edges.now < 2 ^ 32 }
    requires ends { AreEndsAt edges.now (length edges.now) (lists_of lists.items) }
    ensures { IfOk result (λ steps. AreWalked edges.now steps.items) }
{
    let mut reached = none_reached(alloc, edges.len())?;
    let mut steps = Vec::new(alloc);
    for place in 0..edges.len() as u32 {
        if !reached[place as usize] {
            walk_run(edges, place, &mut lists, &mut reached, &mut steps)?;
        }
    }
    Ok(steps)
}

/// No edge is reached yet.
fn none_reached(alloc: Global, edges: usize) -> Result<Vec<bool>, OutOfMemory>
    ensures for_each { IfOk result (λ reached. length reached.items ≡ edges) }
    ensures none { IfOk result (λ reached. (place : ℕ) → slice_index_or reached.items place false ≡ false) }
{
    let mut reached = Vec::new(alloc);
    for _ in 0..edges {
        reached.push(false)?;
    }
    Ok(reached)
}

/// Steps to an edge and to all that edges lead to from it.
fn walk_run(
    edges: &[EdgeCorners],
    start: u32,
    lists: &mut Vec<SmallVec<DrawnEnd, 6>>,
    reached: &mut Vec<bool>,
    steps: &mut Vec<Step>,
) -> Result<(), OutOfMemory>
    requires start { start < length edges.now }
    requires new { slice_index_or reached.old.items start false ≡ false }
    requires first { (place : ℕ) → place < start → IsReached reached.old.items place }
    requires search { IsSearch edges.now reached.old.items steps.old.items }
    requires ends { AreEndsLeft edges.now (lists_of lists.old.items) reached.old.items }
    requires closed { IsClosed edges.now reached.old.items }
    ensures { OnOk result (IsRun edges.now start reached.old.items steps.old.items (lists_of lists.new.items) reached.new.items steps.new.items) }
{
    let mut head = steps.len();
    let to = DrawnEnd {
        place: start,
        at_b: false,
    };
    reached[start as usize] = true;
    steps.push(Step { to, from: None })?;
    while head < steps.len() {
        let place = steps[head].to.place;
        walk_around(edges, place, lists, reached, steps)?;
        head += 1;
    }
    Ok(())
}

/// Steps to the edges at both ends of an edge.
fn walk_around(
    edges: &[EdgeCorners],
    place: u32,
    lists: &mut Vec<SmallVec<DrawnEnd, 6>>,
    reached: &mut Vec<bool>,
    steps: &mut Vec<Step>,
) -> Result<(), OutOfMemory>
    requires from { IsReached reached.old.items place }
    requires search { IsSearch edges.now reached.old.items steps.old.items }
    requires ends { AreEndsLeft edges.now (lists_of lists.old.items) reached.old.items }
    ensures { OnOk result (IsAround edges.now place reached.old.items steps.old.items (lists_of lists.new.items) reached.new.items steps.new.items) }
{
    let first = DrawnEnd { place, at_b: false };
    spread(edges, first, lists, reached, steps)?;
    let second = DrawnEnd { place, at_b: true };
    spread(edges, second, lists, reached, steps)?;
    Ok(())
}

/// Steps from an end to the ends at its corner whose edges are not reached. The corner then has no list, since all its edges are
/// reached, so each list is gone over once.
fn spread(
    edges: &[EdgeCorners],
    from: DrawnEnd,
    lists: &mut Vec<SmallVec<DrawnEnd, 6>>,
    reached: &mut Vec<bool>,
    steps: &mut Vec<Step>,
) -> Result<(), OutOfMemory>
    requires from { IsReached reached.old.items from.place }
    requires search { IsSearch edges.now reached.old.items steps.old.items }
    requires ends { AreEndsLeft edges.now (lists_of lists.old.items) reached.old.items }
    ensures { OnOk result (IsSpread edges.now (corner_of edges.now from) reached.old.items steps.old.items (lists_of lists.new.items) reached.new.items steps.new.items) }
{
    let corner = number_of(edges, from) as usize;
    for to in lists[corner].as_slice() {
        if !reached[to.place as usize] {
            reached[to.place as usize] = true;
            steps.push(Step {
                to: *to,
                from: Some(from),
            })?;
        }
    }
    lists[corner].truncate(0);
    Ok(())
}

/// The number of the corner at an end.
fn number_of(edges: &[EdgeCorners], end: DrawnEnd) -> u32
    requires { end.place < length edges.now }
    ensures { result ≡ corner_of edges.now end }
{
    let corners = edges[end.place as usize];
    if end.at_b { corners.b } else { corners.a }
}
