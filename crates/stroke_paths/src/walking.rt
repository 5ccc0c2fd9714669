// Strokes passed one after the other, by the table of their joints.
ghost use Rattle.std.specs.Prelude.{◌≡◌, ◌<◌, ◌++◌, ◌∷◌, false, Some, IfOk, MatchOption, length, map, not, reverse, slice_get};
ghost use Rattle.stroke_paths.specs.Routes.{first_end, last_end, start_of};
ghost use Rattle.stroke_paths.specs.inner.Tables.{partner};
ghost use Rattle.stroke_paths.specs.inner.Walks.{AreMatched, AreStepsFrom, AreWhole, IsNext, IsRouteThrough, IsStopped, turn};

use crate::joint::Joint;
use crate::path::{End, Step, Tip};
use exact_frac::OutOfMemory;
use std::alloc::{AllocError, Global};

/// Steps one after the other: where they are closed, the first follows the last.
#[derive(Drop)]
pub(crate) struct Passed {
    pub steps: Vec<Step>,
    pub closed: bool,
}

/// The whole route through a stroke, which isn't turned, and is the first one of a closed route. Its strokes are visited then.
pub(crate) fn route_through(
    alloc: Global,
    joints: &[Joint],
    visited: &mut [bool],
    stroke: usize,
) -> Result<Passed, OutOfMemory>
    requires matched { AreMatched joints.now }
    requires as_many { length visited.old ≡ length joints.now }
    requires new { slice_get visited.old stroke ≡ Some false }
    requires whole { AreWhole joints.now visited.old }
    ensures { IfOk result (λ p. IsRouteThrough joints.now visited.old visited.new stroke p.steps.items p.closed) }
{
    visited[stroke] = true;
    let step = Step {
        stroke,
        turned: false,
    };
    let onward = steps_from(alloc, joints, visited, last_end(step))?;
    let back = steps_from(alloc, joints, visited, first_end(step))?;
    let steps = joined(alloc, &back.steps, step, &onward.steps)?;
    Ok(Passed {
        steps,
        closed: onward.closed,
    })
}

/// The steps from an end on, through strokes that aren't visited, which are visited then; `closed` says that a visited stroke
/// goes on from the last.
fn steps_from(
    alloc: Global,
    joints: &[Joint],
    visited: &mut [bool],
    from: End,
) -> Result<Passed, OutOfMemory>
    requires matched { AreMatched joints.now }
    requires as_many { length visited.old ≡ length joints.now }
    requires listed { from.stroke < length joints.now }
    ensures { IfOk result (λ p. AreStepsFrom joints.now visited.old visited.new from p.steps.items p.closed) }
{
    let mut steps = Vec::new(alloc);
    let mut end = from;
    while let Some(step) = next_step(joints, visited, end) {
        steps.push(step)?;
        end = last_end(step);
    }
    let closed = partner(joints, end).is_some();
    Ok(Passed { steps, closed })
}

/// The step from an end on, through a stroke that isn't visited, and is visited then.
fn next_step(joints: &[Joint], visited: &mut [bool], end: End) -> Option<Step>
    requires matched { AreMatched joints.now }
    requires as_many { length visited.old ≡ length joints.now }
    requires listed { end.stroke < length joints.now }
    ensures { MatchOption result (IsStopped joints.now visited.old visited.new end) (IsNext joints.now visited.old visited.new end) }
{
    let next = partner(joints, end)?;
    if visited[next.stroke] {
        return None;
    }
    visited[next.stroke] = true;
    Some(step_at(next))
}

/// The step that begins at an end.
fn step_at(end: End) -> Step
    ensures { first_end result ≡ end }
{
    match end.tip {
        Tip::First => Step {
            stroke: end.stroke,
            turned: false,
        },
        Tip::Second => Step {
            stroke: end.stroke,
            turned: true,
        },
    }
}

/// The end that is joined to this one.
fn partner(joints: &[Joint], end: End) -> Option<End>
    requires { end.stroke < length joints.now }
    ensures { result ≡ partner joints.now end }
{
    let joint = joints[end.stroke];
    match end.tip {
        Tip::First => joint.first,
        Tip::Second => joint.second,
    }
}

/// The steps that were passed back from a step, turned, with the last first; that step; and the steps onward from it.
fn joined(
    alloc: Global,
    back: &[Step],
    step: Step,
    onward: &[Step],
) -> Result<Vec<Step>, OutOfMemory>
    ensures { IfOk result (λ steps. steps.items ≡ map turn (reverse back.now) ++ step ∷ onward.now) }
{
    let mut steps = turned_back(alloc, back)?;
    steps.push(step)?;
    steps.extend_from_slice(onward)?;
    Ok(steps)
}

/// The steps the other way: the last one first, and each of them turned.
fn turned_back(alloc: Global, steps: &[Step]) -> Result<Vec<Step>, AllocError>
    ensures { IfOk result (λ back. back.items ≡ map turn (reverse steps.now)) }
{
    steps.iter().rev().map(|s| turned(*s)).collect(alloc)
}

/// The step the other way.
fn turned(step: Step) -> Step
    ensures { result ≡ turn step }
{
    Step {
        stroke: step.stroke,
        turned: !step.turned,
    }
}

/// Where a step begins.
pub(crate) fn first_end(step: Step) -> End
    ensures { result ≡ first_end step }
{
    End {
        stroke: step.stroke,
        tip: start_of(step.turned),
    }
}

/// Where a step ends.
pub(crate) fn last_end(step: Step) -> End
    ensures { result ≡ last_end step }
{
    End {
        stroke: step.stroke,
        tip: start_of(step.turned).other(),
    }
}

/// At which of its ends a stroke begins, as it is drawn or turned.
fn start_of(turned: bool) -> Tip
    ensures { result ≡ start_of turned }
{
    if turned { Tip::Second } else { Tip::First }
}
