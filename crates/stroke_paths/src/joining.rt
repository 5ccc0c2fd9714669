// The paths of strokes.
ghost use Rattle.std.specs.Prelude.{◌≡◌, ◌+◌, ◌<◌, All, IfOk, OnOk, Some, length};
ghost use Rattle.stroke_paths.specs.Paths.{ArePaths, point_at};
ghost use Rattle.stroke_paths.specs.inner.Drawn.{ArePathsBelow, ArePointsAlong, IsPathAlong};
ghost use Rattle.stroke_paths.specs.inner.Tables.{AreJoints};

use crate::corners::{is_dot, point_of};
use crate::joint::{Joint, joints};
use crate::path::{End, Path, Point};
use crate::walking::{Passed, first_end, last_end, route_through};
use exact_frac::OutOfMemory;
use sheet_plan::Stroke;
use std::alloc::Global;

/// The strokes, joined to paths, which stand in the order of their least strokes. A stroke that is one point of the sheet is in no
/// path. Each end of a stroke is hashed at most three times, and each stroke is passed once; where n of them end at one point, n²
/// pairs of ends are compared.
pub fn paths(alloc: Global, strokes: &[Stroke]) -> Result<Vec<Path>, OutOfMemory>
    ensures { IfOk result (λ paths. ArePaths strokes.now paths.items) }
{
    let joints = joints(alloc, strokes)?;
    let mut visited = vec![in alloc; false; strokes.len()]?;
    let mut paths = Vec::new(alloc);
    for i in 0..strokes.len() {
        add_path(alloc, strokes, &joints, &mut visited, i, &mut paths)?;
    }
    Ok(paths)
}

/// The path through a stroke that isn't in a path yet, and is no dot.
fn add_path(
    alloc: Global,
    strokes: &[Stroke],
    joints: &[Joint],
    visited: &mut [bool],
    i: usize,
    paths: &mut Vec<Path>,
) -> Result<(), OutOfMemory>
    requires joints { AreJoints strokes.now joints.now }
    requires listed { i < length strokes.now }
    requires so_far { ArePathsBelow strokes.now joints.now i visited.old paths.old.items }
    ensures { OnOk result (ArePathsBelow strokes.now joints.now (i + 1) visited.new paths.new.items) }
{
    if is_dot(&strokes[i]) {
        return Ok(());
    }
    if visited[i] {
        return Ok(());
    }
    let passed = route_through(alloc, joints, visited, i)?;
    let path = path_of(alloc, strokes, &passed)?;
    paths.push(path)?;
    Ok(())
}

/// The path of a route: the view and the mark are those of its first stroke.
fn path_of(alloc: Global, strokes: &[Stroke], passed: &Passed) -> Result<Path, OutOfMemory>
    requires some { 0 < length passed.now.steps.items }
    requires listed { All (λ s. s.stroke < length strokes.now) passed.now.steps.items }
    ensures { IfOk result (IsPathAlong strokes.now passed.now.steps.items passed.now.closed) }
{
    let first = strokes[passed.steps[0].stroke];
    let points = points_of(alloc, strokes, passed)?;
    Ok(Path {
        view: first.view,
        mark: first.mark,
        closed: passed.closed,
        points,
    })
}

/// The points at which the steps begin, and where they aren't closed, the point at which the last one ends.
fn points_of(alloc: Global, strokes: &[Stroke], passed: &Passed) -> Result<Vec<Point>, OutOfMemory>
    requires some { 0 < length passed.now.steps.items }
    requires listed { All (λ s. s.stroke < length strokes.now) passed.now.steps.items }
    ensures { IfOk result (λ points. ArePointsAlong strokes.now passed.now.steps.items passed.now.closed points.items) }
{
    let mut points = Vec::new(alloc);
    for step in &passed.steps {
        points.push(point_at(strokes, first_end(*step)))?;
    }
    if passed.closed {
        return Ok(points);
    }
    let last = passed.steps[passed.steps.len() - 1];
    points.push(point_at(strokes, last_end(last)))?;
    Ok(points)
}

/// Where an end is.
fn point_at(strokes: &[Stroke], end: End) -> Point
    requires { end.stroke < length strokes.now }
    ensures { Some result ≡ point_at strokes.now end }
{
    point_of(&strokes[end.stroke], end.tip)
}
