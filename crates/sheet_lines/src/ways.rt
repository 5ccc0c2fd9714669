// The ways that paths take from point to point, and the strokes that take one of them.
ghost use Rattle.std.specs.Prelude.{◌≡◌, ◌++◌, map, IfOk, OnOk};
ghost use Rattle.indexmap.specs.IndexSet.{contains};
ghost use Rattle.sheet_lines.specs.Kept.{kept};
ghost use Rattle.sheet_lines.specs.Ways.{along, is_drawn, is_passed, drawn_strokes, same_way, through, way_back, way_between, way_of, ways_of};
ghost use Rattle.sheet_lines.specs.inner.Sets.{Holds, IsAdded};

use crate::shown::is_shown;
use exact_frac::OutOfMemory;
use indexmap::IndexSet;
use sheet_plan::{Mark, Stroke};
use std::alloc::Global;
use stroke_paths::{Path, Point};

/// A way on the sheet, from one point to another, in a view.
#[derive(Clone, Copy, PartialEq, Eq, Hash)]
pub(crate) struct Way {
    view: u32,
    x1: i64,
    y1: i64,
    x2: i64,
    y2: i64,
}

/// The way from one point to another.
fn way_between(view: u32, p: &Point, q: &Point) -> Way
    ensures { result ≡ way_between view p.now q.now }
{
    Way {
        view,
        x1: p.x,
        y1: p.y,
        x2: q.x,
        y2: q.y,
    }
}

/// The way of a stroke, from its first end to its second.
fn way_of(stroke: &Stroke) -> Way
    ensures { result ≡ way_of stroke.now }
{
    Way {
        view: stroke.view,
        x1: stroke.x1,
        y1: stroke.y1,
        x2: stroke.x2,
        y2: stroke.y2,
    }
}

/// And back.
fn way_back(stroke: &Stroke) -> Way
    ensures { result ≡ way_back stroke.now }
{
    Way {
        view: stroke.view,
        x1: stroke.x2,
        y1: stroke.y2,
        x2: stroke.x1,
        y2: stroke.y1,
    }
}

/// Adds the ways from a point through others.
fn add_through(
    ways: &mut Vec<Way>,
    view: u32,
    from: &Point,
    points: &[Point],
) -> Result<(), OutOfMemory>
    ensures { OnOk result (ways.new.items ≡ ways.old.items ++ through view from.now points.now) }
{
    let mut from = *from;
    for to in points {
        ways.push(way_between(view, &from, to))?;
        from = *to;
    }
    Ok(())
}

/// Adds the ways of a path.
fn add_along(ways: &mut Vec<Way>, path: &Path) -> Result<(), OutOfMemory>
    ensures { OnOk result (ways.new.items ≡ ways.old.items ++ along path.now.view path.now.closed path.now.points.items) }
{
    let points = path.points.as_slice();
    let (Some(first), Some(last)) = (points.first(), points.last()) else {
        return Ok(());
    };
    if path.closed {
        add_through(ways, path.view, last, points)
    } else {
        add_through(ways, path.view, first, &points[1..])
    }
}

/// The ways of the paths of which it is so.
fn ways_of(alloc: Global, flags: &[bool], paths: &[Path]) -> Result<Vec<Way>, OutOfMemory>
    ensures { IfOk result (λ ways. ways.items ≡ ways_of (kept flags.now paths.now)) }
{
    let mut ways = Vec::new(alloc);
    let mut rest = flags;
    for path in paths {
        match rest {
            [] => {}
            [flag, tail @ ..] => {
                if *flag {
                    add_along(&mut ways, path)?;
                }
                rest = tail;
            }
        }
    }
    Ok(ways)
}

/// Adds a way to a set.
fn add_way(set: &mut IndexSet<Way>, way: Way) -> Result<(), OutOfMemory>
    ensures { OnOk result (IsAdded set.old set.new way) }
{
    set.insert(way)?;
    Ok(())
}

/// The ways as a set. Each is hashed once.
fn set_of(alloc: Global, ways: &[Way]) -> Result<IndexSet<Way>, OutOfMemory>
    ensures { IfOk result (λ set. Holds set ways.now) }
{
    let mut set = IndexSet::new(alloc);
    let mut rest = ways;
    while let [way, tail @ ..] = rest {
        add_way(&mut set, *way)?;
        rest = tail;
    }
    Ok(set)
}

/// A way is in the set.
fn is_in(set: &IndexSet<Way>, way: Way) -> bool
    ensures { result ≡ contains same_way set.now way }
{
    set.contains(&way)
}

/// A stroke takes one of the ways, there or back.
fn is_passed(set: &IndexSet<Way>, ways: &[Way], stroke: &Stroke) -> bool
    requires { Holds set.now ways.now }
    ensures { result ≡ is_passed ways.now stroke.now }
{
    is_in(set, way_of(stroke)) || is_in(set, way_back(stroke))
}

/// A stroke is drawn, where the paths that are left out take these ways.
fn is_drawn(hidden: &[bool], set: &IndexSet<Way>, ways: &[Way], stroke: &Stroke) -> bool
    requires { Holds set.now ways.now }
    ensures { result ≡ is_drawn hidden.now ways.now stroke.now }
{
    if stroke.mark == Mark::Dashed && is_passed(set, ways, stroke) {
        return false;
    }
    is_shown(hidden, stroke.view, stroke.mark)
}

/// Which strokes are drawn, where the paths that are left out take these ways. Each way is hashed once, and each hidden stroke twice.
fn drawn_along(
    alloc: Global,
    hidden: &[bool],
    ways: &[Way],
    strokes: &[Stroke],
) -> Result<Vec<bool>, OutOfMemory>
    ensures { IfOk result (λ drawn. drawn.items ≡ map (is_drawn hidden.now ways.now) strokes.now) }
{
    let set = set_of(alloc, ways)?;
    let mut drawn = Vec::new(alloc);
    for stroke in strokes {
        drawn.push(is_drawn(hidden, &set, ways, stroke))?;
    }
    Ok(drawn)
}

/// Which strokes are drawn, where those of these paths are left out of which it is so.
pub(crate) fn drawn_strokes(
    alloc: Global,
    hidden: &[bool],
    flags: &[bool],
    paths: &[Path],
    strokes: &[Stroke],
) -> Result<Vec<bool>, OutOfMemory>
    ensures { IfOk result (λ drawn. drawn.items ≡ drawn_strokes hidden.now (kept flags.now paths.now) strokes.now) }
{
    let ways = ways_of(alloc, flags, paths)?;
    drawn_along(alloc, hidden, &ways, strokes)
}
