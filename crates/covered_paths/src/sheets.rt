// Which paths of a sheet are drawn.
ghost use Rattle.std.specs.Prelude.{◌≡◌, length, IfOk};
ghost use Rattle.covered_paths.specs.Drawn.{AreBeneath, AreDrawn};
ghost use Rattle.covered_paths.specs.inner.Marks.{is_other, marked, others_of};

use crate::drawn::drawn_lines;
use crate::line::Line;
use crate::lines::{is_line, sheet_lines};
use exact_frac::OutOfMemory;
use std::alloc::Global;
use stroke_paths::Path;

/// A path is shown, and is no line.
fn is_other(path: &Path, shown: bool) -> bool
    ensures { result ≡ is_other path.now shown }
{
    if is_line(path, shown) {
        return false;
    }
    shown
}

/// Which paths are shown and are no lines.
fn others_of(alloc: Global, paths: &[Path], shown: &[bool]) -> Result<Vec<bool>, OutOfMemory>
    requires as_many { length shown.now ≡ length paths.now }
    ensures { IfOk result (λ others. others.items ≡ others_of paths.now shown.now) }
{
    let mut others = Vec::new(alloc);
    for number in 0..paths.len() {
        others.push(is_other(&paths[number], shown[number]))?;
    }
    Ok(others)
}

/// Marks the paths of lines.
fn mark(drawn: &mut Vec<bool>, lines: &[Line])
    ensures { drawn.new.items ≡ marked drawn.old.items lines.now }
{
    for line in lines {
        if line.number < drawn.len() {
            drawn[line.number] = true;
        }
    }
}

/// Which paths are drawn.
fn drawn_of(alloc: Global, paths: &[Path], shown: &[bool]) -> Result<Vec<bool>, OutOfMemory>
    requires as_many { length shown.now ≡ length paths.now }
    ensures { IfOk result (λ drawn. AreDrawn paths.now shown.now drawn.items) }
{
    let lines = sheet_lines(alloc, paths, shown)?;
    let drawn = drawn_lines(alloc, lines)?;
    let mut flags = others_of(alloc, paths, shown)?;
    mark(&mut flags, &drawn);
    Ok(flags)
}

/// Which of a sheet's paths are drawn, of those that are shown. A hidden path isn't only if each of its points is within 0.35 mm of one
/// visible path of its view, or within 0.25 mm of one hidden path of its view before it, and that path is drawn itself.
///
/// Only the first eight drawn paths are tried, in the order of their places, that come so near to its first point. A hidden path of more
/// than 1000 legs is drawn, and a leg that is near more than 64 legs of the other path isn't covered by it. Each hidden path looks at the boxes around all paths that are drawn so far,
/// and at the legs in those that its first point is in or near. Once 20,000 paths are drawn, all others are drawn too.
pub fn drawn_paths(alloc: Global, paths: &[Path], shown: &[bool]) -> Result<Vec<bool>, OutOfMemory>
    requires as_many { length shown.now ≡ length paths.now }
    ensures exact { IfOk result (λ drawn. AreDrawn paths.now shown.now drawn.items) }
    ensures covered { IfOk result (λ drawn. AreBeneath paths.now shown.now drawn.items) }
{
    drawn_of(alloc, paths, shown)
}
