// Which lines a sheet draws.
ghost use Rattle.std.specs.Prelude.{◌≡◌, IfOk};
ghost use Rattle.sheet_lines.specs.Lines.{AreLines};

use crate::kept::{as_many, kept, without};
use crate::shown::shown_in;
use crate::ways::drawn_strokes;
use covered_paths::drawn_paths;
use exact_frac::OutOfMemory;
use sheet_plan::Stroke;
use std::alloc::Global;
use stroke_paths::Path;

/// The paths that a sheet draws, which of its strokes it draws, and how many hidden paths are asked for and left out, since others cover
/// them.
#[derive(Drop)]
pub struct SheetLines {
    pub paths: Vec<Path>,
    pub strokes: Vec<bool>,
    pub covered: u64,
}

/// What a sheet draws of these strokes and of the paths of its picture, if hidden lines are drawn in the views of which `hidden` says so.
///
/// What it takes to find the paths that are covered is told at `drawn_paths`. Else each path and each stroke is looked at a few times.
pub fn lines_of(
    alloc: Global,
    hidden: &[bool],
    strokes: &[Stroke],
    paths: Vec<Path>,
) -> Result<SheetLines, OutOfMemory>
    ensures { IfOk result (AreLines hidden.now strokes.now paths.items) }
{
    let shown = shown_in(alloc, hidden, &paths)?;
    let drawn = drawn_paths(alloc, &paths, &shown)?;
    let covered = without(alloc, &shown, &drawn)?;
    let strokes = drawn_strokes(alloc, hidden, &covered, &paths, strokes)?;
    let many = as_many(&covered);
    let paths = kept(alloc, &drawn, paths)?;
    Ok(SheetLines {
        paths,
        strokes,
        covered: many,
    })
}
