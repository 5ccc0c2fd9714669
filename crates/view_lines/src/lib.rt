//! What one view shows of a solid: pieces, hatch lines, counts, and the view's numbers.
//!
//! A view of the whole solid is drawn by counts that are carried along its drawn edges and around corners, with the traces of cuts,
//! and the view of a cut by counts that are carried along what the plane leaves of its drawn edges, with the section's borders. Both
//! come to strips of lines, which are put together to pieces.
//!
//! What may change the counts is found in a grid over the view, of as many columns as the whole square root of the number of
//! outlines, from 1 to 256, and as many rows: along an edge the outlines of the cells that it passes are tested, and over a corner those
//! of its cell. To make it at most the view's cell bound of cells are counted, and at most its bound of tests are made.
#![tactic(auto)]

ghost use Rattle.std.specs.Prelude.{◌≤◌, ◌^◌, map, IfOk};
ghost use Rattle.lattice.specs.Cuts.{plane_of};
ghost use Rattle.view_lines.specs.Numbers.{CountsView, AreBelow};
ghost use Rattle.view_lines.specs.Views.{ShowsView};

mod counts;
mod cut_strips;
mod merged;
mod numbers;
mod plain_strips;
mod sources;
mod strips;
mod view;

use crate::cut_strips::cut_lines;
use crate::plain_strips::plain_lines;
use exact_frac::OutOfMemory;
use lattice::{Crease, Cut, ViewSpec};
pub use numbers::ViewNumbers;
use solid_mesh::Solid;
use std::alloc::Global;
pub use view::{ViewDrawing, ViewLines};

/// The view of the solid that is asked for, with hatch lines so many units apart in U. A view of the whole solid has the traces of
/// these cuts.
pub fn view_lines(
    alloc: Global,
    solid: &Solid,
    asked: &ViewSpec,
    crease: Crease,
    cuts: &[Cut],
    spacing: u32,
) -> Result<ViewLines, OutOfMemory>
    requires { 1 ≤ spacing }
    ensures shows { IfOk result (λ x. ShowsView solid.now crease (map plane_of cuts.now) spacing asked.now x.view) }
    ensures counted { IfOk result (λ x. CountsView solid.now crease asked.now x.numbers) }
    ensures tested { IfOk result (λ x. x.numbers.tests ≤ x.numbers.bound) }
    ensures cut_tested { IfOk result (λ x. x.numbers.cut_tests ≤ x.numbers.cut_bound) }
    ensures celled { IfOk result (λ x. x.numbers.cells ≤ x.numbers.cell_bound) }
    ensures small { IfOk result (λ x. AreBelow (2 ^ 48) x.numbers) }
{
    match asked {
        ViewSpec::Plain(d) => plain_lines(alloc, solid, d, crease, cuts),
        ViewSpec::Section(cut) => cut_lines(alloc, solid, cut, crease, spacing),
    }
}
