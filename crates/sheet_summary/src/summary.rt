// What a run says of a sheet that it has drawn.
ghost use Rattle.std.specs.Prelude.{◌≡◌, ◌≤◌, ◌-ℤ◌, IfOk, string_bytes};
ghost use Rattle.solid_mesh.specs.Solids.{solid_part};
ghost use Rattle.sheet_summary.specs.Summary.{covered_text, first_line, fitted_text, is_path_of, length_along, paths_of, paths_text, sheet_text, size_text, summary_of};

use crate::cuts::cut_lines;
use crate::ends::ends_along;
use crate::near::near_lines;
use cut_marks::{ViewMarks, notes};
use drawing::Drawing;
use exact_frac::OutOfMemory;
use job_file::{Paper, Scale};
use lattice::Axis;
use length_text::mm_text;
use sheet_page::{Item, Page};
use sheet_plan::Mark;
use solid_mesh::Solid;
use std::alloc::{AllocError, Global};

/// It is a path of this mark.
fn is_path_of(mark: Mark, item: &Item) -> bool
    ensures { result ≡ is_path_of mark item.now }
{
    match item {
        Item::Path(path) => path.mark == mark,
        _ => false,
    }
}

/// How many paths of a mark there are.
fn paths_of(mark: Mark, items: &[Item]) -> u64
    ensures { result ≡ paths_of mark items.now }
{
    let mut count = 0;
    for item in items {
        if is_path_of(mark, item) {
            count += 1;
        }
    }
    count
}

/// The paper, the scale and the number of views of a sheet.
fn sheet_text(
    alloc: Global,
    paper: Paper,
    scale: &Scale,
    views: usize,
) -> Result<String, AllocError>
    ensures { IfOk result (λ text. string_bytes text ≡ sheet_text paper scale.now views) }
{
    let (paper, num, den) = (paper.name(), scale.num, scale.den);
    format!(in alloc; "sheet {paper} scale {num}:{den} views {views}")
}

/// How many hidden paths are left out since others cover them, if any are.
fn covered_text(alloc: Global, covered: u64) -> Result<String, AllocError>
    ensures { IfOk result (λ text. string_bytes text ≡ covered_text covered) }
{
    if covered == 0 {
        return Ok(String::new(alloc));
    }
    format!(in alloc; " covered {covered}")
}

/// How many visible and hidden paths and hatch lines stand on a page, and how many are covered.
fn paths_text(alloc: Global, items: &[Item], covered: u64) -> Result<String, AllocError>
    ensures { IfOk result (λ text. string_bytes text ≡ paths_text items.now covered) }
{
    let visible = paths_of(Mark::Solid, items);
    let hidden = paths_of(Mark::Dashed, items);
    let hatch = paths_of(Mark::Hatch, items);
    let left_out = covered_text(alloc, covered)?;
    format!(in alloc; " visible {visible} hidden {hidden}{left_out} hatch {hatch}")
}

/// The number of decimals, if it was left to the program.
fn fitted_text(alloc: Global, fitted: bool, decimals: u8) -> Result<String, AllocError>
    ensures { IfOk result (λ text. string_bytes text ≡ fitted_text fitted decimals) }
{
    if fitted {
        format!(in alloc; " decimals {decimals}")
    } else {
        Ok(String::new(alloc))
    }
}

/// How long the part is along an axis, in mm.
fn length_along(
    alloc: Global,
    solid: &Solid,
    decimals: u8,
    axis: Axis,
) -> Result<String, AllocError>
    requires { decimals ≤ 6 }
    ensures { IfOk result (λ text. string_bytes text ≡ length_along (solid_part solid.now) decimals axis) }
{
    let ends = ends_along(solid, axis);
    mm_text(alloc, decimals, ends.greatest - ends.least)
}

/// How long the part is along x, y and z.
fn size_text(alloc: Global, solid: &Solid, decimals: u8) -> Result<String, AllocError>
    requires { decimals ≤ 6 }
    ensures { IfOk result (λ text. string_bytes text ≡ size_text (solid_part solid.now) decimals) }
{
    let x = length_along(alloc, solid, decimals, Axis::X)?;
    let y = length_along(alloc, solid, decimals, Axis::Y)?;
    let z = length_along(alloc, solid, decimals, Axis::Z)?;
    format!(in alloc; " part {x} by {y} by {z} mm")
}

/// The first line, of a drawing and its page.
fn first_line(
    alloc: Global,
    drawing: &Drawing,
    fitted: bool,
    page: &Page,
    covered: u64,
) -> Result<String, OutOfMemory>
    ensures { IfOk result (λ text. string_bytes text ≡ first_line drawing.now fitted page.now covered) }
{
    let (solid, job, sheet) = (&drawing.solid, &drawing.job, &drawing.sheet);
    let mut text = sheet_text(alloc, job.paper, &sheet.scale, sheet.places.len())?;
    text.push_str(&paths_text(alloc, &page.items, covered)?)?;
    text.push_str(&fitted_text(alloc, fitted, job.decimals)?)?;
    text.push_str(&size_text(alloc, solid, job.decimals)?)?;
    text.push_str("\n")?;
    Ok(text)
}

/// What is said of a drawing, its page, and what tells its cuts. `covered` is the number of hidden paths that are left out since others
/// cover them. `fitted` says that the number of decimals was left to the program, and `in_units` that the job says the places of its cuts
/// in units. It goes over the corners three times, and once for each cut, and over what stands on the page for each view. What the lines of
/// near views take is told at `near_lines::nearness_of`.
pub fn summary_of(
    alloc: Global,
    drawing: &Drawing,
    fitted: bool,
    in_units: bool,
    page: &Page,
    covered: u64,
    marks: &[ViewMarks],
) -> Result<String, OutOfMemory>
    ensures { IfOk result (λ text. string_bytes text ≡ summary_of drawing.now fitted in_units page.now covered marks.now) }
{
    let mut text = first_line(alloc, drawing, fitted, page, covered)?;
    text.push_str(&cut_lines(alloc, drawing, in_units, marks)?)?;
    text.push_str(&notes(alloc, marks)?)?;
    let views = drawing.job.views.len() as u32;
    text.push_str(&near_lines(alloc, &drawing.sheet.scale, &page.items, views)?)?;
    Ok(text)
}
