// The lines that say where each cut is.
ghost use Rattle.std.specs.Prelude.{◌≡◌, ◌≤◌, ◌^◌, ◌||◌, pos, ◌-ℤ◌, ◌*ℤ◌, IfOk, string_bytes, unsigned_abs};
ghost use Rattle.lattice.specs.Cuts.{plane_of};
ghost use Rattle.solid_mesh.specs.Solids.{solid_part};
ghost use Rattle.sheet_summary.specs.CutLines.{cut_line, cut_lines, is_between, is_close, is_near, is_near_end, near_text, side_of, twice_at, view_line};

use crate::ends::ends_along;
use cut_marks::{Heading, ViewMarks};
use drawing::Drawing;
use exact_frac::OutOfMemory;
use fault_lines::axis_text;
use job_file::JobView;
use lattice::{Cut, ViewSpec};
use length_text::mm_text;
use solid_mesh::Solid;
use std::alloc::{AllocError, Global};

/// On which side of the cut's place the plane stands, in halves of a unit.
fn side_of(from_high: bool) -> i64
    ensures value { result ≡ side_of from_high }
    ensures size { unsigned_abs result ≤ 1 }
{
    if from_high { -1 } else { 1 }
}

/// Twice the place of a cut's plane.
fn twice_at(cut: &Cut) -> i64
    ensures value { result ≡ twice_at (plane_of cut.now) }
    ensures size { unsigned_abs result ≤ 2 ^ 22 }
{
    2 * cut.at() + side_of(cut.from_high())
}

/// How far a plane at half of this place is behind the part's lower end, in halves of a unit.
fn before(twice: i64, least: i64) -> i64
    requires twice { unsigned_abs twice ≤ 2 ^ 22 }
    requires least { unsigned_abs least ≤ 2 ^ 20 }
    ensures value { result ≡ twice -ℤ (pos 2 *ℤ least) }
    ensures size { unsigned_abs result ≤ 2 ^ 24 }
{
    twice - 2 * least
}

/// And how far it is before the upper end.
fn behind(twice: i64, greatest: i64) -> i64
    requires twice { unsigned_abs twice ≤ 2 ^ 22 }
    requires greatest { unsigned_abs greatest ≤ 2 ^ 20 }
    ensures value { result ≡ (pos 2 *ℤ greatest) -ℤ twice }
    ensures size { unsigned_abs result ≤ 2 ^ 24 }
{
    2 * greatest - twice
}

/// How far the part reaches, in halves of a unit.
fn twice_extent(least: i64, greatest: i64) -> i64
    requires least { unsigned_abs least ≤ 2 ^ 20 }
    requires greatest { unsigned_abs greatest ≤ 2 ^ 20 }
    ensures { result ≡ pos 2 *ℤ (greatest -ℤ least) }
{
    2 * (greatest - least)
}

/// What is so far from both ends of a part is between them.
fn is_between(before: i64, behind: i64) -> bool
    ensures { result ≡ is_between before behind }
{
    0 < before && 0 < behind
}

/// So far is less than 1 % of this extent.
fn is_close(away: i64, extent: i64) -> bool
    requires { unsigned_abs away ≤ 2 ^ 24 }
    ensures { result ≡ is_close away extent }
{
    100 * away < extent
}

/// What is so far from both ends is near one of them.
fn is_close_to_one(before: i64, behind: i64, extent: i64) -> bool
    requires before { unsigned_abs before ≤ 2 ^ 24 }
    requires behind { unsigned_abs behind ≤ 2 ^ 24 }
    ensures { result ≡ is_close before extent || is_close behind extent }
{
    is_close(before, extent) || is_close(behind, extent)
}

/// A plane at half of this place goes through a part with these ends, near one of them.
fn is_near_end(twice: i64, least: i64, greatest: i64) -> bool
    requires twice { unsigned_abs twice ≤ 2 ^ 22 }
    requires least { unsigned_abs least ≤ 2 ^ 20 }
    requires greatest { unsigned_abs greatest ≤ 2 ^ 20 }
    ensures { result ≡ is_near_end twice least greatest }
{
    let before = before(twice, least);
    let behind = behind(twice, greatest);
    let extent = twice_extent(least, greatest);
    is_between(before, behind) && is_close_to_one(before, behind, extent)
}

/// A cut's plane goes through the part nearer to one of its ends than 1 % of its extent. It goes once over the corners.
fn is_near(solid: &Solid, cut: &Cut) -> bool
    ensures { result ≡ is_near (solid_part solid.now) (plane_of cut.now) }
{
    let ends = ends_along(solid, cut.axis());
    is_near_end(twice_at(cut), ends.least, ends.greatest)
}

/// What is said of a place that is near an end.
fn near_text(
    alloc: Global,
    is_near: bool,
    in_units: bool,
    decimals: u8,
) -> Result<String, AllocError>
    requires { decimals ≤ 6 }
    ensures { IfOk result (λ text. string_bytes text ≡ near_text is_near in_units decimals) }
{
    if !is_near {
        return Ok(String::new(alloc));
    }
    if !in_units {
        return String::from_str(alloc, ", near the part's end");
    }
    let unit = mm_text(alloc, decimals, 1)?;
    format!(in alloc; ", near the part's end: at is in units of {unit} mm")
}

/// The line of a cut with this letter.
fn cut_line(
    alloc: Global,
    solid: &Solid,
    decimals: u8,
    in_units: bool,
    letter: u8,
    cut: &Cut,
) -> Result<String, AllocError>
    requires { decimals ≤ 6 }
    ensures { IfOk result (λ text. string_bytes text ≡ cut_line (solid_part solid.now) decimals in_units letter (plane_of cut.now)) }
{
    let axis = axis_text(&cut.axis());
    let place = mm_text(alloc, decimals, cut.at())?;
    let near = near_text(alloc, is_near(solid, cut), in_units, decimals)?;
    format!(in alloc; "cut {} at {axis} = {place} mm{near}\n", letter as char)
}

/// The line of a view with this heading, if it shows a cut.
fn view_line(
    alloc: Global,
    solid: &Solid,
    decimals: u8,
    in_units: bool,
    heading: &Option<Heading>,
    spec: &ViewSpec,
) -> Result<String, AllocError>
    requires { decimals ≤ 6 }
    ensures { IfOk result (λ text. string_bytes text ≡ view_line (solid_part solid.now) decimals in_units heading.now spec.now) }
{
    match (heading, spec) {
        (Some(heading), ViewSpec::Section(cut)) => {
            cut_line(alloc, solid, decimals, in_units, heading.letter, cut)
        }
        _ => Ok(String::new(alloc)),
    }
}

/// The lines of the cuts that a drawing shows, in the order of its views. It goes once over the corners for each cut.
pub(crate) fn cut_lines(
    alloc: Global,
    drawing: &Drawing,
    in_units: bool,
    marks: &[ViewMarks],
) -> Result<String, OutOfMemory>
    ensures { IfOk result (λ text. string_bytes text ≡ cut_lines (solid_part drawing.now.solid) drawing.now.job.decimals in_units drawing.now.job.views.items marks.now) }
{
    let (solid, job) = (&drawing.solid, &drawing.job);
    let mut text = String::new(alloc);
    for view in 0..job.views.len().min(marks.len()) {
        let (spec, heading) = (&job.views[view].spec, &marks[view].heading);
        text.push_str(&view_line(alloc, solid, job.decimals, in_units, heading, spec)?)?;
    }
    Ok(text)
}
