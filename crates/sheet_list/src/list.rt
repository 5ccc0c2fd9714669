// The text of the list of a sheet's strokes.
ghost use Rattle.std.specs.Prelude.{◌≡◌, ◌<◌, ◌≤◌, ◌++◌, [], Some, length, codes, string_bytes, IfOk, OnOk};
ghost use Rattle.std.specs.Fmt.{decimal, signed_decimal};
ghost use Rattle.std.specs.List.{flat_map};
ghost use Rattle.svg_page.specs.Texts.{◌⊕◌};
ghost use Rattle.plot_rack.specs.Lists.{list_of};
ghost use Rattle.plot_rack.specs.ListPlotter.{piece_list, plot_of};
ghost use Rattle.sheet_list.specs.LeftOut.{left_out};
ghost use Rattle.sheet_list.specs.Lists.{head_text, view_line, lines_behind, list_text, run_line};

use crate::left_out::{Run, left_out};
use crate::shown::add_shown;
use exact_frac::OutOfMemory;
use job_file::{Job, JobView, Scale};
use plot_rack::{ListPlotter, Plotter};
use sheet_plan::{Sheet, Spread, Stroke};
use std::alloc::{AllocError, Global};

/// The lines before those of the views.
fn head_text(alloc: Global, decimals: u8, scale: &Scale) -> Result<String, AllocError>
    ensures { IfOk result (λ text. string_bytes text ≡ head_text decimals scale.now) }
{
    let (num, den) = (scale.num, scale.den);
    format!(in alloc; "sheet list 2\ndecimals {decimals}\nscale {num}:{den}\n")
}

/// How the line of the view with this number begins.
fn number_text(alloc: Global, number: usize) -> Result<String, AllocError>
    ensures { IfOk result (λ text. string_bytes text ≡ codes "view " ⊕ decimal number ⊕ codes " ") }
{
    format!(in alloc; "view {number} ")
}

/// How the line of a view in this place ends.
fn place_text(alloc: Global, place: &Spread) -> Result<String, AllocError>
    ensures { IfOk result (λ text. string_bytes text ≡ codes " " ⊕ signed_decimal place.now.x0 ⊕ codes " " ⊕ signed_decimal place.now.y0 ⊕ codes "\n") }
{
    let (x, y) = (place.x0, place.y0);
    format!(in alloc; " {x} {y}\n")
}

/// Adds the line of the view with this number, in its place, behind views with so many cuts.
fn add_view(
    alloc: Global,
    text: &mut Vec<u8>,
    number: usize,
    cuts: usize,
    view: &JobView,
    place: &Spread,
) -> Result<(), OutOfMemory>
    requires { cuts < 12 }
    ensures { OnOk result (text.new.items ≡ text.old.items ++ view_line number cuts view.now place.now) }
{
    text.extend_from_slice(number_text(alloc, number)?.as_bytes())?;
    add_shown(alloc, text, cuts, view)?;
    text.extend_from_slice(place_text(alloc, place)?.as_bytes())?;
    Ok(())
}

/// Adds the lines of the views in their places.
fn add_views(
    alloc: Global,
    text: &mut Vec<u8>,
    views: &[JobView],
    places: &[Spread],
) -> Result<(), OutOfMemory>
    requires placed { length views.now ≤ length places.now }
    requires few { length views.now ≤ 12 }
    ensures { OnOk result (text.new.items ≡ text.old.items ++ lines_behind [] views.now places.now) }
{
    let mut cuts = 0;
    for i in 0..views.len() {
        let view = &views[i];
        add_view(alloc, text, i, cuts, view, &places[i])?;
        cuts += view.spec.cuts();
    }
    Ok(())
}

/// The line of strokes that aren't drawn.
fn run_line(alloc: Global, run: &Run) -> Result<String, AllocError>
    ensures { IfOk result (λ text. string_bytes text ≡ run_line run.now) }
{
    let (first, last) = (run.first, run.last);
    format!(in alloc; "left-out {first} {last}\n")
}

/// Adds the lines of the strokes that aren't drawn.
fn add_left_out(alloc: Global, text: &mut Vec<u8>, drawn: &[bool]) -> Result<(), OutOfMemory>
    ensures { OnOk result (text.new.items ≡ text.old.items ++ flat_map run_line (left_out 0 drawn.now)) }
{
    let runs = left_out(alloc, drawn)?;
    for run in &runs {
        text.extend_from_slice(run_line(alloc, run)?.as_bytes())?;
    }
    Ok(())
}

/// The piece list of a page of this width and height with these strokes.
fn pieces_of(
    alloc: Global,
    width: i64,
    height: i64,
    strokes: &[Stroke],
) -> Result<ListPlotter, OutOfMemory>
    ensures { IfOk result (λ list. plot_of list ≡ piece_list (Some (width, height)) strokes.now) }
{
    let mut list = ListPlotter::new(alloc);
    list.page(width, height)?;
    for stroke in strokes {
        list.stroke(*stroke)?;
    }
    Ok(list)
}

/// The list of a sheet's strokes: the lines `sheet list 2`, `decimals {decimals}` and `scale {num}:{den}`; for each view of the job,
/// in order and counted from 0, a line `view {number} {shown} {x} {y}` with its origin on the sheet, in hundredths of a millimetre;
/// for strokes one after the other that aren't drawn on the sheet a line `left-out {first} {last}` with their numbers, counted from 0; and
/// the piece list of the sheet's page with all strokes. Shown is a view's name, `toward {a} {b} {c}`, or
/// `cut {axis} {at} {side} {letter}`. `drawn` says of each stroke whether it is drawn. The time goes with the length of the text.
pub fn list_text(
    alloc: Global,
    job: &Job,
    sheet: &Sheet,
    drawn: &[bool],
    strokes: &[Stroke],
) -> Result<Vec<u8>, OutOfMemory>
    requires placed { length job.now.views.items ≤ length sheet.now.places.items }
    ensures { IfOk result (λ text. text.items ≡ list_text job.now sheet.now drawn.now strokes.now) }
{
    let mut text = Vec::new(alloc);
    text.extend_from_slice(head_text(alloc, job.decimals, &sheet.scale)?.as_bytes())?;
    add_views(alloc, &mut text, &job.views, &sheet.places)?;
    add_left_out(alloc, &mut text, drawn)?;
    let list = pieces_of(alloc, sheet.width, sheet.height, strokes)?;
    text.extend_from_slice(list.text())?;
    Ok(text)
}
