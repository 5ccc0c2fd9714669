// What a program has to say of the cuts that a drawing doesn't tell as usual.
ghost use Rattle.std.specs.Prelude.{◌≡◌, ◌++◌, string_bytes, IfOk, OnOk};
ghost use Rattle.std.specs.List.{flat_map};
ghost use Rattle.cut_marks.specs.Notes.{
  section_line,
  section_notes,
  left_out_line,
  notes_in,
  notes_from,
  is_letter_at,
  is_told_in,
  is_told,
  untold_line,
  untold_notes,
  untold_in,
  notes_of,
};

use crate::figures::{CutMark, Heading};
use crate::views::ViewMarks;
use exact_frac::OutOfMemory;
use std::alloc::{AllocError, Global};

/// The line of a cut whose plane crosses no triangle.
fn section_line(alloc: Global, letter: u8) -> Result<String, AllocError>
    ensures { IfOk result (λ text. string_bytes text ≡ section_line letter) }
{
    format!(in alloc; "cut {} shows no section\n", letter as char)
}

/// Adds that line, if a view's heading is that of such a cut.
fn add_section_notes(
    alloc: Global,
    text: &mut String,
    heading: &Option<Heading>,
) -> Result<(), OutOfMemory>
    ensures { OnOk result (string_bytes text.new ≡ string_bytes text.old ++ section_notes heading.now) }
{
    match heading {
        Some(h) => {
            if !h.has_section {
                text.push_str(&section_line(alloc, h.letter)?)?;
            }
        }
        None => {}
    }
    Ok(())
}

/// The line of a cut that has no mark in the view with this number.
fn left_out_line(alloc: Global, view: usize, letter: u8) -> Result<String, AllocError>
    ensures { IfOk result (λ text. string_bytes text ≡ left_out_line view letter) }
{
    format!(in alloc; "cut {} has no mark in view {view}\n", letter as char)
}

/// Adds the lines of the cuts that have no mark in the view with this number.
fn add_left_out(
    alloc: Global,
    text: &mut String,
    view: usize,
    letters: &[u8],
) -> Result<(), OutOfMemory>
    ensures { OnOk result (string_bytes text.new ≡ string_bytes text.old ++ flat_map (left_out_line view) letters.now) }
{
    for letter in letters {
        text.push_str(&left_out_line(alloc, view, *letter)?)?;
    }
    Ok(())
}

/// Adds the lines of the view with this number.
fn add_notes(
    alloc: Global,
    text: &mut String,
    view: usize,
    marks: &ViewMarks,
) -> Result<(), OutOfMemory>
    ensures { OnOk result (string_bytes text.new ≡ string_bytes text.old ++ notes_in view marks.now) }
{
    add_section_notes(alloc, text, &marks.heading)?;
    add_left_out(alloc, text, view, &marks.left_out)
}

/// The lines of each view, in the order of views.
fn lines_by_view(alloc: Global, views: &[ViewMarks]) -> Result<String, OutOfMemory>
    ensures { IfOk result (λ text. string_bytes text ≡ notes_from 0 views.now) }
{
    let mut text = String::new(alloc);
    for view in 0..views.len() {
        add_notes(alloc, &mut text, view, &views[view])?;
    }
    Ok(text)
}

/// The letter is that of the mark, or stands beside it.
fn is_letter_at(letter: u8, mark: &CutMark) -> bool
    ensures { result ≡ is_letter_at letter mark.now }
{
    match mark.beside {
        Some(other) => mark.letter == letter || other == letter,
        None => mark.letter == letter,
    }
}

/// A mark of the view has the letter.
fn is_told_in(letter: u8, view: &ViewMarks) -> bool
    ensures { result ≡ is_told_in letter view.now }
{
    view.marks.iter().any(|mark| is_letter_at(letter, mark))
}

/// A mark of some view has it.
fn is_told(letter: u8, views: &[ViewMarks]) -> bool
    ensures { result ≡ is_told letter views.now }
{
    views.iter().any(|view| is_told_in(letter, view))
}

/// The line of a cut that has a mark in no view.
fn untold_line(alloc: Global, letter: u8) -> Result<String, AllocError>
    ensures { IfOk result (λ text. string_bytes text ≡ untold_line letter) }
{
    format!(in alloc; "cut {} has no mark\n", letter as char)
}

/// Adds that line, if a view's heading is that of such a cut.
fn add_untold(
    alloc: Global,
    text: &mut String,
    views: &[ViewMarks],
    heading: &Option<Heading>,
) -> Result<(), OutOfMemory>
    ensures { OnOk result (string_bytes text.new ≡ string_bytes text.old ++ untold_notes views.now heading.now) }
{
    match heading {
        Some(h) => {
            if !is_told(h.letter, views) {
                text.push_str(&untold_line(alloc, h.letter)?)?;
            }
        }
        None => {}
    }
    Ok(())
}

/// Adds those lines, in the order of the cuts.
fn add_all_untold(alloc: Global, text: &mut String, views: &[ViewMarks]) -> Result<(), OutOfMemory>
    ensures { OnOk result (string_bytes text.new ≡ string_bytes text.old ++ flat_map (untold_in views.now) views.now) }
{
    for view in views {
        add_untold(alloc, text, views, &view.heading)?;
    }
    Ok(())
}

/// What a program has to say of the cuts that the drawing doesn't tell as usual, a line for each: first view by view, counted from 0,
/// `cut A shows no section` where the plane crosses no triangle, and `cut A has no mark in view 2` where a view sees the plane edge-on,
/// but its mark would touch others; then `cut A has no mark` for each cut that has one in no view.
pub fn notes(alloc: Global, views: &[ViewMarks]) -> Result<String, OutOfMemory>
    ensures { IfOk result (λ text. string_bytes text ≡ notes_of views.now) }
{
    let mut text = lines_by_view(alloc, views)?;
    add_all_untold(alloc, &mut text, views)?;
    Ok(text)
}
