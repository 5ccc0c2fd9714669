// The text of a sheet with its strokes.
ghost use Rattle.std.specs.Prelude.{◌≡◌, ◌<◌, ◌^◌, ◌++◌, pos, ◌≤ℤ◌, unsigned_abs, length, IfOk, OnOk, string_bytes};
ghost use Rattle.std.specs.List.{All, flat_map};
ghost use Rattle.svg_page.specs.Svg.{opening, frame, head, escaped, before_title, title_line, pen, stroke_line, group_begin, group_end, group, page_begin, page_end, svg_of};

use dec_text::Name;
use exact_frac::OutOfMemory;
use sheet_plan::{Mark, Sheet, Stroke};
use std::alloc::{AllocError, Global};

/// The text of a sheet with this title and these strokes: the frame, a line for the title if there is one, and for each view
/// a group with a line for each of its strokes, in their order. Each stroke is of a view that has a place on the sheet.
///
/// Goes over the strokes once for each view.
pub fn svg(
    alloc: Global,
    sheet: &Sheet,
    title: &Name,
    strokes: &[Stroke],
) -> Result<Vec<u8>, OutOfMemory>
    requires { All (λ s. s.view < length sheet.now.places.items) strokes.now }
    ensures { IfOk result (λ text. text.items ≡ svg_of sheet.now title.now strokes.now) }
{
    let mut text = begin_page(alloc, sheet, title)?;
    for view in 0..sheet.places.len() {
        add_group(alloc, &mut text, view, strokes)?;
    }
    end_page(&mut text)?;
    Ok(text)
}

/// The text of a sheet with this title before its groups: the frame, and a line for the title if there is one.
pub fn begin_page(alloc: Global, sheet: &Sheet, title: &Name) -> Result<Vec<u8>, OutOfMemory>
    ensures { IfOk result (λ text. text.items ≡ page_begin sheet.now title.now) }
{
    let mut text = Vec::new(alloc);
    text.extend_from_slice(head(alloc, sheet.width, sheet.height)?.as_bytes())?;
    add_title(alloc, &mut text, sheet.height, title.as_str())?;
    Ok(text)
}

/// Adds the end of the text of a sheet, which comes behind its groups.
pub fn end_page(text: &mut Vec<u8>) -> Result<(), OutOfMemory>
    ensures { OnOk result (text.new.items ≡ text.old.items ++ page_end) }
{
    text.extend_from_slice("</svg>\n".as_bytes())?;
    Ok(())
}

/// Adds the beginning of the group of a view.
pub fn begin_group(text: &mut Vec<u8>) -> Result<(), OutOfMemory>
    ensures { OnOk result (text.new.items ≡ text.old.items ++ group_begin) }
{
    text.extend_from_slice("<g stroke=\"black\" fill=\"none\">\n".as_bytes())?;
    Ok(())
}

/// Adds the end of the group of a view.
pub fn end_group(text: &mut Vec<u8>) -> Result<(), OutOfMemory>
    ensures { OnOk result (text.new.items ≡ text.old.items ++ group_end) }
{
    text.extend_from_slice("</g>\n".as_bytes())?;
    Ok(())
}

/// Adds the line of a stroke.
pub fn add_line(alloc: Global, text: &mut Vec<u8>, stroke: &Stroke) -> Result<(), OutOfMemory>
    ensures { OnOk result (text.new.items ≡ text.old.items ++ stroke_line stroke.now) }
{
    text.extend_from_slice(line(alloc, stroke)?.as_bytes())?;
    Ok(())
}

/// The beginning of the sheet and its frame.
fn head(alloc: Global, width: i64, height: i64) -> Result<String, AllocError>
    requires least_width { pos 4000 ≤ℤ width }
    requires least_height { pos 4000 ≤ℤ height }
    requires width_in_range { unsigned_abs width < 2 ^ 60 }
    requires height_in_range { unsigned_abs height < 2 ^ 60 }
    ensures { IfOk result (λ text. string_bytes text ≡ head width height) }
{
    let (w, h) = (width.div_euclid(100), height.div_euclid(100));
    let mut text = opening(alloc, w, h, width, height)?;
    text.push_str(frame(alloc, width, height)?.as_str())?;
    Ok(text)
}

/// The beginning of a sheet of `w` by `h` millimetres.
pub fn opening(alloc: Global, w: i64, h: i64, width: i64, height: i64) -> Result<String, AllocError>
    ensures { IfOk result (λ text. string_bytes text ≡ opening w h width height) }
{
    format!(in alloc;
        "<?xml version=\"1.0\" encoding=\"UTF-8\"?>\n\
         <svg xmlns=\"http://www.w3.org/2000/svg\" width=\"{w}mm\" height=\"{h}mm\" viewBox=\"0 0 {width} {height}\">\n"
    )
}

/// The frame of a sheet.
fn frame(alloc: Global, width: i64, height: i64) -> Result<String, AllocError>
    requires least_width { pos 4000 ≤ℤ width }
    requires least_height { pos 4000 ≤ℤ height }
    ensures { IfOk result (λ text. string_bytes text ≡ frame width height) }
{
    let (w, h) = (width - 2000, height - 2000);
    format!(in alloc;
        "<rect x=\"1000\" y=\"1000\" width=\"{w}\" height=\"{h}\" fill=\"none\" stroke=\"black\" stroke-width=\"70\"/>\n"
    )
}

/// Adds the line of the title, if it isn't empty.
fn add_title(alloc: Global, text: &mut Vec<u8>, height: i64, title: &str) -> Result<(), OutOfMemory>
    requires { unsigned_abs height < 2 ^ 60 }
    ensures { OnOk result (text.new.items ≡ text.old.items ++ title_line height title.now) }
{
    if title.is_empty() {
        return Ok(());
    }
    text.extend_from_slice(before_title(alloc, height)?.as_bytes())?;
    add_escaped(text, title)?;
    text.extend_from_slice("</text>\n".as_bytes())?;
    Ok(())
}

/// What stands before the title in its line.
fn before_title(alloc: Global, height: i64) -> Result<String, AllocError>
    requires { unsigned_abs height < 2 ^ 60 }
    ensures { IfOk result (λ text. string_bytes text ≡ before_title height) }
{
    let y = height - 1800;
    format!(in alloc; "<text x=\"2000\" y=\"{y}\" font-family=\"sans-serif\" font-size=\"700\">")
}

/// Adds a text, each byte by its name where it has one in XML.
pub fn add_escaped(text: &mut Vec<u8>, written: &str) -> Result<(), OutOfMemory>
    ensures { OnOk result (text.new.items ≡ text.old.items ++ flat_map escaped written.now) }
{
    for byte in written.as_bytes() {
        add_byte(text, *byte)?;
    }
    Ok(())
}

/// Adds a byte of a text.
fn add_byte(text: &mut Vec<u8>, byte: u8) -> Result<(), OutOfMemory>
    ensures { OnOk result (text.new.items ≡ text.old.items ++ escaped byte) }
{
    match byte {
        b'&' => text.extend_from_slice("&amp;".as_bytes())?,
        b'<' => text.extend_from_slice("&lt;".as_bytes())?,
        b'>' => text.extend_from_slice("&gt;".as_bytes())?,
        b'"' => text.extend_from_slice("&quot;".as_bytes())?,
        _ => text.push(byte)?,
    }
    Ok(())
}

/// Adds the group of a view.
fn add_group(
    alloc: Global,
    text: &mut Vec<u8>,
    view: usize,
    strokes: &[Stroke],
) -> Result<(), OutOfMemory>
    ensures { OnOk result (text.new.items ≡ text.old.items ++ group view strokes.now) }
{
    begin_group(text)?;
    for stroke in strokes {
        if stroke.view as usize == view {
            add_line(alloc, text, stroke)?;
        }
    }
    end_group(text)?;
    Ok(())
}

/// The line of a stroke.
fn line(alloc: Global, stroke: &Stroke) -> Result<String, AllocError>
    ensures { IfOk result (λ text. string_bytes text ≡ stroke_line stroke.now) }
{
    let (x1, y1) = (stroke.x1, stroke.y1);
    let (x2, y2) = (stroke.x2, stroke.y2);
    let pen = pen(stroke.mark);
    format!(in alloc; "<line x1=\"{x1}\" y1=\"{y1}\" x2=\"{x2}\" y2=\"{y2}\" {pen}/>\n")
}

/// How a line of this mark is drawn.
fn pen(mark: Mark) -> &'static str
    ensures { result.now ≡ pen mark }
{
    match mark {
        Mark::Solid => "stroke-width=\"50\"",
        Mark::Dashed => "stroke-width=\"35\" stroke-dasharray=\"300 150\"",
        Mark::Chain => "stroke-width=\"25\" stroke-dasharray=\"600 150 75 150\"",
        Mark::Hatch => "stroke-width=\"18\"",
    }
}
