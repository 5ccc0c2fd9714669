// What the headings of cut views say.
ghost use Rattle.std.specs.Prelude.{◌≡◌, ◌≤◌, ◌^◌, unsigned_abs, IfOk, codes, string_bytes};
ghost use Rattle.std.specs.Str.{IsUtf8};
ghost use Rattle.svg_page.specs.Texts.{◌⊕◌};
ghost use Rattle.cut_marks.specs.HeadingTexts.{bare_text, fits_least, front_text, has_room, heading_text, missing_text, title_start, title_text};

use crate::axes::axis_name;
use crate::figures::Heading;
use length_text::{LengthForm, length_text};
use std::alloc::{AllocError, Global};
use text_fit::text_width;

/// The least size of a heading's letters.
pub(crate) const LEAST: u32 = 180;

/// That a view shows no section, if it shows none.
fn missing_text(has_section: bool) -> &'static str
    ensures { result.now ≡ missing_text has_section }
{
    if has_section { "" } else { ": no section" }
}

/// What stands before a title.
fn title_start(has_section: bool) -> &'static str
    ensures { result.now ≡ title_start has_section }
{
    if has_section { " " } else { "; " }
}

/// A text with a title behind it, if there is one.
fn with_title(
    alloc: Global,
    front: &str,
    has_section: bool,
    title: &str,
) -> Result<String, AllocError>
    ensures { IfOk result (λ text. string_bytes text ≡ front.now ⊕ title_text has_section title.now) }
{
    let mut text = String::from_str(alloc, front)?;
    if !title.is_empty() {
        text.push_str(title_start(has_section))?;
        text.push_str(title)?;
    }
    Ok(text)
}

/// The letters of a heading and the place of its cut.
pub(crate) fn front_text(
    alloc: Global,
    form: LengthForm,
    heading: &Heading,
) -> Result<String, AllocError>
    requires { unsigned_abs heading.now.at ≤ 2 ^ 20 }
    ensures { IfOk result (λ text. string_bytes text ≡ front_text form.decimals form.unit heading.now) }
{
    let letter = heading.letter as char;
    let axis = axis_name(heading.axis);
    let at = length_text(alloc, form, heading.at)?;
    let missing = missing_text(heading.has_section);
    format!(in alloc; "{letter}-{letter} ({axis} = {at}){missing}")
}

/// What it says without the place.
fn bare_text(alloc: Global, heading: &Heading, title: &str) -> Result<String, AllocError>
    ensures { IfOk result (λ text. string_bytes text ≡ bare_text heading.now title.now) }
{
    let letter = heading.letter as char;
    let missing = missing_text(heading.has_section);
    let front = format!(in alloc; "{letter}-{letter}{missing}")?;
    with_title(alloc, front.as_str(), heading.has_section, title)
}

/// The text fits the room of a heading in the least letters.
fn fits_least(heading: &Heading, text: &str) -> bool
    ensures { result ≡ fits_least heading.now text.now }
{
    1000 * u128::from(heading.room) / text_width(text).max(1) >= u128::from(LEAST)
}

/// The whole text has room there, or that before its title and three points.
fn has_room(alloc: Global, heading: &Heading, front: &str, whole: &str) -> Result<bool, AllocError>
    ensures { IfOk result (λ room. room ≡ has_room heading.now front.now whole.now) }
{
    if fits_least(heading, whole) {
        return Ok(true);
    }
    let cut = format!(in alloc; "{front}...")?;
    Ok(fits_least(heading, cut.as_str()))
}

/// What a heading says, with a title or without. The time goes with the title's length.
pub(crate) fn heading_text(
    alloc: Global,
    form: LengthForm,
    heading: &Heading,
    title: &str,
) -> Result<String, AllocError>
    requires { unsigned_abs heading.now.at ≤ 2 ^ 20 }
    ensures text { IfOk result (λ text. string_bytes text ≡ heading_text form.decimals form.unit heading.now title.now) }
    ensures front_is_text { IfOk result (λ text. IsUtf8 (front_text form.decimals form.unit heading.now)) }
{
    let front = front_text(alloc, form, heading)?;
    let whole = with_title(alloc, front.as_str(), heading.has_section, title)?;
    if has_room(alloc, heading, front.as_str(), whole.as_str())? {
        return Ok(whole);
    }
    if fits_least(heading, front.as_str()) {
        return Ok(front);
    }
    bare_text(alloc, heading, title)
}
