// The texts of the title block's cells.
ghost use Rattle.std.specs.Prelude.{◌≡◌, IfOk, OnOk, string_bytes};
ghost use Rattle.sheet_page.specs.BlockNames.{shown_char, part_name, unit_name, scale_text};
ghost use Rattle.sheet_page.specs.inner.Reading.{with_char};

use dec_text::Length;
use job_file::Scale;
use std::alloc::{AllocError, Global};

/// The character, or a question mark for one that XML doesn't allow or doesn't show.
fn shown_char(c: char) -> char
    ensures { result ≡ shown_char c }
{
    if c >= ' ' && c != '\u{7f}' && c != '\u{fffe}' && c != '\u{ffff}' {
        c
    } else {
        '?'
    }
}

/// Reads one more character of a path.
fn add_char(text: &mut String, c: char) -> Result<(), AllocError>
    ensures { OnOk result (string_bytes text.new ≡ with_char (string_bytes text.old) c) }
{
    if c == '/' {
        text.clear();
        return Ok(());
    }
    text.push(shown_char(c))
}

/// The name of a part's file: what stands behind the last slash of its path.
pub fn part_name(alloc: Global, part: &str) -> Result<String, AllocError>
    ensures { IfOk result (λ text. string_bytes text ≡ part_name part.now) }
{
    let mut text = String::new(alloc);
    for c in part.chars() {
        add_char(&mut text, c)?;
    }
    Ok(text)
}

/// The name of the unit of the part's lengths.
pub(crate) fn unit_name(unit: Length) -> &'static str
    ensures { result.now ≡ unit_name unit }
{
    match unit {
        Length::Millimetre => "mm",
        Length::Inch => "inch",
    }
}

/// A scale, as it is written on a sheet: `1:2`.
pub(crate) fn scale_text(alloc: Global, scale: &Scale) -> Result<String, AllocError>
    ensures { IfOk result (λ text. string_bytes text ≡ scale_text scale.now) }
{
    let (num, den) = (scale.num, scale.den);
    format!(in alloc; "{num}:{den}")
}
