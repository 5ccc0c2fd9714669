// How PDF writes a text: by one byte a character on the page, and by the units of UTF-16 in the title.
ghost use Rattle.std.specs.Prelude.{◌≡◌, ◌++◌, IfOk, OnOk, string_bytes};
ghost use Rattle.std.specs.Char.Escape.{encode_utf16};
ghost use Rattle.std.specs.List.{flat_map};
ghost use Rattle.sheet_page.specs.PdfWords.{moved, win_ansi, escaped, words_of, unit_digits, title_entry};

use exact_frac::OutOfMemory;
use std::alloc::{AllocError, Global};

/// Adds a text on the page: a byte for each character, and a question mark for one that WinAnsiEncoding doesn't have.
pub(crate) fn add_words(text: &mut Vec<u8>, words: &str) -> Result<(), OutOfMemory>
    ensures { OnOk result (text.new.items ≡ text.old.items ++ words_of words.now) }
{
    for c in words.chars() {
        add_byte(text, win_ansi(c))?;
    }
    Ok(())
}

/// Adds a byte of a text, with a backslash before it where PDF would take it for a sign of its own.
fn add_byte(text: &mut Vec<u8>, byte: u8) -> Result<(), OutOfMemory>
    ensures { OnOk result (text.new.items ≡ text.old.items ++ escaped byte) }
{
    if byte == b'(' || byte == b')' || byte == b'\\' {
        text.push(b'\\')?;
    }
    text.push(byte)?;
    Ok(())
}

/// The byte of a character in WinAnsiEncoding, or a question mark.
fn win_ansi(c: char) -> u8
    ensures { result ≡ win_ansi c }
{
    match c {
        ' '..='~' | '\u{a0}'..='\u{ff}' => c as u8,
        _ => moved(c),
    }
}

/// The byte of a character that WinAnsiEncoding has at another place than Unicode, or a question mark.
fn moved(c: char) -> u8
    ensures { result ≡ moved c }
{
    match c {
        '€' => 128,
        '‚' => 130,
        'ƒ' => 131,
        '„' => 132,
        '…' => 133,
        '†' => 134,
        '‡' => 135,
        'ˆ' => 136,
        '‰' => 137,
        'Š' => 138,
        '‹' => 139,
        'Œ' => 140,
        'Ž' => 142,
        '‘' => 145,
        '’' => 146,
        '“' => 147,
        '”' => 148,
        '•' => 149,
        '–' => 150,
        '—' => 151,
        '˜' => 152,
        '™' => 153,
        'š' => 154,
        '›' => 155,
        'œ' => 156,
        'ž' => 158,
        'Ÿ' => 159,
        _ => b'?',
    }
}

/// The entry of the title.
pub(crate) fn title_entry(alloc: Global, title: &str) -> Result<Vec<u8>, OutOfMemory>
    ensures { IfOk result (λ text. text.items ≡ title_entry title.now) }
{
    let mut text = Vec::new(alloc);
    text.extend_from_slice("<< /Title <FEFF".as_bytes())?;
    for c in title.chars() {
        add_units(alloc, &mut text, c)?;
    }
    text.extend_from_slice("> >>".as_bytes())?;
    Ok(text)
}

/// Adds the one or two units of a character.
fn add_units(alloc: Global, text: &mut Vec<u8>, c: char) -> Result<(), OutOfMemory>
    ensures { OnOk result (text.new.items ≡ text.old.items ++ flat_map unit_digits (encode_utf16 c)) }
{
    let mut units = [0; 2];
    for unit in c.encode_utf16(&mut units).iter() {
        text.extend_from_slice(unit_digits(alloc, *unit)?.as_bytes())?;
    }
    Ok(())
}

/// The digits of a unit.
fn unit_digits(alloc: Global, unit: u16) -> Result<String, AllocError>
    ensures { IfOk result (λ text. string_bytes text ≡ unit_digits unit) }
{
    format!(in alloc; "{unit:04x}")
}
