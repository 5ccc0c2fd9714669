// The letters of marks, and how wide they are.
ghost use Rattle.std.specs.Prelude.{◌≡◌, ◌≤◌, IfOk, string_bytes};
ghost use Rattle.std.specs.Char.{encode_utf8};
ghost use Rattle.cut_marks.specs.MarkLetters.{width_of, half_of};

use std::alloc::{AllocError, Global};

/// The width of a letter, in thousandths of its size.
pub(crate) fn width_of(letter: u8) -> u32
    ensures value { result ≡ width_of letter }
    ensures size { result ≤ 1000 }
{
    match letter {
        b'C' => 722,
        b'D' => 722,
        b'F' => 611,
        b'G' => 778,
        b'H' => 722,
        b'J' => 500,
        b'L' => 556,
        b'M' => 833,
        _ => 667,
    }
}

/// Half of the length of a text that is so many thousandths of its size long.
pub(crate) fn half_of(thousandths: u32, size: u32) -> u32
    requires wide { thousandths ≤ 1000 }
    requires large { size ≤ 500 }
    ensures value { result ≡ half_of thousandths size }
    ensures size { result ≤ 250 }
{
    thousandths * size / 2000
}

/// The text of a letter.
pub(crate) fn letter_text(alloc: Global, letter: u8) -> Result<String, AllocError>
    ensures { IfOk result (λ text. string_bytes text ≡ encode_utf8 letter) }
{
    let mut text = String::new(alloc);
    text.push(letter as char)?;
    Ok(text)
}
