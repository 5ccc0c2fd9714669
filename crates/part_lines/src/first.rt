// How a text begins.
ghost use Rattle.std.specs.Prelude.{◌≡◌, ◌≤◌, length};
ghost use Rattle.part_lines.specs.Hints.{is_packed, first_word, is_off, begins_off};

use lex_lines::Tokens;
use off_reader::count_of;
use part_text::{bytes_of, is_word};

/// The text begins with `PK`, as packed files do.
pub(crate) fn is_packed(text: &[u8]) -> bool
    ensures { result ≡ is_packed text.now }
{
    matches!(text, [b'P', b'K', ..])
}

/// The first token as the reader of OFF sees tokens, or nothing.
pub(crate) fn first_word(text: &[u8]) -> &[u8]
    requires { length text.now ≤ 16777216 }
    ensures { result.now ≡ first_word text.now }
{
    match Tokens::new(text, true).next() {
        Some(token) => bytes_of(text, token),
        None => &[],
    }
}

/// The word is `OFF`.
pub(crate) fn is_off(word: &[u8]) -> bool
    ensures { result ≡ is_off word.now }
{
    is_word(word, b"OFF")
}

/// An OFF can begin with this word.
pub(crate) fn begins_off(word: &[u8]) -> bool
    ensures { result ≡ begins_off word.now }
{
    is_off(word) || count_of(word).is_some()
}
