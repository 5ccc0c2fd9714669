// A value that isn't a list.
ghost use Rattle.std.specs.Prelude.{◌≡◌, ◌≤◌, true, if◌then◌else◌, length, IfOk};
ghost use Rattle.std.specs.List.{list_all};
ghost use Rattle.toml_parser.specs.Lexical.{first, is_word};
ghost use Rattle.toml_parser.specs.Strings.{starts_string};
ghost use Rattle.job_text.specs.Readings.{Reads, Shortens};
ghost use Rattle.job_text.specs.Seen.{item_seen};
ghost use Rattle.job_text.specs.Values.{is_number_byte, number_item, item_of_scalar, quoted_item, bare_item, item};

use crate::fault::{Flaw, Stop, flawed, refused};
use exact_frac::OutOfMemory;
use std::alloc::Global;
use toml_parser::bytes::is_word;
use toml_parser::text::{byte_at, first};
use toml_parser::{Scalar, quoted, starts_string, unquoted};

/// A text, true or false, or a number as it is written.
#[derive(Debug, Drop)]
pub enum TextItem {
    Text(String),
    Flag(bool),
    /// Its bytes: digits, and maybe a sign and a point.
    Number(Vec<u8>),
}

/// One item, or a list of them.
#[derive(Debug, Drop)]
pub enum Written {
    One(TextItem),
    Several(Vec<TextItem>),
}

/// A digit, a point or a sign.
fn is_number_byte(byte: u8) -> bool
    ensures { result ≡ is_number_byte byte }
{
    byte.is_ascii_digit() || byte == b'.' || byte == b'+' || byte == b'-'
}

/// Each byte is a digit, a point or a sign.
fn are_number_bytes(word: &[u8]) -> bool
    ensures { result ≡ list_all is_number_byte word.now }
{
    word.iter().all(|byte| is_number_byte(*byte))
}

/// The number that these bytes are, at the front of a text.
fn number_item<'a>(
    alloc: Global,
    front: &str,
    word: &[u8],
    rest: &'a str,
) -> Result<(TextItem, &'a str), Stop>
    ensures value { Reads item_seen result (number_item front.now word.now rest.now) }
    ensures rest { IfOk result (λ p. p.1.now ≡ rest.now) }
{
    if !are_number_bytes(word) {
        return Err(flawed(Flaw::NoNumber, front));
    }
    match Vec::from_slice(alloc, word) {
        Ok(bytes) => Ok((TextItem::Number(bytes), rest)),
        Err(_) => Err(Stop::Memory(OutOfMemory)),
    }
}

/// What a word without quotes is.
fn item_of_scalar<'a>(
    alloc: Global,
    front: &str,
    scalar: Scalar,
    rest: &'a str,
) -> Result<(TextItem, &'a str), Stop>
    requires { length rest.now ≤ length front.now }
    ensures value { Reads item_seen result (item_of_scalar front.now scalar rest.now) }
    ensures rest { IfOk result (λ p. p.1.now ≡ rest.now) }
{
    let word = &front.as_bytes()[..front.len() - rest.len()];
    match scalar {
        Scalar::Boolean(b) => Ok((TextItem::Flag(b), rest)),
        Scalar::Integer(_) | Scalar::Float(_) => number_item(alloc, front, word, rest),
        Scalar::Datetime(_) => Err(flawed(Flaw::BareDate, front)),
    }
}

/// A text that begins with a quote, on its line.
fn quoted_item(alloc: Global, front: &str) -> Result<(TextItem, &str), Stop>
    requires { starts_string front.now ≡ true }
    ensures value { Reads item_seen result (quoted_item front.now) }
    ensures shorter { Shortens front.now result }
{
    if byte_at(front, 1) == first(front) && byte_at(front, 2) == first(front) {
        return Err(flawed(Flaw::LongText, front));
    }
    match quoted(alloc, front) {
        Ok((content, rest)) => Ok((TextItem::Text(content), rest)),
        Err(error) => Err(refused(error, Flaw::BrokenText, front)),
    }
}

/// Why no value is read at the front: a word is there that is none, or nothing is there.
fn no_value(front: &str) -> Flaw
    ensures { result ≡ if is_word (first front.now) then Flaw.BadWord else Flaw.NoValue }
{
    if is_word(first(front)) {
        Flaw::BadWord
    } else {
        Flaw::NoValue
    }
}

/// True or false, or a number.
fn bare_item(alloc: Global, front: &str) -> Result<(TextItem, &str), Stop>
    ensures value { Reads item_seen result (bare_item front.now) }
    ensures shorter { Shortens front.now result }
{
    match unquoted(alloc, front) {
        Ok((scalar, rest)) => item_of_scalar(alloc, front, scalar, rest),
        Err(error) => Err(refused(error, no_value(front), front)),
    }
}

/// A text in quotes, on its line; true or false; or a number.
pub(crate) fn read_item(alloc: Global, front: &str) -> Result<(TextItem, &str), Stop>
    ensures value { Reads item_seen result (item front.now) }
    ensures shorter { Shortens front.now result }
{
    if starts_string(front) {
        quoted_item(alloc, front)
    } else if first(front) == b'{' {
        Err(flawed(Flaw::InlineTable, front))
    } else if first(front) == b'[' {
        Err(flawed(Flaw::InnerList, front))
    } else {
        bare_item(alloc, front)
    }
}
