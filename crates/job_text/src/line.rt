// One line.
ghost use Rattle.std.specs.Prelude.{◌≡◌, ◌<◌, ◌≤◌, length, string_bytes, IfOk};
ghost use Rattle.job_text.specs.Lines.{bracket, header_line, list_header_line, entry_of, entry_line, meaning_of, is_unprintable, line_of};
ghost use Rattle.job_text.specs.Readings.{Reads, Shortens, SaysRead};
ghost use Rattle.job_text.specs.Seen.{meaning_seen};
ghost use Rattle.toml.specs.Parse.{ends_line};

use crate::fault::{Flaw, Stop, flawed};
use crate::item::Written;
use crate::key::one_key;
use crate::list::value;
use std::alloc::Global;
use toml_parser::text::{byte_at, first, skip, skip_ws};

/// What a line says.
#[derive(Debug, Drop)]
pub enum Meaning {
    /// `[key]`
    Header(String),
    /// `[[key]]`
    ListHeader(String),
    /// `key = value`, and how many bytes are before the value.
    Entry(String, Written, usize),
}

/// A line that isn't empty, and how many bytes are before its first byte that isn't white space.
#[derive(Debug, Drop)]
pub struct TextLine {
    pub at: usize,
    pub meaning: Meaning,
}

/// The text after the closing bracket at the front.
fn bracket(front: &str) -> Result<&str, Stop>
    ensures value { SaysRead (λ rest. rest.now) result (bracket front.now) }
    ensures within { IfOk result (λ rest. length rest.now ≤ length front.now) }
{
    if first(front) == b']' {
        Ok(skip(front, 1))
    } else {
        Err(flawed(Flaw::NoBracket, front))
    }
}

/// A header, after its opening bracket.
fn header_line(alloc: Global, front: &str) -> Result<(Meaning, &str), Stop>
    ensures value { Reads meaning_seen result (header_line front.now) }
    ensures shorter { Shortens front.now result }
{
    let (key, behind) = one_key(alloc, skip_ws(front))?;
    let rest = bracket(behind)?;
    Ok((Meaning::Header(key), rest))
}

/// A header of a table of a list, after its two opening brackets.
fn list_header_line(alloc: Global, front: &str) -> Result<(Meaning, &str), Stop>
    ensures value { Reads meaning_seen result (list_header_line front.now) }
    ensures shorter { Shortens front.now result }
{
    let (key, behind) = one_key(alloc, skip_ws(front))?;
    let inner = bracket(behind)?;
    let rest = bracket(inner)?;
    Ok((Meaning::ListHeader(key), rest))
}

/// The value after `=`, in a text of so many bytes.
fn entry_of(alloc: Global, size: usize, key: String, front: &str) -> Result<(Meaning, &str), Stop>
    requires { length front.now ≤ size }
    ensures value { Reads meaning_seen result (entry_of size (string_bytes key) front.now) }
    ensures shorter { Shortens front.now result }
{
    let (written, rest) = value(alloc, front)?;
    Ok((Meaning::Entry(key, written, size - front.len()), rest))
}

/// An entry, in a text of so many bytes.
fn entry_line(alloc: Global, size: usize, front: &str) -> Result<(Meaning, &str), Stop>
    requires { length front.now ≤ size }
    ensures value { Reads meaning_seen result (entry_line size front.now) }
    ensures shorter { Shortens front.now result }
{
    let (key, behind) = one_key(alloc, front)?;
    if first(behind) != b'=' {
        return Err(flawed(Flaw::NoEquals, behind));
    }
    entry_of(alloc, size, key, skip_ws(skip(behind, 1)))
}

/// The line at the front, in a text of so many bytes, up to the end of what it says.
fn meaning_of(alloc: Global, size: usize, front: &str) -> Result<(Meaning, &str), Stop>
    requires { length front.now ≤ size }
    ensures value { Reads meaning_seen result (meaning_of size front.now) }
    ensures shorter { Shortens front.now result }
{
    if first(front) != b'[' {
        return entry_line(alloc, size, front);
    }
    if byte_at(front, 1) == b'[' {
        list_header_line(alloc, skip(front, 2))
    } else {
        header_line(alloc, skip(front, 1))
    }
}

/// The text is over, or goes on with a comment or the next line.
fn ends_line(front: &str) -> bool
    ensures { result ≡ ends_line front.now }
{
    front.is_empty() || matches!(first(front), b'#' | b'\n' | b'\r')
}

/// A byte order mark or a control character, as a carriage return without a line feed, is there.
fn is_unprintable(front: &str) -> bool
    ensures { result ≡ is_unprintable front.now }
{
    first(front) < 32
        || first(front) == 127
        || (first(front) == 0xEF && byte_at(front, 1) == 0xBB && byte_at(front, 2) == 0xBF)
}

/// The line at the front, in a text of so many bytes: nothing else is on it but a comment.
pub(crate) fn read_text_line(
    alloc: Global,
    size: usize,
    front: &str,
) -> Result<(Meaning, &str), Stop>
    requires { length front.now ≤ size }
    ensures value { Reads meaning_seen result (line_of size front.now) }
    ensures shorter { Shortens front.now result }
{
    if is_unprintable(front) {
        return Err(flawed(Flaw::Unprintable, front));
    }
    let (meaning, rest) = meaning_of(alloc, size, front)?;
    if ends_line(skip_ws(rest)) {
        Ok((meaning, rest))
    } else {
        Err(flawed(Flaw::More, skip_ws(rest)))
    }
}
