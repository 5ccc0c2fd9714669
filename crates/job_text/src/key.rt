// A key of a line.
ghost use Rattle.std.specs.Prelude.{◌≡◌, if◌then◌else◌, string_bytes};
ghost use Rattle.toml_parser.specs.Lexical.{first, is_bare};
ghost use Rattle.job_text.specs.Readings.{Reads, Shortens};
ghost use Rattle.job_text.specs.Values.{one_key};

use crate::fault::{Flaw, Stop, flawed, refused};
use std::alloc::Global;
use toml_parser::bytes::is_bare;
use toml_parser::text::first;
use toml_parser::{Key, dotted_key, starts_string};

/// Why no key is read at the front: one is there, but more belongs to it, or none is there.
fn no_key(front: &str) -> Flaw
    ensures { result ≡ if is_bare (first front.now) then Flaw.DottedKey else Flaw.NoKey }
{
    if is_bare(first(front)) {
        Flaw::DottedKey
    } else {
        Flaw::NoKey
    }
}

/// A key of one part, which isn't quoted, and the text after it and after white space.
pub(crate) fn one_key(alloc: Global, front: &str) -> Result<(String, &str), Stop>
    ensures value { Reads string_bytes result (one_key front.now) }
    ensures shorter { Shortens front.now result }
{
    if starts_string(front) {
        return Err(flawed(Flaw::QuotedKey, front));
    }
    match dotted_key(alloc, front) {
        Ok((Key { path, last }, rest)) => {
            if path.is_empty() {
                Ok((last, rest))
            } else {
                Err(flawed(Flaw::DottedKey, front))
            }
        }
        Err(error) => Err(refused(error, no_key(front), front)),
    }
}
