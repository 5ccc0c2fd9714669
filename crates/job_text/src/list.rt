// A list on its line, and a value.
ghost use Rattle.std.specs.Prelude.{◌≡◌, ◌<◌, ◌≤◌, length, map, IfOk};
ghost use Rattle.job_text.specs.Readings.{Reads, Shortens, SaysRead};
ghost use Rattle.job_text.specs.Seen.{item_seen, written_seen};
ghost use Rattle.job_text.specs.Values.{after_item, items, list, value};
ghost use Rattle.toml_parser.specs.Lexical.{first, left_bracket};

use crate::fault::{Flaw, Stop, flawed};
use crate::item::{TextItem, Written, read_item};
use exact_frac::OutOfMemory;
use std::alloc::Global;
use toml_parser::text::{first, skip, skip_ws};

/// After an item: a comma, or the closing bracket, which stays.
fn after_item(front: &str) -> Result<&str, Stop>
    ensures value { SaysRead (λ rest. rest.now) result (after_item front.now) }
    ensures within { IfOk result (λ rest. length rest.now ≤ length front.now) }
{
    if first(front) == b',' {
        Ok(skip(front, 1))
    } else if first(front) == b']' {
        Ok(front)
    } else {
        Err(flawed(Flaw::BrokenList, front))
    }
}

/// A list, at its opening bracket.
fn list(alloc: Global, front: &str) -> Result<(Vec<TextItem>, &str), Stop>
    requires { first front.now ≡ left_bracket }
    ensures value { Reads (λ found. map item_seen found.items) result (list front.now) }
    ensures shorter { Shortens front.now result }
{
    let mut found = Vec::new(alloc);
    let mut rest = skip(front, 1);
    'items: loop {
        let start = skip_ws(rest);
        if first(start) == b']' {
            return Ok((found, skip(start, 1)));
        }
        let (next, behind) = match read_item(alloc, start) {
            Ok(read) => read,
            Err(stop) => return Err(stop),
        };
        match found.push(next) {
            Ok(()) => {}
            Err(_) => return Err(Stop::Memory(OutOfMemory)),
        }
        rest = match after_item(skip_ws(behind)) {
            Ok(after) => after,
            Err(stop) => return Err(stop),
        };
    }
}

/// A list on its line, or an item.
pub(crate) fn value(alloc: Global, front: &str) -> Result<(Written, &str), Stop>
    ensures value { Reads written_seen result (value front.now) }
    ensures shorter { Shortens front.now result }
{
    if first(front) == b'[' {
        let (items, rest) = list(alloc, front)?;
        return Ok((Written::Several(items), rest));
    }
    let (one, rest) = read_item(alloc, front)?;
    Ok((Written::One(one), rest))
}
