// All lines of a text.
ghost use Rattle.std.specs.Prelude.{◌≡◌, length, map};
ghost use Rattle.job_text.specs.Lines.{text_lines};
ghost use Rattle.job_text.specs.Readings.{SaysRead};
ghost use Rattle.job_text.specs.Seen.{line_seen};

use crate::fault::Stop;
use crate::line::{TextLine, read_text_line};
use exact_frac::OutOfMemory;
use std::alloc::Global;
use toml_parser::text::skip_blank;

/// The lines of a text that aren't empty, in order; or its first flaw.
///
/// A key that is there twice is no flaw here: see `lines_are_toml`. Time grows with the text.
pub fn text_lines(alloc: Global, text: &str) -> Result<Vec<TextLine>, Stop>
    ensures { SaysRead (λ lines. map line_seen lines.items) result (text_lines text.now) }
{
    let mut found = Vec::new(alloc);
    let mut rest = text;
    'lines: loop {
        let start = skip_blank(rest, true);
        if start.is_empty() {
            return Ok(found);
        }
        let at = text.len() - start.len();
        let (meaning, behind) = match read_text_line(alloc, text.len(), start) {
            Ok(read) => read,
            Err(stop) => return Err(stop),
        };
        match found.push(TextLine { at, meaning }) {
            Ok(()) => rest = behind,
            Err(_) => return Err(Stop::Memory(OutOfMemory)),
        }
    }
}
