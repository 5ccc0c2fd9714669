// The whole text.
ghost use Rattle.std.specs.Prelude.{◌≤◌, length};
ghost use Rattle.stl_reader.specs.Stl.{AnswersStl};

use crate::facets::read_facets;
use crate::keywords::read_word_line;
use crate::raw::raw_of;
use dec_text::Length;
use lex_lines::Tokens;
use part_text::{fault, zero_line};
use std::alloc::Global;
use weld::{PartError, PartKind, RawPart, Word};

/// The part that a text of ASCII STL describes, its lengths in `unit`, read in units of `10^-decimals` mm, or its one fault,
/// at the first token at which no reading goes on. Each facet gives three vertices of its own and a triangle; nothing is
/// welded. At most 16,777,216 bytes. Time and memory grow with the text.
pub fn read_stl(
    alloc: Global,
    bytes: &[u8],
    decimals: u8,
    unit: Length,
) -> Result<RawPart, PartError>
    requires few { decimals ≤ 6 }
    requires short { length bytes.now ≤ 16777216 }
    ensures { AnswersStl decimals unit bytes.now result }
{
    if let Some(line) = zero_line(bytes) {
        return Err(PartError::Part(fault(line, PartKind::Binary)));
    }
    let mut tokens = Tokens::new(bytes, false);
    if let Err(fault) = read_word_line(bytes, &mut tokens, Word::Solid) {
        return Err(PartError::Part(fault));
    }
    let facets = match read_facets(alloc, bytes, &mut tokens, decimals, unit) {
        Ok(facets) => facets,
        Err(error) => return Err(error),
    };
    match raw_of(alloc, &facets) {
        Ok(raw) => Ok(raw),
        Err(memory) => Err(PartError::Memory(memory)),
    }
}
