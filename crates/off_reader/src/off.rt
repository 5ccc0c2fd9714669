// The whole text.
ghost use Rattle.std.specs.Prelude.{◌≡◌, ◌≤◌, length};
ghost use Rattle.weld.specs.Raw.{Raw};
ghost use Rattle.off_reader.specs.Off.{at_end, AnswersOff};
ghost use Rattle.part_text.specs.Made.{made};

use crate::faces::read_faces;
use crate::header::read_header;
use crate::vertices::read_vertices;
use dec_text::Length;
use lex_lines::Tokens;
use part_text::{fault, zero_line};
use std::alloc::Global;
use weld::{PartError, PartFault, PartKind, RawPart};

/// The part that a text of OFF describes, its lengths in `unit`, read in units of `10^-decimals` mm, or its one fault, at the
/// first token at which no reading goes on. At most 16,777,216 bytes. The time grows with the text, and for each face of
/// more than three corners with the square of their number, at most 64.
pub fn read_off(
    alloc: Global,
    bytes: &[u8],
    decimals: u8,
    unit: Length,
) -> Result<RawPart, PartError>
    requires few { decimals ≤ 6 }
    requires short { length bytes.now ≤ 16777216 }
    ensures { AnswersOff decimals unit bytes.now result }
{
    if let Some(line) = zero_line(bytes) {
        return Err(PartError::Part(fault(line, PartKind::Binary)));
    }
    let mut tokens = Tokens::new(bytes, true);
    let header = match read_header(bytes, &mut tokens) {
        Ok(header) => header,
        Err(fault) => return Err(PartError::Part(fault)),
    };
    let corners = match read_vertices(alloc, bytes, &mut tokens, decimals, unit, header.vertices) {
        Ok(corners) => corners,
        Err(error) => return Err(error),
    };
    let triangles = match read_faces(alloc, bytes, &mut tokens, &corners, header.faces) {
        Ok(triangles) => triangles,
        Err(error) => return Err(error),
    };
    match at_end(&mut tokens) {
        Ok(()) => Ok(RawPart { corners, triangles }),
        Err(fault) => Err(PartError::Part(fault)),
    }
}

/// Nothing follows.
fn at_end(tokens: &mut Tokens<'_>) -> Result<(), PartFault>
    ensures { (raw : Raw) → made (λ _. raw) result tokens.new.left ≡ at_end raw tokens.old.left }
{
    match tokens.next() {
        Some(token) => Err(fault(token.line, PartKind::Trailing)),
        None => Ok(()),
    }
}
