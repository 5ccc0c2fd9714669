// From the text of a part to its soup.
ghost use Rattle.std.specs.Prelude.{◌≡◌, ◌<◌, ◌≤◌, false, List, length, IfOk, IfErr, IsErrOf};
ghost use Rattle.geometry.specs.Parts.{part_of};
ghost use Rattle.lex_lines.specs.declared.token.Token.{Token};
ghost use Rattle.lex_lines.specs.Places.{AreTokens};
ghost use Rattle.lex_lines.specs.Scan.{tokens_of};
ghost use Rattle.part_input.specs.Parts.{ReadsPart, IsOfPartText};
ghost use Rattle.part_input.specs.Reading.{begins_solid};
ghost use Rattle.part_input.specs.Steps.{GivesInput};
ghost use Rattle.part_input.specs.inner.Texts.{AnswersPart};

use crate::fault::{Fault, Input};
use dec_text::Length;
use lattice::Soup;
use lex_lines::Tokens;
use off_reader::read_off;
use part_text::{bytes_of, is_word};
use std::alloc::Global;
use stl_reader::read_stl;
use weld::{PartError, RawPart, WeldError};

/// The text's first token is the word `solid`, in any case of its letters.
pub fn is_stl(bytes: &[u8]) -> bool
    requires { length bytes.now ≤ 16777216 }
    ensures tokens { (tokens : List Token) × AreTokens false bytes.now tokens × (result ≡ begins_solid bytes.now tokens) }
    ensures pass { result ≡ begins_solid bytes.now (tokens_of false bytes.now) }
{
    match Tokens::new(bytes, false).next() {
        Some(token) => is_word(bytes_of(bytes, token), b"solid"),
        None => false,
    }
}

/// What the text of a part says in lengths of `unit`, in units of 10^-`decimals` mm.
fn read_part(alloc: Global, bytes: &[u8], decimals: u8, unit: Length) -> Result<RawPart, PartError>
    requires short { length bytes.now ≤ 16777216 }
    requires few { decimals ≤ 6 }
    ensures { AnswersPart decimals unit bytes.now result }
{
    if is_stl(bytes) {
        read_stl(alloc, bytes, decimals, unit)
    } else {
        read_off(alloc, bytes, decimals, unit)
    }
}

/// The soup of a part's text in lengths of `unit`, in units of 10^-`decimals` mm.
pub fn soup_of(alloc: Global, bytes: &[u8], decimals: u8, unit: Length) -> Result<Soup, Fault>
    requires short { length bytes.now ≤ 16777216 }
    requires few { decimals ≤ 6 }
    ensures answer { GivesInput part_of (ReadsPart decimals unit bytes.now) result }
    ensures of_text { IfErr result IsOfPartText }
    ensures no_read { IsErrOf result (Fault.ReadFault Input.Part) → ⊥ }
    ensures some_triangle { IfOk result (λ soup. 0 < length (part_of soup).triangles) }
    ensures few_corners { IfOk result (λ soup. length (part_of soup).corners ≤ 60000) }
    ensures few_triangles { IfOk result (λ soup. length (part_of soup).triangles ≤ 20000) }
{
    let raw = match read_part(alloc, bytes, decimals, unit) {
        Ok(raw) => raw,
        Err(PartError::Part(fault)) => return Err(Fault::Part(fault)),
        Err(PartError::Memory(_)) => return Err(Fault::Memory),
    };
    match raw.weld(alloc) {
        Ok(soup) => Ok(soup),
        Err(WeldError::Nothing) => Err(Fault::Nothing),
        Err(WeldError::Memory(_)) => Err(Fault::Memory),
    }
}
