// What helps with a fault of a part's text.
ghost use Rattle.std.specs.Prelude.{◌≡◌, ◌≤◌, length, IfOk};
ghost use Rattle.part_lines.specs.Hints.{IsLargeHint, IsPartHint, binary_hint, number_hint, many_hint};

use crate::coordinate::{coordinate, large_token};
use crate::counts::{count_facets, head_hint};
use crate::first::{begins_off, first_word, is_off, is_packed};
use dec_text::{Length, Name};
use exact_frac::OutOfMemory;
use part_input::is_stl;
use part_text::bytes_of;
use std::alloc::Global;
use weld::{PartFault, PartKind};

/// What is said of a fault of a part's text beside the fault itself.
#[derive(Debug, Drop)]
pub enum PartHint {
    Nothing,
    /// The text begins as neither an OFF nor an STL does, or it is packed.
    Neither,
    /// It is binary, as an STL can be.
    BinaryStl,
    /// The head of the OFF says so many vertices, which are too many.
    Vertices(u64),
    /// It says so many faces.
    Faces(u64),
    /// The STL has so many words `facet`.
    Facets(u64),
    /// A coordinate is too large: as it is written, with how many decimals it was read, and the greatest number of decimals
    /// at which it isn't too large, if there is one.
    Coordinate(Name, u8, Option<u8>),
}

/// What helps with a text that isn't plain.
fn binary_hint(text: &[u8]) -> PartHint
    requires { length text.now ≤ 16777216 }
    ensures { result ≡ binary_hint text.now }
{
    if is_packed(text) {
        return PartHint::Neither;
    }
    if is_off(first_word(text)) {
        PartHint::Nothing
    } else {
        PartHint::BinaryStl
    }
}

/// What helps if a number is wanted, and none is there.
fn number_hint(text: &[u8]) -> PartHint
    requires { length text.now ≤ 16777216 }
    ensures { result ≡ number_hint text.now }
{
    if is_stl(text) || begins_off(first_word(text)) {
        PartHint::Nothing
    } else {
        PartHint::Neither
    }
}

/// How much there is, if it is too much.
fn many_hint(text: &[u8]) -> PartHint
    requires { length text.now ≤ 16777216 }
    ensures { result ≡ many_hint text.now }
{
    if is_stl(text) {
        PartHint::Facets(count_facets(text))
    } else {
        head_hint(text)
    }
}

/// The coordinate on this line that is too large.
fn large_hint(
    alloc: Global,
    text: &[u8],
    line: u32,
    decimals: u8,
    unit: Length,
) -> Result<PartHint, OutOfMemory>
    requires few { decimals ≤ 6 }
    requires short { length text.now ≤ 16777216 }
    ensures { IfOk result (IsLargeHint text.now decimals unit line) }
{
    match large_token(text, line, decimals, unit) {
        Some(token) => coordinate(alloc, bytes_of(text, token), decimals, unit),
        None => Ok(PartHint::Nothing),
    }
}

/// What helps with a fault of this text, read with these decimals in this unit. The time goes with the text's length.
pub fn part_hint(
    alloc: Global,
    text: &[u8],
    fault: &PartFault,
    decimals: u8,
    unit: Length,
) -> Result<PartHint, OutOfMemory>
    requires few { decimals ≤ 6 }
    requires short { length text.now ≤ 16777216 }
    ensures { IfOk result (IsPartHint text.now fault.now decimals unit) }
{
    match fault.kind {
        PartKind::Binary => Ok(binary_hint(text)),
        PartKind::BadNumber => Ok(number_hint(text)),
        PartKind::TooMany => Ok(many_hint(text)),
        PartKind::TooLarge => large_hint(alloc, text, fault.line, decimals, unit),
        _ => Ok(PartHint::Nothing),
    }
}
