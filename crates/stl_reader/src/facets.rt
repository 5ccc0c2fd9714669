// Facets: three corners each, with the words around them.
ghost use Rattle.std.specs.Prelude.{◌≡◌, ℕ, ◌<◌, ◌≤◌, length, map, IfOk};
ghost use Rattle.lattice.specs.Points.{of_corner};
ghost use Rattle.part_text.specs.Made.{made, IsMade};
ghost use Rattle.stl_reader.specs.Stl.{Numbers, Corner as CornerStep, Opening, Corners, Closing, Facet as FacetStep, Facets};
ghost use Rattle.stl_reader.specs.inner.Views.{of_facet};

use crate::keywords::{another_solid, read_facet_or_end, read_keyword};
use dec_text::Length;
use lattice::Corner;
use lex_lines::Tokens;
use part_text::{fault, next_token, read_vertex};
use std::alloc::Global;
use weld::{PartError, PartFault, PartKind, Want, Word};

/// A facet, by its corners, in order around it.
#[derive(Clone, Copy)]
pub(crate) struct Facet {
    pub a: Corner,
    pub b: Corner,
    pub c: Corner,
}

/// Passes over a normal, whatever it says.
fn skip_numbers(tokens: &mut Tokens<'_>) -> Result<(), PartFault>
    ensures step { Numbers tokens.old.text tokens.old.left (made (λ _. tt) result tokens.new.left) }
    ensures text { tokens.new.text ≡ tokens.old.text }
{
    next_token(tokens, Want::Normal)?;
    next_token(tokens, Want::Normal)?;
    next_token(tokens, Want::Normal)?;
    Ok(())
}

/// Reads what stands before the corners, behind the word `facet`.
fn read_opening(bytes: &[u8], tokens: &mut Tokens<'_>) -> Result<(), PartFault>
    requires same { tokens.old.text ≡ bytes.now }
    ensures step { Opening bytes.now tokens.old.left (made (λ _. tt) result tokens.new.left) }
    ensures text { tokens.new.text ≡ tokens.old.text }
{
    read_keyword(bytes, tokens, Word::Normal)?;
    skip_numbers(tokens)?;
    read_keyword(bytes, tokens, Word::Outer)?;
    read_keyword(bytes, tokens, Word::Loop)?;
    Ok(())
}

/// Reads a corner.
fn read_corner(
    bytes: &[u8],
    tokens: &mut Tokens<'_>,
    decimals: u8,
    unit: Length,
) -> Result<Corner, PartFault>
    requires same { tokens.old.text ≡ bytes.now }
    requires few { decimals ≤ 6 }
    requires short { length bytes.now ≤ 16777216 }
    ensures step { CornerStep decimals unit bytes.now tokens.old.left (made of_corner result tokens.new.left) }
    ensures text { tokens.new.text ≡ tokens.old.text }
{
    read_keyword(bytes, tokens, Word::Vertex)?;
    read_vertex(bytes, tokens, decimals, unit)
}

/// Reads the three corners.
fn read_corners(
    bytes: &[u8],
    tokens: &mut Tokens<'_>,
    decimals: u8,
    unit: Length,
) -> Result<Facet, PartFault>
    requires same { tokens.old.text ≡ bytes.now }
    requires few { decimals ≤ 6 }
    requires short { length bytes.now ≤ 16777216 }
    ensures step { Corners decimals unit bytes.now tokens.old.left (made of_facet result tokens.new.left) }
    ensures text { tokens.new.text ≡ tokens.old.text }
{
    let a = read_corner(bytes, tokens, decimals, unit)?;
    let b = read_corner(bytes, tokens, decimals, unit)?;
    let c = read_corner(bytes, tokens, decimals, unit)?;
    Ok(Facet { a, b, c })
}

/// Reads what stands behind the corners.
fn read_closing(bytes: &[u8], tokens: &mut Tokens<'_>) -> Result<(), PartFault>
    requires same { tokens.old.text ≡ bytes.now }
    ensures step { Closing bytes.now tokens.old.left (made (λ _. tt) result tokens.new.left) }
    ensures text { tokens.new.text ≡ tokens.old.text }
{
    read_keyword(bytes, tokens, Word::Endloop)?;
    read_keyword(bytes, tokens, Word::Endfacet)?;
    Ok(())
}

/// Reads the facet whose first word is on this line, where there are so many before.
fn read_facet(
    bytes: &[u8],
    tokens: &mut Tokens<'_>,
    decimals: u8,
    unit: Length,
    before: usize,
    line: u32,
) -> Result<Facet, PartFault>
    requires same { tokens.old.text ≡ bytes.now }
    requires few { decimals ≤ 6 }
    requires short { length bytes.now ≤ 16777216 }
    ensures step { FacetStep decimals unit bytes.now before line tokens.old.left (made of_facet result tokens.new.left) }
    ensures text { tokens.new.text ≡ tokens.old.text }
    ensures room { IfOk result (λ _. before < 20000) }
{
    if before >= 20000 {
        return Err(fault(line, PartKind::TooMany));
    }
    read_opening(bytes, tokens)?;
    let facet = read_corners(bytes, tokens, decimals, unit)?;
    read_closing(bytes, tokens)?;
    Ok(facet)
}

/// Reads the facets from where `facet` or `endsolid` may stand up to the text's end.
pub(crate) fn read_facets(
    alloc: Global,
    bytes: &[u8],
    tokens: &mut Tokens<'_>,
    decimals: u8,
    unit: Length,
) -> Result<Vec<Facet>, PartError>
    requires same { tokens.old.text ≡ bytes.now }
    requires few { decimals ≤ 6 }
    requires short { length bytes.now ≤ 16777216 }
    ensures step { IsMade (λ v. map of_facet v.items) (λ r. (turns : ℕ) × Facets decimals unit bytes.now turns 0 tokens.old.left r) result tokens.new.left }
    ensures most { IfOk result (λ v. length v.items ≤ 20000) }
{
    let mut facets = Vec::new(alloc);
    loop {
        let follows = match read_facet_or_end(bytes, tokens) {
            Ok(follows) => follows,
            Err(fault) => return Err(PartError::Part(fault)),
        };
        if follows.facet {
            match read_facet(bytes, tokens, decimals, unit, facets.len(), follows.line) {
                Ok(facet) => facets.push(facet)?,
                Err(fault) => return Err(PartError::Part(fault)),
            }
        } else {
            tokens.skip_line();
            match another_solid(bytes, tokens) {
                Ok(true) => {}
                Ok(false) => return Ok(facets),
                Err(fault) => return Err(PartError::Part(fault)),
            }
        }
    }
}
